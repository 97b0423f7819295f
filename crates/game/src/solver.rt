// Solves any arena.
ghost use Rattle.std.specs.Prelude.{◌≡◌, ◌≤◌, length};
ghost use Rattle.parity.specs.Determinacy.{Determined};
ghost use Rattle.game.specs.Outcomes.{solved, Reported};

use crate::outcome::Outcome;
use crate::table::Table;
use arena::Arena;
use refusal::Refusal;

// Writes one record a vertex, or refuses where there are fewer records than vertices.
pub fn solve<X: Arena>(arena: &X, out: &mut [Outcome]) -> Result<(), Refusal>
    ensures solved { (result, out.new) ≡ solved (X.meaning arena.now) out.old }
    ensures reported { (X.meaning arena.now).count ≤ length out.old → Reported (X.meaning arena.now) out.new }
    ensures determined { Determined (X.meaning arena.now) }
{
    if out.len() < arena.count() {
        return Err(Refusal::Room);
    }
    let mut table = Table {
        arena,
        records: out,
    };
    table.rank();
    table.finish();
    Ok(())
}
