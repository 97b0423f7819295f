// An arena of a buyer's own: stations in a ring hand a token on. It uses the trait and the solver alone.
#![tactic(auto)]

mod ring;

ghost use Rattle.std.specs.Prelude.{◌≡◌};
ghost use Rattle.game.specs.Outcomes.{solved};
ghost use Rattle.ring_example.specs.Ring.{ring_game};

use game::{Outcome, solve};
use refusal::Refusal;
pub use ring::{Ring, Station};

// Who wins at each station.
pub fn solve_ring(ring: &Ring, out: &mut [Outcome]) -> Result<(), Refusal>
    ensures { (result, out.new) ≡ solved (ring_game ring.now.stations) out.old }
{
    solve(ring, out)
}
