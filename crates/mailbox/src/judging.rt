// The judgement whether one draft is contained in another.
ghost use Rattle.std.specs.Prelude.{◌≡◌};
ghost use Rattle.draft.specs.Meaning.{meaning as automaton};
ghost use Rattle.contain.specs.Containing.{contain_answer};
ghost use Rattle.mailbox.specs.Promise.{Promise};

use contain::{ContainFault, Containment, contain};
use draft::Start;
use game::Outcome;

// What contain answers and writes. The second clause is the whole promise: it holds of every two drafts, not of these alone.
pub fn judge<'a>(
    first: Start<'a>,
    second: Start<'a>,
    out: &mut [Outcome],
) -> Result<Containment, ContainFault>
    ensures answer { (result, out.new) ≡ contain_answer (automaton first.entry.draft.now) first.entry.state (automaton second.entry.draft.now) second.entry.state out.old }
    ensures promise { Promise }
{
    contain(first, second, out)
}
