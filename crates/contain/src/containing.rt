// Whether one draft is contained in another.
ghost use Rattle.std.specs.Prelude.{◌≡◌};
ghost use Rattle.draft.specs.Meaning.{meaning as automaton};
ghost use Rattle.contain.specs.Containing.{contain_answer, Planned, YesIsSafe};
ghost use Rattle.contain.specs.ExchangeOfAnswers.{ExchangeOfAnswers};

use crate::fault::{ContainFault, Containment};
use crate::pair::{ask, make};
use draft::Start;
use game::{Outcome, solve};

// Contained where player 0 wins the pair of initial states: then the second draft accepts every repeating word that the first
// accepts. The records are left as solve writes them. The two sides stay two arguments wherever they travel: a value of both would
// only be taken apart again.
pub fn contain<'a>(
    first: Start<'a>,
    second: Start<'a>,
    out: &mut [Outcome],
) -> Result<Containment, ContainFault>
    ensures answer { (result, out.new) ≡ contain_answer (automaton first.entry.draft.now) first.entry.state (automaton second.entry.draft.now) second.entry.state out.old }
    ensures planned { Planned result (automaton first.entry.draft.now) first.entry.state (automaton second.entry.draft.now) second.entry.state }
    ensures safe { YesIsSafe result (automaton first.entry.draft.now) first.entry.state (automaton second.entry.draft.now) second.entry.state }
    ensures exchanged { ExchangeOfAnswers }
{
    ask(first, second)?;
    let arena = make(first, second);
    solve(&arena, out)?;
    let asked = first.state * second.draft.state_count() + second.state;
    Ok(Containment::from(out[asked].winner))
}
