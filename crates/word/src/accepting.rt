// Whether a draft accepts a repeating word.
ghost use Rattle.std.specs.Prelude.{◌≡◌};
ghost use Rattle.draft.specs.Meaning.{meaning as automaton};
ghost use Rattle.runs.specs.Word.{letter};
ghost use Rattle.word.specs.Answer.{accept_answer, Judged};
ghost use Rattle.word.specs.TurnOpposes.{TurnOpposes};

use crate::letters::Word;
use crate::verdict::Verdict;
use crate::word::{ask, make};
use draft::Start;
use game::{Outcome, solve};
use refusal::Refusal;

// Accepted exactly when the draft has an accepting run on the word from the state: when player 0 wins the state at step 0 of the
// word arena. The records are left as solve writes them. The draft's start and the word stay two arguments wherever they travel: a
// value of both would only be taken apart again.
pub fn accept<'a>(start: Start<'a>, word: Word<'a>, out: &mut [Outcome]) -> Result<Verdict, Refusal>
    ensures answer { (result, out.new) ≡ accept_answer (automaton start.entry.draft.now) start.entry.state word.entry.prefix.now word.entry.period.now out.old }
    ensures judged { Judged result (automaton start.entry.draft.now) (letter word.entry.prefix.now word.entry.period.now) start.entry.state }
    ensures turned { TurnOpposes }
{
    ask(start, word)?;
    let arena = make(start, word);
    solve(&arena, out)?;
    Ok(Verdict::from(out[start.state].winner))
}
