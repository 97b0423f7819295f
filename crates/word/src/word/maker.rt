// Asks whether a word can be judged, and makes its arena.
ghost use Rattle.std.specs.Prelude.{◌≡◌, Ok};
ghost use Rattle.draft.specs.Meaning.{meaning as automaton};
ghost use Rattle.word.specs.Asking.{asked};

use super::WordArena;
use crate::letters::Word;
use arena::Grid;
use draft::Start;
use refusal::Refusal;

// The questions of accept but for the room: the draft is complete, the state exists, the period has a letter and both pieces
// together at most 64, and each letter exists.
pub fn ask(start: Start<'_>, word: Word<'_>) -> Result<(), Refusal>
    ensures { result ≡ asked (automaton start.entry.draft.now) start.entry.state word.entry.prefix.now word.entry.period.now }
{
    if !start.draft.complete() {
        return Err(Refusal::Incomplete);
    }
    if start.state >= start.draft.state_count() {
        return Err(Refusal::NoState);
    }
    if word.period.is_empty() || word.steps() > 64 {
        return Err(Refusal::Word);
    }
    if !word.known(start.draft.letters()) {
        return Err(Refusal::NoLetter);
    }
    Ok(())
}

// The arena of a word that was asked about.
pub fn make<'a>(start: Start<'a>, word: Word<'a>) -> WordArena<'a>
    requires { asked (automaton start.draft.now) start.state word.prefix.now word.period.now ≡ Ok tt }
    ensures { (automaton result.draft.now ≡ automaton start.entry.draft.now) × ((result.word.prefix.now ≡ word.entry.prefix.now) × (result.word.period.now ≡ word.entry.period.now)) }
{
    let draft = start.draft;
    let rows = word.steps() as u8;
    let states = draft.state_count() as u8;
    let nodes = draft.node_count() as u8;
    WordArena {
        draft,
        word,
        states: Grid {
            rows,
            columns: states,
        },
        nodes: Grid {
            rows,
            columns: nodes,
        },
    }
}
