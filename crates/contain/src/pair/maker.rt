// Asks whether two drafts can be compared, and makes their arena.
ghost use Rattle.std.specs.Prelude.{◌≡◌, cond, Ok, Err};
ghost use Rattle.draft.specs.Meaning.{meaning as automaton};
ghost use Rattle.contain.specs.Answers.{of_draft};
ghost use Rattle.contain.specs.Asking.{asked};

use super::PairArena;
use crate::fault::{ContainFault, Which};
use crate::strata::stratified;
use arena::Grid;
use draft::Start;
use refusal::Refusal;

// The questions of contain but for the room: both drafts are complete, they have as many letters, both states exist, and both
// drafts are stratified.
pub fn ask(first: Start<'_>, second: Start<'_>) -> Result<(), ContainFault>
    ensures { result ≡ asked (automaton first.entry.draft.now) first.entry.state (automaton second.entry.draft.now) second.entry.state }
{
    use Refusal::{Alphabets, Incomplete, NoState, NotStratified};
    use Which::{First, Second};
    let (a, b) = (first.draft, second.draft);
    require(a.complete(), of(First, Incomplete))?;
    require(b.complete(), of(Second, Incomplete))?;
    require(a.letters() == b.letters(), ContainFault::from(Alphabets))?;
    require(first.state < a.state_count(), of(First, NoState))?;
    require(second.state < b.state_count(), of(Second, NoState))?;
    require(stratified(a), of(First, NotStratified))?;
    require(stratified(b), of(Second, NotStratified))
}

// The fault, unless the answer to its question is yes.
fn require(yes: bool, fault: ContainFault) -> Result<(), ContainFault>
    ensures { result ≡ cond yes (Ok tt) (Err fault) }
{
    if yes { Ok(()) } else { Err(fault) }
}

// A refusal of one draft; `From` of a refusal alone speaks of none.
fn of(which: Which, refusal: Refusal) -> ContainFault
    ensures { result ≡ of_draft which refusal }
{
    ContainFault {
        refusal,
        draft: Some(which),
    }
}

// The arena of two drafts that were asked about.
pub fn make<'a>(first: Start<'a>, second: Start<'a>) -> PairArena<'a>
    requires { asked (automaton first.draft.now) first.state (automaton second.draft.now) second.state ≡ Ok tt }
    ensures { (automaton result.first.now ≡ automaton first.entry.draft.now) × (automaton result.second.now ≡ automaton second.entry.draft.now) }
{
    let (first, second) = (first.draft, second.draft);
    PairArena {
        first,
        second,
        states: Grid {
            rows: first.state_count() as u8,
            columns: second.state_count() as u8,
        },
        nodes: Grid {
            rows: first.node_count() as u8,
            columns: second.node_count() as u8,
        },
    }
}
