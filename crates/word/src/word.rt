// The word arena of a draft and a repeating word: a view of both, without a copy.
ghost use Rattle.std.specs.Prelude.{◌≡◌, ◌<◌, ◌≤◌, true, ◌&&◌, length};
ghost use Rattle.draft.specs.Automaton.{state_count, node_count, is_complete};
ghost use Rattle.draft.specs.Meaning.{meaning as automaton};
ghost use Rattle.runs.specs.WordGame.{steps};
ghost use Rattle.word.specs.Asking.{letters_known};

use crate::letters::Word;
use arena::Grid;
use draft::Draft;

mod answers;
mod maker;

// The states and the nodes at each step of the prefix and of one period: a row for each step, and after the states the nodes.
#[derive(Clone, Copy)]
pub struct WordArena<'a> {
    draft: &'a Draft,
    word: Word<'a>,
    states: Grid,
    nodes: Grid,
    ghost state_rows: { states.rows ≡ steps word.prefix.now word.period.now },
    ghost state_columns: { states.columns ≡ state_count (automaton draft.now) },
    ghost node_rows: { nodes.rows ≡ steps word.prefix.now word.period.now },
    ghost node_columns: { nodes.columns ≡ node_count (automaton draft.now) },
    ghost complete: { is_complete (automaton draft.now) ≡ true },
    ghost some_state: { 0 < state_count (automaton draft.now) },
    ghost some_period: { 0 < length word.period.now },
    ghost short: { steps word.prefix.now word.period.now ≤ 64 },
    ghost known: { (letters_known (automaton draft.now).letters word.prefix.now && letters_known (automaton draft.now).letters word.period.now) ≡ true },
}

// As many vertices as the arena of a word can have: at each of 64 letters 32 states and 128 nodes.
pub const MOST_VERTICES: usize = 64 * (32 + 128);

pub use maker::{ask, make};
