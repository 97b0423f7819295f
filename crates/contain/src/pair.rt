// The arena of two drafts: pairs of their states and pairs of their nodes, a view of both, without a copy.
ghost use Rattle.std.specs.Prelude.{◌≡◌, ◌+◌, ◌*◌, ◌<◌, ◌≤◌, true};
ghost use Rattle.draft.specs.Automaton.{state_count, node_count, is_complete};
ghost use Rattle.draft.specs.Meaning.{meaning as automaton};

use arena::Grid;
use draft::Draft;

mod answers;
mod maker;
mod moves;

// Two complete drafts with the same letters and with states; the sizes are kept to answer fast. Of both grids the first draft
// gives the rows and the second the columns; the pairs of states are numbered before those of nodes.
#[derive(Clone, Copy)]
pub struct PairArena<'a> {
    first: &'a Draft,
    second: &'a Draft,
    states: Grid,
    nodes: Grid,
    ghost first_states: { states.rows ≡ state_count (automaton first.now) },
    ghost second_states: { states.columns ≡ state_count (automaton second.now) },
    ghost first_nodes: { nodes.rows ≡ node_count (automaton first.now) },
    ghost second_nodes: { nodes.columns ≡ node_count (automaton second.now) },
    ghost few: { states.rows * states.columns + nodes.rows * nodes.columns ≤ 17408 },
    ghost some_first: { 0 < state_count (automaton first.now) },
    ghost some_second: { 0 < state_count (automaton second.now) },
    ghost first_complete: { is_complete (automaton first.now) ≡ true },
    ghost second_complete: { is_complete (automaton second.now) ≡ true },
    ghost same_letters: { (automaton first.now).letters ≡ (automaton second.now).letters },
}

// As many vertices as the arena of two drafts can have: pairs of 32 states, and of 128 nodes.
pub const MOST_VERTICES: usize = 32 * 32 + 128 * 128;

pub use maker::{ask, make};
