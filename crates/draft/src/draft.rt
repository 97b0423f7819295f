// The draft, with what holds of it between calls.
ghost use Rattle.std.specs.Prelude.{◌≤◌, length, vec_len, vec_capacity};
ghost use Rattle.draft.specs.WellFormed.{Low, Full, Lettered, Named, LeavesKnown, ChildrenBefore};

use crate::parts::{Node, State};

mod begins;
pub(crate) mod letters;
mod nodes;
mod numbers;
mod priorities;
mod rules;
mod sizes;
mod writing;

// An automaton under construction. The room for all states and nodes is reserved when the draft is made, so
// that no later call can want memory. Files and calls name states and nodes by number, and nodes are shared, so
// they stand in lists. What contracts see of a draft is a function of its fields (specs/Meaning): a model would hide from the crates above
// what every draft keeps.
#[derive(Drop)]
pub struct Draft {
    letters: u8,
    states: Vec<State>,
    nodes: Vec<Node>,
    ghost some_letters: { 1 ≤ letters },
    ghost few_letters: { letters ≤ 16 },
    ghost few_states: { vec_len states ≤ 32 },
    ghost room_states: { 32 ≤ vec_capacity states },
    ghost few_nodes: { vec_len nodes ≤ 128 },
    ghost room_nodes: { 128 ≤ vec_capacity nodes },
    ghost low: { Low states.items },
    ghost full: { Full states.items },
    ghost lettered: { Lettered letters states.items },
    ghost named: { Named (length nodes.items) states.items },
    ghost leaves: { LeavesKnown (length states.items) nodes.items },
    ghost children: { ChildrenBefore nodes.items },
}
