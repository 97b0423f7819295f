// The sizes of a draft, and its lists.
ghost use Rattle.std.specs.Prelude.{◌≡◌};
ghost use Rattle.draft.specs.Automaton.{state_count, node_count};
ghost use Rattle.draft.specs.Meaning.{meaning};

use super::Draft;
use crate::parts::{Node, State};

impl Draft {
    // The number of letters.
    pub fn letters(&self) -> u8
        ensures { result ≡ (meaning self.now).letters }
    {
        self.letters
    }

    // The number of states.
    pub fn state_count(&self) -> usize
        ensures { result ≡ state_count (meaning self.now) }
    {
        self.states.len()
    }

    // The number of nodes.
    pub fn node_count(&self) -> usize
        ensures { result ≡ node_count (meaning self.now) }
    {
        self.nodes.len()
    }

    // The states, by number.
    pub fn states(&self) -> &[State]
        ensures { result.now ≡ (meaning self.now).states }
    {
        &self.states
    }

    // The nodes, by number.
    pub fn nodes(&self) -> &[Node]
        ensures { result.now ≡ (meaning self.now).nodes }
    {
        &self.nodes
    }
}
