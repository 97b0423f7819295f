// Numbers of states and of nodes, which fit a byte where there is such a state or node.
ghost use Rattle.std.specs.Prelude.{◌≡◌, ◌≤◌, cond, nat_lt, Ok, Err};
ghost use Rattle.refusal.specs.declared.Refusal.TheVariants.{NoState, NoNode};
ghost use Rattle.draft.specs.Automaton.{state_count, node_count};
ghost use Rattle.draft.specs.Calls.{are_nodes};
ghost use Rattle.draft.specs.Meaning.{meaning};

use super::Draft;
use refusal::Refusal;

// The number in a byte, if it is below the count.
fn known(number: u16, count: usize, refusal: Refusal) -> Result<u8, Refusal>
    requires { count ≤ 256 }
    ensures { result ≡ cond (nat_lt number count) (Ok number) (Err refusal) }
{
    if usize::from(number) < count {
        Ok(number as u8)
    } else {
        Err(refusal)
    }
}

impl Draft {
    // The number, if there is a state of this number.
    pub(super) fn known_state(&self, state: u16) -> Result<u8, Refusal>
        ensures { result ≡ cond (nat_lt state (state_count (meaning self.now))) (Ok state) (Err NoState) }
    {
        known(state, self.states.len(), Refusal::NoState)
    }

    // The number, if there is a node of this number.
    pub(super) fn known_node(&self, node: u16) -> Result<u8, Refusal>
        ensures { result ≡ cond (nat_lt node (node_count (meaning self.now))) (Ok node) (Err NoNode) }
    {
        known(node, self.nodes.len(), Refusal::NoNode)
    }

    // Both numbers, if there are nodes of these numbers.
    pub(super) fn known_nodes(&self, left: u16, right: u16) -> Result<(u8, u8), Refusal>
        ensures { result ≡ cond (are_nodes (meaning self.now) left right) (Ok (left, right)) (Err NoNode) }
    {
        Ok((self.known_node(left)?, self.known_node(right)?))
    }
}
