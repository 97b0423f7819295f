// The nodes of a draft.
ghost use Rattle.std.specs.Prelude.{◌≡◌};
ghost use Rattle.draft.specs.Automaton.{state_count, node_count, node_of};
ghost use Rattle.draft.specs.Calls.{add_node, add_leaf, add_either, add_both};
ghost use Rattle.draft.specs.Meaning.{meaning};
ghost use Rattle.draft.specs.WellFormed.{Fits};

use super::Draft;
use crate::parts::Node;
use refusal::Refusal;

impl Draft {
    // Adds the leaf of a state, and answers its number.
    pub fn leaf(&mut self, state: u16) -> Result<u8, Refusal>
        ensures { (result, meaning self.new) ≡ add_leaf (meaning self.old) state }
    {
        let state = self.known_state(state)?;
        self.add(Node::Leaf(state))
    }

    // Adds the "or" of two nodes, and answers its number.
    pub fn either(&mut self, left: u16, right: u16) -> Result<u8, Refusal>
        ensures { (result, meaning self.new) ≡ add_either (meaning self.old) left right }
    {
        let (left, right) = self.known_nodes(left, right)?;
        self.add(Node::Either(left, right))
    }

    // Adds the "and" of two nodes, and answers its number. It and `either` are calls of their own in files and histories; what
    // they share is in `known_nodes` and `add`.
    pub fn both(&mut self, left: u16, right: u16) -> Result<u8, Refusal>
        ensures { (result, meaning self.new) ≡ add_both (meaning self.old) left right }
    {
        let (left, right) = self.known_nodes(left, right)?;
        self.add(Node::Both(left, right))
    }

    // The node of a number, or the leaf of state 0 where there is no such node, as the definition has it.
    pub fn node_at(&self, node: usize) -> Node
        ensures { result ≡ node_of (meaning self.now) node }
    {
        self.nodes.get(node).copied().unwrap_or(Node::Leaf(0))
    }

    // Adds a node, whose parts exist, and answers its number.
    fn add(&mut self, node: Node) -> Result<u8, Refusal>
        requires { Fits (state_count (meaning self.old)) (node_count (meaning self.old)) node }
        ensures { (result, meaning self.new) ≡ add_node (meaning self.old) node }
    {
        let count = self.nodes.len();
        if count >= 128 {
            return Err(Refusal::Nodes);
        }
        self.nodes.push_reserved(node);
        Ok(count as u8)
    }
}
