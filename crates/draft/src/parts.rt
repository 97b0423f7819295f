// The parts of a draft: formula nodes and states.
ghost use Rattle.std.specs.Prelude.{◌≡◌};
ghost use Rattle.draft.specs.Calls.{dual};

// A node of a positive Boolean formula over states. Nodes name one another by number, as the records of a file do.
#[derive(Clone, Copy, PartialEq, Eq, Debug)]
pub enum Node {
    // the state of this number
    Leaf(u8),
    // the left node or the right node
    Either(u8, u8),
    // the left node and the right node
    Both(u8, u8),
}

impl Node {
    // The node with either and both exchanged.
    pub(crate) fn dual(self) -> Node
        ensures { result ≡ dual self }
    {
        match self {
            Node::Leaf(state) => Node::Leaf(state),
            Node::Either(left, right) => Node::Both(left, right),
            Node::Both(left, right) => Node::Either(left, right),
        }
    }
}

// A state: its priority, and for each letter the node of its rule. There is a place for each of 16 letters, whatever letters the
// draft has, so that a state is of one size.
#[derive(Clone, Copy, PartialEq, Eq, Debug)]
pub struct State {
    pub priority: u16,
    pub rules: [Option<u8>; 16],
}
