// Two nodes side by side: who is to move, and which of the two moves.
ghost use Rattle.std.specs.Prelude.{◌≡◌, ◌≤◌};
ghost use Rattle.inclusion.specs.PairGame.{is_either, is_both, one_moves, first_moves, second_moves, pair_owner, pair_degree, pair_priority, part};

use draft::Node;
use parity::Player;

fn is_either(node: Node) -> bool
    ensures { result ≡ is_either node }
{
    matches!(node, Node::Either(..))
}

fn is_both(node: Node) -> bool
    ensures { result ≡ is_both node }
{
    matches!(node, Node::Both(..))
}

// A node of the first draft, and one of the second.
#[derive(Clone, Copy)]
pub(crate) struct Sides {
    pub(crate) first: Node,
    pub(crate) second: Node,
}

impl Sides {
    // Player 1 moves in the first draft at either, and in the second at both.
    fn one_moves(self) -> bool
        ensures { result ≡ one_moves self.first self.second }
    {
        is_either(self.first) || is_both(self.second)
    }

    // Whether the first draft's node moves.
    pub(crate) fn first_moves(self) -> bool
        ensures { result ≡ first_moves self.first self.second }
    {
        if self.one_moves() {
            is_either(self.first)
        } else {
            is_both(self.first)
        }
    }

    // Whether the second draft's node moves. What either is to the first draft, both is to the second.
    pub(crate) fn second_moves(self) -> bool
        ensures { result ≡ second_moves self.first self.second }
    {
        if self.one_moves() {
            is_both(self.second)
        } else {
            is_either(self.second)
        }
    }

    pub(crate) fn owner(self) -> Player
        ensures { result ≡ pair_owner self.first self.second }
    {
        if self.one_moves() {
            Player::One
        } else {
            Player::Zero
        }
    }

    // Two moves for each node that moves; two leaves have one.
    pub(crate) fn degree(self) -> usize
        ensures { result ≡ pair_degree self.first self.second }
    {
        match (self.first_moves(), self.second_moves()) {
            (true, true) => 4,
            (false, false) => 1,
            _ => 2,
        }
    }
}

// The state of a leaf, or the child at a position.
pub(crate) fn part(node: Node, i: usize) -> u8
    ensures { result ≡ part node i }
{
    match node {
        Node::Leaf(state) => state,
        Node::Either(left, right) | Node::Both(left, right) => if i == 0 { left } else { right },
    }
}

// The priority of a pair of states: even where the first is odd or the second even.
pub(crate) fn priority_of(p: u16, q: u16) -> u16
    requires { (p ≤ 999) × (q ≤ 999) }
    ensures { result ≡ pair_priority p q }
{
    let sum = 2 * (p + q);
    if p % 2 == 1 || q % 2 == 0 {
        sum
    } else {
        sum + 1
    }
}
