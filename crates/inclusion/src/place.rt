// What a vertex of a pair game stands for.
use std::fmt;

// A state or a formula node of the first automaton, and one of the second.
#[derive(Clone, Copy, PartialEq, Debug)]
pub enum PairPlace {
    AtStates(u8, u8),
    AtNodes(u8, u8),
}

impl fmt::Display for PairPlace {
    fn fmt<W: fmt::Write>(&self, f: &mut fmt::Formatter<W>) -> fmt::Result {
        match *self {
            PairPlace::AtStates(p, q) => write!(f, "s{p} and s{q}"),
            PairPlace::AtNodes(x, y) => write!(f, "n{x} and n{y}"),
        }
    }
}
