// What a vertex of a word game stands for.
use std::fmt;

// A step, and the state or the formula node at it.
#[derive(Clone, Copy, PartialEq, Debug)]
pub enum WordPlace {
    AtState(u8, u8),
    AtNode(u8, u8),
}

impl fmt::Display for WordPlace {
    fn fmt<W: fmt::Write>(&self, f: &mut fmt::Formatter<W>) -> fmt::Result {
        match *self {
            WordPlace::AtState(step, state) => write!(f, "step {step} s{state}"),
            WordPlace::AtNode(step, node) => write!(f, "step {step} n{node}"),
        }
    }
}
