// Where an automaton starts.
use crate::draft::Draft;

// A draft with its initial state, by number; whether the state exists is asked by the calls that take it.
#[derive(Clone, Copy)]
pub struct Start<'a> {
    pub draft: &'a Draft,
    pub state: usize,
}
