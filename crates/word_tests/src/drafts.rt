// Drafts for the tests.
use draft::Draft;
use std::alloc::Global;
use std::test::Fail;
use test_data::{MAILBOX, loaded};

// State 0 has priority 1 and leads to state 1, which has priority 2 and leads to itself.
const ONCE: [[u8; 8]; 6] = [
    [1, 0, 1, 0, 0, 0, 0, 0],
    [1, 0, 2, 0, 0, 0, 0, 0],
    [2, 0, 1, 0, 0, 0, 0, 0],
    [5, 0, 0, 0, 0, 0, 0, 0],
    [5, 0, 1, 0, 0, 0, 0, 0],
    [6, 0, 1, 0, 2, 0, 0, 0],
];

pub(crate) fn once(heap: Global) -> Result<Draft, Fail> {
    loaded(heap, 1, &ONCE)
}

// The mailbox drawing read with three letters, so that rules are missing.
pub(crate) fn incomplete(heap: Global) -> Result<Draft, Fail> {
    loaded(heap, 3, &MAILBOX)
}
