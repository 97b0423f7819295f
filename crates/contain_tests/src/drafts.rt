// Drafts for the tests.
use draft::{Draft, Start};
use std::alloc::Global;
use std::test::Fail;
use test_data::loaded;

// States 0 and 1 with priorities 1 and 0; post leads both to 1, and take each to itself.
pub(crate) const RULE: [[u8; 8]; 8] = [
    [1, 0, 1, 0, 0, 0, 0, 0],
    [1, 0, 0, 0, 0, 0, 0, 0],
    [2, 0, 0, 0, 0, 0, 0, 0],
    [2, 0, 1, 0, 0, 0, 0, 0],
    [5, 0, 0, 0, 1, 0, 0, 0],
    [5, 0, 1, 0, 1, 0, 0, 0],
    [5, 1, 0, 0, 0, 0, 0, 0],
    [5, 1, 1, 0, 1, 0, 0, 0],
];

pub(crate) fn posted(heap: Global) -> Result<Draft, Fail> {
    loaded(heap, 2, &RULE)
}

// A draft with an initial state.
pub(crate) fn at(draft: &Draft, state: usize) -> Start<'_> {
    Start { draft, state }
}

// A state for each priority, which every letter leads to itself.
pub(crate) fn steady(heap: Global, letters: u8, priorities: &[u16]) -> Result<Draft, Fail> {
    let mut draft = Draft::new(heap)?;
    draft.begin(u32::from(letters))?;
    for priority in priorities {
        stay(&mut draft, letters, *priority)?;
    }
    Ok(draft)
}

fn stay(draft: &mut Draft, letters: u8, priority: u16) -> Result<(), Fail> {
    let state = u16::from(draft.state(priority)?);
    let leaf = u16::from(draft.leaf(state)?);
    for letter in 0..letters {
        draft.rule(state, letter, leaf)?;
    }
    Ok(())
}

// A state of priority 0 that leads to one of priority 1.
pub(crate) fn rising(heap: Global, letters: u8) -> Result<Draft, Fail> {
    let mut draft = steady(heap, letters, &[0, 1])?;
    draft.rule(0, 0, 1)?;
    Ok(draft)
}

// Without rules.
pub(crate) fn lacking(heap: Global) -> Result<Draft, Fail> {
    let mut draft = Draft::new(heap)?;
    draft.state(0)?;
    Ok(draft)
}

// One state and so many nodes.
pub(crate) fn noded(heap: Global, nodes: u8) -> Result<Draft, Fail> {
    let mut draft = steady(heap, 1, &[0])?;
    for _ in 1..nodes {
        draft.leaf(0)?;
    }
    Ok(draft)
}

// A formula of forty levels, each the both of the one before with itself.
pub(crate) fn deep(heap: Global, priority: u16) -> Result<Draft, Fail> {
    let mut draft = steady(heap, 1, &[7, priority])?;
    let mut node = 1;
    for _ in 0..40u8 {
        node = u16::from(draft.both(node, node)?);
    }
    draft.rule(0, 0, node)?;
    Ok(draft)
}
