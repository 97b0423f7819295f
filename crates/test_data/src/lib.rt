// What more than one crate of tests uses: drafts, and records with something in them.
#![tactic(auto)]

ghost use Rattle.std.specs.Prelude.{◌≡◌, Ok, IfOk};
ghost use Rattle.std.specs.List.{flat_map};
ghost use Rattle.draft.specs.Automaton.{empty};
ghost use Rattle.draft.specs.Load.{load_file};
ghost use Rattle.draft.specs.Meaning.{meaning};

use draft::{Draft, load};
use game::Outcome;
use parity::Player;
use std::alloc::Global;
use std::test::Fail;

// A record that no call writes, so that a test sees whether one was left as it was.
pub const OLD: Outcome = Outcome {
    winner: Player::One,
    grade: 77,
    distance: 77,
    choice: 7,
};

// Letters post 0 and take 1; states 0, 1, 2 with priorities 2, 2, 1; post leads them to 1, 2, 2, and take to 2, 0, 2.
pub const MAILBOX: [[u8; 8]; 12] = [
    [1, 0, 2, 0, 0, 0, 0, 0],
    [1, 0, 2, 0, 0, 0, 0, 0],
    [1, 0, 1, 0, 0, 0, 0, 0],
    [2, 0, 0, 0, 0, 0, 0, 0],
    [2, 0, 1, 0, 0, 0, 0, 0],
    [2, 0, 2, 0, 0, 0, 0, 0],
    [5, 0, 0, 0, 1, 0, 0, 0],
    [5, 0, 1, 0, 2, 0, 0, 0],
    [5, 0, 2, 0, 2, 0, 0, 0],
    [5, 1, 0, 0, 2, 0, 0, 0],
    [5, 1, 1, 0, 0, 0, 0, 0],
    [5, 1, 2, 0, 2, 0, 0, 0],
];

// The draft of a file with these records.
pub fn loaded(heap: Global, letters: u32, records: &[[u8; 8]]) -> Result<Draft, Fail>
    ensures { IfOk result (λ d. load_file (empty 1) letters (flat_map (λ x. x) records.now) ≡ (Ok tt, meaning d)) }
{
    let mut draft = Draft::new(heap)?;
    load(&mut draft, letters, records.as_flattened())?;
    Ok(draft)
}

// The mailbox, with its two letters.
pub fn mailbox(heap: Global) -> Result<Draft, Fail>
    ensures { IfOk result (λ d. load_file (empty 1) 2 (flat_map (λ x. x) MAILBOX) ≡ (Ok tt, meaning d)) }
{
    loaded(heap, 2, &MAILBOX)
}
