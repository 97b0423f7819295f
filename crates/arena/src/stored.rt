// A stored arena over lent bytes: 8-byte records, one a vertex.
ghost use Rattle.std.specs.Prelude.{◌≡◌, ◌/◌, Ok, length};
ghost use Rattle.arena.specs.Stored.{asked};

use refusal::Refusal;

mod answers;
mod maker;
mod record;

// The arena of the records in `bytes`, about which every question was answered yes.
#[derive(Clone, Copy)]
pub struct Stored<'a> {
    bytes: &'a [u8],
    ghost passed: { asked bytes.now ≡ Ok (length bytes.now / 8) },
}

// What a vertex of a stored arena stands for.
#[derive(Clone, Copy, PartialEq, Debug)]
pub struct RecordNumber {
    pub number: usize,
}

// Why bytes are no stored arena, and at which record, if the question was about one.
#[derive(Clone, Copy, PartialEq, Debug)]
pub struct StoredFault {
    pub refusal: Refusal,
    pub place: Option<usize>,
}

pub use maker::{ask, make};
