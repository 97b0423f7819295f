// An arena with the records that its vertices get.
ghost use Rattle.std.specs.Prelude.{◌≤◌, length};

use crate::outcome::Outcome;
use arena::Arena;

// What a method leaves as it was stands on each that writes: a ghost field speaks of one moment, not of before and after.
#[derive(Drop)]
pub(crate) struct Table<'a, X: Arena> {
    pub(crate) arena: &'a X,
    pub(crate) records: &'a mut [Outcome],
    // each vertex has a record
    ghost room: { (X.meaning arena.now).count ≤ length records.now },
}
