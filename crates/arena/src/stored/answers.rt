// The answers of a stored arena.
ghost use Rattle.std.specs.Prelude.{◌/◌, length};
ghost use Rattle.arena.specs.Stored.{stored_game, record_number};
ghost use Rattle.arena.specs.StoredBounds.{bounds_asked, stored_elsewhere};

use super::record::record_at;
use super::{RecordNumber, Stored};
use crate::Arena;
use parity::Player;

impl Arena for Stored<'_> {
    type Place = RecordNumber;

    ghost meaning = { λ s. stored_game s.bytes.now (length s.bytes.now / 8) };

    ghost places = { λ s v. record_number (length s.bytes.now / 8) v };

    ghost bounds = { λ s. bounds_asked s.bytes.now s.passed };

    ghost elsewhere = { λ s v h. stored_elsewhere (length s.bytes.now / 8) v h };

    fn count(&self) -> usize {
        self.bytes.len() / 8
    }

    fn even_side(&self) -> Player {
        Player::Zero
    }

    fn owner(&self, v: usize) -> Player {
        match record_at(self.bytes, v) {
            Some(record) if record.owner != 0 => Player::One,
            _ => Player::Zero,
        }
    }

    fn priority(&self, v: usize) -> u16 {
        record_at(self.bytes, v).map_or(0, |record| record.priority)
    }

    fn degree(&self, v: usize) -> usize {
        if v < self.count() { 2 } else { 0 }
    }

    fn successor(&self, v: usize, i: usize) -> usize {
        match (record_at(self.bytes, v), i) {
            (Some(record), 0) => usize::from(record.targets[0]),
            (Some(record), 1) => usize::from(record.targets[1]),
            _ => 0,
        }
    }

    fn place(&self, v: usize) -> RecordNumber {
        RecordNumber {
            number: if v < self.count() { v } else { 0 },
        }
    }
}
