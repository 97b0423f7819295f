// The record of a vertex.
ghost use Rattle.std.specs.Prelude.{◌≡◌};
ghost use Rattle.arena.specs.Records.{record_in, record_at, fault_of};

use refusal::Refusal;

// The owner in byte 0, zero in byte 1, then the priority and the two targets, low byte first. The owner is a byte: whether it is a
// player's number is one of the questions.
#[derive(Clone, Copy)]
pub(crate) struct Record {
    pub(crate) owner: u8,
    pub(crate) zero: u8,
    pub(crate) priority: u16,
    pub(crate) targets: [u16; 2],
}

impl From<[u8; 8]> for Record {
    ghost from_gives = { λ b r. r ≡ record_in b 0 };

    fn from([owner, zero, p0, p1, l0, l1, r0, r1]: [u8; 8]) -> Record {
        Record {
            owner,
            zero,
            priority: u16::from_le_bytes([p0, p1]),
            targets: [u16::from_le_bytes([l0, l1]), u16::from_le_bytes([r0, r1])],
        }
    }
}

impl Record {
    // Why this is no record of an arena of n vertices, if so.
    pub(crate) fn refusal(self, n: usize) -> Option<Refusal>
        ensures { result ≡ fault_of self n }
    {
        if self.owner > 1 || self.zero != 0 {
            return Some(Refusal::VertexOwner);
        }
        if self.priority > 9999 {
            return Some(Refusal::VertexPriority);
        }
        let [left, right] = self.targets;
        if usize::from(left) >= n || usize::from(right) >= n {
            return Some(Refusal::VertexTarget);
        }
        None
    }
}

// The record at a place, if the bytes have so many.
pub(crate) fn record_at(bytes: &[u8], v: usize) -> Option<Record>
    ensures { result ≡ record_at bytes.now v }
{
    let (records, _) = bytes.as_chunks::<8>();
    let record = records.get(v)?;
    Some(Record::from(*record))
}
