// Asks whether bytes are a stored arena, and makes it.
ghost use Rattle.std.specs.Prelude.{◌≡◌, ◌≤◌, IsOk};
ghost use Rattle.arena.specs.Stored.{asked};

use super::record::Record;
use super::{Stored, StoredFault};
use refusal::Refusal;

// How many vertices the arena in the bytes has, or the first question whose answer is no.
pub fn ask(bytes: &[u8]) -> Result<usize, StoredFault>
    ensures { result ≡ asked bytes.now }
{
    let (records, rest) = bytes.as_chunks::<8>();
    if !rest.is_empty() {
        return Err(StoredFault {
            refusal: Refusal::Length,
            place: None,
        });
    }
    let count = records.len();
    if count < 1 || count > 4096 {
        return Err(StoredFault {
            refusal: Refusal::VertexCount,
            place: None,
        });
    }
    for (v, record) in records.iter().enumerate() {
        if let Some(refusal) = Record::from(*record).refusal(count) {
            return Err(StoredFault {
                refusal,
                place: Some(v),
            });
        }
    }
    Ok(count)
}

// The arena in bytes that were asked about.
pub fn make(bytes: &[u8]) -> Stored<'_>
    requires { IsOk (asked bytes.now) }
    ensures { result.bytes.now ≡ bytes.now }
{
    Stored { bytes }
}
