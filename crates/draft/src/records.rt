// The 8-byte records of a draft file, and the calls that they name.
ghost use Rattle.std.specs.Prelude.{◌≡◌};
ghost use Rattle.draft.specs.Kinds.{kind_number};
ghost use Rattle.draft.specs.Meaning.{meaning};
ghost use Rattle.draft.specs.Records.{decoded, called};
ghost use Rattle.draft.specs.Written.{encoded, record_bytes};

use crate::draft::Draft;
use crate::kind::Kind;
use refusal::Refusal;

// A call on a draft, with its numbers.
#[derive(Clone, Copy, PartialEq, Eq, Debug)]
pub enum Call {
    // priority
    State(u16),
    // state
    Leaf(u16),
    // left, right
    Either(u16, u16),
    // left, right
    Both(u16, u16),
    // state, letter, node
    Rule(u16, u8, u16),
    // state, priority
    Regrade(u16, u16),
    Turn,
}

// The call that a record names: byte 0 is the call, byte 1 a rule's letter, bytes 2 and 3 the first number and
// bytes 4 and 5 the second, low byte first. Bytes that the call does not use are zero.
pub(crate) fn decode(record: &[u8; 8]) -> Result<Call, Refusal>
    ensures { result ≡ decoded «record».now }
{
    let first = u16::from_le_bytes([record[2], record[3]]);
    let second = u16::from_le_bytes([record[4], record[5]]);
    let rest = u16::from_le_bytes([record[6], record[7]]);
    match (Kind::try_from(record[0])?, record[1], first, second, rest) {
        (Kind::State, 0, priority, 0, 0) => Ok(Call::State(priority)),
        (Kind::Leaf, 0, state, 0, 0) => Ok(Call::Leaf(state)),
        (Kind::Either, 0, left, right, 0) => Ok(Call::Either(left, right)),
        (Kind::Both, 0, left, right, 0) => Ok(Call::Both(left, right)),
        (Kind::Rule, letter, state, node, 0) => Ok(Call::Rule(state, letter, node)),
        (Kind::Regrade, 0, state, priority, 0) => Ok(Call::Regrade(state, priority)),
        (Kind::Turn, 0, 0, 0, 0) => Ok(Call::Turn),
        _ => Err(Refusal::RecordUnused),
    }
}

// The record of a call.
pub(crate) fn encode(call: Call) -> [u8; 8]
    ensures { result ≡ encoded call }
{
    match call {
        Call::State(priority) => record_of(Kind::State, 0, priority, 0),
        Call::Leaf(state) => record_of(Kind::Leaf, 0, state, 0),
        Call::Either(left, right) => record_of(Kind::Either, 0, left, right),
        Call::Both(left, right) => record_of(Kind::Both, 0, left, right),
        Call::Rule(state, letter, node) => record_of(Kind::Rule, letter, state, node),
        Call::Regrade(state, priority) => record_of(Kind::Regrade, 0, state, priority),
        Call::Turn => record_of(Kind::Turn, 0, 0, 0),
    }
}

// The record with these parts.
fn record_of(kind: Kind, letter: u8, first: u16, second: u16) -> [u8; 8]
    ensures { result ≡ record_bytes (kind_number kind) letter first second }
{
    let [first_low, first_high] = first.to_le_bytes();
    let [second_low, second_high] = second.to_le_bytes();
    [
        u8::from(kind),
        letter,
        first_low,
        first_high,
        second_low,
        second_high,
        0,
        0,
    ]
}

// Makes the call on a draft.
pub(crate) fn make(draft: &mut Draft, call: Call) -> Result<(), Refusal>
    ensures { (result, meaning draft.new) ≡ called (meaning draft.old) call }
{
    match call {
        Call::State(priority) => draft.state(priority).map(|_| ()),
        Call::Leaf(state) => draft.leaf(state).map(|_| ()),
        Call::Either(left, right) => draft.either(left, right).map(|_| ()),
        Call::Both(left, right) => draft.both(left, right).map(|_| ()),
        Call::Rule(state, letter, node) => draft.rule(state, letter, node),
        Call::Regrade(state, priority) => draft.regrade(state, priority),
        Call::Turn => draft.turn(),
    }
}
