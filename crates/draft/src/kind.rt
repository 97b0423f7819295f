// The kinds of records.
ghost use Rattle.std.specs.Prelude.{◌≡◌};
ghost use Rattle.draft.specs.Kinds.{kind_number, NamesKind};

use refusal::Refusal;

// The call that a record names.
#[derive(Clone, Copy, PartialEq, Eq, Debug)]
pub(crate) enum Kind {
    State = 1,
    Leaf = 2,
    Either = 3,
    Both = 4,
    Rule = 5,
    Regrade = 6,
    Turn = 7,
}

// Byte 0 of the kind's records.
impl From<Kind> for u8 {
    ghost from_gives = { λ a r. r ≡ kind_number a };

    fn from(kind: Kind) -> u8 {
        kind as u8
    }
}

// The kind of the records with this byte 0.
impl TryFrom<u8> for Kind {
    type Error = Refusal;

    ghost try_from_gives = { NamesKind };

    fn try_from(byte: u8) -> Result<Kind, Refusal> {
        match byte {
            1 => Ok(Kind::State),
            2 => Ok(Kind::Leaf),
            3 => Ok(Kind::Either),
            4 => Ok(Kind::Both),
            5 => Ok(Kind::Rule),
            6 => Ok(Kind::Regrade),
            7 => Ok(Kind::Turn),
            _ => Err(Refusal::RecordKind),
        }
    }
}
