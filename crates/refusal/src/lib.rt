// The reasons for which a call says no. Every layer uses this one enum, so that a number means the same
// everywhere; docs/REFUSALS.md has the list with the calls that ask each question.
#![tactic(auto)]

ghost use Rattle.std.specs.Prelude.{◌≡◌};
ghost use Rattle.refusal.specs.Numbers.{number_of};

use std::fmt;

#[derive(Clone, Copy, PartialEq, Eq, Debug)]
pub enum Refusal {
    // a draft's letters are not 1 to 16
    Letters = 1,
    // a state's priority is above 999
    Priority = 2,
    // the draft has 32 states already
    States = 3,
    // no such state
    NoState = 4,
    // the draft has 128 nodes already
    Nodes = 5,
    // no such node
    NoNode = 6,
    // no such letter
    NoLetter = 7,
    // a priority of 999 cannot be raised
    Top = 8,
    // the length is not a multiple of 8
    Length = 9,
    // byte 0 of a draft's record names no call
    RecordKind = 10,
    // an unused byte of a draft's record is not zero
    RecordUnused = 11,
    // a state lacks a rule for a letter
    Incomplete = 12,
    // the period is empty, or the word has more than 64 letters
    Word = 13,
    // fewer result records than vertices
    Room = 14,
    // two drafts differ in their number of letters
    Alphabets = 15,
    // a rule leads to a larger priority
    NotStratified = 16,
    // a stored arena has not 1 to 4,096 records
    VertexCount = 17,
    // a stored vertex has byte 0 above 1 or byte 1 not zero
    VertexOwner = 18,
    // a stored vertex has a priority above 9,999
    VertexPriority = 19,
    // a stored vertex leads past the last vertex
    VertexTarget = 20,
}

// The number under which the refusal is reported.
impl From<Refusal> for u8 {
    ghost from_gives = { λ a r. r ≡ number_of a };

    fn from(refusal: Refusal) -> u8 {
        refusal as u8
    }
}

// What was wrong, in words.
impl fmt::Display for Refusal {
    fn fmt<W: fmt::Write>(&self, f: &mut fmt::Formatter<W>) -> fmt::Result {
        f.write_str(match *self {
            Refusal::Letters => "the letters are not 1 to 16",
            Refusal::Priority => "the priority is above 999",
            Refusal::States => "there are 32 states already",
            Refusal::NoState => "there is no such state",
            Refusal::Nodes => "there are 128 nodes already",
            Refusal::NoNode => "there is no such node",
            Refusal::NoLetter => "there is no such letter",
            Refusal::Top => "a state has priority 999, which cannot be raised",
            Refusal::Length => "the length is not a multiple of 8",
            Refusal::RecordKind => "byte 0 names no call",
            Refusal::RecordUnused => "an unused byte is not zero",
            Refusal::Incomplete => "a state has no rule for a letter",
            Refusal::Word => "the period has no letter, or the word has more than 64",
            Refusal::Room => "there are fewer result records than vertices",
            Refusal::Alphabets => "the drafts differ in their number of letters",
            Refusal::NotStratified => "a rule leads to a larger priority",
            Refusal::VertexCount => "the vertices are not 1 to 4096",
            Refusal::VertexOwner => "byte 0 is above 1 or byte 1 is not zero",
            Refusal::VertexPriority => "the priority is above 9999",
            Refusal::VertexTarget => "a target is not below the number of vertices",
        })
    }
}
