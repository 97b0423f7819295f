// What solve writes of a vertex.
ghost use Rattle.std.specs.Prelude.{◌≡◌};
ghost use Rattle.game.specs.Filling.{unnamed, is_near, is_behind};

use parity::Player;

#[derive(Clone, Copy, PartialEq, Debug)]
pub struct Outcome {
    pub winner: Player,
    // the priority that decides
    pub grade: u16,
    // in how many moves at most it is met
    pub distance: u16,
    // the position of the move
    pub choice: u8,
}

// A record that nothing was written into yet, for the memory that `solve` is given.
pub const BLANK: Outcome = Outcome {
    winner: Player::Zero,
    grade: 0,
    distance: 0,
    choice: 0,
};

// A grade and a distance to it. Ranks go by the grade first.
#[derive(Clone, Copy, PartialEq, PartialOrd)]
pub(crate) struct Rank {
    pub(crate) grade: u16,
    pub(crate) distance: u16,
}

impl Outcome {
    // The record of a vertex whose winner and move are not named yet.
    pub(crate) fn unnamed(rank: Rank) -> Outcome
        ensures { result ≡ unnamed rank.grade rank.distance }
    {
        Outcome {
            winner: Player::Zero,
            grade: rank.grade,
            distance: rank.distance,
            choice: 0,
        }
    }

    pub(crate) fn rank(self) -> Rank
        ensures grade { result.grade ≡ self.grade }
        ensures distance { result.distance ≡ self.distance }
    {
        Rank {
            grade: self.grade,
            distance: self.distance,
        }
    }

    // Whether the grade is that of the rank, and the distance smaller.
    pub(crate) fn near(self, rank: Rank) -> bool
        ensures { result ≡ is_near rank.grade rank.distance self }
    {
        self.grade == rank.grade && self.distance < rank.distance
    }

    // Whether its rank is below the one given.
    pub(crate) fn behind(self, rank: Rank) -> bool
        ensures { result ≡ is_behind rank.grade rank.distance self }
    {
        self.rank() < rank
    }
}
