// What containment answers, and why it may refuse.
ghost use Rattle.std.specs.Prelude.{◌≡◌};
ghost use Rattle.contain.specs.Answers.{verdict_number, draft_number, of_none};
ghost use Rattle.contain.specs.Containing.{verdict_of};

use parity::Player;
use refusal::Refusal;

// Whether the first automaton is contained in the second. `NotShown` does not say that it is not.
#[derive(Clone, Copy, PartialEq, Debug)]
pub enum Containment {
    NotShown = 0,
    Contained = 1,
}

// Contained where player 0 wins the pair of states asked about.
impl From<Player> for Containment {
    ghost from_gives = { λ a r. r ≡ verdict_of a };

    fn from(winner: Player) -> Containment {
        match winner {
            Player::Zero => Containment::Contained,
            Player::One => Containment::NotShown,
        }
    }
}

// 0 or 1.
impl From<Containment> for u8 {
    ghost from_gives = { λ a r. r ≡ verdict_number a };

    fn from(containment: Containment) -> u8 {
        containment as u8
    }
}

// One of the two drafts that are compared.
#[derive(Clone, Copy, PartialEq, Debug)]
pub enum Which {
    First = 1,
    Second = 2,
}

// 1 or 2.
impl From<Which> for u8 {
    ghost from_gives = { λ a r. r ≡ draft_number a };

    fn from(which: Which) -> u8 {
        which as u8
    }
}

// A refusal, with the draft to which the question was put, where it was put to one of them.
#[derive(Clone, Copy, PartialEq, Debug)]
pub struct ContainFault {
    pub refusal: Refusal,
    pub draft: Option<Which>,
}

// A refusal of the arena speaks of no draft.
impl From<Refusal> for ContainFault {
    ghost from_gives = { λ a r. r ≡ of_none a };

    fn from(refusal: Refusal) -> ContainFault {
        ContainFault {
            refusal,
            draft: None,
        }
    }
}
