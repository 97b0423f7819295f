// What accept says of a word.
ghost use Rattle.std.specs.Prelude.{◌≡◌};
ghost use Rattle.word.specs.Answer.{verdict_of};
ghost use Rattle.word.specs.Verdicts.{verdict_number};

use parity::Player;

#[derive(Clone, Copy, PartialEq, Debug)]
pub enum Verdict {
    Rejected = 0,
    Accepted = 1,
}

// 0 or 1.
impl From<Verdict> for u8 {
    ghost from_gives = { λ a r. r ≡ verdict_number a };

    fn from(verdict: Verdict) -> u8 {
        verdict as u8
    }
}

// Accepted where player 0 wins.
impl From<Player> for Verdict {
    ghost from_gives = { λ a r. r ≡ verdict_of a };

    fn from(winner: Player) -> Verdict {
        match winner {
            Player::Zero => Verdict::Accepted,
            Player::One => Verdict::Rejected,
        }
    }
}
