// The two players.
ghost use Rattle.std.specs.Prelude.{◌≡◌};
ghost use Rattle.parity.specs.Player.{other, numeral};

#[derive(Clone, Copy, PartialEq, Debug)]
pub enum Player {
    Zero = 0,
    One = 1,
}

impl Player {
    // The opponent.
    pub fn other(self) -> Player
        ensures { result ≡ other self }
    {
        match self {
            Player::Zero => Player::One,
            Player::One => Player::Zero,
        }
    }
}

// 0 or 1.
impl From<Player> for u8 {
    ghost from_gives = { λ a r. r ≡ numeral a };

    fn from(player: Player) -> u8 {
        player as u8
    }
}
