// Weak parity games: the definitions in specs/, and what is proved about every finite game.
// The functions below do nothing; the contract of each is a theorem.
#![tactic(auto)]

mod player;

ghost use Rattle.parity.specs.Determinacy.{Determinacy};
ghost use Rattle.parity.specs.Mirror.{Mirrored};

pub use player::Player;

// Every finite game in which each vertex has a move is determined, with the reported moves.
pub fn determinacy()
    ensures { Determinacy }
{}

// The mirror of a game has the same grades, distances and moves, and the other winners.
pub fn mirrored()
    ensures { Mirrored }
{}
