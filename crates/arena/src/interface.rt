// What an arena answers, and what it owes.
ghost use Rattle.std.specs.Prelude.{◌≡◌, ℕ, ◌≤◌};
ghost use Rattle.parity.specs.Game.{Game};
ghost use Rattle.arena.specs.Bounds.{Bounds};

use parity::Player;

// An arena means one game, and each question is answered by that game. An implementation gives the meaning and shows that it
// keeps the bounds. A question about a vertex or a position that does not exist is answered by 0 (player 0).
pub trait Arena {
    // What a vertex stands for, in the arena's own terms.
    type Place;

    ghost meaning: { Self → Game };

    ghost places: { Self → ℕ → Self.Place };

    ghost bounds: { (a : Self) → Bounds (meaning a) };

    // the place of a vertex that does not exist is that of vertex 0
    ghost elsewhere: { (a : Self) (v : ℕ) → (meaning a).count ≤ v → places a v ≡ places a 0 };

    // The number of vertices.
    fn count(&self) -> usize
        ensures { result ≡ (meaning self.now).count };

    // The player whom even priorities favour.
    fn even_side(&self) -> Player
        ensures { result ≡ (meaning self.now).even_side };

    fn owner(&self, v: usize) -> Player
        ensures { result ≡ (meaning self.now).owner v };

    fn priority(&self, v: usize) -> u16
        ensures { result ≡ (meaning self.now).priority v };

    // The number of moves at v.
    fn degree(&self, v: usize) -> usize
        ensures { result ≡ (meaning self.now).degree v };

    // Where the move at position i leads from v.
    fn successor(&self, v: usize, i: usize) -> usize
        ensures { result ≡ (meaning self.now).successor v i };

    fn place(&self, v: usize) -> Self::Place
        ensures { result ≡ places self.now v };
}
