// The mirror of any arena: owners and even sides exchanged, all else kept.
ghost use Rattle.parity.specs.Mirror.{mirror};
ghost use Rattle.arena.specs.MirrorBounds.{mirror_bounds};

use crate::Arena;
use parity::Player;

#[derive(Clone, Copy)]
pub struct Mirror<'a, X> {
    pub arena: &'a X,
}

impl<X: Arena> Arena for Mirror<'_, X> {
    type Place = X::Place;

    ghost meaning = { λ m. mirror (X.Arena.meaning m.arena.now) };

    ghost places = { λ m v. X.Arena.places m.arena.now v };

    ghost bounds = { λ m. mirror_bounds (X.Arena.meaning m.arena.now) (X.Arena.bounds m.arena.now) };

    ghost elsewhere = { λ m v h. X.Arena.elsewhere m.arena.now v h };

    fn count(&self) -> usize {
        self.arena.count()
    }

    fn even_side(&self) -> Player {
        self.arena.even_side().other()
    }

    fn owner(&self, v: usize) -> Player {
        if v < self.arena.count() {
            self.arena.owner(v).other()
        } else {
            Player::Zero
        }
    }

    fn priority(&self, v: usize) -> u16 {
        self.arena.priority(v)
    }

    fn degree(&self, v: usize) -> usize {
        self.arena.degree(v)
    }

    fn successor(&self, v: usize, i: usize) -> usize {
        self.arena.successor(v, i)
    }

    fn place(&self, v: usize) -> X::Place {
        self.arena.place(v)
    }
}
