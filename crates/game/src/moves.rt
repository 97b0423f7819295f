// The last pass: winners and moves, from grades and distances.
ghost use Rattle.std.specs.Prelude.{◌≡◌, ℕ, ◌<◌, slice_index_or};
ghost use Rattle.parity.specs.Move.{move_by};
ghost use Rattle.game.specs.Outcomes.{blank, outcome};
ghost use Rattle.game.specs.Filling.{ranked, Kept};
ghost use Rattle.game.specs.LastPass.{grade_in, distance_in};

use crate::outcome::Outcome;
use crate::table::Table;
use arena::Arena;

impl<X: Arena> Table<'_, X> {
    // The position of the move at v: the least one that will do, or the degree where there is none, as the definition has it. That
    // there is a vertex v stays a clause, since a vertex is a number in the trait.
    fn choice(&self, v: usize) -> usize
        requires { v < (X.meaning self.now.arena.now).count }
        ensures { result ≡ move_by (X.meaning self.now.arena.now) (grade_in self.now.records.now) (distance_in self.now.records.now) v }
    {
        let here = self.records[v];
        let degree = self.arena.degree(v);
        let nearer = self.arena.owner(v) == self.favours(here.grade) && 0 < here.distance;
        let found = if nearer {
            (0..degree).find(|&i| self.ahead(v, i).near(here.rank()))
        } else {
            (0..degree).find(|&i| here.grade <= self.ahead(v, i).grade)
        };
        found.unwrap_or(degree)
    }

    // Names the winner and the move of each vertex.
    pub(crate) fn finish(&mut self)
        requires ranked { (v : ℕ) → v < (X.meaning self.old.arena.now).count → slice_index_or self.old.records.now v blank ≡ ranked (X.meaning self.old.arena.now) v }
        ensures finished { (v : ℕ) → v < (X.meaning self.old.arena.now).count → slice_index_or self.new.records.now v blank ≡ outcome (X.meaning self.old.arena.now) v }
        ensures kept { Kept (X.meaning self.old.arena.now).count self.old.records.now self.new.records.now }
        ensures same { (self.new.arena ≡ self.old.arena) × (self.new.records.ghost_name ≡ self.old.records.ghost_name) }
    {
        // By index, since the record of a vertex is written while those of others are read.
        for v in 0..self.arena.count() {
            let here = self.records[v];
            self.records[v] = Outcome {
                winner: self.favours(here.grade),
                // at most 16
                choice: self.choice(v) as u8,
                ..here
            };
        }
    }
}
