// Grades and distances, grade by grade and distance by distance.
ghost use Rattle.std.specs.Prelude.{◌≡◌, ℕ, ◌+◌, ◌<◌, ◌≤◌, slice_index_or};
ghost use Rattle.parity.specs.Game.{favoured};
ghost use Rattle.parity.specs.Below.{some_below};
ghost use Rattle.game.specs.Outcomes.{blank};
ghost use Rattle.game.specs.Filling.{unset, ranked, some_near, all_behind, joins_now, Filled, gets, Kept, LeastOpen};

use crate::outcome::{Outcome, Rank};
use crate::table::Table;
use arena::Arena;
use parity::Player;

// The grade of a vertex that has none yet. It stands in the caller's records: a solve has no memory of its own.
const UNGRADED: u16 = 65535;

// The rank of such a vertex.
const UNRANKED: Rank = Rank {
    grade: UNGRADED,
    distance: 0,
};

impl<X: Arena> Table<'_, X> {
    // The player whom priority p favours.
    #[tactic(auto, unfolding(parity::specs::Game::favoured))]
    pub(crate) fn favours(&self, p: u16) -> Player
        ensures { result ≡ favoured (X.meaning self.now.arena.now) p }
    {
        let even = self.arena.even_side();
        if p % 2 == 0 { even } else { even.other() }
    }

    // The record of the successor of v at position i. Laid in line, so that what an arena works out of v it works out once for all
    // positions.
    #[inline(always)]
    pub(crate) fn ahead(&self, v: usize, i: usize) -> Outcome
        ensures { result ≡ slice_index_or self.now.records.now ((X.meaning self.now.arena.now).successor v i) blank }
    {
        let u = self.arena.successor(v, i);
        self.records[u]
    }

    // Whether some successor of v has the grade of the rank, and a smaller distance.
    fn some_near(&self, rank: Rank, v: usize) -> bool
        ensures { result ≡ some_near (X.meaning self.now.arena.now) self.now.records.now rank.grade rank.distance v }
    {
        (0..self.arena.degree(v)).any(|i| self.ahead(v, i).near(rank))
    }

    // Whether each successor of v has a smaller rank.
    fn all_behind(&self, rank: Rank, v: usize) -> bool
        ensures { result ≡ all_behind (X.meaning self.now.arena.now) self.now.records.now rank.grade rank.distance v }
    {
        (0..self.arena.degree(v)).all(|i| self.ahead(v, i).behind(rank))
    }

    // Whether v has no rank yet, and now gets this one. That there is a vertex v stays a clause, as of `choice`.
    fn joins(&self, rank: Rank, v: usize) -> bool
        requires { v < (X.meaning self.now.arena.now).count }
        ensures { result ≡ joins_now (X.meaning self.now.arena.now) self.now.records.now rank.grade rank.distance v }
    {
        if self.records[v].grade != UNGRADED {
            false
        } else if rank.distance == 0 {
            self.arena.priority(v) == rank.grade
        } else if self.arena.owner(v) == self.favours(rank.grade) {
            self.some_near(rank, v)
        } else {
            self.all_behind(rank, v)
        }
    }

    // Gives the rank to the vertices that have it, and says whether there are any.
    #[tactic(auto, using(crate::proofs::Ranges::some_none))]
    fn round(&mut self, rank: Rank) -> bool
        requires small { rank.grade ≤ 9999 }
        requires filled { Filled (X.meaning self.old.arena.now) rank.grade rank.distance self.old.records.now }
        ensures filled { Filled (X.meaning self.old.arena.now) rank.grade (rank.distance + 1) self.new.records.now }
        ensures found { result ≡ some_below (X.meaning self.old.arena.now).count (gets (X.meaning self.old.arena.now) rank.grade rank.distance) }
        ensures kept { Kept (X.meaning self.old.arena.now).count self.old.records.now self.new.records.now }
        ensures same { (self.new.arena ≡ self.old.arena) × (self.new.records.ghost_name ≡ self.old.records.ghost_name) }
    {
        let mut found = false;
        // By index, since the record of a vertex is written while those of others are read.
        for v in 0..self.arena.count() {
            if self.joins(rank, v) {
                self.records[v] = Outcome::unnamed(rank);
                found = true;
            }
        }
        found
    }

    // Gives grade p to the vertices that have it, distance by distance.
    fn stage(&mut self, p: u16)
        requires small { p ≤ 9999 }
        requires filled { Filled (X.meaning self.old.arena.now) p 0 self.old.records.now }
        ensures filled { Filled (X.meaning self.old.arena.now) (p + 1) 0 self.new.records.now }
        ensures kept { Kept (X.meaning self.old.arena.now).count self.old.records.now self.new.records.now }
        ensures same { (self.new.arena ≡ self.old.arena) × (self.new.records.ghost_name ≡ self.old.records.ghost_name) }
    {
        let mut rank = Rank {
            grade: p,
            distance: 0,
        };
        while self.round(rank) {
            rank.distance += 1;
        }
    }

    // Takes every grade from the records of the vertices.
    fn clear(&mut self)
        ensures cleared { (v : ℕ) → v < (X.meaning self.old.arena.now).count → slice_index_or self.new.records.now v blank ≡ unset }
        ensures kept { Kept (X.meaning self.old.arena.now).count self.old.records.now self.new.records.now }
        ensures same { (self.new.arena ≡ self.old.arena) × (self.new.records.ghost_name ≡ self.old.records.ghost_name) }
    {
        let n = self.arena.count();
        self.records[..n].fill(Outcome::unnamed(UNRANKED));
    }

    // The least priority of a vertex that has no grade yet, if there is one.
    fn least_open(&self) -> Option<u16>
        ensures { LeastOpen (X.meaning self.now.arena.now) self.now.records.now result }
    {
        (0..self.arena.count())
            .filter(|&v| self.records[v].grade == UNGRADED)
            .map(|v| self.arena.priority(v))
            .min()
    }

    // Gives each vertex its grade and distance.
    pub(crate) fn rank(&mut self)
        ensures ranked { (v : ℕ) → v < (X.meaning self.old.arena.now).count → slice_index_or self.new.records.now v blank ≡ ranked (X.meaning self.old.arena.now) v }
        ensures kept { Kept (X.meaning self.old.arena.now).count self.old.records.now self.new.records.now }
        ensures same { (self.new.arena ≡ self.old.arena) × (self.new.records.ghost_name ≡ self.old.records.ghost_name) }
    {
        self.clear();
        while let Some(p) = self.least_open() {
            self.stage(p);
        }
    }
}
