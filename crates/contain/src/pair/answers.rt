// The answers of the arena of two drafts.
ghost use Rattle.std.specs.Prelude.{◌≡◌};
ghost use Rattle.draft.specs.Automaton.{node_of};
ghost use Rattle.draft.specs.Meaning.{meaning as automaton};
ghost use Rattle.inclusion.specs.PairGame.{states_at, nodes_at, pair_game, pair_place};
ghost use Rattle.inclusion.proofs.PairBounded.{pair_elsewhere};
ghost use Rattle.contain.specs.Moving.{vertex_at, states_move, nodes_move};
ghost use Rattle.contain.specs.PairArenaBounds.{arena_bounds};

use super::PairArena;
use super::moves::{Sides, part, priority_of};
use arena::Arena;
use inclusion::PairPlace;
use parity::Player;

impl PairArena<'_> {
    // What a vertex stands for, if it is one. The word arena numbers alike, but a form for both would need a third type of places
    // beside theirs.
    fn vertex(&self, v: usize) -> Option<PairPlace>
        ensures { result ≡ vertex_at (automaton self.now.first.now) (automaton self.now.second.now) v }
    {
        if let Some((p, q)) = self.states.cell(v) {
            return Some(PairPlace::AtStates(p, q));
        }
        let (x, y) = self.nodes.cell(v - self.states.count())?;
        Some(PairPlace::AtNodes(x, y))
    }

    // The vertex of two states. Two states and two nodes are the parts of a `PairPlace` that a match took apart.
    fn states_at(&self, p: u8, q: u8) -> usize
        ensures { result ≡ states_at (automaton self.now.first.now) (automaton self.now.second.now) p q }
    {
        self.states.number(p, q)
    }

    // The vertex of two nodes; the node at a step of a word is numbered alike, over other grids.
    fn nodes_at(&self, x: u8, y: u8) -> usize
        ensures { result ≡ nodes_at (automaton self.now.first.now) (automaton self.now.second.now) x y }
    {
        self.states.count() + self.nodes.number(x, y)
    }

    // Where two states lead: a letter leads to the nodes of both rules (node 0 where there is none, as the definition has it).
    fn from_states(&self, p: u8, q: u8, i: usize) -> usize
        ensures { result ≡ states_move (automaton self.now.first.now) (automaton self.now.second.now) p q i }
    {
        if i >= usize::from(self.first.letters()) {
            return 0;
        }
        let letter = i as u8;
        let x = self.first.rule_at(usize::from(p), letter).unwrap_or(0);
        let y = self.second.rule_at(usize::from(q), letter).unwrap_or(0);
        self.nodes_at(x, y)
    }

    // Two nodes by their numbers.
    fn sides(&self, x: u8, y: u8) -> Sides
        ensures first { result.first ≡ node_of (automaton self.now.first.now) x }
        ensures second { result.second ≡ node_of (automaton self.now.second.now) y }
    {
        Sides {
            first: self.first.node_at(usize::from(x)),
            second: self.second.node_at(usize::from(y)),
        }
    }

    // Where two nodes lead: one moves to its left, then its right, and the other stays; two leaves lead to their states.
    fn from_nodes(&self, x: u8, y: u8, i: usize) -> usize
        ensures { result ≡ nodes_move (automaton self.now.first.now) (automaton self.now.second.now) x y i }
    {
        let sides = self.sides(x, y);
        if i >= sides.degree() {
            return 0;
        }
        if sides.first_moves() && i < 2 {
            return self.nodes_at(part(sides.first, i % 2), y);
        }
        if sides.second_moves() {
            return self.nodes_at(x, part(sides.second, i % 2));
        }
        self.states_at(part(sides.first, 0), part(sides.second, 0))
    }
}

// Where there is no such vertex or position the answer is 0 or player 0, and vertex 0's place, as the trait asks.
impl Arena for PairArena<'_> {
    type Place = PairPlace;

    ghost meaning = { λ w. pair_game (automaton w.first.now) (automaton w.second.now) };

    ghost places = { λ w v. pair_place (automaton w.first.now) (automaton w.second.now) v };

    ghost bounds = { λ w. arena_bounds w.first.now w.second.now w.first_complete w.second_complete w.same_letters w.some_first w.some_second };

    ghost elsewhere = { λ w v h. pair_elsewhere (automaton w.first.now) (automaton w.second.now) v h };

    fn count(&self) -> usize {
        self.states.count() + self.nodes.count()
    }

    fn even_side(&self) -> Player {
        Player::Zero
    }

    fn owner(&self, v: usize) -> Player {
        match self.vertex(v) {
            None => Player::Zero,
            Some(PairPlace::AtStates(..)) => Player::One,
            Some(PairPlace::AtNodes(x, y)) => self.sides(x, y).owner(),
        }
    }

    fn priority(&self, v: usize) -> u16 {
        match self.vertex(v) {
            None => 0,
            Some(PairPlace::AtStates(p, q)) => priority_of(
                self.first.priority_at(usize::from(p)),
                self.second.priority_at(usize::from(q)),
            ),
            Some(PairPlace::AtNodes(..)) => 9999,
        }
    }

    fn degree(&self, v: usize) -> usize {
        match self.vertex(v) {
            None => 0,
            Some(PairPlace::AtStates(..)) => usize::from(self.first.letters()),
            Some(PairPlace::AtNodes(x, y)) => self.sides(x, y).degree(),
        }
    }

    fn successor(&self, v: usize, i: usize) -> usize {
        match self.vertex(v) {
            None => 0,
            Some(PairPlace::AtStates(p, q)) => self.from_states(p, q, i),
            Some(PairPlace::AtNodes(x, y)) => self.from_nodes(x, y, i),
        }
    }

    fn place(&self, v: usize) -> PairPlace {
        self.vertex(v).unwrap_or(PairPlace::AtStates(0, 0))
    }
}
