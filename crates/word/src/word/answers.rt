// The answers of a word arena.
ghost use Rattle.std.specs.Prelude.{◌≡◌, ◌<◌};
ghost use Rattle.draft.specs.Meaning.{meaning as automaton};
ghost use Rattle.runs.specs.WordGame.{node_owner, node_degree, node_at as node_vertex, next_step, word_game, word_place};
ghost use Rattle.runs.proofs.WordBounded.{word_elsewhere};
ghost use Rattle.word.specs.Moving.{vertex_of, state_move, node_move};
ghost use Rattle.word.specs.Readables.{readable};
ghost use Rattle.word.specs.WordArenaBounds.{arena_bounds};

use super::WordArena;
use arena::Arena;
use draft::Node;
use parity::Player;
use runs::WordPlace;

impl WordArena<'_> {
    // What a vertex stands for, if there is such a vertex. The arena of two drafts numbers alike, but a form for both would need
    // a third type of places beside theirs.
    fn vertex(&self, v: usize) -> Option<WordPlace>
        ensures { result ≡ vertex_of (automaton self.now.draft.now) self.now.word.prefix.now self.now.word.period.now v }
    {
        if let Some((k, q)) = self.states.cell(v) {
            return Some(WordPlace::AtState(k, q));
        }
        let (k, x) = self.nodes.cell(v - self.states.count())?;
        Some(WordPlace::AtNode(k, x))
    }

    // The vertex of a node at step k; the pair of nodes of two drafts is numbered alike, over other grids.
    fn node_vertex(&self, k: u8, x: u8) -> usize
        ensures { result ≡ node_vertex (automaton self.now.draft.now) self.now.word.prefix.now self.now.word.period.now k x }
    {
        self.states.count() + self.nodes.number(k, x)
    }

    // The step after k: after the last comes the first of the period.
    fn next(&self, k: u8) -> u8
        requires { k < self.now.states.rows }
        ensures { result ≡ next_step self.now.word.prefix.now self.now.word.period.now k }
    {
        let after = k + 1;
        if after == self.states.rows {
            self.word.prefix.len() as u8
        } else {
            after
        }
    }

    // Where a state at step k leads: to the node of its rule for the step's letter (node 0 where there is none, as the definition has
    // it).
    fn from_state(&self, k: u8, q: u8, i: usize) -> usize
        ensures { result ≡ state_move (automaton self.now.draft.now) self.now.word.prefix.now self.now.word.period.now k q i }
    {
        if i > 0 {
            return 0;
        }
        let letter = self.word.letter_at(usize::from(k));
        let node = self.draft.rule_at(usize::from(q), letter).unwrap_or(0);
        self.node_vertex(k, node)
    }

    // Where a node at step k leads: a leaf to its state at the next step, another to its left, then its right.
    fn from_node(&self, k: u8, node: Node, i: usize) -> usize
        requires { k < self.now.states.rows }
        ensures { result ≡ node_move (automaton self.now.draft.now) self.now.word.prefix.now self.now.word.period.now k node i }
    {
        match (node, i) {
            (Node::Leaf(q), 0) => self.states.number(self.next(k), q),
            (Node::Either(left, _) | Node::Both(left, _), 0) => self.node_vertex(k, left),
            (Node::Either(_, right) | Node::Both(_, right), 1) => self.node_vertex(k, right),
            _ => 0,
        }
    }
}

// Both belongs to player 1, all else to player 0.
fn owner_of(node: Node) -> Player
    ensures { result ≡ node_owner node }
{
    match node {
        Node::Leaf(_) | Node::Either(..) => Player::Zero,
        Node::Both(..) => Player::One,
    }
}

fn degree_of(node: Node) -> usize
    ensures { result ≡ node_degree node }
{
    match node {
        Node::Leaf(_) => 1,
        Node::Either(..) | Node::Both(..) => 2,
    }
}

impl Arena for WordArena<'_> {
    type Place = WordPlace;

    ghost meaning = { λ w. word_game (automaton w.draft.now) w.word.prefix.now w.word.period.now };

    ghost places = { λ w v. word_place (automaton w.draft.now) w.word.prefix.now w.word.period.now v };

    ghost bounds = { λ w. arena_bounds w.draft.now w.complete w.some_state w.word.prefix.now w.word.period.now (readable (automaton w.draft.now).letters w.word.prefix.now w.word.period.now w.some_period w.known) w.short };

    ghost elsewhere = { λ w v h. word_elsewhere (automaton w.draft.now) w.word.prefix.now w.word.period.now v h };

    fn count(&self) -> usize {
        self.states.count() + self.nodes.count()
    }

    fn even_side(&self) -> Player {
        Player::Zero
    }

    fn owner(&self, v: usize) -> Player {
        match self.vertex(v) {
            None | Some(WordPlace::AtState(..)) => Player::Zero,
            Some(WordPlace::AtNode(_, x)) => owner_of(self.draft.node_at(usize::from(x))),
        }
    }

    fn priority(&self, v: usize) -> u16 {
        match self.vertex(v) {
            None => 0,
            Some(WordPlace::AtState(_, q)) => self.draft.priority_at(usize::from(q)),
            Some(WordPlace::AtNode(..)) => 9999,
        }
    }

    fn degree(&self, v: usize) -> usize {
        match self.vertex(v) {
            None => 0,
            Some(WordPlace::AtState(..)) => 1,
            Some(WordPlace::AtNode(_, x)) => degree_of(self.draft.node_at(usize::from(x))),
        }
    }

    fn successor(&self, v: usize, i: usize) -> usize {
        match self.vertex(v) {
            None => 0,
            Some(WordPlace::AtState(k, q)) => self.from_state(k, q, i),
            Some(WordPlace::AtNode(k, x)) => self.from_node(
                k,
                self.draft.node_at(usize::from(x)),
                i,
            ),
        }
    }

    // vertex 0 is state 0 at step 0
    fn place(&self, v: usize) -> WordPlace {
        self.vertex(v).unwrap_or(WordPlace::AtState(0, 0))
    }
}
