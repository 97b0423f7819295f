// A solved arena's strategy, place by place.
use crate::failure::Failure;
use arena::Arena;
use game::Outcome;
use parity::Player;
use std::alloc::{AllocError, Global};
use std::collections::{BTreeSet, VecDeque};
use std::fmt;
use std::ops::Range;

// The vertices that were reached, and those of them that were not followed yet, in the order in which they were reached.
#[derive(Drop)]
struct Reached {
    all: BTreeSet<usize>,
    waiting: VecDeque<usize>,
}

impl Reached {
    fn new(heap: Global) -> Self {
        Reached {
            all: BTreeSet::new(heap),
            waiting: VecDeque::new(heap),
        }
    }

    // Notes a vertex, if it is new.
    fn note(&mut self, v: usize) -> Result<(), AllocError> {
        if self.all.insert(v)? {
            self.waiting.push_back(v)?;
        }
        Ok(())
    }
}

// A solved arena, with the winner whose moves are followed.
#[derive(Drop)]
struct Strategy<'a, X> {
    arena: &'a X,
    records: &'a [Outcome],
    winner: Player,
}

impl<X: Arena> Strategy<'_, X> {
    // The positions of the moves at a vertex: one where the winner moves, all where the other does.
    fn moves(&self, v: usize) -> Range<usize> {
        if self.arena.owner(v) != self.winner {
            return 0..self.arena.degree(v);
        }
        let chosen = self.records.get(v).map_or(0, |o| usize::from(o.choice));
        chosen..chosen + 1
    }
}

// Prints the places that plays by the winner's moves can reach from a vertex, each with where it leads.
pub(crate) fn explain<X: Arena>(
    rt: &HostRuntime,
    arena: &X,
    records: &[Outcome],
    start: usize,
) -> Result<(), Failure>
where
    X::Place: fmt::Display + Drop,
{
    let Some(first) = records.get(start) else {
        return Ok(());
    };
    let winner = first.winner;
    println!(rt; "player {} wins, by these moves:", u8::from(winner))?;
    let strategy = Strategy {
        arena,
        records,
        winner,
    };
    let mut reached = Reached::new(rt.alloc());
    reached.note(start)?;
    // No vertex is noted twice, so none waits after so many; the bound shows that the loop ends.
    for _ in 0..arena.count() {
        let Some(v) = reached.waiting.pop_front() else {
            break;
        };
        follow(rt, &strategy, v, &mut reached)?;
    }
    Ok(())
}

// Prints where a place leads, and notes these places.
fn follow<X: Arena>(
    rt: &HostRuntime,
    strategy: &Strategy<'_, X>,
    v: usize,
    reached: &mut Reached,
) -> Result<(), Failure>
where
    X::Place: fmt::Display + Drop,
{
    let arena = strategy.arena;
    print!(rt; "  {} leads to", arena.place(v))?;
    for i in strategy.moves(v) {
        let next = arena.successor(v, i);
        print!(rt; " [{}]", arena.place(next))?;
        reached.note(next)?;
    }
    Ok(println!(rt; "")?)
}
