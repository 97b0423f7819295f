// Solves a stored arena and prints what is found.
use crate::failure::Failure;
use crate::files;
use arena::{Arena, Mirror, ask, make};
use game::{BLANK, Outcome, solve};
use std::alloc::{AllocError, Global};
use std::io;

pub(crate) fn solve_file(rt: &HostRuntime, mirrored: bool, file: &str) -> Result<(), Failure> {
    solve_bytes(rt, mirrored, &files::read(rt, file)?)
}

// Solves the arena in the bytes, or its mirror.
pub(crate) fn solve_bytes(rt: &HostRuntime, mirrored: bool, bytes: &[u8]) -> Result<(), Failure> {
    ask(bytes)?;
    let arena = make(bytes);
    if mirrored {
        print_solution(rt, &Mirror { arena: &arena })
    } else {
        print_solution(rt, &arena)
    }
}

fn print_solution<X: Arena>(rt: &HostRuntime, arena: &X) -> Result<(), Failure> {
    let mut records = unsolved(rt.alloc(), arena.count())?;
    solve(arena, &mut records)?;
    Ok(print_table(rt, &records)?)
}

fn print_table(rt: &HostRuntime, records: &[Outcome]) -> io::Result<()> {
    println!(rt; "vertex winner grade distance move")?;
    for (v, o) in records.iter().enumerate() {
        println!(rt;
            "{v:>6} {:>6} {:>5} {:>8} {:>4}",
            u8::from(o.winner),
            o.grade,
            o.distance,
            o.choice
        )?;
    }
    Ok(())
}

// So many records, for solve to write.
pub(crate) fn unsolved(heap: Global, count: usize) -> Result<Vec<Outcome>, AllocError> {
    vec![in heap; BLANK; count]
}
