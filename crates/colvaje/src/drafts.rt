// Draft files: read, shown and turned.
use crate::command::Source;
use crate::failure::Failure;
use crate::files;
use crate::formula::Formula;
use draft::{Draft, State, load};
use std::io;

// The draft in a file.
pub(crate) fn read(rt: &HostRuntime, source: Source) -> Result<Draft, Failure> {
    loaded(rt, source.letters, &files::read(rt, source.file)?)
}

// The draft in the bytes.
pub(crate) fn loaded(rt: &HostRuntime, letters: u32, bytes: &[u8]) -> Result<Draft, Failure> {
    let mut draft = Draft::new(rt.alloc())?;
    load(&mut draft, letters, bytes)?;
    Ok(draft)
}

// Prints a draft: its letters, its states with their priorities and rules, and what is missing.
pub(crate) fn show(rt: &HostRuntime, source: Source) -> Result<(), Failure> {
    Ok(print(rt, &read(rt, source)?)?)
}

pub(crate) fn print(rt: &HostRuntime, draft: &Draft) -> io::Result<()> {
    println!(rt;
        "letters {}, states {}, nodes {}",
        draft.letters(),
        draft.state_count(),
        draft.node_count()
    )?;
    for (number, state) in draft.states().iter().enumerate() {
        println!(rt; "s{number} priority {}", state.priority)?;
        print_rules(rt, draft, state)?;
    }
    let complete = if draft.complete() {
        "complete"
    } else {
        "not complete"
    };
    println!(rt; "{complete}")
}

fn print_rules(rt: &HostRuntime, draft: &Draft, state: &State) -> io::Result<()> {
    for (letter, rule) in (0..draft.letters()).zip(state.rules) {
        match rule {
            Some(node) => println!(rt; "  {letter:x}: {}", Formula { draft, node })?,
            None => println!(rt; "  {letter:x}: missing")?,
        }
    }
    Ok(())
}

// Writes the dual of a draft as records.
pub(crate) fn turn(rt: &HostRuntime, source: Source, out: &str) -> Result<(), Failure> {
    let mut draft = read(rt, source)?;
    draft.turn()?;
    let records = draft.records(rt.alloc())?;
    files::write(rt, out, &records)?;
    Ok(println!(rt; "wrote {} records to {out}", records.len() / 8)?)
}
