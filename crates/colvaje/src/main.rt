// The program: games, drafts, words and containment by hand. It only reads, asks the library and prints.
#![tactic(auto)]

mod accepting;
mod command;
mod containing;
mod demo;
mod drafts;
mod failure;
mod files;
mod formula;
mod solving;
mod why;

use command::{Command, USAGE};
use failure::Failure;
use std::env;
use std::process::ExitCode;

fn run(rt: &HostRuntime) -> Result<ExitCode, Failure> {
    let words: Vec<String> = env::args(rt)?.skip(1).collect(rt.alloc())?;
    let words: Vec<&str> = words.iter().map(|word| word.as_str()).collect(rt.alloc())?;
    match Command::parse(rt.alloc(), &words)? {
        Command::Help => rt.println(USAGE)?,
        Command::Demo => demo::run(rt)?,
        Command::Solve { mirrored, file } => solving::solve_file(rt, mirrored, file)?,
        Command::Show(source) => drafts::show(rt, source)?,
        Command::Turn { source, out } => drafts::turn(rt, source, out)?,
        Command::Accept(question) => return accepting::accept_file(rt, &question),
        Command::Contain(comparison) => return containing::contain_files(rt, comparison),
    }
    Ok(ExitCode::SUCCESS)
}

fn main(rt: HostRuntime) -> ExitCode {
    match run(&rt) {
        Ok(code) => code,
        Err(failure) => {
            // where even this cannot be printed, the status says it
            let _ = eprintln!(rt; "{failure}");
            ExitCode::FAILURE
        }
    }
}
