// Whether one draft is contained in another, and why.
use crate::command::Comparison;
use crate::drafts::read;
use crate::failure::Failure;
use crate::solving::unsolved;
use crate::why::explain;
use contain::{Containment, MOST_VERTICES, ask, make};
use draft::Start;
use mailbox::judge;
use std::process::ExitCode;

pub(crate) fn contain_files(
    rt: &HostRuntime,
    comparison: Comparison<'_>,
) -> Result<ExitCode, Failure> {
    let first = read(rt, comparison.first.source)?;
    let second = read(rt, comparison.second.source)?;
    let first = Start {
        draft: &first,
        state: comparison.first.state,
    };
    let second = Start {
        draft: &second,
        state: comparison.second.state,
    };
    decide(rt, first, second, comparison.why)
}

// Says what was asked and, last, what the answer is. Its steps are those of accepting::decide, but each has types of its own, so
// one function for both would take a closure for each step.
pub(crate) fn decide<'a>(
    rt: &HostRuntime,
    first: Start<'a>,
    second: Start<'a>,
    why: bool,
) -> Result<ExitCode, Failure> {
    let mut records = unsolved(rt.alloc(), MOST_VERTICES)?;
    let verdict = judge(first, second, &mut records)?;
    println!(rt;
        "asked: is every word that the first draft accepts from s{} accepted by the second from s{}?",
        first.state, second.state
    )?;
    if why && ask(first, second).is_ok() {
        let asked = first.state * second.draft.state_count() + second.state;
        explain(rt, &make(first, second), &records, asked)?;
    }
    let (answer, code) = match verdict {
        Containment::Contained => ("contained", ExitCode::SUCCESS),
        Containment::NotShown => ("not shown", ExitCode::FAILURE),
    };
    println!(rt; "{answer}")?;
    Ok(code)
}
