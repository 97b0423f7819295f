// Whether a draft accepts a word, and why.
use crate::command::Question;
use crate::drafts::read;
use crate::failure::Failure;
use crate::solving::unsolved;
use crate::why::explain;
use draft::Start;
use std::fmt;
use std::process::ExitCode;
use word::{MOST_VERTICES, Verdict, Word, accept, ask, make};

pub(crate) fn accept_file(rt: &HostRuntime, question: &Question<'_>) -> Result<ExitCode, Failure> {
    let draft = read(rt, question.automaton.source)?;
    let start = Start {
        draft: &draft,
        state: question.automaton.state,
    };
    let word = Word {
        prefix: &question.prefix,
        period: &question.period,
    };
    decide(rt, start, word, question.why)
}

// Says what was asked and, last, what the answer is.
pub(crate) fn decide<'a>(
    rt: &HostRuntime,
    start: Start<'a>,
    word: Word<'a>,
    why: bool,
) -> Result<ExitCode, Failure> {
    let mut records = unsolved(rt.alloc(), MOST_VERTICES)?;
    let verdict = accept(start, word, &mut records)?;
    println!(rt;
        "asked: is it accepted from s{}, the word {}({}) for ever?",
        start.state,
        Letters(word.prefix),
        Letters(word.period)
    )?;
    if why && ask(start, word).is_ok() {
        // a state at step 0 has its own number
        explain(rt, &make(start, word), &records, start.state)?;
    }
    let (answer, code) = match verdict {
        Verdict::Accepted => ("accepted", ExitCode::SUCCESS),
        Verdict::Rejected => ("rejected", ExitCode::FAILURE),
    };
    println!(rt; "{answer}")?;
    Ok(code)
}

// Letters as they are typed, one hexadecimal digit each.
#[derive(Clone, Copy)]
struct Letters<'a>(&'a [u8]);

impl fmt::Display for Letters<'_> {
    fn fmt<W: fmt::Write>(&self, f: &mut fmt::Formatter<W>) -> fmt::Result {
        for letter in self.0 {
            write!(f, "{letter:x}")?;
        }
        Ok(())
    }
}
