// What the program is asked to do.
use crate::failure::Failure;
use std::alloc::Global;

// The names of files are the words that were typed.
#[derive(Drop)]
pub(crate) enum Command<'a> {
    Help,
    Demo,
    // whether the mirror is meant; as `why` below, what was typed, and tested in one place
    Solve { mirrored: bool, file: &'a str },
    Show(Source<'a>),
    Turn { source: Source<'a>, out: &'a str },
    Accept(Question<'a>),
    Contain(Comparison<'a>),
}

// A draft file, and the number of letters with which it is loaded.
#[derive(Clone, Copy)]
pub(crate) struct Source<'a> {
    pub(crate) letters: u32,
    pub(crate) file: &'a str,
}

// A draft file with the draft's initial state.
#[derive(Clone, Copy)]
pub(crate) struct Automaton<'a> {
    pub(crate) source: Source<'a>,
    pub(crate) state: usize,
}

// Whether an automaton accepts a word, and whether the reason is wanted.
#[derive(Drop)]
pub(crate) struct Question<'a> {
    pub(crate) automaton: Automaton<'a>,
    pub(crate) prefix: Vec<u8>,
    pub(crate) period: Vec<u8>,
    pub(crate) why: bool,
}

// Whether an automaton is contained in another, and whether the reason is wanted.
#[derive(Clone, Copy)]
pub(crate) struct Comparison<'a> {
    pub(crate) first: Automaton<'a>,
    pub(crate) second: Automaton<'a>,
    pub(crate) why: bool,
}

impl<'a> Command<'a> {
    // The command in the words after the program's name.
    pub(crate) fn parse(heap: Global, words: &[&'a str]) -> Result<Self, Failure> {
        match words {
            [] | ["demo"] => Ok(Command::Demo),
            ["--help" | "-h" | "help", ..] => Ok(Command::Help),
            ["solve", file] => Command::solve(false, file),
            ["solve", "--mirror", file] => Command::solve(true, file),
            ["show", letters, file] => Ok(Command::Show(Source::parse(letters, file)?)),
            ["turn", letters, file, out] => Command::turn(letters, file, out),
            ["accept", rest @ ..] => Ok(Command::Accept(Question::parse(heap, rest)?)),
            ["contain", rest @ ..] => Ok(Command::Contain(Comparison::parse(rest)?)),
            _ => Err(Failure::Usage),
        }
    }

    fn solve(mirrored: bool, file: &'a str) -> Result<Self, Failure> {
        let file = file_name(file)?;
        Ok(Command::Solve { mirrored, file })
    }

    fn turn(letters: &str, file: &'a str, out: &'a str) -> Result<Self, Failure> {
        let source = Source::parse(letters, file)?;
        let out = file_name(out)?;
        Ok(Command::Turn { source, out })
    }
}

impl<'a> Source<'a> {
    fn parse(letters: &str, file: &'a str) -> Result<Self, Failure> {
        let letters = number(letters)?;
        let file = file_name(file)?;
        Ok(Source { letters, file })
    }
}

impl<'a> Automaton<'a> {
    fn parse(letters: &str, file: &'a str, state: &str) -> Result<Self, Failure> {
        let source = Source::parse(letters, file)?;
        // read as a u32, so that a larger number is a fault of usage; there is no From<u32> for usize
        let state = number(state)? as usize;
        Ok(Automaton { source, state })
    }
}

impl<'a> Question<'a> {
    fn parse(heap: Global, words: &[&'a str]) -> Result<Self, Failure> {
        let (why, words) = without_why(words);
        let [letters, file, state, prefix, period] = words else {
            return Err(Failure::Usage);
        };
        Ok(Question {
            automaton: Automaton::parse(letters, file, state)?,
            prefix: word(heap, prefix)?,
            period: word(heap, period)?,
            why,
        })
    }
}

impl<'a> Comparison<'a> {
    fn parse(words: &[&'a str]) -> Result<Self, Failure> {
        let (why, words) = without_why(words);
        let [letters, first, first_state, second, second_state] = words else {
            return Err(Failure::Usage);
        };
        Ok(Comparison {
            first: Automaton::parse(letters, first, first_state)?,
            second: Automaton::parse(letters, second, second_state)?,
            why,
        })
    }
}

// Whether the first or the last word asks for the reason, and the other words, which are there in either case.
fn without_why<'a, 'b>(words: &'b [&'a str]) -> (bool, &'b [&'a str]) {
    match words {
        ["--why", rest @ ..] | [rest @ .., "--why"] => (true, rest),
        _ => (false, words),
    }
}

fn file_name(word: &str) -> Result<&str, Failure> {
    if word.starts_with("--") {
        return Err(Failure::Usage);
    }
    Ok(word)
}

fn number(word: &str) -> Result<u32, Failure> {
    word.parse().map_err(|_| Failure::Usage)
}

// A word typed one hexadecimal digit a letter.
fn word(heap: Global, text: &str) -> Result<Vec<u8>, Failure> {
    text.chars().map(letter).try_collect(heap)
}

fn letter(digit: char) -> Result<u8, Failure> {
    let value = digit.to_digit(16).ok_or(Failure::Usage)?;
    Ok(value as u8)
}

pub(crate) const USAGE: &str =
    "usage: colvaje [demo]                            the mailbox task and other examples
       colvaje solve [--mirror] FILE             who wins each vertex of the arena in FILE, or of its mirror
       colvaje show LETTERS FILE                 the draft in FILE, for a person
       colvaje turn LETTERS FILE OUT             writes the dual of the draft in FILE to OUT
       colvaje accept [--why] LETTERS FILE STATE PREFIX PERIOD
                                                 whether the draft accepts PREFIX followed by PERIOD for ever
       colvaje contain [--why] LETTERS FIRST STATE SECOND STATE
                                                 whether every word that FIRST accepts from its state is one of SECOND's
       colvaje --help                            this text

LETTERS is a number from 1 to 16. A word is typed one hexadecimal digit a letter; \"\" is the empty prefix.
solve prints a line a vertex, five whole numbers: vertex, winner, grade, distance, move.
accept and contain end with status 0 exactly when the last line is 'accepted' or 'contained'.";
