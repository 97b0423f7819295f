// The mailbox task from beginning to end, and small games.
use crate::drafts::{loaded, print};
use crate::failure::Failure;
use crate::solving::solve_bytes;
use crate::{accepting, containing};
use draft::Start;
use word::Word;

// The mailbox drawing, a record a line: states, leaves, rules for post (0), rules for take (1).
const MAILBOX: [u8; 96] = *b"\x01\0\x02\0\0\0\0\0\
    \x01\0\x02\0\0\0\0\0\
    \x01\0\x01\0\0\0\0\0\
    \x02\0\0\0\0\0\0\0\
    \x02\0\x01\0\0\0\0\0\
    \x02\0\x02\0\0\0\0\0\
    \x05\0\0\0\x01\0\0\0\
    \x05\0\x01\0\x02\0\0\0\
    \x05\0\x02\0\x02\0\0\0\
    \x05\x01\0\0\x02\0\0\0\
    \x05\x01\x01\0\0\0\0\0\
    \x05\x01\x02\0\x02\0\0\0";

// The mailbox rule: something is posted at some time.
const RULE: [u8; 64] = *b"\x01\0\x01\0\0\0\0\0\
    \x01\0\0\0\0\0\0\0\
    \x02\0\0\0\0\0\0\0\
    \x02\0\x01\0\0\0\0\0\
    \x05\0\0\0\x01\0\0\0\
    \x05\0\x01\0\x01\0\0\0\
    \x05\x01\0\0\0\0\0\0\
    \x05\x01\x01\0\x01\0\0\0";

// Two vertices: 0 leads to 1, and 1 to itself.
const TWO: [u8; 16] = *b"\0\0\x02\0\x01\0\x01\0\
    \x01\0\x03\0\x01\0\x01\0";

// Three vertices: at 1 the loser has to keep away from priority 1.
const THREE: [u8; 24] = *b"\0\0\x02\0\x01\0\x01\0\
    \0\0\x03\0\x02\0\x01\0\
    \x01\0\x01\0\x02\0\x02\0";

pub(crate) fn run(rt: &HostRuntime) -> Result<(), Failure> {
    let drawing = loaded(rt, 2, &MAILBOX)?;
    let rule = loaded(rt, 2, &RULE)?;
    println!(rt; "A pair of tasks posts (letter 0) and takes (letter 1) in turn:")?;
    print(rt, &drawing)?;
    println!(rt; "")?;
    println!(rt; "The mailbox rule:")?;
    print(rt, &rule)?;
    println!(rt; "")?;
    let drawing = Start {
        draft: &drawing,
        state: 0,
    };
    let rule = Start {
        draft: &rule,
        state: 0,
    };
    run_words(rt, drawing)?;
    println!(rt;
        "May the pair use the mailbox? The drawing is the first draft, the rule the second."
    )?;
    // the demonstration goes on whatever is answered
    let _ = containing::decide(rt, drawing, rule, true);
    println!(rt; "")?;
    println!(rt; "The other way round:")?;
    let _ = containing::decide(rt, rule, drawing, false);
    println!(rt; "")?;
    run_games(rt)
}

// Two words of the drawing.
fn run_words(rt: &HostRuntime, drawing: Start<'_>) -> Result<(), Failure> {
    println!(rt; "Words of the drawing:")?;
    let in_turn = Word {
        prefix: &[],
        period: &[0, 1],
    };
    let never_posts_again = Word {
        prefix: &[0],
        period: &[1],
    };
    // the demonstration goes on whatever is answered
    let _ = accepting::decide(rt, drawing, in_turn, false);
    let _ = accepting::decide(rt, drawing, never_posts_again, false);
    Ok(println!(rt; "")?)
}

// Small games, solved.
fn run_games(rt: &HostRuntime) -> Result<(), Failure> {
    println!(rt;
        "A game of two vertices, won by the smallest priority of the whole play; then its mirror:"
    )?;
    solve_bytes(rt, false, &TWO)?;
    solve_bytes(rt, true, &TWO)?;
    println!(rt; "A game in which the loser's move at vertex 1 matters:")?;
    solve_bytes(rt, false, &THREE)
}
