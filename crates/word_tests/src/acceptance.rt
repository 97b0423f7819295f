// What accept answers.
use crate::drafts::{incomplete, once};
use draft::{Draft, Start};
use refusal::Refusal;
use std::test::Fail;
use test_data::{OLD, mailbox};
use word::{Verdict, Word, accept};

// The answer with room for 512 vertices.
fn asked<'a>(
    draft: &'a Draft,
    state: usize,
    prefix: &'a [u8],
    period: &'a [u8],
) -> Result<Verdict, Refusal> {
    let mut records = [OLD; 512];
    accept(
        Start { draft, state },
        Word { prefix, period },
        &mut records,
    )
}

#[test]
fn the_mailbox(rt: HostRuntime) -> Result<(), Fail> {
    let draft = mailbox(rt.alloc())?;
    assert_eq!(rt; asked(&draft, 0, &[], &[0, 1]), Ok(Verdict::Accepted));
    assert_eq!(rt; asked(&draft, 0, &[0], &[1]), Ok(Verdict::Rejected));
    assert_eq!(rt; asked(&draft, 1, &[], &[1, 0]), Ok(Verdict::Accepted));
    assert_eq!(rt; asked(&draft, 2, &[], &[0]), Ok(Verdict::Rejected));
    Ok(())
}

#[test]
fn turned(rt: HostRuntime) -> Result<(), Fail> {
    let mut draft = mailbox(rt.alloc())?;
    assert_eq!(rt; draft.turn(), Ok(()));
    assert_eq!(rt; asked(&draft, 0, &[], &[0, 1]), Ok(Verdict::Rejected));
    assert_eq!(rt; asked(&draft, 0, &[0], &[1]), Ok(Verdict::Accepted));
    Ok(())
}

// A path that passes priority 1 once and stays at 2 for ever is rejected: the smallest of the whole path counts.
#[test]
fn the_whole_path_counts(rt: HostRuntime) -> Result<(), Fail> {
    let draft = once(rt.alloc())?;
    assert_eq!(rt; asked(&draft, 0, &[], &[0]), Ok(Verdict::Rejected));
    assert_eq!(rt; asked(&draft, 1, &[], &[0]), Ok(Verdict::Accepted));
    Ok(())
}

#[test]
fn sixty_four_letters(rt: HostRuntime) -> Result<(), Fail> {
    let draft = mailbox(rt.alloc())?;
    assert_eq!(rt; asked(&draft, 0, &[0; 63], &[0]), Ok(Verdict::Rejected));
    assert_eq!(rt; asked(&draft, 0, &[0; 64], &[0]), Err(Refusal::Word));
    assert_eq!(rt; asked(&draft, 0, &[], &[0; 64]), Ok(Verdict::Rejected));
    assert_eq!(rt; asked(&draft, 0, &[], &[0; 65]), Err(Refusal::Word));
    Ok(())
}

// Each question comes before the next.
#[test]
fn refusals_in_order(rt: HostRuntime) -> Result<(), Fail> {
    let draft = mailbox(rt.alloc())?;
    let lacking = incomplete(rt.alloc())?;
    assert_eq!(rt; asked(&lacking, 3, &[9], &[]), Err(Refusal::Incomplete));
    assert_eq!(rt; asked(&draft, 3, &[9], &[]), Err(Refusal::NoState));
    assert_eq!(rt; asked(&draft, 2, &[9], &[]), Err(Refusal::Word));
    assert_eq!(rt; asked(&draft, 2, &[9], &[0]), Err(Refusal::NoLetter));
    assert_eq!(rt; asked(&draft, 2, &[0], &[0, 2]), Err(Refusal::NoLetter));
    Ok(())
}

// One step has six vertices, three states and three nodes.
#[test]
fn room(rt: HostRuntime) -> Result<(), Fail> {
    let draft = mailbox(rt.alloc())?;
    let start = Start {
        draft: &draft,
        state: 0,
    };
    let word = Word {
        prefix: &[],
        period: &[0],
    };
    let mut five = [OLD; 5];
    assert_eq!(rt; accept(start, word, &mut five), Err(Refusal::Room));
    assert_eq!(rt; five[0], OLD);
    let mut seven = [OLD; 7];
    assert_eq!(rt; accept(start, word, &mut seven), Ok(Verdict::Rejected));
    assert_eq!(rt; seven[6], OLD);
    Ok(())
}
