// The refusals of contain in their order, with the draft that each speaks of.
use crate::drafts::{at, lacking, rising, steady};
use contain::{ContainFault, Which, ask};
use draft::Draft;
use refusal::Refusal;
use std::test::Fail;

fn of(which: Which, refusal: Refusal) -> Result<(), ContainFault> {
    Err(ContainFault {
        refusal,
        draft: Some(which),
    })
}

const ALPHABETS: Result<(), ContainFault> = Err(ContainFault {
    refusal: Refusal::Alphabets,
    draft: None,
});

// Each fault of a pair comes before the next.
#[test]
fn in_order(rt: HostRuntime) -> Result<(), Fail> {
    let (lacking, rising, wide) = (
        lacking(rt.alloc())?,
        rising(rt.alloc(), 1)?,
        rising(rt.alloc(), 2)?,
    );
    assert_eq!(rt;
        ask(at(&lacking, 1), at(&lacking, 1)),
        of(Which::First, Refusal::Incomplete)
    );
    assert_eq!(rt;
        ask(at(&wide, 2), at(&lacking, 1)),
        of(Which::Second, Refusal::Incomplete)
    );
    assert_eq!(rt; ask(at(&wide, 2), at(&rising, 2)), ALPHABETS);
    assert_eq!(rt;
        ask(at(&rising, 2), at(&rising, 2)),
        of(Which::First, Refusal::NoState)
    );
    assert_eq!(rt;
        ask(at(&rising, 1), at(&rising, 2)),
        of(Which::Second, Refusal::NoState)
    );
    assert_eq!(rt;
        ask(at(&rising, 1), at(&rising, 1)),
        of(Which::First, Refusal::NotStratified)
    );
    Ok(())
}

#[test]
fn the_second_is_stratified(rt: HostRuntime) -> Result<(), Fail> {
    let (steady, rising) = (steady(rt.alloc(), 1, &[1])?, rising(rt.alloc(), 1)?);
    assert_eq!(rt;
        ask(at(&steady, 0), at(&rising, 0)),
        of(Which::Second, Refusal::NotStratified)
    );
    assert_eq!(rt; ask(at(&steady, 0), at(&steady, 0)), Ok(()));
    Ok(())
}

// Nothing is missing in a draft without states, but no state exists.
#[test]
fn without_states(rt: HostRuntime) -> Result<(), Fail> {
    let (none, steady, lacking) = (
        Draft::new(rt.alloc())?,
        steady(rt.alloc(), 1, &[1])?,
        lacking(rt.alloc())?,
    );
    assert_eq!(rt;
        ask(at(&none, 0), at(&lacking, 0)),
        of(Which::Second, Refusal::Incomplete)
    );
    assert_eq!(rt;
        ask(at(&none, 0), at(&none, 0)),
        of(Which::First, Refusal::NoState)
    );
    assert_eq!(rt;
        ask(at(&steady, 0), at(&none, 0)),
        of(Which::Second, Refusal::NoState)
    );
    Ok(())
}
