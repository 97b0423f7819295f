// What contain says, and the records.
use crate::drafts::{at, deep, noded, posted};
use contain::{ContainFault, Containment, contain, stratified};
use refusal::Refusal;
use std::test::Fail;
use test_data::{OLD, mailbox};

const NO_ROOM: ContainFault = ContainFault {
    refusal: Refusal::Room,
    draft: None,
};

// 6 pairs of states and 6 of nodes.
#[test]
fn the_mailbox(rt: HostRuntime) -> Result<(), Fail> {
    let mailbox = mailbox(rt.alloc())?;
    let posted = posted(rt.alloc())?;
    let mut records = [OLD; 13];
    assert_eq!(rt;
        contain(at(&mailbox, 0), at(&posted, 0), &mut records),
        Ok(Containment::Contained)
    );
    assert_eq!(rt; records[12], OLD);
    assert_eq!(rt;
        contain(at(&posted, 0), at(&mailbox, 0), &mut records),
        Ok(Containment::NotShown)
    );
    Ok(())
}

#[test]
fn exchanged(rt: HostRuntime) -> Result<(), Fail> {
    let mut mailbox = mailbox(rt.alloc())?;
    let mut posted = posted(rt.alloc())?;
    assert_eq!(rt; mailbox.turn().is_ok() && posted.turn().is_ok(), true);
    let mut records = [OLD; 12];
    assert_eq!(rt;
        contain(at(&posted, 0), at(&mailbox, 0), &mut records),
        Ok(Containment::Contained)
    );
    assert_eq!(rt;
        contain(at(&mailbox, 0), at(&posted, 0), &mut records),
        Ok(Containment::NotShown)
    );
    Ok(())
}

// 1 pair of states, with 63 by 65 and with 64 by 64 nodes.
#[test]
fn room(rt: HostRuntime) -> Result<(), Fail> {
    let mut records = [OLD; 4096];
    let (a, b) = (noded(rt.alloc(), 64)?, noded(rt.alloc(), 64)?);
    assert_eq!(rt; contain(at(&a, 0), at(&b, 0), &mut records), Err(NO_ROOM));
    assert_eq!(rt; records[0], OLD);
    let (a, b) = (noded(rt.alloc(), 63)?, noded(rt.alloc(), 65)?);
    assert_eq!(rt;
        contain(at(&a, 0), at(&b, 0), &mut records),
        Ok(Containment::Contained)
    );
    assert_eq!(rt;
        contain(at(&a, 0), at(&b, 0), &mut records[1..]),
        Err(NO_ROOM)
    );
    Ok(())
}

#[test]
fn forty_levels(rt: HostRuntime) -> Result<(), Fail> {
    assert!(rt; stratified(&deep(rt.alloc(), 7)?));
    assert!(rt; !stratified(&deep(rt.alloc(), 8)?));
    Ok(())
}
