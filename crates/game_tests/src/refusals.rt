// Which question about a stored arena is answered no first, and at which record.
use crate::bytes::vertex;
use arena::{StoredFault, ask};
use refusal::Refusal;
use std::test::Fail;

fn refused(refusal: Refusal, place: Option<usize>) -> Result<usize, StoredFault> {
    Err(StoredFault { refusal, place })
}

#[test]
fn numbers(rt: HostRuntime) {
    assert_eq!(rt; u8::from(Refusal::Length), 9);
    assert_eq!(rt; u8::from(Refusal::Room), 14);
    assert_eq!(rt; u8::from(Refusal::VertexCount), 17);
    assert_eq!(rt; u8::from(Refusal::VertexOwner), 18);
    assert_eq!(rt; u8::from(Refusal::VertexPriority), 19);
    assert_eq!(rt; u8::from(Refusal::VertexTarget), 20);
}

#[test]
fn lengths(rt: HostRuntime) -> Result<(), Fail> {
    let bytes = [vertex(0, 2, 1, 1), vertex(1, 3, 1, 1)].concat(rt.alloc())?;
    assert!(rt; bytes.len() == 16);
    assert_eq!(rt; ask(&bytes[0..16]), Ok(2));
    assert_eq!(rt;
        ask(&bytes[0..15]),
        refused(Refusal::Length, None),
        "one byte short"
    );
    assert_eq!(rt;
        ask(&bytes[0..9]),
        refused(Refusal::Length, None),
        "one byte over"
    );
    assert_eq!(rt;
        ask(&bytes[0..0]),
        refused(Refusal::VertexCount, None),
        "no record"
    );
    Ok(())
}

#[test]
fn counts(rt: HostRuntime) -> Result<(), Fail> {
    let one = vertex(0, 0, 0, 0);
    assert_eq!(rt; ask(&one.repeat(rt.alloc(), 1)?), Ok(1));
    assert_eq!(rt; ask(&one.repeat(rt.alloc(), 4096)?), Ok(4096));
    assert_eq!(rt;
        ask(&one.repeat(rt.alloc(), 4097)?),
        refused(Refusal::VertexCount, None)
    );
    Ok(())
}

#[test]
fn records(rt: HostRuntime) {
    assert_eq!(rt;
        ask(&vertex(2, 0, 0, 0)),
        refused(Refusal::VertexOwner, Some(0))
    );
    assert_eq!(rt;
        ask(&[0, 1, 0, 0, 0, 0, 0, 0]),
        refused(Refusal::VertexOwner, Some(0))
    );
    assert_eq!(rt; ask(&vertex(1, 9999, 0, 0)), Ok(1));
    assert_eq!(rt;
        ask(&vertex(1, 10000, 0, 0)),
        refused(Refusal::VertexPriority, Some(0))
    );
    assert_eq!(rt;
        ask(&vertex(1, 9999, 1, 0)),
        refused(Refusal::VertexTarget, Some(0))
    );
    assert_eq!(rt;
        ask(&vertex(1, 9999, 0, 1)),
        refused(Refusal::VertexTarget, Some(0))
    );
}

#[test]
fn first_fault_first(rt: HostRuntime) -> Result<(), Fail> {
    // all three faults in one record: the order of the questions decides
    assert_eq!(rt;
        ask(&vertex(2, 10000, 9, 9)),
        refused(Refusal::VertexOwner, Some(0))
    );
    assert_eq!(rt;
        ask(&vertex(0, 10000, 9, 9)),
        refused(Refusal::VertexPriority, Some(0))
    );
    // faults in several records: the first record decides
    let three = [vertex(0, 1, 0, 0), vertex(0, 1, 0, 3), vertex(2, 1, 0, 0)];
    assert_eq!(rt;
        ask(&three.concat(rt.alloc())?),
        refused(Refusal::VertexTarget, Some(1))
    );
    // a fault of the whole comes before any record's
    let bytes = [vertex(2, 1, 0, 0), vertex(0, 1, 0, 0)].concat(rt.alloc())?;
    assert!(rt; bytes.len() == 16);
    assert_eq!(rt; ask(&bytes[0..12]), refused(Refusal::Length, None));
    Ok(())
}
