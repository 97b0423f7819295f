// What arenas answer, of vertices and positions that do not exist too.
use crate::bytes::vertex;
use arena::{Arena, Mirror, RecordNumber, ask, make};
use parity::Player;
use std::test::Fail;

#[test]
fn stored(rt: HostRuntime) -> Result<(), Fail> {
    let bytes = vertex(1, 300, 0, 0);
    ask(&bytes)?;
    let arena = make(&bytes);
    assert_eq!(rt; arena.count(), 1);
    assert_eq!(rt; arena.even_side(), Player::Zero);
    assert_eq!(rt; arena.owner(0), Player::One);
    assert_eq!(rt; arena.priority(0), 300);
    assert_eq!(rt; arena.degree(0), 2);
    assert_eq!(rt; arena.place(0), RecordNumber { number: 0 });
    assert_eq!(rt; arena.owner(1), Player::Zero);
    Ok(())
}

#[test]
fn elsewhere(rt: HostRuntime) -> Result<(), Fail> {
    let bytes = vertex(1, 300, 0, 0);
    ask(&bytes)?;
    let arena = make(&bytes);
    assert_eq!(rt; arena.priority(1), 0);
    assert_eq!(rt; arena.degree(usize::MAX), 0);
    assert_eq!(rt; arena.successor(1, 0), 0);
    assert_eq!(rt; arena.successor(0, 2), 0);
    assert_eq!(rt; arena.place(7), RecordNumber { number: 0 });
    Ok(())
}

#[test]
fn mirrored(rt: HostRuntime) -> Result<(), Fail> {
    let bytes = vertex(1, 300, 0, 0);
    ask(&bytes)?;
    let arena = make(&bytes);
    let mirror = Mirror { arena: &arena };
    assert_eq!(rt; mirror.even_side(), Player::One);
    assert_eq!(rt; mirror.owner(0), Player::Zero);
    assert_eq!(rt; mirror.owner(1), Player::Zero);
    assert_eq!(rt; mirror.priority(0), 300);
    assert_eq!(rt; mirror.degree(0), 2);
    assert_eq!(rt; mirror.count(), 1);
    Ok(())
}
