// What solve writes.
use crate::bytes::vertex;
use arena::{Arena, ask, make};
use game::{Outcome, solve};
use parity::Player;
use refusal::Refusal;
use ring_example::{Ring, solve_ring};
use std::test::Fail;
use test_data::OLD;

fn outcome(winner: Player, grade: u16, distance: u16, choice: u8) -> Outcome {
    Outcome {
        winner,
        grade,
        distance,
        choice,
    }
}

// Solves the stored arena in the bytes with records that hold something else at first.
fn solved(bytes: &[u8], out: &mut [Outcome]) -> Result<Result<(), Refusal>, Fail> {
    ask(bytes)?;
    let arena = make(bytes);
    Ok(solve(&arena, out))
}

#[test]
fn records_past_the_count_stay(rt: HostRuntime) -> Result<(), Fail> {
    let bytes = [vertex(0, 2, 1, 1), vertex(1, 3, 1, 1)].concat(rt.alloc())?;
    let mut out = [OLD; 3];
    assert_eq!(rt; solved(&bytes, &mut out)?, Ok(()));
    assert_eq!(rt; out[0], outcome(Player::Zero, 2, 0, 0));
    assert_eq!(rt; out[1], outcome(Player::One, 3, 0, 0));
    assert_eq!(rt; out[2], OLD);
    Ok(())
}

#[test]
fn too_few_records(rt: HostRuntime) -> Result<(), Fail> {
    let bytes = [vertex(0, 2, 1, 1), vertex(1, 3, 1, 1)].concat(rt.alloc())?;
    let mut out = [OLD; 1];
    assert_eq!(rt; solved(&bytes, &mut out)?, Err(Refusal::Room));
    assert_eq!(rt; out[0], OLD);
    Ok(())
}

// Vertex 0 passes priority 1 once, and vertex 1 has priority 2 for ever: the smallest priority of the whole play is 1, so the
// even side loses, though 2 is the smallest that recurs.
#[test]
fn the_whole_play_counts(rt: HostRuntime) -> Result<(), Fail> {
    let bytes = [vertex(0, 1, 1, 1), vertex(0, 2, 1, 1)].concat(rt.alloc())?;
    let mut out = [OLD; 2];
    assert_eq!(rt; solved(&bytes, &mut out)?, Ok(()));
    assert_eq!(rt; out[0], outcome(Player::One, 1, 0, 0));
    assert_eq!(rt; out[1], outcome(Player::Zero, 2, 0, 0));
    Ok(())
}

// A losing owner's move must not help the winner elsewhere: at 1 position 0 would pass priority 1.
#[test]
fn losers_have_moves_too(rt: HostRuntime) -> Result<(), Fail> {
    let three = [vertex(0, 2, 1, 1), vertex(0, 3, 2, 1), vertex(1, 1, 2, 2)];
    let mut out = [OLD; 3];
    assert_eq!(rt; solved(&three.concat(rt.alloc())?, &mut out)?, Ok(()));
    assert_eq!(rt; out[0], outcome(Player::Zero, 2, 0, 0));
    assert_eq!(rt; out[1], outcome(Player::One, 3, 0, 1));
    assert_eq!(rt; out[2], outcome(Player::One, 1, 0, 0));
    Ok(())
}

// A buyer's arena: a ring of two stations. Even priorities favour player 1. Player 0 at station 0 must keep or hand on, both of
// which meet priority 0 at once.
#[test]
fn a_buyers_arena(rt: HostRuntime) -> Result<(), Fail> {
    let mut out = [OLD; 2];
    let Some(ring) = Ring::new(2) else {
        return Err(Fail::new("the ring is refused"));
    };
    assert_eq!(rt; solve_ring(&ring, &mut out), Ok(()));
    assert_eq!(rt; out[0], outcome(Player::One, 0, 0, 0));
    assert_eq!(rt; out[1], outcome(Player::One, 0, 1, 0));
    Ok(())
}
