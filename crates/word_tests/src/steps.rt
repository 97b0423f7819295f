// The rest of the piece that holds a letter.
use refusal::Refusal;
use word::Word;

// What step answers where the bytes are the rest of the piece.
fn rest(bytes: &[u8]) -> Result<&[u8], Refusal> {
    Ok(bytes)
}

#[test]
fn in_the_prefix_and_at_its_end(rt: HostRuntime) {
    let word = Word {
        prefix: &[1, 2],
        period: &[3, 4, 5],
    };
    assert_eq!(rt; word.step(0), rest(&[1, 2]));
    assert_eq!(rt; word.step(1), rest(&[2]));
    assert_eq!(rt; word.step(2), rest(&[3, 4, 5]));
    let steady = Word {
        prefix: &[],
        period: &[7],
    };
    assert_eq!(rt; steady.step(0), rest(&[7]));
}

#[test]
fn far_in_the_period(rt: HostRuntime) {
    let word = Word {
        prefix: &[1, 2],
        period: &[3, 4, 5],
    };
    assert_eq!(rt; word.step(6), rest(&[4, 5]));
    assert_eq!(rt; word.step(3_000_001), rest(&[5]));
    // 2^64 - 1 - 2 is a multiple of 3 and 1 more
    assert_eq!(rt; word.step(usize::MAX), rest(&[4, 5]));
}

#[test]
fn no_period(rt: HostRuntime) {
    let word = Word {
        prefix: &[1, 2],
        period: &[],
    };
    assert_eq!(rt; word.step(0), Err(Refusal::Word));
}
