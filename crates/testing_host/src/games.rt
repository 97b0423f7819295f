// Solve over bytes.
use arena::{StoredFault, ask, make};
use game::{BLANK, Outcome, solve};

// Low byte first, since C takes a number: that of the refusal, and two bytes of the place plus 1, or of 0 where there is no place.
fn code(fault: StoredFault) -> u32 {
    let refusal = u8::from(fault.refusal);
    let place = fault.place.map_or(0, |place| place.saturating_add(1));
    let [low, high, ..] = place.to_le_bytes();
    u32::from_le_bytes([refusal, low, high, 0])
}

// The bytes of a record: winner, move, then grade and distance, low byte first.
fn bytes_of(o: &Outcome) -> [u8; 6] {
    let [grade, grade_high] = o.grade.to_le_bytes();
    let [distance, distance_high] = o.distance.to_le_bytes();
    let winner = u8::from(o.winner);
    [winner, o.choice, grade, grade_high, distance, distance_high]
}

// Writes the records, six bytes each, as far as there is room for them.
fn write_out(records: &[Outcome], out: &mut [u8]) {
    for (to, from) in out.iter_mut().zip(records.iter().flat_map(bytes_of)) {
        *to = from;
    }
}

// Solves the stored arena in the bytes so many times, and writes what was found the last time.
#[unsafe(no_mangle)]
pub extern "C" fn colvaje_testing_solve(bytes: &[u8], repeats: u32, out: &mut [u8]) -> u32 {
    solve_often(bytes, repeats, out).map_or_else(code, |()| 0)
}

fn solve_often(bytes: &[u8], repeats: u32, out: &mut [u8]) -> Result<(), StoredFault> {
    ask(bytes)?;
    let arena = make(bytes);
    // as many records as a stored arena can want
    let mut records = [BLANK; 4096];
    for _ in 0..repeats {
        let _ = solve(&arena, &mut records);
    }
    write_out(&records, out);
    Ok(())
}
