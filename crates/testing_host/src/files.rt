// Load over bytes.
use draft::{Draft, LoadFault, load};
use std::alloc::Global;

// What stands for want of memory, since C takes a number.
const NO_MEMORY: u64 = 99;

// Low byte first, since C takes a number: that of the refusal, the layer, and the low two bytes of the place.
fn code(fault: LoadFault) -> u64 {
    let refusal = u8::from(fault.refusal);
    let layer = u8::from(fault.layer);
    let [low, high, ..] = fault.place.to_le_bytes();
    u64::from_le_bytes([refusal, layer, low, high, 0, 0, 0, 0])
}

// Loads the bytes into a new draft, and writes the draft that is left, as far as there is room: 0, or the fault.
#[unsafe(no_mangle)]
pub extern "C" fn colvaje_testing_load(
    letters: u32,
    bytes: &[u8],
    out: &mut [u8],
    heap: Global,
) -> u64 {
    let Ok(mut draft) = Draft::new(heap) else {
        return NO_MEMORY;
    };
    let answer = load(&mut draft, letters, bytes).map_or_else(code, |()| 0);
    let Ok(left) = draft.records(heap) else {
        return NO_MEMORY;
    };
    // no `copy_from_slice`, which would have the archive ask for `memmove` from outside
    for (to, from) in out.iter_mut().zip(left.iter()) {
        *to = *from;
    }
    answer
}
