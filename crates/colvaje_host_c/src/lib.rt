// The archive for C: the call of `colvaje_host` under its C name. include/colvaje.h declares it.
#![tactic(auto)]

ghost use Rattle.colvaje_host.specs.HostAnswer.{AsMemoryAllows, host_answer};

use std::alloc::Global;

// 0 not shown, 1 contained; a refusal is 1,000 times the draft that it speaks of, or 0, plus 100 and its number.
#[unsafe(no_mangle)]
pub extern "C" fn colvaje_contain(
    letters: u32,
    first: &[u8],
    second: &[u8],
    first_state: u32,
    second_state: u32,
    heap: Global,
) -> u32
    ensures { AsMemoryAllows (host_answer letters first.now second.now first_state second_state) result }
{
    colvaje_host::colvaje_contain(letters, first, second, first_state, second_state, heap)
}
