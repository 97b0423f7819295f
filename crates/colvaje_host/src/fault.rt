// Why the call for C gives no verdict, and the number that it answers then.
ghost use Rattle.std.specs.Prelude.{◌≡◌};
ghost use Rattle.colvaje_host.specs.Faults.{fault_number};

use contain::{ContainFault, Which};

// The number of want of memory, which is no refusal: C takes a number.
const NO_MEMORY: u8 = 99;

#[derive(Clone, Copy)]
pub(crate) enum HostFault {
    // there was no memory for one of the drafts
    Memory(Which),
    // a file was not loaded, or the drafts were not compared
    Refused(ContainFault),
}

// 1,000 times the draft that the fault speaks of, or 0, plus 100 and the number of the refusal.
impl From<HostFault> for u32 {
    ghost from_gives = { λ a r. r ≡ fault_number a };

    fn from(fault: HostFault) -> u32 {
        let (draft, number) = match fault {
            HostFault::Memory(which) => (Some(which), NO_MEMORY),
            HostFault::Refused(fault) => (fault.draft, u8::from(fault.refusal)),
        };
        1000 * u32::from(draft.map_or(0, u8::from)) + 100 + u32::from(number)
    }
}
