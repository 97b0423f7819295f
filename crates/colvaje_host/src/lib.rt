// The call for C: whether one draft file is contained in another. The crate `colvaje_host_c` exports it.
#![tactic(auto)]

mod fault;

ghost use Rattle.std.specs.Prelude.{◌≡◌, MatchResult};
ghost use Rattle.draft.specs.Automaton.{empty};
ghost use Rattle.draft.specs.Load.{load_file};
ghost use Rattle.draft.specs.Meaning.{meaning as automaton};
ghost use Rattle.colvaje_host.specs.declared.fault.HostFault.TheVariants.{Memory};
ghost use Rattle.colvaje_host.specs.HostAnswer.{compared, once_loaded, host_answer, AsMemoryAllows};
ghost use Rattle.colvaje_host.specs.Faults.{said_number, loaded_as};

use contain::{ContainFault, Containment, Which, contain};
use draft::{Draft, Start, load};
use fault::HostFault;
use game::BLANK;
use std::alloc::Global;

// 0 not shown, 1 contained; a refusal is 1,000 times the draft that it speaks of, or 0, plus 100 and its number.
pub fn colvaje_contain(
    letters: u32,
    first: &[u8],
    second: &[u8],
    first_state: u32,
    second_state: u32,
    heap: Global,
) -> u32
    ensures { AsMemoryAllows (host_answer letters first.now second.now first_state second_state) result }
{
    let first = File {
        records: first,
        state: first_state,
    };
    let second = File {
        records: second,
        state: second_state,
    };
    match answer(letters, first, second, heap) {
        Ok(verdict) => u32::from(u8::from(verdict)),
        Err(fault) => u32::from(fault),
    }
}

// A draft file, and the initial state.
#[derive(Clone, Copy)]
struct File<'a> {
    records: &'a [u8],
    state: u32,
}

// Whether the first file's draft is contained in the second's. Both drafts are made before either file is
// loaded, so that want of memory is known first.
fn answer<'a>(
    letters: u32,
    first: File<'a>,
    second: File<'a>,
    heap: Global,
) -> Result<Containment, HostFault>
    ensures { AsMemoryAllows (host_answer letters first.entry.records.now second.entry.records.now first.entry.state second.entry.state) (said_number result) }
{
    let mut a = new_draft(Which::First, heap)?;
    let mut b = new_draft(Which::Second, heap)?;
    load_both(&mut a, &mut b, letters, first, second)
}

// Loads the first file, then the second, and compares the drafts.
fn load_both<'a>(
    a: &mut Draft,
    b: &mut Draft,
    letters: u32,
    first: File<'a>,
    second: File<'a>,
) -> Result<Containment, HostFault>
    ensures { said_number result ≡ once_loaded (load_file (automaton a.old) letters first.entry.records.now) (load_file (automaton b.old) letters second.entry.records.now) first.entry.state second.entry.state }
{
    fill(a, letters, first.records, Which::First)?;
    fill(b, letters, second.records, Which::Second)?;
    let first = Start {
        draft: a,
        state: first.state as usize,
    };
    let second = Start {
        draft: b,
        state: second.state as usize,
    };
    compare(first, second)
}

// An empty draft for the first or the second file.
fn new_draft(which: Which, heap: Global) -> Result<Draft, HostFault>
    ensures { MatchResult result (λ d. automaton d ≡ empty 1) (λ e. e ≡ Memory which) }
{
    Draft::new(heap).map_err(|_| HostFault::Memory(which))
}

// Loads the first or the second file into its draft.
fn fill(draft: &mut Draft, letters: u32, records: &[u8], which: Which) -> Result<(), HostFault>
    ensures { (result, automaton draft.new) ≡ loaded_as which (load_file (automaton draft.old) letters records.now) }
{
    load(draft, letters, records).map_err(|fault| {
        HostFault::Refused(ContainFault {
            refusal: fault.refusal,
            draft: Some(which),
        })
    })
}

// Contain's answer, with 4,096 records in fixed memory.
fn compare<'a>(first: Start<'a>, second: Start<'a>) -> Result<Containment, HostFault>
    ensures { said_number result ≡ compared (automaton first.entry.draft.now) first.entry.state (automaton second.entry.draft.now) second.entry.state }
{
    contain(first, second, &mut [BLANK; 4096]).map_err(HostFault::Refused)
}
