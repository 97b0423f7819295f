// Loads a draft from the records of a file.
ghost use Rattle.std.specs.Prelude.{◌≡◌};
ghost use Rattle.draft.specs.Load.{fault, load_file, take_record};
ghost use Rattle.draft.specs.Meaning.{meaning};
ghost use Rattle.draft.specs.declared.fault.Layer.TheVariants.{Draft as ByDraft, File as ByFile};

use crate::draft::Draft;
use crate::draft::letters::Letters;
use crate::fault::{Layer, LoadFault};
use crate::records::{decode, make};
use refusal::Refusal;

// A draft's refusal of the record at a place. It becomes the load's fault by `From` and the question mark, a rule of the project.
#[derive(Clone, Copy)]
pub struct Placed {
    refusal: Refusal,
    place: usize,
}

impl From<Placed> for LoadFault {
    ghost from_gives = { λ a r. r ≡ fault ByDraft a.place a.refusal };

    fn from(a: Placed) -> LoadFault {
        LoadFault {
            refusal: a.refusal,
            place: a.place,
            layer: Layer::Draft,
        }
    }
}

// Begins the draft with the given letters, and takes the records in order, each as the call that it names. A fault
// of the file leaves the draft as it was; a later fault leaves it with the records before the faulty one.
#[tactic(auto, using(crate::proofs::Folds::record_steps))]
pub fn load(draft: &mut Draft, letters: u32, bytes: &[u8]) -> Result<(), LoadFault>
    ensures { (result, meaning draft.new) ≡ load_file (meaning draft.old) letters bytes.now }
{
    let letters = Letters::try_from(letters).map_err(of_file)?;
    let (records, []) = bytes.as_chunks::<8>() else {
        return Err(of_file(Refusal::Length));
    };
    draft.restart(letters);
    for (place, record) in records.iter().enumerate() {
        take(draft, place, record)?;
    }
    Ok(())
}

// A fault of the file as a whole, whose place is 0 by definition. A `From` of a refusal could be a fault of a record too.
fn of_file(refusal: Refusal) -> LoadFault
    ensures { result ≡ fault ByFile 0 refusal }
{
    LoadFault {
        refusal,
        place: 0,
        layer: Layer::File,
    }
}

// Takes the record at a place as the call that it names.
fn take(draft: &mut Draft, place: usize, record: &[u8; 8]) -> Result<(), LoadFault>
    ensures { (result, meaning draft.new) ≡ take_record (meaning draft.old) place «record».now }
{
    let call = decode(record).map_err(|refusal| LoadFault {
        refusal,
        place,
        layer: Layer::Record,
    })?;
    make(draft, call).map_err(|refusal| Placed { refusal, place })?;
    Ok(())
}
