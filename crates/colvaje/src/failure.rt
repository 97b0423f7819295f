// Why the program ends without an answer, and the line that says so.
use crate::command::USAGE;
use arena::StoredFault;
use contain::{ContainFault, Which};
use draft::{Layer, LoadFault};
use refusal::Refusal;
use std::alloc::{AllocError, AllocFailed};
use std::{fmt, io};

#[derive(Drop)]
pub(crate) enum Failure {
    // the arguments are no command
    Usage,
    // a file cannot be read, or not be written
    Unreadable(String, io::Error),
    Unwritable(String, io::Error),
    // a question was answered no, the question as a whole or that about a part
    Refused(Refusal, Option<About>),
    // the answer cannot be written
    Output(io::Error),
    Memory,
}

// What a refusal speaks of.
#[derive(Clone, Copy)]
pub(crate) enum About {
    // the record of a vertex
    Vertex(usize),
    // a draft file as a whole
    File,
    // the bytes of a draft's record
    Bytes(usize),
    // the call that a draft's record names
    Call(usize),
    // one of two drafts
    Draft(Which),
}

impl fmt::Display for About {
    fn fmt<W: fmt::Write>(&self, f: &mut fmt::Formatter<W>) -> fmt::Result {
        match *self {
            About::Vertex(place) => write!(f, "record {place}"),
            About::File => f.write_str("the file"),
            About::Bytes(place) => write!(f, "record {place}, its bytes"),
            About::Call(place) => write!(f, "record {place}, its call"),
            About::Draft(which) => write!(f, "draft {}", u8::from(which)),
        }
    }
}

// One line, or the usage.
impl fmt::Display for Failure {
    fn fmt<W: fmt::Write>(&self, f: &mut fmt::Formatter<W>) -> fmt::Result {
        match self {
            Failure::Usage => f.write_str(USAGE),
            Failure::Unreadable(file, error) => write!(f, "cannot read {file}: {error}"),
            Failure::Unwritable(file, error) => write!(f, "cannot write {file}: {error}"),
            Failure::Refused(refusal, None) => {
                write!(f, "refused {}: {refusal}", u8::from(*refusal))
            }
            Failure::Refused(refusal, Some(about)) => {
                write!(f, "refused {}: {about}: {refusal}", u8::from(*refusal))
            }
            Failure::Output(error) => write!(f, "cannot write the answer: {error}"),
            Failure::Memory => f.write_str("out of memory"),
        }
    }
}

// By hand, as std derives no From and thiserror, which does, would serve these three alone.
impl From<io::Error> for Failure {
    fn from(error: io::Error) -> Self {
        Failure::Output(error)
    }
}

impl From<AllocError> for Failure {
    fn from(_error: AllocError) -> Self {
        Failure::Memory
    }
}

impl<T: Drop> From<AllocFailed<T>> for Failure {
    fn from(_refused: AllocFailed<T>) -> Self {
        Failure::Memory
    }
}

impl From<StoredFault> for Failure {
    fn from(fault: StoredFault) -> Self {
        Failure::Refused(fault.refusal, fault.place.map(About::Vertex))
    }
}

impl From<LoadFault> for Failure {
    fn from(fault: LoadFault) -> Self {
        let about = match fault.layer {
            Layer::File => About::File,
            Layer::Record => About::Bytes(fault.place),
            Layer::Draft => About::Call(fault.place),
        };
        Failure::Refused(fault.refusal, Some(about))
    }
}

impl From<ContainFault> for Failure {
    fn from(fault: ContainFault) -> Self {
        Failure::Refused(fault.refusal, fault.draft.map(About::Draft))
    }
}

impl From<Refusal> for Failure {
    fn from(refusal: Refusal) -> Self {
        Failure::Refused(refusal, None)
    }
}
