//! The faults for which cases aren't run.

use ame_term::NoMemory;
use std::alloc::{AllocError, AllocFailed};
use std::io;

/// Why a file gives no cases, or a case can't be run.
#[derive(Clone, Copy, Debug)]
pub enum Fault {
    /// The line of this number isn't one of the form.
    Line(usize, &'static str),
    /// A file can't be read, or the report not be written.
    Ends,
    NoMemory,
}

impl From<io::Error> for Fault {
    fn from(_error: io::Error) -> Fault {
        Fault::Ends
    }
}

impl From<AllocError> for Fault {
    fn from(_error: AllocError) -> Fault {
        Fault::NoMemory
    }
}

impl<T: Drop> From<AllocFailed<T>> for Fault {
    fn from(_error: AllocFailed<T>) -> Fault {
        Fault::NoMemory
    }
}

impl From<NoMemory> for Fault {
    fn from(_error: NoMemory) -> Fault {
        Fault::NoMemory
    }
}
