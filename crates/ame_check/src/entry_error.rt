//! Why an entry isn't made.

ghost use Rattle.std.specs.Prelude.{◌≡◌};

use crate::halt::Halt;
use crate::reason::Reason;
use ame_term::NoMemory;
use std::alloc::{AllocError, AllocFailed};

/// Why an entry isn't made.
#[derive(Clone, Copy, PartialEq, Eq, Debug)]
pub enum EntryError {
    /// It can't be made, for this reason.
    Undefined(Reason),
    /// It passes a form whose value would be too high for a machine.
    Tall,
    /// Memory ran out.
    NoMemory,
}

impl From<NoMemory> for EntryError {
    ghost use Rattle.ame_check.specs.declared.entry_error.EntryError.TheVariants as error;

    ghost from_gives = { λ _ e. e ≡ error.NoMemory };

    fn from(_error: NoMemory) -> EntryError {
        EntryError::NoMemory
    }
}

impl<T: Drop> From<AllocFailed<T>> for EntryError {
    ghost use Rattle.ame_check.specs.declared.entry_error.EntryError.TheVariants as error;

    ghost from_gives = { λ _ e. e ≡ error.NoMemory };

    fn from(_error: AllocFailed<T>) -> EntryError {
        EntryError::NoMemory
    }
}

impl EntryError {
    ghost use Rattle.ame_check.specs.Judge.{halted_at};

    /// Returns why a replay ends at the entry at this place.
    pub fn at(self, place: u64) -> Halt
        ensures { result ≡ halted_at place self }
    {
        match self {
            EntryError::Undefined(why) => Halt::Undefined(place, why),
            EntryError::Tall => Halt::Tall(place),
            EntryError::NoMemory => Halt::NoMemory,
        }
    }
}
