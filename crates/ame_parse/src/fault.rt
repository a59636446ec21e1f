//! Why tokens are no program.

ghost use Rattle.std.specs.Prelude.{◌≡◌};
ghost use Rattle.ame_parse.specs.declared.fault.ParseFault.TheVariants.{NoMemory};

use std::alloc::{AllocError, AllocFailed};

/// The piece that is expected at a fault.
#[derive(Clone, Copy, Debug, PartialEq, Eq)]
pub enum Want {
    Term,
    /// A form's word or symbol.
    Form,
    Name,
    Ty,
    Effect,
    Sort,
    /// The number of a device.
    Device,
    /// The parenthesis before a parameter.
    Opening,
    /// The parenthesis that ends a form.
    Closing,
}

/// Why tokens are no program, with the place in bytes of the first token at which the reading can't go
/// on, or of the end.
#[derive(Clone, Copy, Debug, PartialEq, Eq)]
pub enum ParseFault {
    Expected(u32, Want),
    /// The name isn't bound around this place.
    UnknownName(u32),
    /// The parenthesis would be the 201st open one.
    TooNested(u32),
    /// A token after the program.
    Trailing(u32),
    NoMemory,
}

impl<T: Drop> From<AllocFailed<T>> for ParseFault {
    ghost from_gives = { λ _ e. e ≡ NoMemory };

    fn from(_failed: AllocFailed<T>) -> ParseFault {
        ParseFault::NoMemory
    }
}

impl From<AllocError> for ParseFault {
    ghost from_gives = { λ _ e. e ≡ NoMemory };

    fn from(_failed: AllocError) -> ParseFault {
        ParseFault::NoMemory
    }
}
