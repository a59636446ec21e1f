//! Why a replay doesn't come to its end.

ghost use Rattle.std.specs.Prelude.{◌≡◌};

use crate::reason::Reason;
use ame_term::NoMemory;

/// Why a replay doesn't come to the end of its entries, which are counted from 1.
#[derive(Clone, Copy, PartialEq, Eq, Debug)]
pub enum Halt {
    /// This entry is the first that can't be made, for this reason.
    Undefined(u64, Reason),
    /// All before this entry can be made, and it passes a form whose value would be too high for a machine.
    Tall(u64),
    /// No more memory is there.
    NoMemory,
}

impl From<NoMemory> for Halt {
    ghost use Rattle.ame_check.specs.declared.halt.Halt.TheVariants as halt;

    ghost from_gives = { λ _ e. e ≡ halt.NoMemory };

    fn from(_error: NoMemory) -> Halt {
        Halt::NoMemory
    }
}
