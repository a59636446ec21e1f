//! The first fault of a program.

ghost use Rattle.std.specs.Prelude.{◌≡◌};

use crate::shared_type::SharedType;
use ame_term::{Effect, NoMemory, Sort, Ty};

/// Lists what a fault can show.
#[derive(Drop)]
pub enum Shown {
    Nothing,
    Ty(Ty),
    Effect(Effect),
    Sort(Sort),
    Device(u32),
}

/// A rule that a program breaks (`rule` names them), the place in the text, what was found there and
/// what was wanted.
#[derive(Drop)]
pub struct TypeFault {
    pub rule: u8,
    pub place: u32,
    pub found: Shown,
    pub wanted: Shown,
}

/// Why a check didn't accept a program.
#[derive(Drop)]
pub enum TypesFail {
    Fault(TypeFault),
    /// The types of the answer have more than 1,048,576 nodes together.
    TooLarge,
    NoMemory,
}

/// Lists what a fault can show, with types of a table.
#[derive(Clone, Copy)]
pub enum SharedShown<'t> {
    Nothing,
    Ty(SharedType<'t>),
    Effect(Effect),
    Sort(Sort),
    Device(u32),
}

/// A fault with types of a table.
#[derive(Clone, Copy)]
pub struct SharedFault<'t> {
    pub rule: u8,
    pub place: u32,
    pub found: SharedShown<'t>,
    pub wanted: SharedShown<'t>,
}

/// Why a part has no type. The fault is in a box, so that an answer is small.
#[derive(Drop)]
pub enum CheckFail<'t> {
    Fault(Box<SharedFault<'t>>),
    NoMemory,
}

impl From<NoMemory> for CheckFail<'_> {
    ghost use Rattle.ame_types.specs.declared.fault.CheckFail.TheVariants as fail;

    ghost from_gives = { λ _ e. e ≡ fail.NoMemory };

    fn from(_error: NoMemory) -> Self {
        CheckFail::NoMemory
    }
}
