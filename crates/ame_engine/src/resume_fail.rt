//! Why no engine goes on from a base.

ghost use Rattle.std.specs.Prelude.{◌≡◌};

use ame_term::NoMemory;

/// Why no engine goes on from a base, whose entries are counted from 1.
#[derive(Clone, Copy, PartialEq, Eq, Debug)]
pub enum ResumeFail {
    /// This entry is the first with a new location that is too far for an engine's cells: 4,000,000 or more. It is looked for first.
    Far(u64),
    /// This entry is the first that passes a form whose value would be nested too deeply for a machine.
    Tall(u64),
    /// No more memory is there.
    NoMemory,
}

impl From<NoMemory> for ResumeFail {
    ghost use Rattle.ame_engine.specs.declared.resume_fail.ResumeFail.TheVariants as fail;

    ghost from_gives = { λ _ e. e ≡ fail.NoMemory };

    fn from(_error: NoMemory) -> ResumeFail {
        ResumeFail::NoMemory
    }
}
