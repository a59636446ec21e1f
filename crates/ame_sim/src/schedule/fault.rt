//! The errors of a schedule's text.
ghost use Rattle.std.specs.Prelude.{◌≡◌};
ghost use Rattle.ame_sim.specs.declared.schedule.fault.ScheduleFault.{ScheduleFault};

use ame_term::NoMemory;

/// The reason why a text gave no schedule.
#[derive(Clone, Copy, PartialEq, Eq, Debug)]
pub enum ScheduleFault {
    /// It doesn't begin with a schedule's line and the line `program`.
    BadSchedule,
    NoMemory,
}

impl From<NoMemory> for ScheduleFault {
    ghost from_gives = { λ _ fault. fault ≡ ScheduleFault.NoMemory };

    fn from(_error: NoMemory) -> ScheduleFault {
        ScheduleFault::NoMemory
    }
}
