//! Why a runtime stops.

/// Why no member begins any more.
#[derive(Clone, Copy, PartialEq, Eq, Debug)]
pub enum Stop {
    /// No member is left.
    Finished,
    /// Members are left, and all of them are parked.
    Blocked,
    /// Members are left, and the turns are used up.
    Spent,
    /// This member came to a value nested too deeply.
    Tall(u64),
    /// Memory was lacking.
    NoMemory,
    /// Output couldn't be written.
    WriteFault,
    /// This device failed.
    DeviceFault(u8),
}
