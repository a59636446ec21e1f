//! Why a device doesn't answer.

/// Why a call of a device has no answer.
#[derive(Clone, Copy, Debug, PartialEq, Eq)]
pub enum DeviceFail {
    /// The device had a fault in this call, and counted it.
    Failed,
    NoMemory,
}
