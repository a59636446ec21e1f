//! The report of a device on itself.
use std::collections::LinkedList;

/// A call that a device answered.
#[derive(Clone, Copy, Debug, PartialEq, Eq)]
pub struct Heard {
    pub argument: i64,
    pub answer: i64,
}

/// The rule by which a device answers: how many calls it answered, the sum of the arguments, or one of its own.
pub enum DeviceKind {
    Counter,
    Adder,
    Other,
}

/// The view of a device in contracts: the calls that it heard, if it reports them, and its count of faults.
pub struct Told {
    pub kind: DeviceKind,
    pub heard: Option<LinkedList<Heard>>,
    pub faults: u64,
}
