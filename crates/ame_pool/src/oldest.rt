//! Which member begins.

/// The oldest ready member that may begin, or why there is none.
#[derive(Clone, Copy, PartialEq, Eq, Debug)]
pub enum Oldest {
    Member(u64),
    /// No ready member may begin, and some member is busy.
    Wait,
    /// There are members, and all are parked.
    Parked,
    /// There is no member.
    Empty,
}
