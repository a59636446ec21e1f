//! Answers to the calls of a seat.

use ame_rows::Bad;

/// Answers a seat that is to begin a member.
#[derive(Drop)]
pub enum Begin<M> {
    /// It runs this machine, of the oldest ready member that may begin.
    Begun(M),
    /// No ready member may begin, and some member is busy.
    Idle,
    /// A stop is kept, maybe since this call.
    Stopped,
}

/// Answers a check.
#[derive(Clone, Copy, PartialEq, Eq, Debug)]
pub enum Checked {
    /// Each read is valid.
    Valid,
    /// This read is the first that isn't.
    Invalid(Bad),
}

/// Answers an undo.
#[derive(Clone, Copy, PartialEq, Eq, Debug)]
pub enum Undone {
    /// Entries are left.
    More,
    /// None is left: the seat is idle, and its member is home.
    Home,
}

/// Answers a write.
#[derive(Clone, Copy, PartialEq, Eq, Debug)]
pub enum Wrote {
    /// The value is in place.
    Wrote,
    /// This other seat owns the cell, and the seat turns back.
    Conflict(u32),
}

/// Answers a seat whose row has come to its end, or to a place at which it can't go on.
#[derive(Clone, Copy, PartialEq, Eq, Debug)]
pub enum Noted {
    /// An entry was added for it.
    Noted,
    /// This read is the first that isn't valid.
    Invalid(Bad),
}

/// Answers a visit of unprotected code.
#[derive(Clone, Copy, PartialEq, Eq, Debug)]
pub enum Freed {
    /// An entry was added for it, and its member is home.
    Home,
    /// The device with this number failed, and its member is home as it was begun.
    DeviceFault(u8),
}
