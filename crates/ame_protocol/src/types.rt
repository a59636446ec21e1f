//! Plain types of an engine.

/// Limits a run.
#[derive(Clone, Copy, PartialEq, Eq, Debug)]
pub struct Limits {
    /// Events that count.
    pub turns: u32,
    /// Steps between two checks of a row.
    pub slice: u32,
    pub seats: u32,
}

/// Records an attempt of a member: after the number `at` of entries, counted with the base, the member could make this number of steps.
#[derive(Clone, Copy, PartialEq, Eq, Debug)]
pub struct Tried {
    pub number: u64,
    pub at: u64,
    pub steps: u64,
}

/// Describes the work of a seat.
#[derive(Clone, Copy, PartialEq, Eq, Debug)]
pub struct Attempt {
    /// The member, with the entries and the steps at the last valid check, or at the beginning.
    pub tried: Tried,
    /// Says whether an entry was added for it.
    pub logged: bool,
}

/// Why a row is undone.
#[derive(Clone, Copy, PartialEq, Eq, Debug)]
pub enum UndoReason {
    /// Another seat was in its way, or a read isn't valid.
    RolledBack,
    /// It waits for what it read.
    Noted,
    /// A stop is kept.
    Stopped,
}

/// Describes the state of a seat.
#[derive(Clone, Copy, PartialEq, Eq, Debug)]
pub enum Task {
    Idle,
    /// It runs protected code.
    Running(Attempt),
    /// It runs unprotected code.
    Free(Attempt),
    Undoing(Attempt, UndoReason),
}
