//! A seat's work in flight, and the outcome of its turn.

use ame_rows::Bad;

/// A seat's work in flight, next to the engine.
#[derive(Drop)]
pub enum Work<M> {
    /// Nothing: it is idle.
    Idle,
    /// It runs this machine.
    Running(M),
    /// It undoes what it has at work.
    Undoing,
}

/// The outcome of a seat's turn.
#[derive(Clone, Copy, PartialEq, Eq, Debug)]
pub enum Outcome {
    /// It began a member.
    Began,
    /// Nothing: no ready member may begin.
    Waited,
    /// It has nothing at work, and a stop is kept.
    Stopped,
    Read,
    Wrote,
    /// It wrote to a cell of this seat, and turned back.
    Met(u32),
    Allocated,
    /// It found each of its reads valid.
    Checked,
    /// It found that this read isn't valid any more, and turned back.
    FoundInvalid(Bad),
    /// Its member ended.
    Ended,
    /// Its member came to `unprotected`.
    Left,
    /// It was to commit, and this read isn't valid any more, so that it turned back.
    Refused(Bad),
    /// Its member came to a condition that is false.
    Noted,
    /// It was to note such a condition, and this read isn't valid any more, so that it turned back.
    NotNoted(Bad),
    /// Its member came to a value nested too deeply, and that stop is kept.
    GrewTall,
    /// It was to note such a value, and this read isn't valid any more, so that it turned back.
    NotTall(Bad),
    /// It visited a member that is inside, which is home again.
    CameHome,
    /// This device failed in such a visit, and that stop is kept.
    DeviceFailed(u8),
    /// It has a member at work and the turns are used up: that stop is kept.
    Spent,
    /// It undid an entry.
    Undid,
    /// Nothing was left to undo, and its member went home.
    WentHome,
    /// Memory was lacking, and that stop is kept.
    Lacked,
}

/// A seat's turn: the member that the seat had at work, or otherwise the one that it has now, and the outcome.
#[derive(Clone, Copy, PartialEq, Eq, Debug)]
pub struct Turn {
    pub member: Option<u64>,
    pub outcome: Outcome,
}
