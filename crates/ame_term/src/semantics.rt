//! The labels of a run of the strong semantics.

use crate::types::Loc;

/// The kind of a reduction. `Alloc` names the fresh location and `Device` the answer.
#[derive(Clone, Copy, PartialEq, Eq, Debug)]
pub enum StepKind {
    Local,
    Alloc(Loc),
    Read,
    Peek,
    Write,
    Spawn,
    Print,
    Block,
    Device(i64),
}

/// One step of a run. `Step` is a reduction of the active member; `Free` one of a member that stands
/// under `unprotected` while nothing is active.
#[derive(Clone, Copy, PartialEq, Eq, Debug)]
pub enum Label {
    Activate(u64),
    Step(StepKind),
    Leave,
    End,
    Free(u64, StepKind),
    Close(u64),
}
