//! A pick with its outcome.

use ame_shell::Outcome;

/// A pick with its outcome. A list of them describes a run, step by step.
#[derive(Clone, Copy, PartialEq, Eq, Debug)]
pub struct Made {
    pub seat: u32,
    /// The member that the seat had at work before, or otherwise the one that it has now.
    pub member: Option<u64>,
    pub outcome: Outcome,
    /// The location that it read, wrote, met, made or visited, or whose read it found stale.
    pub place: Option<u32>,
}
