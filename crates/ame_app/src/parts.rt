//! The parts of a command next to its program: one in its input, one in its report without a run.

use crate::lists::Picks;
use ame_check::Reason;
use ame_journal::Journal;

/// The part before the text of a program in the bytes that a command is given.
#[derive(Drop)]
pub enum Front {
    Nothing,
    /// The picks of a schedule.
    Schedule(Picks),
    /// The journal of a certificate.
    Journal(Journal),
}

/// The part that a command adds to its report if no run was begun.
#[derive(Drop)]
pub enum ReportPart {
    Nothing,
    /// The reason why an entry of a certificate can't be made.
    Unmade(Reason),
}
