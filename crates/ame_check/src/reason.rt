//! Why an entry can't be made.

use ame_machine::Wants;
use ame_term::Loc;

/// Why an entry can't be made after the entries before it. Steps are counted from the entry's first.
#[derive(Clone, Copy, PartialEq, Eq, Debug)]
pub enum Reason {
    /// No member has its number.
    NoMember,
    /// The member is under `unprotected`, and goes on by `Free` entries alone; or, for a `Stuck` note, it stands there.
    Inside,
    /// The member isn't under `unprotected`, and a `Free` entry goes on only there.
    Outside,
    /// It is a `Free` entry of no steps.
    NoSteps,
    /// It has an answer, and no call takes it.
    Answered,
    /// After this number of steps the member calls a device, and the entry has no answer.
    Unanswered(u64),
    /// After this number of steps the member wants this, by which it doesn't go on, or end, as the entry says.
    Stops(u64, Wants),
    /// After this number of steps the member makes a new location, and the entry has no further one.
    Missing(u64),
    /// After this number of steps the member makes a new location, and the one in the entry has a value.
    Taken(u64, Loc),
    /// After this number of steps no further location is made, and this one of the entry isn't used.
    Unused(u64, Loc),
}
