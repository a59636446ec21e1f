//! The member or the stop that a seat meets when it is to begin a member.

ghost use Rattle.std.specs.Prelude.{◌≡◌};
ghost use Rattle.ame_engine.specs.Begins as spec;

use ame_pool::Oldest;

/// Says what a seat meets when it is to begin a member.
#[derive(Clone, Copy, PartialEq, Eq, Debug)]
pub enum Pick {
    /// A stop is kept.
    Stopped,
    /// No member is left.
    Finished,
    /// All members are parked.
    Blocked,
    /// Members are left, and the turns are used up.
    Spent,
    /// No ready member may begin, and some member is busy.
    Idle,
    /// The oldest ready member that may begin.
    Member(u64),
}

/// Returns what a seat meets if no stop is kept, by whether the turns are used up.
pub(crate) fn pick_by(spent: bool, oldest: Oldest) -> Pick
    ensures { result ≡ spec.pick_by spent oldest }
{
    match oldest {
        Oldest::Empty => Pick::Finished,
        Oldest::Parked => Pick::Blocked,
        Oldest::Wait | Oldest::Member(_) if spent => Pick::Spent,
        Oldest::Wait => Pick::Idle,
        Oldest::Member(number) => Pick::Member(number),
    }
}
