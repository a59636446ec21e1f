//! Picks, as far as a picture shows them.

use ame_journal::EntryKind;

/// An act of the seat that was picked.
#[derive(Clone, Copy, PartialEq, Eq, Debug)]
pub enum Did {
    /// Nothing, as no member was to begin.
    Idled,
    Began,
    Read,
    Wrote,
    /// It wrote to a cell of this seat, and turned back.
    Met(u32),
    Allocated,
    /// It found each of its reads valid.
    Checked,
    /// It found a read that isn't valid any more, and turned back.
    FoundInvalid,
    /// Its member ended.
    Ended,
    /// Its member came to `unprotected`.
    Left,
    /// Its member came to a condition that is false, and turned back.
    Noted,
    /// Its member came to a value nested too deeply.
    GrewTall,
    /// It visited a member that is inside, which is home again.
    CameHome,
    /// This device failed in such a visit.
    DeviceFailed(u8),
    /// The turns were used up, and its member was cut off by an entry.
    Cut,
    /// The turns were used up, and no entry is of its member.
    Spent,
    /// It undid an entry.
    Undid,
    /// Nothing was left to undo, and its member went home.
    WentHome,
}

impl Did {
    ghost use Rattle.std.specs.Prelude.{◌≡◌};
    ghost use Rattle.ame_drawing.specs.Picks as spec;

    /// Returns whether the seat has a member at work.
    pub fn is_work(self) -> bool
        ensures { result ≡ spec.is_work self }
    {
        !matches!(self, Did::Idled)
    }

    /// Returns whether the member isn't at work any more.
    pub fn is_last(self) -> bool
        ensures { result ≡ spec.is_last self }
    {
        matches!(
            self,
            Did::Ended | Did::Left | Did::CameHome | Did::DeviceFailed(_) | Did::WentHome
        )
    }

    /// Returns whether it wrote to a location, or made one.
    pub fn is_write(self) -> bool
        ensures { result ≡ spec.is_write self }
    {
        matches!(self, Did::Wrote | Did::Allocated)
    }

    /// Returns the kind of the entry that it made, if it made one.
    pub fn kind_made(self) -> Option<EntryKind>
        ensures { result ≡ spec.kind_made self }
    {
        match self {
            Did::Ended | Did::Left => Some(EntryKind::Ran),
            Did::CameHome => Some(EntryKind::Free),
            Did::Noted => Some(EntryKind::Stuck),
            Did::GrewTall => Some(EntryKind::Tall),
            Did::Cut => Some(EntryKind::Cut),
            _ => None,
        }
    }
}

/// A pick: the seat, the member that it has at work, what it did, and the location that it read, wrote, met or made, if any.
/// If it idled, the member says nothing.
#[derive(Clone, Copy, PartialEq, Eq, Debug)]
pub struct DrawnPick {
    pub seat: u32,
    pub member: u64,
    pub did: Did,
    pub place: Option<u32>,
}

impl DrawnPick {
    ghost use Rattle.std.specs.Prelude.{◌≡◌};
    ghost use Rattle.ame_drawing.specs.Picks as spec;

    /// Returns whether this seat has a member at work in it.
    pub fn is_work_of(&self, seat: u32) -> bool
        ensures { result ≡ spec.is_work_of seat self.now }
    {
        self.seat == seat && self.did.is_work()
    }

    /// Returns whether it wrote to this location, or made it.
    pub fn is_write_to(&self, place: u32) -> bool
        ensures { result ≡ spec.is_write_to place self.now }
    {
        match self.place {
            Some(other) => self.did.is_write() && other == place,
            None => false,
        }
    }

    /// Returns whether it read this location.
    pub fn is_read_of(&self, place: u32) -> bool
        ensures { result ≡ spec.is_read_of place self.now }
    {
        match self.place {
            Some(other) => matches!(self.did, Did::Read) && other == place,
            None => false,
        }
    }

    /// Returns whether what this seat owns ends with it.
    pub fn is_release_of(&self, seat: u32) -> bool
        ensures { result ≡ spec.is_release_of seat self.now }
    {
        self.seat == seat && self.did.is_last()
    }
}
