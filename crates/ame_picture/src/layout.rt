//! The places of marks in a picture.

ghost use Rattle.std.specs.Prelude.{◌<◌, ◌^◌};

/// A point: how far from the left edge, and from the upper one.
#[derive(Clone, Copy)]
pub(crate) struct PagePoint(pub u64, pub u64);

/// The numbers of lanes of a picture, of seats or fragments and of locations, and of columns.
#[derive(Clone, Copy)]
pub(crate) struct Layout {
    pub lanes: u32,
    pub places: u32,
    pub columns: u32,
}

impl Layout {
    /// Returns the upper edge of the lane of a location.
    pub(crate) fn place_top(self, place: u32) -> u64
        ensures { result < 2 ^ 40 }
    {
        90 + 46 * u64::from(self.lanes) + 24 * u64::from(place)
    }

    /// Returns the upper edge of the journal.
    pub(crate) fn journal_top(self) -> u64
        ensures { result < 2 ^ 40 }
    {
        100 + 46 * u64::from(self.lanes) + 24 * u64::from(self.places)
    }

    /// Returns the width of the picture.
    pub(crate) fn width(self) -> u64 {
        (120 + 22 * u64::from(self.columns)).max(720)
    }
}

/// Returns the left edge of a column.
pub(crate) fn left_of(column: u32) -> u64
    ensures { result < 2 ^ 40 }
{
    96 + 22 * u64::from(column)
}

/// Returns the middle of a column.
pub(crate) fn middle_of(column: u32) -> u64 {
    107 + 22 * u64::from(column)
}

/// Returns the upper edge of the boxes in a lane.
pub(crate) fn top_of(lane: u32) -> u64
    ensures { result < 2 ^ 40 }
{
    74 + 46 * u64::from(lane)
}
