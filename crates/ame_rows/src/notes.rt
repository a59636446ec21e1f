//! The entries of the logs of a seat.

ghost use Rattle.std.specs.Prelude.{◌↔◌, IsTrue};

use ame_store::Cell;
use ame_term::Loc;

/// A read of a cell, and the number that the cell had.
#[derive(Clone, Copy, PartialEq, Eq, Debug)]
pub struct ReadNote {
    pub loc: Loc,
    pub number: u64,
}

/// An entry that undoes the first change of a cell by a seat.
#[derive(Drop)]
pub enum Undo<V> {
    /// The seat wrote this cell, which had this number and value and no owner.
    Wrote(Loc, u64, V),
    /// The seat made this cell.
    Made(Loc),
}

/// A read that isn't valid: the number that the cell had then and has now.
#[derive(Clone, Copy, PartialEq, Eq, Debug)]
pub struct Bad {
    pub loc: Loc,
    pub read: u64,
    pub now: u64,
}

impl ReadNote {
    ghost use Rattle.ame_rows.specs.Valid.{IsValidAt};

    // The read is valid if the cell, as it is now, says so.
    pub(crate) fn is_valid<V>(self, seat: u32, cell: &Cell<V>) -> bool
        ensures { IsTrue result ↔ IsValidAt seat self.number cell.now }
    {
        if self.number % 2 != 0 || !cell.live {
            return false;
        }
        match cell.owner {
            None => cell.number == self.number,
            Some(owner) => owner == seat && cell.number == self.number + 1,
        }
    }
}
