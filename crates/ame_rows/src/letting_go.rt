//! The release of the cells of a seat.

ghost use Rattle.std.specs.Prelude.{◌≡◌, ◌<◌, ◌↔◌, IsTrue, IsSomeAnd, All, length, map, slice_get};
ghost use Rattle.ame_store.specs.Cells.{CanGrow};
ghost use Rattle.ame_rows.specs.MemoryView.{no_log, without_room};
ghost use Rattle.ame_rows.specs.Entries.{IsEntryFor, IsLogOf, named_by};
ghost use Rattle.ame_rows.specs.Access.{changed_at};
ghost use Rattle.ame_rows.specs.LettingGo.{released_by, undone_by, cells_undone, notes_undone};

use crate::rows::location;
use crate::{Row, Undo};
use ame_store::Store;

/// Releases each cell that the log names.
fn release_each<V>(store: &mut Store<V>, seat: u32, undos: &[Undo<V>])
    requires log { IsLogOf seat store.old undos.now }
    requires can_grow { All CanGrow store.old }
    ensures { store.new ≡ map (released_by seat) store.old }
{
    for undo in undos {
        store.release(seat, location(undo));
    }
}

/// Releases each cell that a seat owns, and empties its logs.
pub(crate) fn release_all<V: Drop>(store: &mut Store<V>, row: &mut Row<V>, seat: u32)
    requires log { IsLogOf seat store.old row.old.undos }
    requires can_grow { All CanGrow store.old }
    ensures cells { store.new ≡ map (released_by seat) store.old }
    ensures notes { without_room row.new ≡ no_log }
{
    release_each(store, seat, row.undos());
    row.clear();
}

/// Undoes one entry.
fn undo<V: Drop>(store: &mut Store<V>, seat: u32, entry: Undo<V>)
    requires fits { IsSomeAnd (slice_get store.old (named_by entry)) (IsEntryFor seat entry) }
    requires can_grow { All CanGrow store.old }
    ensures { store.new ≡ changed_at (named_by entry) (undone_by entry) store.old }
{
    match entry {
        Undo::Wrote(l, _, old) => store.restore(seat, l, old),
        Undo::Made(l) => store.kill(seat, l),
    }
}

/// Undoes the last entry, if there is one, and empties the logs once none is left. Returns whether one is left.
pub(crate) fn undo_last<V: Drop>(store: &mut Store<V>, row: &mut Row<V>, seat: u32) -> bool
    requires log { IsLogOf seat store.old row.old.undos }
    requires can_grow { All CanGrow store.old }
    ensures more { IsTrue result ↔ (1 < length row.old.undos) }
    ensures cells { store.new ≡ cells_undone row.old.undos store.old }
    ensures notes { without_room row.new ≡ notes_undone (without_room row.old) }
{
    let Some(entry) = row.pop_undo() else {
        row.clear();
        return false;
    };
    undo(store, seat, entry);
    if row.undos().is_empty() {
        row.clear();
        return false;
    }
    true
}
