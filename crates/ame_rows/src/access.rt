//! Reads, writes and allocations of a seat, on the cells and its own row.

ghost use Rattle.std.specs.Prelude.{◌≡◌, ◌<◌, ◌∷◌, ◌++◌, [], Some, IfOk, OnOk, OnErr, length, slice_get};
ghost use Rattle.std.specs.Option.{ForSome};
ghost use Rattle.ame_store.specs.Cells.{CanGrow};
ghost use Rattle.ame_store.specs.Changes.{made};
ghost use Rattle.ame_rows.specs.MemoryView.{without_room};
ghost use Rattle.ame_rows.specs.Access.{changed_at, is_owned_by, noted_read, IsRead, IsOpenTo, other_owner as other_owner_of, overwritten, notes_written, notes_allocated, next_place};

use crate::{Row, Undo};
use ame_store::{Cell, Store, Taken};
use ame_term::{Copied, Loc, NoMemory, Sort, TyNo};
use std::alloc::Global;

/// Returns whether a seat owns the cell.
fn owns<V>(seat: u32, cell: &Cell<V>) -> bool
    ensures { result ≡ is_owned_by seat cell.now }
{
    match cell.owner {
        Some(owner) => owner == seat,
        None => false,
    }
}

/// Returns the other seat that owns the cell, if one does.
pub(crate) fn other_owner<V>(seat: u32, cell: &Cell<V>) -> Option<u32>
    ensures { result ≡ other_owner_of seat cell.now.owner }
{
    match cell.owner {
        Some(owner) if owner != seat => Some(owner),
        Some(_) => None,
        None => None,
    }
}

/// Logs a read, with the number of the cell unless the seat owns it.
fn note<V>(row: &mut Row<V>, seat: u32, l: Loc, cell: &Cell<V>, input: &V)
    requires { 0 < row.old.room.reads }
    ensures { without_room row.new ≡ noted_read seat l input.now cell.now (without_room row.old) }
{
    if owns(seat, cell) {
        row.note_input(input);
    } else {
        row.note_read(l, cell.number, input);
    }
}

/// Reads for a seat.
pub(crate) fn read<V: Copied + Drop>(
    alloc: Global,
    store: &Store<V>,
    row: &mut Row<V>,
    seat: u32,
    l: Loc,
) -> Result<V, NoMemory>
    requires { l.0 < length store.now }
    ensures value { IfOk result (λ value. ForSome (slice_get store.now l.0) (λ cell. V.same cell.value value)) }
    ensures notes { OnOk result (IsRead V.same seat l store.now (without_room row.old) (without_room row.new)) }
    ensures err { OnErr result (without_room row.new ≡ without_room row.old) }
{
    row.room()?;
    let cell = store.cell(l);
    let value = cell.value.copy(alloc)?;
    note(row, seat, l, cell, &value);
    Ok(value)
}

/// Writes a cell that no other seat owns, for a seat.
pub(crate) fn write<V: Drop>(
    store: &mut Store<V>,
    row: &mut Row<V>,
    seat: u32,
    l: Loc,
    value: V,
    input: &V,
) -> Result<(), NoMemory>
    requires location { l.0 < length store.old }
    requires can_grow { ForSome (slice_get store.old l.0) CanGrow }
    requires unowned { ForSome (slice_get store.old l.0) (IsOpenTo seat) }
    ensures cells { OnOk result (store.new ≡
        changed_at l.0 (λ cell. overwritten seat value cell.owner cell) store.old) }
    ensures notes { OnOk result (without_room row.new ≡
        notes_written seat l input.now store.old (without_room row.old)) }
    ensures err_cells { OnErr result (store.new ≡ store.old) }
    ensures err_notes { OnErr result (without_room row.new ≡ without_room row.old) }
{
    row.room()?;
    match store.take_and_write(seat, l, value) {
        Taken::First(old, number) => {
            row.note_write(Undo::Wrote(l, number, old));
            row.note_input(input);
            Ok(())
        }
        Taken::Again(_) => {
            row.note_input(input);
            Ok(())
        }
        Taken::Owned(..) => unreachable!(),
    }
}

/// Makes a cell that a seat owns.
pub(crate) fn allocate<V: Drop>(
    store: &mut Store<V>,
    row: &mut Row<V>,
    seat: u32,
    sort: Sort,
    ty: TyNo,
    value: V,
    input: &V,
) -> Result<Loc, NoMemory>
    requires { length store.old < 4294967295 }
    ensures location { IfOk result (λ l. l ≡ next_place store.old) }
    ensures cells { OnOk result (store.new ≡ store.old ++ made sort ty value (Some seat) ∷ []) }
    ensures notes { OnOk result (without_room row.new ≡
        notes_allocated (next_place store.old) input.now (without_room row.old)) }
    ensures err_cells { OnErr result (store.new ≡ store.old) }
    ensures err_notes { OnErr result (without_room row.new ≡ without_room row.old) }
{
    row.room()?;
    let l = store.alloc(sort, ty, value, Some(seat))?;
    row.note_write(Undo::Made(l));
    row.note_input(input);
    Ok(l)
}
