//! The memory.

ghost use Rattle.std.specs.Prelude.{◌≡◌, ◌<◌, ◌↔◌, ℕ, [], All, length, map, replicate, slice_get, option_copied};
ghost use Rattle.std.specs.Prelude.{IsNone, IsPermutation, IsSome, IsTrue, IfOk, IfSome, OnOk, OnErr};
ghost use Rattle.std.specs.List.Sorted.{IsStrictlyIncreasing};
ghost use Rattle.std.specs.Option.{ForSome};
ghost use Rattle.ame_store.specs.Cells.{CanGrow, IsFree};
ghost use Rattle.ame_rows.specs.Valid.{IsValid, IsFirstBad};
ghost use Rattle.ame_rows.specs.MemoryView.{no_log, without_room, row_at, by_seat};
ghost use Rattle.ame_rows.specs.Entries.{places};
ghost use Rattle.ame_rows.specs.Consistent.{IsConsistent};
ghost use Rattle.ame_rows.specs.Committed.{committed as committed_at};
ghost use Rattle.ame_rows.specs.Access.{IsRead, IsOpenTo, other_owner as other_owner_of, written_by, next_place, allocated_by, put_at, born as born_in};
ghost use Rattle.ame_rows.specs.LettingGo.{released_all, undone_last};

use crate::access::{allocate, other_owner, read, write};
use crate::letting_go::{release_all, undo_last};
use crate::rows::{empty_rows, old_value, sorted_locations};
use crate::{Bad, Row};
use ame_store::Store;
use ame_term::{Copied, Loc, NoMemory, Sort, TyNo};
use std::alloc::Global;
use std::marker::Model;

/// The cells that all seats share, and the logs of each seat. Contracts see the cells as a list, and the logs
/// without their room. Out of memory, all of it is as before. A seat's reads, writes and allocations, and what
/// unprotected code does, take the same time whatever the number of cells and entries, but for the growth of a list and
/// the copy of a value; a look at a cell that a seat owns goes through that seat's undo log.
#[derive(Drop)]
pub struct Memory<V> {
    store: Store<V>,
    rows: Vec<Row<V>>,
}

impl<V> Model for Memory<V> {
    ghost use Rattle.ame_rows.specs.MemoryView.{MemoryView, memory_of};

    ghost Value = { MemoryView V };

    ghost use Rattle.ame_rows.specs.Consistent.{IsConsistent};

    ghost view = { λ d. memory_of d.store d.rows.items };

    ghost invariant = { λ d. IsConsistent (memory_of d.store d.rows.items) };
}

impl<V> Memory<V> {
    /// Returns a shared memory over cells that no seat owns, with empty logs for this many seats.
    pub fn new(alloc: Global, store: Store<V>, seats: u32) -> Result<Memory<V>, NoMemory>
    where
        V: Drop,
        requires { All IsFree store }
        ensures { IfOk result (λ memory. memory ≡ record { cells = store; rows = replicate seats no_log }) }
    {
        let rows = empty_rows(alloc, seats)?;
        Ok(Memory { store, rows })
    }

    /// Returns the cells.
    pub fn cells(&self) -> &Store<V>
        ensures cells { result.now ≡ self.now.cells }
        ensures consistent { IsConsistent self.now }
    {
        &self.store
    }

    /// Returns the number of seats.
    pub fn seats(&self) -> usize
        ensures { result ≡ length self.now.rows }
    {
        self.rows.len()
    }

    /// Returns the logs of a seat.
    pub fn row(&self, seat: u32) -> &Row<V>
        requires { seat < length self.now.rows }
        ensures { without_room result.now ≡ row_at self.now.rows seat }
    {
        &self.rows[seat as usize]
    }

    /// Returns the locations that a seat owns, in rising order.
    pub fn owned(&self, alloc: Global, seat: u32) -> Result<Vec<Loc>, NoMemory>
        requires { seat < length self.now.rows }
        ensures same { IfOk result (λ locs.
            IsPermutation (places (row_at self.now.rows seat).undos) (map (λ l. l.0) locs.items)) }
        ensures rising { IfOk result (λ locs. IsStrictlyIncreasing (map (λ l. l.0) locs.items)) }
    {
        let locs = sorted_locations(alloc, self.rows[seat as usize].undos())?;
        Ok(locs)
    }

    /// Returns whether each read that a seat logged is valid; otherwise the first that isn't.
    pub fn valid(&self, seat: u32) -> Option<Bad>
        requires { seat < length self.now.rows }
        ensures valid { IsNone result ↔ IsValid self.now.cells seat (row_at self.now.rows seat).reads }
        ensures bad { IfSome result (IsFirstBad self.now.cells seat (row_at self.now.rows seat).reads) }
    {
        self.rows[seat as usize].valid(seat, &self.store)
    }

    /// Returns the committed value of a location: if a seat owns the cell, the one that it found there.
    pub fn committed(&self, l: Loc) -> Option<&V>
        ensures { option_copied result ≡ committed_at self.now l.0 }
    {
        if l.0 >= self.store.len() {
            return None;
        }
        let cell = self.store.cell(l);
        if !cell.live {
            return None;
        }
        match cell.owner {
            Some(owner) => old_value(self.rows[owner as usize].undos(), l),
            None => Some(&cell.value),
        }
    }

    /// Returns the other seat that owns the cell at a location, if one does.
    pub fn other_owner(&self, seat: u32, l: Loc) -> Option<u32>
        requires { l.0 < length self.now.cells }
        ensures { ForSome (slice_get self.now.cells l.0) (λ cell. result ≡ other_owner_of seat cell.owner) }
    {
        other_owner(seat, self.store.cell(l))
    }

    /// Writes a cell that no other seat owns, for a seat, which owns it from then on. The input is the seat's next one.
    pub fn write(&mut self, seat: u32, l: Loc, value: V, input: &V) -> Result<(), NoMemory>
    where
        V: Drop,
        requires seat { seat < length self.old.rows }
        requires location { l.0 < length self.old.cells }
        requires can_grow { ForSome (slice_get self.old.cells l.0) CanGrow }
        requires unowned { ForSome (slice_get self.old.cells l.0) (IsOpenTo seat) }
        ensures contents { OnOk result (self.new ≡ written_by seat l value input.now self.old) }
        ensures err { OnErr result (self.new ≡ self.old) }
    {
        let row = &mut self.rows[seat as usize];
        write(&mut self.store, row, seat, l, value, input)?;
        Ok(())
    }

    /// Makes a cell that a seat owns. The input is the seat's next one. The location is the number of cells before.
    pub fn allocate(
        &mut self,
        seat: u32,
        sort: Sort,
        ty: TyNo,
        value: V,
        input: &V,
    ) -> Result<Loc, NoMemory>
    where
        V: Drop,
        requires seat { seat < length self.old.rows }
        requires few { length self.old.cells < 4294967295 }
        ensures location { IfOk result (λ l. l ≡ next_place self.old.cells) }
        ensures contents { OnOk result (self.new ≡ allocated_by seat sort ty value input.now self.old) }
        ensures err { OnErr result (self.new ≡ self.old) }
    {
        let row = &mut self.rows[seat as usize];
        let l = allocate(&mut self.store, row, seat, sort, ty, value, input)?;
        Ok(l)
    }

    /// Releases each cell that a seat owns, and empties its logs.
    pub fn release_all(&mut self, seat: u32)
    where
        V: Drop,
        requires seat { seat < length self.old.rows }
        requires can_grow { All CanGrow self.old.cells }
        ensures { self.new ≡ released_all seat self.old }
    {
        let row = &mut self.rows[seat as usize];
        release_all(&mut self.store, row, seat);
    }

    /// Undoes the last entry of a seat, if there is one, and empties its logs once none is left. Returns whether one is left.
    pub fn undo_last(&mut self, seat: u32) -> bool
    where
        V: Drop,
        requires seat { seat < length self.old.rows }
        requires can_grow { All CanGrow self.old.cells }
        ensures more { IsTrue result ↔ (1 < length (row_at self.old.rows seat).undos) }
        ensures contents { self.new ≡ undone_last seat self.old }
    {
        let row = &mut self.rows[seat as usize];
        undo_last(&mut self.store, row, seat)
    }

    /// Writes a cell that no seat owns, and hands the old value back.
    pub fn put(&mut self, l: Loc, value: V) -> V
        requires location { l.0 < length self.old.cells }
        requires free { ForSome (slice_get self.old.cells l.0) IsFree }
        requires can_grow { ForSome (slice_get self.old.cells l.0) CanGrow }
        ensures old { ForSome (slice_get self.old.cells l.0) (λ cell. result ≡ cell.value) }
        ensures contents { self.new ≡ put_at l.0 value self.old }
    {
        self.store.put(l, value)
    }

    /// Returns a new cell that no seat owns. Its location is the number of cells before.
    pub fn born(&mut self, sort: Sort, ty: TyNo, value: V) -> Result<Loc, NoMemory>
    where
        V: Drop,
        requires { length self.old.cells < 4294967295 }
        ensures location { IfOk result (λ l. l ≡ next_place self.old.cells) }
        ensures contents { OnOk result (self.new ≡ born_in sort ty value self.old) }
        ensures err { OnErr result (self.new ≡ self.old) }
    {
        let l = self.store.alloc(sort, ty, value, None)?;
        Ok(l)
    }

    /// Returns the cells alone.
    pub fn into_cells(self) -> Store<V>
    where
        V: Drop,
        ensures cells { result ≡ self.cells }
        ensures free { ((seat : ℕ) → (row_at self.rows seat).undos ≡ []) → All IsFree result }
    {
        self.store
    }
}

impl<V: Copied> Memory<V> {
    /// Reads for a seat: returns a copy of the value in place, even if another seat owns the cell. It is the seat's next input. The
    /// read is logged with the number of the cell, unless the seat owns it.
    pub fn read(&mut self, seat: u32, l: Loc) -> Result<V, NoMemory>
    where
        V: Drop,
        requires seat { seat < length self.old.rows }
        requires location { l.0 < length self.old.cells }
        ensures value { IfOk result (λ value.
            ForSome (slice_get self.old.cells l.0) (λ cell. V.same cell.value value)) }
        ensures row { OnOk result (IsRead V.same seat l self.old.cells (row_at self.old.rows seat) (row_at self.new.rows seat)) }
        ensures others { OnOk result (self.new ≡ by_seat seat self.old.cells (row_at self.new.rows seat) self.old) }
        ensures err { OnErr result (self.new ≡ self.old) }
    {
        let alloc = *self.rows.allocator();
        let row = &mut self.rows[seat as usize];
        let value = read(alloc, &self.store, row, seat, l)?;
        Ok(value)
    }

    /// Returns a copy of the committed value of a location.
    pub fn peek(&self, l: Loc) -> Result<V, NoMemory>
        requires { IsSome (committed_at self.now l.0) }
        ensures { IfOk result (λ value. IfSome (committed_at self.now l.0) (λ held. V.same held value)) }
    {
        match self.committed(l) {
            Some(value) => value.copy(*self.rows.allocator()),
            None => Err(NoMemory),
        }
    }
}
