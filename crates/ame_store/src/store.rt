//! A store: a list of cells.

ghost use Rattle.std.specs.Prelude.{◌≡◌, ◌<◌, ◌≤◌, ◌%◌, ◌∷◌, ◌++◌, [], length, All, IfOk, OnOk, OnErr, slice_get, slice_set, vec_len};
ghost use Rattle.std.specs.Option.{ForSome};
ghost use Rattle.ame_store.specs.Cells.{HasItsParity, IsFree, IsOwnedBy, IsDead, CanGrow};
ghost use Rattle.ame_store.specs.Changes.{Changes, made, let_go, released, restored, replaced};
ghost use Rattle.ame_store.specs.Writes.{Tells, written};

use crate::cell::Cell;
use crate::taken::Taken;
use ame_term::{Copied, Loc, NoMemory, Sort, TyNo};
use std::alloc::Global;
use std::marker::Model;
use std::mem;

/// The cells of a run. Contracts see them as a list; a location is a place in it. The number of each
/// cell is even exactly if it has no owner. Only `alloc` and `read` take memory, and each call but
/// the growth of `alloc` and the copy of `read` takes the same time whatever the number of cells.
#[derive(Drop)]
pub struct Store<V> {
    cells: Vec<Cell<V>>,
}

impl<V> Model for Store<V> {
    ghost use Rattle.std.specs.Prelude.{◌≤◌, All, List, vec_len};
    ghost use Rattle.ame_store.specs.declared.cell.Cell.{Cell};

    ghost Value = { List (Cell V) };

    ghost use Rattle.ame_store.specs.Cells.{HasItsParity};

    ghost view = { λ s. s.cells.items };

    ghost invariant = { λ s. (vec_len s.cells ≤ 4294967295) × All HasItsParity s.cells.items };
}

impl<V> Store<V> {
    /// Returns an empty store, without memory.
    pub fn new(alloc: Global) -> Store<V>
        ensures { result ≡ [] }
    {
        Store {
            cells: Vec::new(alloc),
        }
    }

    /// Returns the number of cells.
    pub fn len(&self) -> u32
        ensures len { result ≡ length self.now }
        ensures parity { All HasItsParity self.now }
    {
        self.cells.len() as u32
    }

    /// Returns the cell at a location.
    pub fn cell(&self, l: Loc) -> &Cell<V>
        requires { l.0 < length self.now }
        ensures { slice_get self.now l.0 ≡ Some result.now }
    {
        &self.cells[l.0 as usize]
    }

    /// Lets a cell go with what its owner wrote.
    pub fn release(&mut self, seat: u32, l: Loc)
        requires location { l.0 < length self.old }
        requires owned { ForSome (slice_get self.old l.0) (IsOwnedBy seat) }
        requires can_grow { ForSome (slice_get self.old l.0) CanGrow }
        ensures { Changes self.old self.new l.0 released }
    {
        let cell = &mut self.cells[l.0 as usize];
        cell.let_go();
        cell.live = true;
    }

    /// Puts back what its owner found in a cell, and lets it go.
    pub fn restore(&mut self, seat: u32, l: Loc, old: V)
    where
        V: Drop,
        requires location { l.0 < length self.old }
        requires owned { ForSome (slice_get self.old l.0) (IsOwnedBy seat) }
        requires can_grow { ForSome (slice_get self.old l.0) CanGrow }
        ensures { Changes self.old self.new l.0 (restored old) }
    {
        let cell = &mut self.cells[l.0 as usize];
        cell.let_go();
        cell.value = old;
    }

    /// Lets a cell go that its owner made, for no seat to use.
    pub fn kill(&mut self, seat: u32, l: Loc)
        requires location { l.0 < length self.old }
        requires owned { ForSome (slice_get self.old l.0) (IsOwnedBy seat) }
        requires dead { ForSome (slice_get self.old l.0) IsDead }
        requires can_grow { ForSome (slice_get self.old l.0) CanGrow }
        ensures { Changes self.old self.new l.0 let_go }
    {
        self.cells[l.0 as usize].let_go();
    }

    /// Writes a cell that has no owner, and hands the old value back.
    pub fn put(&mut self, l: Loc, value: V) -> V
        requires location { l.0 < length self.old }
        requires free { ForSome (slice_get self.old l.0) IsFree }
        requires can_grow { ForSome (slice_get self.old l.0) CanGrow }
        ensures old { ForSome (slice_get self.old l.0) (λ cell. result ≡ cell.value) }
        ensures cells { Changes self.old self.new l.0 (replaced value) }
    {
        let cell = &mut self.cells[l.0 as usize];
        cell.number += 2;
        mem::replace(&mut cell.value, value)
    }

    /// Writes a cell for a seat, which owns it from then on, unless another seat does.
    pub fn take_and_write(&mut self, seat: u32, l: Loc, value: V) -> Taken<V>
        requires location { l.0 < length self.old }
        requires can_grow { ForSome (slice_get self.old l.0) CanGrow }
        ensures answer { ForSome (slice_get self.old l.0) (λ cell. Tells seat value cell result) }
        ensures cells { ForSome (slice_get self.old l.0) (λ cell.
            self.new ≡ written seat l.0 value result self.old cell) }
    {
        let cell = &mut self.cells[l.0 as usize];
        if let Some(owner) = cell.owner {
            if owner != seat {
                return Taken::Owned(owner, value);
            }
            return Taken::Again(mem::replace(&mut cell.value, value));
        }
        let number = cell.number;
        cell.number += 1;
        cell.owner = Some(seat);
        Taken::First(mem::replace(&mut cell.value, value), number)
    }

    /// Makes a cell, owned by a seat or by none. Its location is the number of cells before.
    pub fn alloc(
        &mut self,
        sort: Sort,
        ty: TyNo,
        value: V,
        owner: Option<u32>,
    ) -> Result<Loc, NoMemory>
    where
        V: Drop,
        requires { length self.old < 4294967295 }
        ensures location { IfOk result (λ l. l.0 ≡ length self.old) }
        ensures cells { OnOk result (self.new ≡ self.old ++ made sort ty value owner ∷ []) }
        ensures err { OnErr result (self.new ≡ self.old) }
    {
        let l = Loc(self.cells.len() as u32);
        self.cells.push(Cell {
            sort,
            ty,
            value,
            number: if owner.is_some() { 1 } else { 0 },
            owner,
            live: owner.is_none(),
        })?;
        Ok(l)
    }

    /// Returns a store of cells that no seat owns.
    pub fn from_cells(cells: Vec<Cell<V>>) -> Store<V>
        requires few { vec_len cells ≤ 4294967295 }
        requires free { All IsFree cells.items }
        requires even { All (λ cell. cell.number % 2 ≡ 0) cells.items }
        ensures { result ≡ cells.items }
    {
        Store { cells }
    }
}

impl<V: Copied> Store<V> {
    /// Returns a copy of the value in a cell, whichever seat owns it, and the cell's number.
    pub fn read(&self, l: Loc) -> Result<(V, u64), NoMemory>
        requires { l.0 < length self.now }
        ensures value { IfOk result (λ r.
            ForSome (slice_get self.now l.0) (λ cell. V.same cell.value r.0)) }
        ensures number { IfOk result (λ r.
            ForSome (slice_get self.now l.0) (λ cell. r.1 ≡ cell.number)) }
    {
        let cell = &self.cells[l.0 as usize];
        Ok((cell.value.copy(*self.cells.allocator())?, cell.number))
    }
}
