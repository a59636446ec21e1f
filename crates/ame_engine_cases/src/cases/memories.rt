//! Two seats at one memory, as rows of calls.

ghost use Rattle.std.specs.Prelude.{◌≡◌, ◌<◌, IsTrue, All, length, slice_get};
ghost use Rattle.std.specs.Option.{ForSome};
ghost use Rattle.ame_store.specs.Cells.{CanGrow};

use Step::*;
use ame_rows::Memory;
use ame_store::Store;
use ame_term::{Loc, NoMemory, Sort, TyNo};
use std::alloc::Global;
use std::test::Fail;

/// A call of a shared memory.
#[derive(Clone, Copy)]
enum Step {
    Born(i64),
    Allocate(i64),
    Read,
    Write(i64),
    Put(i64),
    Peek,
    Valid,
    Reads,
    Owned,
    Undo,
    Release,
}

/// A call by a seat, at a location.
#[derive(Clone, Copy)]
struct Call {
    seat: u32,
    l: Loc,
    step: Step,
}

/// The answer of a call.
#[derive(Clone, Copy, PartialEq, Eq, Debug)]
enum Told {
    Unmet,
    Done,
    At(u32),
    Value(i64),
    Conflict(u32),
    NotLive,
    Valid,
    Bad(u32, u64, u64),
    Count(usize),
    More(bool),
}

/// A cell's value, number and owner, and whether it is live.
type State = (i64, u64, Option<u32>, bool);

/// Calls in a row, each with a seat and a location, its answer, and the cell there afterwards.
const STEPS: &[(u32, u32, Step, Told, Option<State>)] = &[
    // Seat 1 reads what seat 0 wrote, and comes too late to write.
    (0, 0, Born(10), Told::At(0), Some((10, 0, None, true))),
    (0, 0, Read, Told::Value(10), Some((10, 0, None, true))),
    (0, 0, Write(11), Told::Done, Some((11, 1, Some(0), true))),
    (0, 0, Valid, Told::Valid, Some((11, 1, Some(0), true))),
    (1, 0, Read, Told::Value(11), Some((11, 1, Some(0), true))),
    (
        1,
        0,
        Valid,
        Told::Bad(0, 1, 1),
        Some((11, 1, Some(0), true)),
    ),
    (
        1,
        0,
        Write(12),
        Told::Conflict(0),
        Some((11, 1, Some(0), true)),
    ),
    (0, 0, Peek, Told::Value(10), Some((11, 1, Some(0), true))),
    // Seat 0 reads and writes its own cell, and makes one.
    (0, 0, Write(13), Told::Done, Some((13, 1, Some(0), true))),
    (0, 0, Read, Told::Value(13), Some((13, 1, Some(0), true))),
    (0, 0, Reads, Told::Count(1), Some((13, 1, Some(0), true))),
    (
        0,
        1,
        Allocate(20),
        Told::At(1),
        Some((20, 1, Some(0), false)),
    ),
    (0, 1, Peek, Told::NotLive, Some((20, 1, Some(0), false))),
    (0, 1, Owned, Told::Count(2), Some((20, 1, Some(0), false))),
    // Both are rolled back, the last entry first.
    (0, 1, Undo, Told::More(true), Some((20, 2, None, false))),
    (0, 0, Undo, Told::More(false), Some((10, 2, None, true))),
    (0, 0, Undo, Told::More(false), Some((10, 2, None, true))),
    (1, 0, Undo, Told::More(false), Some((10, 2, None, true))),
    (1, 0, Valid, Told::Valid, Some((10, 2, None, true))),
    // Seat 1 reads again, and unprotected code writes there.
    (1, 0, Read, Told::Value(10), Some((10, 2, None, true))),
    (
        1,
        2,
        Allocate(30),
        Told::At(2),
        Some((30, 1, Some(1), false)),
    ),
    (1, 2, Write(31), Told::Done, Some((31, 1, Some(1), false))),
    (0, 0, Put(14), Told::Value(10), Some((14, 4, None, true))),
    (1, 0, Valid, Told::Bad(0, 2, 4), Some((14, 4, None, true))),
    (1, 2, Release, Told::Done, Some((31, 2, None, true))),
    (0, 2, Peek, Told::Value(31), Some((31, 2, None, true))),
    (1, 2, Owned, Told::Count(0), Some((31, 2, None, true))),
    (2, 0, Read, Told::Unmet, Some((14, 4, None, true))),
    (0, 3, Read, Told::Unmet, None),
];

/// Returns whether each cell's number is far from the last one.
fn may_grow(memory: &Memory<i64>) -> bool
    ensures { IsTrue result → All CanGrow memory.now.cells }
{
    let cells = memory.cells();
    for l in 0..cells.len() {
        if cells.cell(Loc(l)).number >= 1 << 62 {
            return false;
        }
    }
    true
}

/// Makes a new cell that no seat owns.
fn born(memory: &mut Memory<i64>, value: i64) -> Result<Told, NoMemory> {
    if memory.cells().len() == u32::MAX {
        return Ok(Told::Unmet);
    }
    let l = memory.born(Sort::Protected, TyNo(7), value)?;
    Ok(Told::At(l.0))
}

/// Makes a new cell of a seat.
fn allocate(memory: &mut Memory<i64>, seat: u32, value: i64, input: i64) -> Result<Told, NoMemory>
    requires { seat < length memory.old.rows }
{
    if memory.cells().len() == u32::MAX {
        return Ok(Told::Unmet);
    }
    let l = memory.allocate(seat, Sort::Protected, TyNo(7), value, &input)?;
    Ok(Told::At(l.0))
}

/// Makes a write by a seat.
fn write(memory: &mut Memory<i64>, call: Call, n: i64) -> Result<Told, NoMemory>
    requires seat { call.seat < length memory.old.rows }
    requires location { call.l.0 < length memory.old.cells }
    requires can_grow { ForSome (slice_get memory.old.cells call.l.0) CanGrow }
{
    match memory.other_owner(call.seat, call.l) {
        Some(owner) => Ok(Told::Conflict(owner)),
        None => {
            memory.write(call.seat, call.l, n, &0)?;
            Ok(Told::Done)
        }
    }
}

/// Returns the committed value of a location.
fn peek(memory: &Memory<i64>, l: Loc) -> Result<Told, NoMemory> {
    if memory.committed(l).is_none() {
        return Ok(Told::NotLive);
    }
    let value = memory.peek(l)?;
    Ok(Told::Value(value))
}

/// Makes a write of unprotected code, if no seat owns the cell.
fn put(memory: &mut Memory<i64>, l: Loc, value: i64) -> Told
    requires location { l.0 < length memory.old.cells }
    requires can_grow { ForSome (slice_get memory.old.cells l.0) CanGrow }
{
    if memory.cells().cell(l).owner.is_some() {
        return Told::Unmet;
    }
    Told::Value(memory.put(l, value))
}

/// Returns whether there is a cell at the location, and its number is far from the last one.
fn can_grow(cells: &Store<i64>, l: Loc) -> bool
    ensures location { IsTrue result → l.0 < length cells.now }
    ensures can_grow { IsTrue result → ForSome (slice_get cells.now l.0) CanGrow }
{
    l.0 < cells.len() && cells.cell(l).number < 1 << 62
}

/// Makes a call at a location, if its requirements hold.
fn make_at(memory: &mut Memory<i64>, call: Call) -> Result<Told, NoMemory>
    requires { call.seat < length memory.old.rows }
{
    if !can_grow(memory.cells(), call.l) {
        return Ok(Told::Unmet);
    }
    match call.step {
        Step::Read => Ok(Told::Value(memory.read(call.seat, call.l)?)),
        Step::Write(n) => write(memory, call, n),
        Step::Put(n) => Ok(put(memory, call.l, n)),
        _ => Ok(Told::Unmet),
    }
}

/// Makes a call of a seat that is there.
fn make_by(global: Global, memory: &mut Memory<i64>, call: Call) -> Result<Told, NoMemory>
    requires { call.seat < length memory.old.rows }
{
    let seat = call.seat;
    match call.step {
        Step::Valid => match memory.valid(seat) {
            None => Ok(Told::Valid),
            Some(bad) => Ok(Told::Bad(bad.loc.0, bad.read, bad.now)),
        },
        Step::Reads => Ok(Told::Count(memory.row(seat).reads().len())),
        Step::Owned => Ok(Told::Count(memory.owned(global, seat)?.len())),
        Step::Undo if may_grow(memory) => Ok(Told::More(memory.undo_last(seat))),
        Step::Release if may_grow(memory) => {
            memory.release_all(seat);
            Ok(Told::Done)
        }
        _ => make_at(memory, call),
    }
}

/// Makes the call, if its requirements hold.
fn make(global: Global, memory: &mut Memory<i64>, call: Call) -> Result<Told, NoMemory> {
    if call.seat as usize >= memory.seats() {
        return Ok(Told::Unmet);
    }
    match call.step {
        Step::Born(n) => born(memory, n),
        Step::Allocate(n) => allocate(memory, call.seat, n, 0),
        Step::Peek => peek(memory, call.l),
        _ => make_by(global, memory, call),
    }
}

/// Returns the cell at a location, if there is one.
fn state(cells: &Store<i64>, l: Loc) -> Option<State> {
    if l.0 >= cells.len() {
        return None;
    }
    let cell = cells.cell(l);
    Some((cell.value, cell.number, cell.owner, cell.live))
}

/// Makes the calls, and returns how many of them answered and left what the table says.
fn as_told(global: Global, memory: &mut Memory<i64>) -> Result<usize, NoMemory> {
    for (count, &(seat, l, step, told, after)) in STEPS.iter().enumerate() {
        let l = Loc(l);
        let call = Call { seat, l, step };
        if make(global, memory, call)? != told || state(memory.cells(), l) != after {
            return Ok(count);
        }
    }
    Ok(STEPS.len())
}

#[test]
fn two_seats_at_one_memory(rt: HostRuntime) -> Result<(), Fail> {
    let mut memory = Memory::<i64>::new(rt.alloc(), Store::new(rt.alloc()), 2)?;
    assert_eq!(rt; as_told(rt.alloc(), &mut memory)?, STEPS.len());
    let cells = memory.into_cells();
    assert_eq!(rt; state(&cells, Loc(0)), Some((14, 4, None, true)));
    Ok(())
}
