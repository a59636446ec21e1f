//! The machine of a seat reads, writes or makes a cell, and goes on in place.

ghost use Rattle.std.specs.Prelude.{◌≡◌, ◌<◌, ◌+◌, ◌^◌, List, Some, true, false};
ghost use Rattle.ame_device.specs.declared.told.Told.{Told};
ghost use Rattle.ame_engine.specs.AtWork.{IsReading, IsWriting, IsAllocating};
ghost use Rattle.ame_shell.specs.Work.{CanUndo, HasTurn, IsAtWork};
ghost use Rattle.ame_shell.specs.Asked.{LacksWhereDue};
ghost use Rattle.ame_shell.specs.Outcomes.{is_back, IsDone};

use crate::events::give_up;
use crate::work::Outcome;
use ame_engine::{Engine, Wrote};
use ame_machine::{Input, Runner};

/// Feeds the machine of a seat the value in place that it wants, even if another seat owns the cell.
pub(crate) fn read_on<M: Runner>(
    engine: &mut Engine<M>,
    code: &M::Code,
    seat: u32,
    machine: &mut M,
) -> Outcome
where
    M::Code: Drop,
    requires same { code.now ≡ engine.old.code }
    requires turn { HasTurn M.meaning engine.old seat machine.old }
    requires reads { IsReading (M.meaning.stage engine.old.code machine.old) }
    requires early { (M.meaning.stage engine.old.code machine.old).since < engine.old.limits.slice }
    requires steps { (M.meaning.stage engine.old.code machine.old).steps + 1 < 2 ^ 64 }
    ensures at { IsAtWork M.meaning engine.new seat machine.new }
    ensures stays { is_back result ≡ false }
    ensures done { (told : List Told) → IsDone M.meaning seat (Some (M.meaning.stage engine.old.code machine.old)) engine.old engine.new told told result }
    ensures due { LacksWhereDue engine.old seat (Some (M.meaning.stage engine.old.code machine.old)) result }
{
    engine.stands();
    match engine.read(seat, machine) {
        Ok(value) => {
            machine.feed(code, Input::Value(value));
            Outcome::Read
        }
        Err(_) => give_up(engine),
    }
}

/// Puts the value in place that the machine of a seat wants to write; the seat turns back where another one owns the cell.
pub(crate) fn write_on<M: Runner>(
    engine: &mut Engine<M>,
    code: &M::Code,
    seat: u32,
    machine: &mut M,
) -> Outcome
where
    M::Code: Drop,
    requires same { code.now ≡ engine.old.code }
    requires turn { HasTurn M.meaning engine.old seat machine.old }
    requires writes { IsWriting (M.meaning.stage engine.old.code machine.old) }
    requires early { (M.meaning.stage engine.old.code machine.old).since < engine.old.limits.slice }
    requires steps { (M.meaning.stage engine.old.code machine.old).steps + 1 < 2 ^ 64 }
    ensures at { is_back result ≡ false → IsAtWork M.meaning engine.new seat machine.new }
    ensures back { is_back result ≡ true → CanUndo engine.new seat }
    ensures done { (told : List Told) → IsDone M.meaning seat (Some (M.meaning.stage engine.old.code machine.old)) engine.old engine.new told told result }
    ensures due { LacksWhereDue engine.old seat (Some (M.meaning.stage engine.old.code machine.old)) result }
{
    engine.stands();
    match engine.write(seat, machine) {
        Ok(Wrote::Wrote) => {
            machine.feed(code, Input::Unit);
            Outcome::Wrote
        }
        Ok(Wrote::Conflict(owner)) => Outcome::Met(owner),
        Err(_) => give_up(engine),
    }
}

/// Feeds the machine of a seat the location of the new cell that it wants.
pub(crate) fn alloc_on<M: Runner>(
    engine: &mut Engine<M>,
    code: &M::Code,
    seat: u32,
    machine: &mut M,
) -> Outcome
where
    M::Code: Drop,
    requires same { code.now ≡ engine.old.code }
    requires turn { HasTurn M.meaning engine.old seat machine.old }
    requires allocates { IsAllocating (M.meaning.stage engine.old.code machine.old) }
    requires early { (M.meaning.stage engine.old.code machine.old).since < engine.old.limits.slice }
    requires steps { (M.meaning.stage engine.old.code machine.old).steps + 1 < 2 ^ 64 }
    ensures at { IsAtWork M.meaning engine.new seat machine.new }
    ensures stays { is_back result ≡ false }
    ensures done { (told : List Told) → IsDone M.meaning seat (Some (M.meaning.stage engine.old.code machine.old)) engine.old engine.new told told result }
    ensures due { LacksWhereDue engine.old seat (Some (M.meaning.stage engine.old.code machine.old)) result }
{
    engine.stands();
    match engine.alloc(seat, machine) {
        Ok(l) => {
            machine.feed(code, Input::Loc(l));
            Outcome::Allocated
        }
        Err(_) => give_up(engine),
    }
}
