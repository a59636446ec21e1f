//! The turn of a seat.

ghost use Rattle.std.specs.Prelude.{◌≡◌, ◌≢◌, ◌≤◌, ◌<◌, ◌^◌, List, Some, None, true, false, length};
ghost use Rattle.ame_device.specs.declared.told.Told.{Told};
ghost use Rattle.ame_machine.specs.declared.wants.Wants.{Wants};
ghost use Rattle.ame_protocol.specs.declared.types.Task.{Task};
ghost use Rattle.ame_protocol.specs.Engine.Parts.{task_at};
ghost use Rattle.ame_shell.specs.declared.work.Outcome.{Outcome};
ghost use Rattle.ame_shell.specs.declared.work.Work.{Work};
ghost use Rattle.ame_shell.specs.declared.work.Work.TheVariants as spec;
ghost use Rattle.ame_shell.specs.Asked.{waits_for_check, is_handed_in, HasNoTurnsLeft, LacksWhereDue, LacksAsDue};
ghost use Rattle.ame_shell.specs.Ready.{IsReady, IsReadyWork};
ghost use Rattle.ame_shell.specs.Work.{stage_at, CanUndo, IsAtWork, HasTurn, Fits};
ghost use Rattle.ame_shell.specs.Outcomes.{is_back as turns_back, is_home as comes_home, IsDone};

use crate::accesses::{alloc_on, read_on, write_on};
use crate::events::{begin_on, give_up, undo_on};
use crate::io::Io;
use crate::rows::{block_on, check_on, commit_on, spend_running, tall_on};
use crate::spends::spend_undoing;
use crate::visits::free_on;
use crate::work::{Outcome, Work};
use ame_device::Device;
use ame_engine::Engine;
use ame_io::Sink;
use ame_machine::{Runner, Wants};
use std::mem;

/// Shows that a number has 32 bits.
fn is_small(number: u32)
    ensures { number < 2 ^ 32 }
{
    let _ = number;
}

/// Shows that the limits are numbers of 32 bits.
pub(crate) fn limits_are_small<M: Runner>(engine: &Engine<M>)
where
    M::Code: Drop,
    ensures slice { engine.now.limits.slice < 2 ^ 32 }
    ensures turns { engine.now.limits.turns < 2 ^ 32 }
{
    is_small(engine.limits().slice);
    is_small(engine.limits().turns);
}

/// Returns whether the reads of a seat are checked at a full slice before this is done.
fn waits_for_check(want: Wants) -> bool
    ensures { result ≡ waits_for_check (Some want) }
{
    matches!(
        want,
        Wants::Read(_) | Wants::Write(_) | Wants::Alloc(_, _) | Wants::OutOfFuel
    )
}

/// Returns whether a machine wants something, and has made a slice of steps if that is fuel. If that isn't so after `prepare`, memory
/// ran out.
fn is_ready<M: Runner>(engine: &Engine<M>, work: &Work<M>) -> bool
where
    M::Code: Drop,
    ensures yes { result ≡ true → IsReadyWork M.meaning.stage engine.now.code engine.now.limits.slice work.now }
    ensures no { result ≡ false → IsReadyWork M.meaning.stage engine.now.code engine.now.limits.slice work.now → ⊥ }
{
    match work {
        Work::Idle | Work::Undoing => true,
        Work::Running(machine) => match machine.want() {
            None => false,
            Some(Wants::OutOfFuel) => {
                machine.since() > 0 && machine.since() >= u64::from(engine.limits().slice)
            }
            Some(_) => true,
        },
    }
}

/// Returns whether a seat turned back or is noted, so that it undoes.
fn is_back(outcome: Outcome) -> bool
    ensures { result ≡ turns_back outcome }
{
    matches!(
        outcome,
        Outcome::Met(_)
            | Outcome::FoundInvalid(_)
            | Outcome::Noted
            | Outcome::NotNoted(_)
            | Outcome::GrewTall
            | Outcome::NotTall(_)
            | Outcome::Spent
    )
}

/// Returns whether the member of a seat that was committed or visited is home again.
fn is_home(outcome: Outcome) -> bool
    ensures { result ≡ comes_home outcome }
{
    matches!(
        outcome,
        Outcome::Ended | Outcome::Left | Outcome::CameHome | Outcome::DeviceFailed(_)
    )
}

/// Serves the machine of a seat in place: an access, a check of its reads, or a note of its place.
fn serve<M: Runner>(
    engine: &mut Engine<M>,
    code: &M::Code,
    seat: u32,
    machine: &mut M,
    want: Wants,
) -> Outcome
where
    M::Code: Drop,
    requires same { code.now ≡ engine.old.code }
    requires turn { HasTurn M.meaning engine.old seat machine.old }
    requires ready { IsReady engine.old.limits.slice (M.meaning.stage engine.old.code machine.old) }
    requires told { (M.meaning.stage engine.old.code machine.old).want ≡ Some want }
    requires goes_on { (want ≢ Wants.Done) × (want ≢ Wants.Leave) }
    requires outside { want ≢ Wants.Tall → (M.meaning.stage engine.old.code machine.old).inside ≡ false }
    ensures at { turns_back result ≡ false → IsAtWork M.meaning engine.new seat machine.new }
    ensures back { turns_back result ≡ true → CanUndo engine.new seat }
    ensures done { (told : List Told) → IsDone M.meaning seat (Some (M.meaning.stage engine.old.code machine.old)) engine.old engine.new told told result }
    ensures due { LacksWhereDue engine.old seat (Some (M.meaning.stage engine.old.code machine.old)) result }
{
    engine.stands();
    limits_are_small(engine);
    if waits_for_check(want) && machine.since() >= u64::from(engine.limits().slice) {
        return check_on(engine, seat, machine);
    }
    match want {
        Wants::Read(_) => read_on(engine, code, seat, machine),
        Wants::Write(_) => write_on(engine, code, seat, machine),
        Wants::Alloc(_, _) => alloc_on(engine, code, seat, machine),
        Wants::Block => block_on(engine, seat, machine),
        Wants::Tall => tall_on(engine, seat, machine),
        Wants::Done
        | Wants::Leave
        | Wants::OutOfFuel
        | Wants::Peek(_)
        | Wants::Close
        | Wants::Device(_, _)
        | Wants::Spawn
        | Wants::Print(_) => unreachable!(),
    }
}

/// Hands in the machine of a seat whose fragment is over, or that is inside and visits.
fn hand_in<M: Runner, K: Sink, D: Device>(
    engine: &mut Engine<M>,
    seat: u32,
    machine: M,
    want: Wants,
    io: &mut Io<K, D>,
) -> Outcome
where
    M::Code: Drop,
    requires turn { HasTurn M.meaning engine.old seat machine }
    requires ready { IsReady engine.old.limits.slice (M.meaning.stage engine.old.code machine) }
    requires told { (M.meaning.stage engine.old.code machine).want ≡ Some want }
    requires over { (M.meaning.stage engine.old.code machine).inside ≡ false → (want ≡ Wants.Leave → ⊥) → want ≡ Wants.Done }
    requires short { want ≡ Wants.Tall → ⊥ }
    requires devices { (M.meaning.signature engine.old.code).devices ≤ length io.old.ends.told }
    ensures home { comes_home result ≡ true → task_at engine.new.tasks seat ≡ Task.Idle }
    ensures back { comes_home result ≡ false → CanUndo engine.new seat }
    ensures done { IsDone M.meaning seat (Some (M.meaning.stage engine.old.code machine)) engine.old engine.new
        io.old.ends.told io.new.ends.told result }
    ensures due { LacksWhereDue engine.old seat (Some (M.meaning.stage engine.old.code machine)) result }
    ensures alone { io.new.ends ≡ record io.old.ends { told = io.new.ends.told } }
{
    engine.stands();
    limits_are_small(engine);
    if machine.inside() {
        return free_on(engine, seat, machine, io);
    }
    match want {
        Wants::Leave => commit_on(engine, seat, machine, Outcome::Left),
        _ => commit_on(engine, seat, machine, Outcome::Ended),
    }
}

/// Returns whether a machine is handed in at its turn, by what it wants and whether it is inside.
fn is_handed_in(want: Wants, inside: bool) -> bool
    ensures { result ≡ is_handed_in want inside }
{
    match want {
        Wants::Tall => false,
        Wants::Done | Wants::Leave => true,
        _ => inside,
    }
}

/// Makes the turn of a seat that has a member at work, once the turns are used up: that stop is kept.
fn spend<M: Runner>(engine: &mut Engine<M>, seat: u32, work: &mut Work<M>) -> Outcome
where
    M::Code: Drop,
    requires fits { Fits M.meaning engine.old seat work.old }
    requires busy { work.old ≢ spec.Idle }
    requires spent { HasNoTurnsLeft engine.old }
    ensures fits { Fits M.meaning engine.new seat work.new }
    ensures done { (told : List Told) → IsDone M.meaning seat (stage_at M.meaning.stage engine.old.code work.old) engine.old engine.new told told result }
    ensures due { LacksWhereDue engine.old seat (stage_at M.meaning.stage engine.old.code work.old) result }
{
    match work {
        Work::Running(machine) => {
            let outcome = spend_running(engine, seat, machine);
            if is_back(outcome) {
                *work = Work::Undoing;
            }
            outcome
        }
        Work::Idle | Work::Undoing => spend_undoing(engine, seat, work),
    }
}

/// Makes one event of a seat, exactly the one that the engine, the seat's work in flight and what its machine wants name. If the machine
/// isn't ready, or the event runs out of memory, that stop is kept, and nothing else changes. An event that takes no memory never runs
/// out of it.
pub(crate) fn act<M: Runner, K: Sink, D: Device>(
    engine: &mut Engine<M>,
    code: &M::Code,
    seat: u32,
    work: &mut Work<M>,
    io: &mut Io<K, D>,
) -> Outcome
where
    M::Code: Drop,
    requires code { code.now ≡ engine.old.code }
    requires seat { seat < engine.old.limits.seats }
    requires fits { Fits M.meaning engine.old seat work.old }
    requires devices { (M.meaning.signature engine.old.code).devices ≤ length io.old.ends.told }
    ensures fits { Fits M.meaning engine.new seat work.new }
    ensures done { IsDone M.meaning seat (stage_at M.meaning.stage engine.old.code work.old) engine.old engine.new io.old.ends.told io.new.ends.told result }
    ensures lacks { LacksAsDue M.meaning.stage engine.old seat work.old result }
    ensures alone { io.new.ends ≡ record io.old.ends { told = io.new.ends.told } }
{
    if let Work::Idle = work {
        return begin_on(engine, seat, work);
    }
    if engine.stopped().is_some() {
        return undo_on(engine, seat, work);
    }
    if !is_ready(engine, work) {
        return give_up(engine);
    }
    if engine.turns() >= engine.limits().turns {
        return spend(engine, seat, work);
    }
    if let Work::Undoing = work {
        return undo_on(engine, seat, work);
    }
    let Work::Running(machine) = work else {
        unreachable!();
    };
    let Some(want) = machine.want() else {
        unreachable!();
    };
    if is_handed_in(want, machine.inside()) {
        let Work::Running(machine) = mem::replace(work, Work::Undoing) else {
            unreachable!();
        };
        let outcome = hand_in(engine, seat, machine, want, io);
        if is_home(outcome) {
            *work = Work::Idle;
        }
        return outcome;
    }
    let outcome = serve(engine, code, seat, machine, want);
    if is_back(outcome) {
        *work = Work::Undoing;
    }
    outcome
}
