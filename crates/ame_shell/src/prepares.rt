//! The work before a turn.

ghost use Rattle.std.specs.Prelude.{◌≡◌, ◌<◌, OnOk, OnErr};
ghost use Rattle.ame_engine.specs.Whole.{AreLimits};
ghost use Rattle.ame_shell.specs.Ready.{CanGoOn, HasAdvanced, IsReady, CanBePrepared, IsPrepared, IsReadyWork};
ghost use Rattle.ame_shell.specs.Work.{Fits};

use crate::work::Work;
use ame_engine::Engine;
use ame_machine::{Runner, Wants};
use ame_term::NoMemory;
use std::alloc::Global;

/// Runs a machine until it wants something or its slice is full, unless it wants something already.
fn go_on<M: Runner>(
    alloc: Global,
    code: &M::Code,
    slice: u32,
    machine: &mut M,
) -> Result<(), NoMemory>
    requires some { 0 < slice }
    requires can { CanGoOn M.meaning.is_machine M.meaning.stage code.now slice machine.old }
    ensures gone { HasAdvanced M.meaning.is_machine M.meaning.stage code.now slice machine.old machine.new }
    ensures ready { OnOk result (IsReady slice (M.meaning.stage code.now machine.new)) }
    ensures lacks { OnErr result (IsReady slice (M.meaning.stage code.now machine.new) → ⊥) }
{
    match machine.want() {
        None | Some(Wants::OutOfFuel) => {
            let fuel = u64::from(slice).saturating_sub(machine.since());
            machine.advance(alloc, code, fuel)?;
            Ok(())
        }
        Some(_) => Ok(()),
    }
}

/// Runs the machine of a seat until it wants something or its slice is full, unless it wants something already. Done before a turn, without the engine. After `NoMemory` it may have made some of the steps, and isn't ready.
pub fn prepare<M: Runner>(
    alloc: Global,
    code: &M::Code,
    slice: u32,
    work: &mut Work<M>,
) -> Result<(), NoMemory>
    requires some { 0 < slice }
    requires can { CanBePrepared M.meaning.is_machine M.meaning.stage code.now slice work.old }
    ensures prepared { IsPrepared M.meaning.is_machine M.meaning.stage code.now slice work.old work.new }
    ensures ready { OnOk result (IsReadyWork M.meaning.stage code.now slice work.new) }
    ensures lacks { OnErr result (IsReadyWork M.meaning.stage code.now slice work.new → ⊥) }
{
    match work {
        Work::Running(machine) => go_on(alloc, code, slice, machine),
        Work::Idle | Work::Undoing => Ok(()),
    }
}

/// Prepares a seat's work in flight for its turn, as `prepare` does, by the engine's limits.
pub fn prepare_seat<M: Runner>(
    engine: &Engine<M>,
    alloc: Global,
    code: &M::Code,
    seat: u32,
    work: &mut Work<M>,
)
where
    M::Code: Drop,
    requires same { code.now ≡ engine.now.code }
    requires limits { AreLimits engine.now.limits }
    requires fits { Fits M.meaning engine.now seat work.old }
    ensures fits { Fits M.meaning engine.now seat work.new }
    ensures prepared { IsPrepared M.meaning.is_machine M.meaning.stage engine.now.code engine.now.limits.slice work.old work.new }
{
    engine.stands();
    let slice = engine.limits().slice;
    // A machine that memory was refused isn't ready, which its turn finds.
    let _ = prepare(alloc, code, slice, work);
}
