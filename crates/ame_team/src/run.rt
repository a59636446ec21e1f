//! A whole run of a program by workers.

ghost use Rattle.std.specs.Prelude.{◌≡◌, ◌≤◌, length, IfOk, IfErr};
ghost use Rattle.std.specs.Arc.{arc_value};
ghost use Rattle.ame_engine.specs.Resuming.{HasResumed};
ghost use Rattle.ame_engine.specs.Whole.{AreLimits};
ghost use Rattle.ame_shell.specs.Over.{IsOver, IsOverSince};

use crate::shared::run_shared;
use crate::worker_room::WorkerRoom;
use ame_device::Device;
use ame_engine::Engine;
use ame_io::Sink;
use ame_machine::Runner;
use ame_protocol::Limits;
use ame_shell::{Io, Remains};
use ame_worker::{Gate, Shared};
use std::alloc::Global;
use std::sync::{Arc, Wait};
use std::thread::Threads;

/// Runs a program to its end, by as many workers as the limits have seats, each in a thread of its own if one can be made. If it
/// runs out of memory before anything was begun, it hands sink and devices back as they were.
pub fn run_by_workers<M, K, D, G, R>(
    rt: &R,
    alloc: Global,
    code: Arc<M::Code>,
    limits: Limits,
    io: Io<K, D>,
    gate: &G,
) -> Result<Remains<M::Value, K, D>, Io<K, D>>
where
    M: Runner + Send,
    M::Code: Drop + Send + Sync,
    M::Value: Send,
    K: Sink + Send + Drop,
    D: Device + Send,
    G: Gate + Sync,
    R: Threads + Wait + Sync,
    requires limits { AreLimits limits }
    requires devices { (M.meaning.signature (arc_value code)).devices ≤ length io.ends.told }
    ensures over { IfOk result (λ left. IsOver (M.meaning.program (arc_value code)) (M.meaning.signature (arc_value code)) limits (M.meaning.value_of (arc_value code)) io.ends left.ended left.io.ends) }
    ensures back { IfErr result (λ back. back ≡ io) }
{
    let Ok(share) = Arc::try_clone(&code) else {
        return Err(io);
    };
    let Ok(room) = WorkerRoom::take(alloc, code, limits.seats) else {
        return Err(io);
    };
    let shared = Shared::<M, K, D>::open(alloc, share, limits, io)?;
    match run_shared(rt, room, shared, gate, false) {
        Ok(left) => Ok(left),
        Err(shared) => Err(shared.into_shell().into_io()),
    }
}

/// Runs a program to its end that goes on from a base, as `run_by_workers` does from its beginning. Before any worker runs it sends the
/// lines of the base; no device is called for it. If it runs out of memory before anything was sent or begun, it hands sink and devices
/// back as they were. If it runs out of memory later, the run ends with that stop.
pub fn resume_by_workers<M, K, D, G, R>(
    rt: &R,
    alloc: Global,
    code: Arc<M::Code>,
    engine: Engine<M>,
    io: Io<K, D>,
    gate: &G,
) -> Result<Remains<M::Value, K, D>, Io<K, D>>
where
    M: Runner + Send,
    M::Code: Drop + Send + Sync,
    M::Value: Send,
    K: Sink + Send + Drop,
    D: Device + Send,
    G: Gate + Sync,
    R: Threads + Wait + Sync,
    requires opened { HasResumed M.meaning engine.limits engine.base engine }
    requires limits { AreLimits engine.limits }
    requires code { arc_value code ≡ engine.code }
    requires devices { (M.meaning.signature engine.code).devices ≤ length io.ends.told }
    ensures over { IfOk result (λ left. IsOverSince engine.base (M.meaning.program engine.code) (M.meaning.signature engine.code) engine.limits (M.meaning.value_of engine.code) io.ends left.ended left.io.ends) }
    ensures back { IfErr result (λ back. back ≡ io) }
{
    let Ok(room) = WorkerRoom::take(alloc, code, engine.limits().seats) else {
        return Err(io);
    };
    let shared = Shared::resume(alloc, engine, io)?;
    match run_shared(rt, room, shared, gate, true) {
        Ok(left) => Ok(left),
        Err(shared) => Ok(shared.into_shell().give_up()),
    }
}
