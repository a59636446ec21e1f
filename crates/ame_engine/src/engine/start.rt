//! The start of an engine.

ghost use Rattle.std.specs.Prelude.{◌≡◌, IfOk, replicate};
ghost use Rattle.std.specs.Arc.{arc_value};
ghost use Rattle.ame_protocol.specs.Engine.Events.{started};
ghost use Rattle.ame_protocol.specs.Event.EngineState.{started_state};
ghost use Rattle.ame_engine.specs.Makes.{state_of};
ghost use Rattle.ame_engine.specs.Seen.{parts_of};
ghost use Rattle.ame_engine.specs.Whole.{AreLimits};

use super::Engine;
use super::ledger::Ledger;
use ame_journal::Journal;
use ame_machine::Runner;
use ame_pool::Pool;
use ame_protocol::{Counters, Limits, Task};
use ame_rows::Memory;
use ame_store::Store;
use ame_term::NoMemory;
use std::alloc::Global;
use std::sync::Arc;

/// Returns the tasks of idle seats.
pub(crate) fn idle_tasks(alloc: Global, seats: u32) -> Result<Vec<Task>, NoMemory>
    ensures { IfOk result (λ tasks. tasks.items ≡ replicate seats Task.Idle) }
{
    let mut tasks = Vec::new(alloc);
    for _ in 0..seats {
        tasks.push(Task::Idle)?;
    }
    Ok(tasks)
}

impl<M: Runner> Engine<M>
where
    M::Code: Drop,
{
    /// Returns an engine whose one member is the program at its beginning. Nothing is committed, and all seats are idle.
    pub fn start(alloc: Global, code: Arc<M::Code>, limits: Limits) -> Result<Engine<M>, NoMemory>
        requires { AreLimits limits }
        ensures code { IfOk result (λ engine. engine.code ≡ arc_value code) }
        ensures parts { IfOk result (λ engine. parts_of M.meaning engine
            ≡ started (M.meaning.program (arc_value code)) (M.meaning.signature (arc_value code)) limits 0) }
        ensures state { IfOk result (λ engine. state_of M.meaning engine
            ≡ started_state (M.meaning.program (arc_value code)) (M.meaning.signature (arc_value code)) limits) }
    {
        let machine = M::start(alloc, &code)?;
        let memory = Memory::new(alloc, Store::new(alloc), limits.seats)?;
        let tasks = idle_tasks(alloc, limits.seats)?;
        let mut pool = Pool::new(alloc);
        pool.room(1)?;
        pool.add(0, machine, false);
        Ok(Engine {
            code,
            limits,
            base: Journal::new(alloc),
            ledger: Ledger::new(alloc),
            memory,
            tasks,
            pool,
            next: 1,
            turns: 0,
            counters: Counters::new(),
            tried: Vec::new(alloc),
            stop: None,
            certificates: Vec::new(alloc),
        })
    }
}
