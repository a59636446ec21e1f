//! The opening of a shell that workers share.

ghost use Rattle.std.specs.Prelude.{◌≡◌, ℕ, [], IfOk, IfErr, replicate};
ghost use Rattle.std.specs.Arc.{arc_value};
ghost use Rattle.ame_protocol.specs.declared.types.Task.{Task};
ghost use Rattle.ame_protocol.specs.Engine.Parts.{task_at};
ghost use Rattle.ame_engine.specs.Resuming.{HasResumed};
ghost use Rattle.ame_engine.specs.Whole.{AreLimits};
ghost use Rattle.ame_worker.specs.Opened.{IsAround, IsOpenedBy};
ghost use Rattle.ame_worker.specs.Rows.{nothing_kept};

use crate::shared::{SeatPlace, Shared};
use ame_device::Device;
use ame_engine::Engine;
use ame_io::Sink;
use ame_machine::Runner;
use ame_protocol::Limits;
use ame_shell::{Io, Shell, Work};
use ame_trace::Trace;
use std::alloc::{AllocError, Global};
use std::snapshot::Snapshot;
use std::sync::Arc;

/// Makes this number of places, for seats that did nothing.
fn empty_places<M>(alloc: Global, seats: u32) -> Result<Vec<SeatPlace<M>>, AllocError>
    ensures { IfOk result (λ places. places.items ≡ replicate seats nothing_kept) }
{
    let mut places = Vec::new(alloc);
    for _ in 0..seats {
        places.push(SeatPlace::new(&Work::Idle, false))?;
    }
    Ok(places)
}

impl<M: Runner, K: Sink, D: Device> Shared<M, K, D>
where
    M::Code: Drop,
{
    /// Makes a shell with this engine, before any line was sent, and a place for each seat. If it runs out of memory, it returns sink and
    /// devices.
    fn around(alloc: Global, engine: Engine<M>, io: Io<K, D>) -> Result<Shared<M, K, D>, Io<K, D>>
        ensures fresh { IfOk result (IsAround engine io) }
        ensures back { IfErr result (λ back. back ≡ io) }
    {
        let Ok(places) = empty_places(alloc, engine.limits().seats) else {
            return Err(io);
        };
        let shell = Shell {
            engine,
            io,
            sent: 0,
        };
        let made = Snapshot::of(&shell);
        match Box::new(alloc, shell) {
            Ok(shell) => Ok(Shared {
                shell,
                places,
                turns: Trace::new(),
                made,
            }),
            Err(refused) => Err(refused.value.into_io()),
        }
    }

    /// Makes a shell that workers are about to share, before anything was run. If it runs out of memory, it returns sink and devices.
    pub fn open(
        alloc: Global,
        code: Arc<M::Code>,
        limits: Limits,
        io: Io<K, D>,
    ) -> Result<Shared<M, K, D>, Io<K, D>>
        requires limits { AreLimits limits }
        ensures opens { IfOk result (IsOpenedBy M.meaning (record { code = arc_value code; limits = limits; base = []; ends = io.ends })) }
        ensures kept { IfOk result (λ shared. shared.shell.value.io ≡ io) }
        ensures back { IfErr result (λ back. back ≡ io) }
    {
        let Ok(engine) = Engine::<M>::start(alloc, code, limits) else {
            return Err(io);
        };
        Shared::around(alloc, engine, io)
    }

    /// Makes a shell that workers are about to share, with an engine that goes on from a base. It sends the lines of the base. If the
    /// sink fails, that stop is kept. If it runs out of memory, nothing was sent, and it returns sink and devices.
    pub fn resume(
        alloc: Global,
        engine: Engine<M>,
        io: Io<K, D>,
    ) -> Result<Shared<M, K, D>, Io<K, D>>
        requires resumed { HasResumed M.meaning engine.limits engine.base engine }
        ensures opens { IfOk result (IsOpenedBy M.meaning (record { code = engine.code; limits = engine.limits; base = engine.base; ends = io.ends })) }
        ensures idle { IfOk result (λ shared. (seat : ℕ) → task_at shared.shell.value.engine.tasks seat ≡ Task.Idle) }
        ensures kept_devices { IfOk result (λ shared. shared.shell.value.io.devices ≡ io.devices) }
        ensures back { IfErr result (λ back. back ≡ io) }
    {
        let mut shared = Shared::around(alloc, engine, io)?;
        let shell = &mut *shared.shell;
        shell.flush();
        Ok(shared)
    }
}
