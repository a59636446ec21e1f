//! Workers run a shell that was opened.

ghost use Rattle.std.specs.Prelude.{◌≡◌, ◌≤◌, length, IfOk, IfErr};
ghost use Rattle.ame_engine.specs.Whole.{AreLimits};
ghost use Rattle.ame_shell.specs.Shell.{shell_view, IsOverFrom};
ghost use Rattle.ame_worker.specs.Opened.{IsUnused};
ghost use Rattle.ame_worker.specs.Shared.{opening_from};
ghost use Rattle.ame_team.specs.Rooms.{IsRoomFor};
ghost use Rattle.ame_team.specs.Teams.{HasBeenLedBy};

use crate::team::{seats_of, team, work_all};
use crate::worker_room::WorkerRoom;
use ame_baton::Baton;
use ame_device::Device;
use ame_io::Sink;
use ame_machine::Runner;
use ame_shell::Remains;
use ame_worker::{Gate, Shared};
use std::sync::Wait;
use std::thread::Threads;

/// Runs a shell on which nothing was run, by workers, until a stop is kept and all seats are idle. Each has a thread of its own if one can
/// be made. `are_more` is whether more than one member is there at first. If memory runs out before they begin, it returns the shell as it
/// was.
pub(crate) fn run_shared<M, K, D, G, R>(
    rt: &R,
    room: WorkerRoom<M, K, D>,
    shared: Shared<M, K, D>,
    gate: &G,
    are_more: bool,
) -> Result<Remains<M::Value, K, D>, Shared<M, K, D>>
where
    M: Runner + Send,
    M::Code: Drop + Send + Sync,
    M::Value: Send,
    K: Sink + Send + Drop,
    D: Device + Send,
    G: Gate + Sync,
    R: Threads + Wait + Sync,
    requires limits { AreLimits shared.made.value.engine.limits }
    requires devices { (M.meaning.signature shared.made.value.engine.code).devices ≤ length shared.made.value.io.ends.told }
    requires unused { IsUnused M.meaning shared }
    requires room { IsRoomFor shared.made.value.engine.code shared.made.value.engine.limits.seats room }
    ensures over { IfOk result (λ left. IsOverFrom M.meaning (opening_from (shell_view shared.made.value)) left.ended left.io.ends) }
    ensures led { IfOk result (λ left. HasBeenLedBy M.meaning shared.made.value.engine.limits.seats (shell_view shared.shell.value) left.ended) }
    ensures back { IfErr result (λ back. back ≡ shared) }
{
    let alloc = *room.workers.allocator();
    let limits = *shared.shell.engine.limits();
    let (mut codes, workers, seats) = room.into_parts();
    let Some(code) = codes.pop() else {
        unreachable!();
    };
    let (baton, first) = match Baton::new(rt, alloc, shared) {
        Ok(made) => made,
        Err(shared) => return Err(shared),
    };
    let mut workers = team(&baton, first, code, codes, limits, workers);
    work_all(rt, alloc, &baton, gate, workers.as_mut_slice(), are_more);
    let (first, rest) = seats_of(workers, seats);
    let shell = baton.end(rt, first, rest).into_shell();
    shell.engine.stands();
    Ok(shell.finish())
}
