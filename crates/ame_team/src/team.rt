//! A team of workers: one for each seat.

ghost use Rattle.std.specs.Prelude.{◌≡◌, ◌≤◌, ◌<◌, ◌+◌, ℕ, [], All, Some, ◌++◌, ◌∷◌, length, map, slice_get, vec_len, vec_capacity, slice_index_or};
ghost use Rattle.std.specs.Arc.{arc_value};
ghost use Rattle.ame_baton.specs.Batons.{knows, IsSeatOf};
ghost use Rattle.ame_baton.specs.Keeping.{KeepsSeat};
ghost use Rattle.ame_worker.specs.declared.worker.Worker.{Worker};
ghost use Rattle.ame_team.specs.Teams.{IsFirstSeat, IsSeatAt, KeepSeats, AreReadyToTurn, HaveWorked};
ghost use Rattle.ame_worker.specs.Workers.{IsSeated, IsReadyToTurn, IsThrough};

use ame_baton::{Baton, Seat};
use ame_device::Device;
use ame_io::Sink;
use ame_machine::Runner;
use ame_protocol::Limits;
use ame_worker::{Gate, Shared, Worker};
use std::alloc::Global;
use std::sync::{Arc, Wait};
use std::thread;
use std::thread::Threads;

/// Lets the last worker of a team lead, unless the gate may hold it until others have come somewhere. Returns whether the run is over then.
/// The others stay as they are.
fn lead<M, K, D, G, R>(
    rt: &R,
    baton: &Baton<Shared<M, K, D>>,
    gate: &G,
    workers: &mut [Worker<M, K, D>],
    are_more: bool,
) -> bool
where
    M: Runner,
    M::Code: Drop,
    K: Sink,
    D: Device,
    G: Gate,
    R: Wait,
    requires some { 0 < length workers.old }
    requires ready { AreReadyToTurn M.meaning baton.now workers.old }
    ensures ready { AreReadyToTurn M.meaning baton.now workers.new }
    ensures keep { KeepSeats workers.old workers.new }
    ensures others { (i : ℕ) (d : Worker M K D M.Code M.Value) → i + 1 < length workers.old → slice_index_or workers.new i d ≡ slice_index_or workers.old i d }
{
    let last = workers.len() - 1;
    !gate.may_hold() && workers[last].lead(rt, baton, gate, are_more)
}

/// Lets each worker of a team work until a stop is kept and it has nothing at work. One leads, and then each has a thread of its own if
/// one can be made. `are_more` is whether more than one member is there at first.
pub(crate) fn work_all<M, K, D, G, R>(
    rt: &R,
    alloc: Global,
    baton: &Baton<Shared<M, K, D>>,
    gate: &G,
    workers: &mut [Worker<M, K, D>],
    are_more: bool,
)
where
    M: Runner + Send,
    M::Code: Drop + Send + Sync,
    M::Value: Send,
    K: Sink + Send,
    D: Device + Send,
    G: Gate + Sync,
    R: Threads + Wait + Sync,
    requires some { 0 < length workers.old }
    requires ready { AreReadyToTurn M.meaning baton.now workers.old }
    ensures count { length workers.new ≡ length workers.old }
    ensures worked { HaveWorked baton.now workers.old workers.new }
{
    let is_over = lead(rt, baton, gate, workers, are_more);
    let threads = if is_over { 1 } else { workers.len() };
    let work = |_: usize, w: &mut Worker<M, K, D>|
        requires { IsSeatOf baton.now w.now.seat × IsReadyToTurn M.meaning (arc_value w.now.code) w.now.limits (knows w.now.seat) w.now.work }
        ensures of { IsSeatOf baton.entry.now w.exit.now.seat }
        ensures keeps { KeepsSeat (knows w.entry.now.seat) (knows w.exit.now.seat) }
        ensures through { IsThrough (knows w.exit.now.seat) }
    { w.work(rt, alloc, baton, gate) };
    thread::for_each_mut(rt, workers, threads, &work);
}

/// Makes a worker for each seat: those of the seats that the first one makes, in order, and its own as the last.
pub(crate) fn team<M: Runner, K: Sink, D: Device>(
    baton: &Baton<Shared<M, K, D>>,
    first: Seat<Shared<M, K, D>>,
    code: Arc<M::Code>,
    codes: Vec<Arc<M::Code>>,
    limits: Limits,
    room: Vec<Worker<M, K, D>>,
) -> Vec<Worker<M, K, D>>
where
    M::Code: Drop,
    requires of { IsSeatOf baton.now first }
    requires seated { IsSeated M.meaning.signature (arc_value code) limits (knows first) }
    requires fresh { IsFirstSeat 1 (knows first) }
    requires count { vec_len codes + 1 ≡ limits.seats }
    requires codes { All (λ it. arc_value it ≡ arc_value code) codes.items }
    requires none { room.items ≡ [] }
    requires room { limits.seats ≤ vec_capacity room }
    ensures count { vec_len result ≡ limits.seats }
    ensures seats { (i : ℕ) (w : Worker M K D M.Code M.Value) → slice_get result.items i ≡ Some w
        → IsSeatAt baton.now (knows first).fixed limits.seats i w.seat }
    ensures ready { All (λ w. IsReadyToTurn M.meaning (arc_value w.code) w.limits (knows w.seat) w.work) result.items }
{
    let (mut first, mut workers, mut codes) = (first, room, codes);
    for _ in 1..limits.seats {
        let Some(share) = codes.pop() else {
            unreachable!();
        };
        let seat = baton.seat(&mut first);
        workers.push_reserved(Worker::new(seat, share, limits));
    }
    workers.push_reserved(Worker::new(first, code, limits));
    workers
}

/// Returns the seats of a team: that of the first worker, and those of the others in order.
pub(crate) fn seats_of<M: Runner, K: Sink, D: Device>(
    workers: Vec<Worker<M, K, D>>,
    room: Vec<Seat<Shared<M, K, D>>>,
) -> (Seat<Shared<M, K, D>>, Vec<Seat<Shared<M, K, D>>>)
where
    M::Code: Drop,
    requires some { 0 < vec_len workers }
    requires none { room.items ≡ [] }
    requires room { vec_len workers ≤ vec_capacity room }
    ensures all { map (λ w. w.seat) workers.items ≡ result.1.items ++ result.0 ∷ [] }
{
    let (mut workers, mut seats) = (workers, room);
    let Some(first) = workers.pop() else {
        unreachable!();
    };
    for worker in workers {
        seats.push_reserved(worker.seat());
    }
    (first.seat(), seats)
}
