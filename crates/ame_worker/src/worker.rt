//! A worker: a seat, its work in flight, and the code.

ghost use Rattle.std.specs.Prelude.{◌≡◌, true, false};
ghost use Rattle.std.specs.Arc.{arc_value};
ghost use Rattle.ame_baton.specs.Batons.{knows, IsSeatOf};
ghost use Rattle.ame_baton.specs.Keeping.{KeepsSeat};
ghost use Rattle.ame_baton.specs.Seats.{IsElsewhere};
ghost use Rattle.ame_baton.specs.declared.turn.passing.Elsewhere.{Elsewhere};
ghost use Rattle.ame_worker.specs.declared.gate.Point.{Point};
ghost use Rattle.ame_worker.specs.Rows.{empty_row};
ghost use Rattle.ame_worker.specs.Leads.{RestsAtStop};
ghost use Rattle.ame_worker.specs.Led.{HasLed, HasHadTurn, HasLedOrNot};
ghost use Rattle.ame_worker.specs.Holding.{HasTheTurn};
ghost use Rattle.ame_worker.specs.Workers.{IsSeated, IsReadyToTurn, IsThrough};

use crate::gate::{Gate, Point};
use crate::pause::pause;
use crate::points::point_of;
use crate::shared::{Opened, SeatRow, Shared};
use crate::turns::TurnRecord;
use ame_baton::{AnyRow, Baton, Elsewhere, Seat, SeatAt};
use ame_device::Device;
use ame_io::Sink;
use ame_machine::Runner;
use ame_protocol::Limits;
use ame_shell::{Work, prepare};
use crossbeam_utils::Backoff;
use std::alloc::Global;
use std::sync::{Arc, Wait};

/// A worker: a seat at a shared shell, its work in flight, the code and the limits.
pub struct Worker<M: Runner, K: Sink, D: Device>
where
    M::Code: Drop,
{
    pub seat: SeatAt<Shared<M, K, D>, Opened<M, K, D>, SeatRow<M>, TurnRecord<M, K, D>>,
    pub work: Work<M>,
    pub code: Arc<M::Code>,
    pub limits: Limits,
}

impl<M: Runner, K: Sink, D: Device> Drop for Worker<M, K, D>
where
    M::Code: Drop,
{
    fn drop(self) {
        let Worker {
            seat: _,
            work: _,
            code: _,
            limits: _,
        } = self;
    }
}

/// The answer to a worker's call for a turn.
#[derive(Clone, Copy, PartialEq, Eq, Debug)]
pub enum TurnAnswer {
    /// It had a turn, and made the event that the point names.
    Did(Point),
    /// Another seat had the turn. Nothing of the shared shell changed.
    Busy(Elsewhere),
}

impl<M: Runner, K: Sink, D: Device> Worker<M, K, D>
where
    M::Code: Drop,
{
    /// Makes a worker for a seat that has nothing at work. Takes no memory.
    pub fn new(seat: Seat<Shared<M, K, D>>, code: Arc<M::Code>, limits: Limits) -> Worker<M, K, D>
        requires seated { IsSeated M.meaning.signature (arc_value code) limits (knows seat) }
        requires free { (knows seat).holds ≡ false }
        requires empty { (knows seat).row ≡ empty_row }
        ensures ready { IsReadyToTurn M.meaning (arc_value result.code) result.limits (knows result.seat) result.work }
        ensures seat { result.seat ≡ seat }
        ensures code { result.code ≡ code }
        ensures limits { result.limits ≡ limits }
    {
        Worker {
            seat,
            work: Work::Idle,
            code,
            limits,
        }
    }

    /// Keeps the seat's work in flight in the shell, and gives the turn.
    fn hand_over<R: Wait>(
        &mut self,
        rt: &R,
        baton: &Baton<Shared<M, K, D>>,
        mut shared: Shared<M, K, D>,
    )
        requires of { IsSeatOf baton.now self.old.seat }
        requires holds { HasTheTurn M.meaning (arc_value self.old.code) self.old.limits (knows self.old.seat) self.old.work shared }
        ensures of { IsSeatOf baton.now self.new.seat }
        ensures led { (h : HasTheTurn M.meaning (arc_value self.old.code) self.old.limits (knows self.old.seat) self.old.work shared)
            → HasLed M.meaning (arc_value self.old.code) self.old.limits.slice h.before (knows self.new.seat) h.had self.old.work h.led }
        ensures through { RestsAtStop shared.shell.value.engine (knows self.old.seat).number → IsThrough (knows self.new.seat) }
        ensures rest { self.new ≡ record self.old { seat = self.new.seat } }
    {
        let number = self.seat.number();
        shared.keep(number, &self.work);
        baton.give::<AnyRow, R>(rt, &mut self.seat, shared);
    }

    /// Runs the worker's machine, without the turn. Then, if the turn is there, it makes one event of the seat, gives the turn back, and
    /// passes the gate. It doesn't wait for the turn.
    pub fn turn<R: Wait, G: Gate>(
        &mut self,
        rt: &R,
        alloc: Global,
        baton: &Baton<Shared<M, K, D>>,
        gate: &G,
    ) -> TurnAnswer
        requires of { IsSeatOf baton.now self.old.seat }
        requires ready { IsReadyToTurn M.meaning (arc_value self.old.code) self.old.limits (knows self.old.seat) self.old.work }
        ensures of { IsSeatOf baton.now self.new.seat }
        ensures ready { IsReadyToTurn M.meaning (arc_value self.new.code) self.new.limits (knows self.new.seat) self.new.work }
        ensures keeps { KeepsSeat (knows self.old.seat) (knows self.new.seat) }
        ensures busy { (elsewhere : Elsewhere) → result ≡ TurnAnswer.Busy elsewhere → IsElsewhere (knows self.old.seat) }
        ensures same { (elsewhere : Elsewhere) → result ≡ TurnAnswer.Busy elsewhere → knows self.new.seat ≡ knows self.old.seat }
        ensures did { (point : Point) → result ≡ TurnAnswer.Did point → HasHadTurn M.meaning (arc_value self.old.code) self.old.limits.slice
            (knows self.old.seat) (knows self.new.seat) self.old.work self.new.work point }
        ensures through { result ≡ TurnAnswer.Did Point.Stopped → IsThrough (knows self.new.seat) }
        ensures code { self.new.code ≡ self.old.code }
        ensures limits { self.new.limits ≡ self.old.limits }
    {
        let code: &M::Code = &self.code;
        // A machine that memory was refused isn't ready, which its turn finds.
        let _ = prepare(alloc, code, self.limits.slice, &mut self.work);
        let mut shared = match baton.try_take(rt, &mut self.seat) {
            Ok(shared) => shared,
            Err(elsewhere) => return TurnAnswer::Busy(elsewhere),
        };
        let number = self.seat.number();
        let turn = shared.play(code, number, &mut self.work);
        self.hand_over(rt, baton, shared);
        let point = point_of(turn);
        gate.pass(number, point);
        TurnAnswer::Did(point)
    }

    /// Has turns while no other worker has any, and holds the turn from the first to the last: until a stop is kept and its seat has
    /// nothing at work, which it returns, or no ready member may begin, or until others could help: a fragment made many steps, and there
    /// may be more of them, since the run began with some (`are_more`) or one was committed. Passes the gate after each.
    pub fn lead<R: Wait, G: Gate>(
        &mut self,
        rt: &R,
        baton: &Baton<Shared<M, K, D>>,
        gate: &G,
        are_more: bool,
    ) -> bool
        requires of { IsSeatOf baton.now self.old.seat }
        requires ready { IsReadyToTurn M.meaning (arc_value self.old.code) self.old.limits (knows self.old.seat) self.old.work }
        ensures of { IsSeatOf baton.now self.new.seat }
        ensures ready { IsReadyToTurn M.meaning (arc_value self.new.code) self.new.limits (knows self.new.seat) self.new.work }
        ensures keeps { KeepsSeat (knows self.old.seat) (knows self.new.seat) }
        ensures led { HasLedOrNot M.meaning (arc_value self.old.code) self.old.limits are_more
            (knows self.old.seat) (knows self.new.seat) self.old.work self.new.work }
        ensures through { result ≡ true → IsThrough (knows self.new.seat) }
        ensures code { self.new.code ≡ self.old.code }
        ensures limits { self.new.limits ≡ self.old.limits }
    {
        let Ok(mut shared) = baton.try_take(rt, &mut self.seat) else {
            return false;
        };
        let is_over = self.lead_on(rt, gate, &mut shared, are_more);
        self.hand_over(rt, baton, shared);
        is_over
    }

    /// Has turns until a stop is kept and its seat has nothing at work. It may wait, and sleeps if that takes long.
    pub fn work<R: Wait, G: Gate>(
        &mut self,
        rt: &R,
        alloc: Global,
        baton: &Baton<Shared<M, K, D>>,
        gate: &G,
    )
        requires of { IsSeatOf baton.now self.old.seat }
        requires ready { IsReadyToTurn M.meaning (arc_value self.old.code) self.old.limits (knows self.old.seat) self.old.work }
        ensures of { IsSeatOf baton.now self.new.seat }
        ensures keeps { KeepsSeat (knows self.old.seat) (knows self.new.seat) }
        ensures through { IsThrough (knows self.new.seat) }
    {
        let (mut backoff, mut waits) = (Backoff::new(), 0_u32);
        for _ in rt.forever() {
            match self.turn(rt, alloc, baton, gate) {
                TurnAnswer::Did(Point::Stopped) => return,
                TurnAnswer::Did(Point::Idle) | TurnAnswer::Busy(_) => {
                    pause(rt, &backoff, waits);
                    waits = waits.saturating_add(1);
                }
                TurnAnswer::Did(_) => (backoff, waits) = (Backoff::new(), 0),
            }
        }
        unreachable!()
    }

    /// Returns the worker's seat.
    pub fn seat(self) -> Seat<Shared<M, K, D>>
        ensures { result ≡ self.seat }
    {
        let Worker {
            seat,
            work: _,
            code: _,
            limits: _,
        } = self;
        seat
    }
}
