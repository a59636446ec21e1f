//! A seat that has one turn after another, while no other seat has any.

ghost use Rattle.std.specs.Prelude.{◌≡◌};
ghost use Rattle.std.specs.Arc.{arc_value};
ghost use Rattle.ame_baton.specs.Batons.{knows};
ghost use Rattle.ame_shell.specs.Ready.{CanBePrepared};
ghost use Rattle.ame_shell.specs.Turned.{MayTurn};
ghost use Rattle.ame_worker.specs.Leads.{commits, is_heavy as is_heavy_by, rests};

use crate::gate::Gate;
use crate::points::point_of;
use crate::shared::Shared;
use crate::worker::Worker;
use ame_device::Device;
use ame_io::Sink;
use ame_machine::Runner;
use ame_shell::{Outcome, Work, prepare_seat};
use std::sync::Wait;

/// From this number of steps on a fragment is work enough for others to help: it takes as long as its turns, which only one worker has at a
/// time.
const HEAVY: u64 = 100;

/// Returns whether the fragment in flight made enough steps for others to help.
fn is_heavy<M: Runner>(work: &Work<M>) -> bool
    ensures { (code : M.Code) → result ≡ is_heavy_by M.meaning code work.now }
{
    match work {
        Work::Running(machine) => machine.steps() >= HEAVY,
        Work::Idle | Work::Undoing => false,
    }
}

/// Returns whether there is nothing to lead: no ready member may begin, or a stop is kept and the seat has nothing at work.
fn is_rest(outcome: Outcome) -> bool
    ensures { result ≡ rests outcome }
{
    matches!(outcome, Outcome::Waited | Outcome::Stopped)
}

/// Returns whether something was committed.
fn is_commit(outcome: Outcome) -> bool
    ensures { result ≡ commits outcome }
{
    matches!(outcome, Outcome::Ended | Outcome::Left | Outcome::CameHome)
}

impl<M: Runner, K: Sink, D: Device> Worker<M, K, D>
where
    M::Code: Drop,
{
    ghost use Rattle.ame_shell.specs.Shell.{shell_view};
    ghost use Rattle.ame_worker.specs.Leads.{HasLedOn};

    /// Has turns on a shell until a stop is kept and the seat has nothing at work, or no ready member may begin, or others could help:
    /// a fragment made many steps, and there may be more of them, since the run began with some (`are_more`) or one was committed.
    /// Passes the gate after each. Returns whether a stop is kept and the seat has nothing at work.
    pub(crate) fn lead_on<R: Wait, G: Gate>(
        &mut self,
        rt: &R,
        gate: &G,
        shared: &mut Shared<M, K, D>,
        mut are_more: bool,
    ) -> bool
        requires may { MayTurn M.meaning (arc_value self.old.code) (knows self.old.seat).number (shell_view shared.old.shell.value) self.old.work }
        ensures led { HasLedOn M.meaning (arc_value self.old.code) (knows self.old.seat).number are_more
            (shell_view shared.old.shell.value) shared.old.turns self.old.work (shell_view shared.new.shell.value) shared.new.turns self.new.work result }
        ensures can { CanBePrepared M.meaning.is_machine M.meaning.stage (arc_value self.old.code) shared.new.shell.value.engine.limits.slice self.new.work }
        ensures rest { shared.new ≡ record shared.old { shell = shared.new.shell; turns = shared.new.turns } }
        ensures worker { self.new ≡ record self.old { work = self.new.work } }
    {
        let alloc = *shared.places.allocator();
        let seat = self.seat.number();
        let has_others = shared.shell.engine.limits().seats > 1;
        for _ in rt.forever() {
            prepare_seat(
                &shared.shell.engine,
                alloc,
                &self.code,
                seat,
                &mut self.work,
            );
            let helps = has_others & are_more & is_heavy(&self.work);
            let turn = shared.play(&self.code, seat, &mut self.work);
            gate.pass(seat, point_of(turn));
            if is_rest(turn.outcome) | helps {
                return matches!(turn.outcome, Outcome::Stopped);
            }
            are_more |= is_commit(turn.outcome);
        }
        unreachable!()
    }
}
