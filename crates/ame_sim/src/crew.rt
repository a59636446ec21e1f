//! A shell whose seats have their turns on one thread.

ghost use Rattle.std.specs.Prelude.{◌≡◌, ◌≢◌, ◌≤◌, ◌<◌, ℕ, [], None, IsSome, IfOk, IfErr, true, false, is_some, length};
ghost use Rattle.std.specs.Arc.{arc_value};
ghost use Rattle.ame_engine.specs.Ending.{end_of};
ghost use Rattle.ame_engine.specs.Makes.{state_of};
ghost use Rattle.ame_engine.specs.Whole.{AreLimits};
ghost use Rattle.ame_protocol.specs.declared.types.Task.{Task};
ghost use Rattle.ame_protocol.specs.Event.EngineState.{started_state};
ghost use Rattle.ame_protocol.specs.Engine.Parts.{task_at};
ghost use Rattle.ame_shell.specs.Shell.{Opening, IsShell, IsOverFrom};
ghost use Rattle.ame_sim.specs.Crew.{lacking, left_to_undo, IsUnwound, SomeSeatIsAtWork};
ghost use Rattle.ame_sim.specs.Played.{HasPlayed};
ghost use Rattle.ame_shell.specs.declared.work.Work.TheVariants as work;

use crate::hands::idle_hands;
use crate::made::Made;
use crate::places::{place_told, place_wanted};
use ame_device::Device;
use ame_engine::{Engine, Stop};
use ame_io::Sink;
use ame_machine::Runner;
use ame_protocol::{Limits, Task};
use ame_shell::{Io, Remains, Shell, Turn, Work, prepare_seat};
use std::alloc::Global;
use std::marker::Model;
use std::sync::Arc;

/// An engine with its sink and its devices, its code, and the work in flight of each seat. Contracts see the shell.
#[derive(Drop)]
pub struct Crew<M: Runner, K: Sink, D: Device>
where
    M::Code: Drop,
{
    shell: Shell<M, K, D>,
    code: Arc<M::Code>,
    hands: Vec<Work<M>>,
}

impl<M: Runner, K: Sink, D: Device> Model for Crew<M, K, D>
where
    M::Code: Drop,
{
    ghost use Rattle.std.specs.Arc.{arc_value};
    ghost use Rattle.ame_shell.specs.Shell.{ShellView, shell_view};
    ghost use Rattle.ame_sim.specs.Crew.{IsCrew};

    ghost Value = { ShellView M.Code M.Value M };

    ghost view = { λ c. shell_view c.shell };

    ghost invariant = { λ c. IsCrew M.meaning (arc_value c.code) (shell_view c.shell) c.hands.items };
}

impl<M: Runner, K: Sink, D: Device> Crew<M, K, D>
where
    M::Code: Drop,
{
    /// Opens a crew before its first turn, with idle seats. If it runs out of memory, it returns sink and devices.
    pub fn open(
        alloc: Global,
        code: Arc<M::Code>,
        limits: Limits,
        io: Io<K, D>,
    ) -> Result<Crew<M, K, D>, Io<K, D>>
        requires limits { AreLimits limits }
        requires devices { (M.meaning.signature (arc_value code)).devices ≤ length io.ends.told }
        ensures opens { IfOk result (IsShell M.meaning (record {
          code = arc_value code;
          limits = limits;
          base = [];
          ends = io.ends;
        })) }
        ensures starts { IfOk result (λ crew. state_of M.meaning crew.core
            ≡ started_state (M.meaning.program (arc_value code)) (M.meaning.signature (arc_value code)) limits) }
        ensures back { IfErr result (λ back. back ≡ io) }
    {
        let Ok(hands) = idle_hands(alloc, limits.seats) else {
            return Err(io);
        };
        let Ok(share) = Arc::try_clone(&code) else {
            return Err(io);
        };
        let Ok(engine) = Engine::<M>::start(alloc, share, limits) else {
            return Err(io);
        };
        let shell = Shell {
            engine,
            io,
            sent: 0,
        };
        Ok(Crew { shell, code, hands })
    }

    /// Prepares the machine of a seat, and gives the seat its turn.
    pub fn turn(&mut self, seat: u32) -> Made
        requires { seat < self.old.core.limits.seats }
        ensures seat { result.seat ≡ seat }
        ensures played { HasPlayed M.meaning result self.old self.new }
        ensures keeps { (opening : Opening M.Code) → IsShell M.meaning opening self.old → IsShell M.meaning opening self.new }
        ensures limits { self.new.core.limits ≡ self.old.core.limits }
        ensures within { self.new.core.turns ≤ self.new.core.limits.turns }
    {
        let alloc = *self.hands.allocator();
        let work = &mut self.hands[seat as usize];
        prepare_seat(&self.shell.engine, alloc, &self.code, seat, work);
        let wanted = place_wanted(self.shell.engine.cells(), work);
        let Turn { member, outcome } = self.shell.turn(&self.code, seat, work);
        self.shell.engine.stands();
        Made {
            seat,
            member,
            outcome,
            place: place_told(outcome, wanted),
        }
    }

    /// Shows that some seat has a member at work, if members are left that may not begin and aren't all parked.
    pub fn who_waits_waits_for_a_seat(&self)
        ensures { SomeSeatIsAtWork self.now.core }
    {
        self.shell.engine.stands();
        self.shell.engine.members_are_rolled_back_seldom();
        self.shell.engine.busy_members_are_seated();
        self.shell.engine.who_waits_waits_for_somebody();
    }

    /// Returns whether no stop is kept.
    pub fn goes_on(&self) -> bool
        ensures going { result ≡ true → self.now.core.stop ≡ None }
        ensures stopped { result ≡ false → IsSome self.now.core.stop }
    {
        self.shell.engine.stopped().is_none()
    }

    /// Keeps the stop for running out of memory.
    pub fn give_up(&mut self)
        requires { self.old.core.stop ≡ None }
        ensures lacks { self.new ≡ lacking self.old }
        ensures keeps { (opening : Opening M.Code) → IsShell M.meaning opening self.old → IsShell M.meaning opening self.new }
    {
        self.shell.engine.stands();
        self.shell.engine.stop(Stop::NoMemory);
    }

    /// Undoes an entry of what a seat has at work, once a stop is kept.
    fn undo(&mut self, seat: u32)
        requires seat { seat < self.old.core.limits.seats }
        requires stopped { IsSome self.old.core.stop }
        ensures unwound { IsUnwound self.old.core self.new.core }
        ensures others { (other : ℕ) → task_at self.old.core.tasks other ≡ Task.Idle → task_at self.new.core.tasks other ≡ Task.Idle }
        ensures less { task_at self.old.core.tasks seat ≢ Task.Idle → left_to_undo self.new.core seat < left_to_undo self.old.core seat }
        ensures keeps { (opening : Opening M.Code) → IsShell M.meaning opening self.old → IsShell M.meaning opening self.new }
    {
        self.shell.engine.stands();
        let _ = self
            .shell
            .turn(&self.code, seat, &mut self.hands[seat as usize]);
    }

    /// Returns whether a seat has nothing at work.
    fn is_idle(&self, seat: u32) -> bool
        requires { seat < self.now.core.limits.seats }
        ensures idle { result ≡ true → task_at self.now.core.tasks seat ≡ Task.Idle }
        ensures busy { result ≡ false → task_at self.now.core.tasks seat ≢ Task.Idle }
    {
        matches!(self.shell.engine.task(seat), Task::Idle)
    }

    /// Undoes all that a seat has at work, once a stop is kept.
    fn unwind(&mut self, seat: u32)
        requires seat { seat < self.old.core.limits.seats }
        requires stopped { IsSome self.old.core.stop }
        ensures unwound { IsUnwound self.old.core self.new.core }
        ensures others { (other : ℕ) → task_at self.old.core.tasks other ≡ Task.Idle → task_at self.new.core.tasks other ≡ Task.Idle }
        ensures idle { task_at self.new.core.tasks seat ≡ Task.Idle }
        ensures keeps { (opening : Opening M.Code) → IsShell M.meaning opening self.old → IsShell M.meaning opening self.new }
    {
        while !self.is_idle(seat) {
            self.undo(seat);
        }
    }

    /// Undoes all that the seats have at work, seat by seat, once a stop is kept. It counts no turn, and takes no memory.
    pub fn unwind_all(&mut self)
        requires { IsSome self.old.core.stop }
        ensures unwound { IsUnwound self.old.core self.new.core }
        ensures idle { (seat : ℕ) → task_at self.new.core.tasks seat ≡ Task.Idle }
        ensures keeps { (opening : Opening M.Code) → IsShell M.meaning opening self.old → IsShell M.meaning opening self.new }
    {
        for seat in 0..self.shell.engine.limits().seats {
            self.unwind(seat);
        }
        self.shell.engine.stands();
    }

    /// Returns what is left once a stop is kept and all seats are idle. It takes no memory.
    pub fn finish(self) -> Remains<M::Value, K, D>
        requires idle { (seat : ℕ) → task_at self.core.tasks seat ≡ Task.Idle }
        requires stopped { IsSome self.core.stop }
        ensures told { result.ended ≡ end_of self.core }
        ensures over { (opening : Opening M.Code) → IsShell M.meaning opening self → IsOverFrom M.meaning opening result.ended result.io.ends }
    {
        let Crew {
            shell,
            code: _,
            hands: _,
        } = self;
        shell.finish()
    }
}
