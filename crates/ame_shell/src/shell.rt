//! An engine with its sink and its devices.

ghost use Rattle.std.specs.Prelude.{◌≡◌, ◌≤◌, ◌<◌, ℕ, None, IsSome, true, false, length};
ghost use Rattle.ame_io.specs.Lines.{lines};
ghost use Rattle.ame_protocol.specs.declared.types.Task.{Task};
ghost use Rattle.ame_protocol.specs.Engine.Parts.{member_of, task_at};
ghost use Rattle.ame_protocol.specs.declared.stop.Stop.{Stop};
ghost use Rattle.ame_engine.specs.Ending.{end_of};
ghost use Rattle.ame_engine.specs.Stops.{stopped_by};
ghost use Rattle.ame_shell.specs.Asked.{LacksAsDue};
ghost use Rattle.ame_shell.specs.Ready.{CanBePrepared};
ghost use Rattle.ame_shell.specs.Work.{stage_at};
ghost use Rattle.ame_shell.specs.Shell.{shell_view, Opening, IsShell, IsOverFrom};
ghost use Rattle.ame_shell.specs.Turned.{HasFlushed, is_to_flush as flushes_after, MayTurn, LeavesInOrder, HasTurned, member_told};

use crate::acts::{act, limits_are_small};
use crate::io::Io;
use crate::remains::Remains;
use crate::work::{Outcome, Turn, Work};
use ame_device::Device;
use ame_engine::{Engine, Stop};
use ame_io::{Sink, WriteFault};
use ame_machine::Runner;
use ame_protocol::Task;

/// An engine, the sink to which the lines of its output go with its devices, and how many bytes were sent.
pub struct Shell<M: Runner, K: Sink, D: Device>
where
    M::Code: Drop,
{
    pub engine: Engine<M>,
    pub io: Io<K, D>,
    pub sent: usize,
}

impl<M: Runner, K: Sink + Drop, D: Device> Drop for Shell<M, K, D>
where
    M::Code: Drop,
{
    fn drop(self) {
        let Shell {
            engine: _,
            io: _,
            sent: _,
        } = self;
    }
}

/// Returns whether lines may have come of what a seat did.
fn is_to_flush(outcome: Outcome) -> bool
    ensures { result ≡ flushes_after outcome }
{
    matches!(outcome, Outcome::Ended | Outcome::Left | Outcome::CameHome)
}

/// Returns the member that a seat has at work.
fn member_at<M: Runner>(engine: &Engine<M>, seat: u32) -> Option<u64>
where
    M::Code: Drop,
    requires { seat < engine.now.limits.seats }
    ensures { result ≡ member_of (task_at engine.now.tasks seat) }
{
    match engine.task(seat) {
        Task::Idle => None,
        Task::Running(attempt) | Task::Free(attempt) | Task::Undoing(attempt, _) => {
            Some(attempt.tried.number)
        }
    }
}

impl<M: Runner, K: Sink, D: Device> Shell<M, K, D>
where
    M::Code: Drop,
{
    /// Sends what wasn't sent yet of the text. If the sink fails, that stop is kept. Takes no memory.
    pub fn flush(&mut self)
        requires within { self.old.sent ≤ length (lines self.old.engine.output) }
        requires going { self.old.engine.stop ≡ None }
        ensures flushes { HasFlushed (shell_view self.old) (shell_view self.new) }
        ensures told { self.new.io.ends.told ≡ self.old.io.ends.told }
        ensures devices { self.new.io.devices ≡ self.old.io.devices }
    {
        let text = self.engine.text();
        let len = text.len();
        match self.io.write_all(&text[self.sent..]) {
            Ok(()) => self.sent = len,
            Err(WriteFault { gone }) => {
                self.sent += gone;
                self.engine.stop(Stop::WriteFault);
            }
        }
    }

    /// Sends the lines that came of what a seat did.
    fn flush_after(&mut self, outcome: Outcome)
        requires within { self.old.sent ≤ length (lines self.old.engine.output) }
        requires going { flushes_after outcome ≡ true → self.old.engine.stop ≡ None }
        ensures flushes { flushes_after outcome ≡ true → HasFlushed (shell_view self.old) (shell_view self.new) }
        ensures stays { flushes_after outcome ≡ false → self.new ≡ self.old }
        ensures told { self.new.io.ends.told ≡ self.old.io.ends.told }
    {
        if is_to_flush(outcome) {
            self.flush();
        }
    }

    /// Makes one event of a seat, exactly the one that the engine, the seat's work in flight and what its machine wants name. Then it
    /// sends the lines that come of it. If the sink fails, that stop is kept. If the machine isn't ready, memory ran out before.
    pub fn turn(&mut self, code: &M::Code, seat: u32, work: &mut Work<M>) -> Turn
        requires may { MayTurn M.meaning code.now seat (shell_view self.old) work.old }
        ensures turned { HasTurned M.meaning seat (stage_at M.meaning.stage self.old.engine.code work.old)
            (shell_view self.old) (shell_view self.new) result.outcome }
        ensures member { result.member ≡ member_told (member_of (task_at self.old.engine.tasks seat)) (member_of (task_at self.new.engine.tasks seat)) }
        ensures lacks { LacksAsDue M.meaning.stage self.old.engine seat work.old result.outcome }
        ensures leaves { LeavesInOrder M.meaning code.now seat (shell_view self.old) (shell_view self.new) work.new }
        ensures can { CanBePrepared M.meaning.is_machine M.meaning.stage code.now self.new.engine.limits.slice work.new }
    {
        self.engine.stands();
        let before = member_at(&self.engine, seat);
        let outcome = act(&mut self.engine, code, seat, work, &mut self.io);
        self.engine.stands();
        limits_are_small(&self.engine);
        self.flush_after(outcome);
        let after = member_at(&self.engine, seat);
        Turn {
            member: before.or(after),
            outcome,
        }
    }

    /// Returns sink and devices, as they are.
    pub fn into_io(self) -> Io<K, D>
        ensures { result ≡ self.io }
    {
        let Shell {
            engine: _,
            io,
            sent: _,
        } = self;
        io
    }

    /// Returns what is left if memory runs out while all seats are idle: that stop is kept, if none is. Takes no memory.
    pub fn give_up(self) -> Remains<M::Value, K, D>
        requires idle { (seat : ℕ) → task_at self.engine.tasks seat ≡ Task.Idle }
        ensures told { result.ended ≡ end_of (stopped_by Stop.NoMemory self.engine) }
        ensures over { (opening : Opening M.Code) → IsShell M.meaning opening (shell_view self) → IsOverFrom M.meaning opening result.ended result.io.ends }
    {
        let mut shell = self;
        shell.engine.stop(Stop::NoMemory);
        shell.finish()
    }

    /// Returns what is left once a stop is kept and all seats are idle. Takes no memory.
    pub fn finish(self) -> Remains<M::Value, K, D>
        requires idle { (seat : ℕ) → task_at self.engine.tasks seat ≡ Task.Idle }
        requires stopped { IsSome self.engine.stop }
        ensures told { result.ended ≡ end_of self.engine }
        ensures over { (opening : Opening M.Code) → IsShell M.meaning opening (shell_view self) → IsOverFrom M.meaning opening result.ended result.io.ends }
    {
        let Shell {
            engine,
            io,
            sent: _,
        } = self;
        Remains {
            ended: engine.finish(),
            io,
        }
    }
}
