//! Beginnings of members on a seat.

ghost use Rattle.std.specs.Prelude.{◌≡◌, ◌<◌, ◌++◌, ℕ, Some, None, IfOk, OnOk, OnErr, IsTrue};
ghost use Rattle.ame_pool.specs.Members.{is_ready};
ghost use Rattle.ame_pool.specs.Calls.{IsAt};
ghost use Rattle.ame_pool.specs.declared.oldest.Oldest.{Oldest};
ghost use Rattle.ame_pool.specs.Begin.{oldest as oldest_of};
ghost use Rattle.ame_protocol.specs.Engine.Parts.{task_at};
ghost use Rattle.ame_protocol.specs.Engine.Events.{begun_task as task_begun, attempt_after};
ghost use Rattle.ame_protocol.specs.declared.stop.Stop.{Stop};
ghost use Rattle.ame_protocol.specs.Event.Event.{Event};
ghost use Rattle.ame_engine.specs.Seen.{parts_of};
ghost use Rattle.ame_engine.specs.Makes.{Makes};
ghost use Rattle.ame_engine.specs.Begins.{pick_of, stop_met, takes_memory, HasBegun, Answers};
ghost use Rattle.ame_protocol.specs.Event.Causes.{certificates_in};
ghost use Rattle.ame_engine.specs.Stops.{stopped_by, blocked_by};
ghost use Rattle.ame_protocol.specs.Event.Bounds.{LeavesNoTry};

use super::Engine;
use crate::answer::Begin;
use crate::pick::{Pick, pick_by};
use ame_journal::Entry;
use ame_machine::Runner;
use ame_protocol::{Attempt, Stop, Task, Tried};
use ame_term::NoMemory;

/// Returns the attempt of a member that begins after these entries.
fn attempt_now(number: u64, base: &[Entry], entries: &[Entry]) -> Attempt
    ensures { result ≡ attempt_after number (base.now ++ entries.now) }
{
    Attempt {
        tried: Tried {
            number,
            at: base.len() as u64 + entries.len() as u64,
            steps: 0,
        },
        logged: false,
    }
}

/// Returns the task of a seat that begins a member, which is inside or not.
fn begun_task(inside: bool, attempt: Attempt) -> Task
    ensures { result ≡ task_begun inside attempt }
{
    if inside {
        Task::Free(attempt)
    } else {
        Task::Running(attempt)
    }
}

impl<M: Runner> Engine<M>
where
    M::Code: Drop,
{
    /// Returns what a seat would meet if it began a member now.
    fn pick(&self) -> Pick
        ensures pick { result ≡ pick_of self.now }
        ensures oldest { (number : ℕ) → result ≡ Pick.Member number → oldest_of self.now.pool ≡ Oldest.Member number }
        ensures ready { (number : ℕ) → result ≡ Pick.Member number → IsAt is_ready number self.now.pool }
        ensures left { (number : ℕ) → result ≡ Pick.Member number → self.now.turns < self.now.limits.turns }
        ensures going { (number : ℕ) → result ≡ Pick.Member number → self.now.stop ≡ None }
    {
        if self.stop.is_some() {
            return Pick::Stopped;
        }
        pick_by(self.turns >= self.limits.turns, self.pool.oldest())
    }

    /// Says that no row is left that would leave an attempt without an entry, if a seat is idle and it is the only one.
    fn idle_seats_leave_no_try(&self, seat: u32)
        requires seat { seat < self.now.limits.seats }
        requires idle { task_at self.now.tasks seat ≡ Task.Idle }
        ensures { LeavesNoTry Stop.Spent (parts_of M.meaning self.now) }
    {
        let _ = seat;
        let _ = &self.turns;
    }

    /// Begins a ready member on a seat, and returns a copy of its machine. Then the attempts have a free place for each seat.
    fn begin_member(&mut self, seat: u32, number: u64) -> Result<M, NoMemory>
        requires seat { seat < self.old.limits.seats }
        requires idle { task_at self.old.tasks seat ≡ Task.Idle }
        requires oldest { oldest_of self.old.pool ≡ Oldest.Member number }
        requires ready { IsAt is_ready number self.old.pool }
        requires left { self.old.turns < self.old.limits.turns }
        requires going { self.old.stop ≡ None }
        ensures begun { IfOk result (HasBegun M.meaning seat number self.old self.new) }
        ensures err { OnErr result (self.new ≡ self.old) }
    {
        self.tried.reserve(self.limits.seats as usize)?;
        let attempt = attempt_now(number, self.base.entries(), self.ledger.journal.entries());
        let copy = self.pool.copy(*self.tasks.allocator(), number)?;
        self.pool.begin(number);
        self.tasks[seat as usize] = begun_task(copy.inside, attempt);
        self.turns += 1;
        self.counters.begins += 1;
        Ok(copy.machine)
    }

    /// Begins the oldest ready member that may begin, and returns its machine. Counts a turn if a member begins. If no member is left, all
    /// are parked or the turns are used up, keeps that stop, with the certificates of parked members. Takes memory for the copy of a
    /// machine and for places of attempts if a member begins, and for the certificates if all members are parked. It takes the time of the
    /// pool's logarithm and of a copy. If all members are parked, it takes that of the entries and of the numbers that were given.
    pub fn begin(&mut self, seat: u32) -> Result<Begin<M>, NoMemory>
        requires seat { seat < self.old.limits.seats }
        requires idle { task_at self.old.tasks seat ≡ Task.Idle }
        ensures answer { IfOk result (Answers
            (λ number m. HasBegun M.meaning seat number self.old self.new m)
            (λ why. self.new ≡ stopped_by why self.old)
            (self.new ≡ blocked_by (certificates_in (parts_of M.meaning self.old)) self.old)
            (self.new ≡ self.old) (pick_of self.old)) }
        ensures halts { (why : Stop) → stop_met (pick_of self.old) ≡ Some why → OnOk result (Makes M.meaning (Event.Halt why) self.old self.new) }
        ensures err { OnErr result (self.new ≡ self.old) }
        ensures wants { OnErr result (IsTrue (takes_memory (pick_of self.old))) }
    {
        self.stops_have_causes();
        self.idle_seats_leave_no_try(seat);
        match self.pick() {
            Pick::Member(number) => {
                let machine = self.begin_member(seat, number)?;
                Ok(Begin::Begun(machine))
            }
            Pick::Idle => Ok(Begin::Idle),
            Pick::Stopped => Ok(Begin::Stopped),
            Pick::Blocked => {
                self.keep_blocked()?;
                Ok(Begin::Stopped)
            }
            Pick::Finished => {
                self.keep(Stop::Finished);
                Ok(Begin::Stopped)
            }
            Pick::Spent => {
                self.keep(Stop::Spent);
                Ok(Begin::Stopped)
            }
        }
    }
}
