//! Undoing the row of a seat.

ghost use Rattle.std.specs.Prelude.{◌≡◌, ◌+◌, ◌<◌, ◌↔◌, ℕ, Some, None, IsSome, IsTrue, false, is_some, length, vec_len, vec_capacity, if◌then◌else◌};
ghost use Rattle.ame_pool.specs.Calls.{IsAt};
ghost use Rattle.ame_rows.specs.MemoryView.{row_at};
ghost use Rattle.ame_protocol.specs.declared.types.Attempt.{Attempt};
ghost use Rattle.ame_protocol.specs.Engine.Parts.{task_at, attempt_of};
ghost use Rattle.ame_protocol.specs.Engine.Events.{with_try};
ghost use Rattle.ame_protocol.specs.Event.Counting.{one_undone};
ghost use Rattle.ame_protocol.specs.Event.Event.{Event};
ghost use Rattle.ame_engine.specs.Makes.{Makes};
ghost use Rattle.ame_protocol.specs.Event.Undoing.{is_undoing, reason_to_undo, is_busy_for, home_for};

use super::Engine;
use crate::answer::Undone;
use ame_machine::Runner;
use ame_pool::Pool;
use ame_protocol::{Attempt, Counters, Task, Tried, UndoReason};

/// Returns the attempt of a seat at work.
pub(super) fn attempt_at(task: Task) -> Attempt
    requires { IsSome (attempt_of task) }
    ensures { attempt_of task ≡ Some result }
{
    match task {
        Task::Idle => unreachable!(),
        Task::Running(attempt) | Task::Free(attempt) | Task::Undoing(attempt, _) => attempt,
    }
}

/// Returns why the work of a seat is undone. If the seat runs, a stop is kept.
fn why_undone(task: Task) -> UndoReason
    ensures { result ≡ reason_to_undo task }
{
    match task {
        Task::Undoing(_, reason) => reason,
        Task::Idle | Task::Running(_) | Task::Free(_) => UndoReason::Stopped,
    }
}

/// Returns the turns after an undo, by whether a stop is kept.
fn undo_turns(stopped: bool, turns: u32) -> u32
    requires { stopped ≡ false → turns < 4000000 }
    ensures { result ≡ (if stopped then turns else turns + 1) }
{
    if stopped { turns } else { turns + 1 }
}

/// Returns the counters after an undo, by whether a stop is kept.
fn undo_counters(stopped: bool, counters: Counters) -> Counters
    requires { stopped ≡ false → counters.undos < 4000000 }
    ensures { result ≡ one_undone stopped counters }
{
    let mut counters = counters;
    if stopped {
        counters.unwound = counters.unwound.saturating_add(1);
    } else {
        counters.undos += 1;
    }
    counters
}

/// Brings a member home, by the reason for which its row was undone.
fn bring_home<M: Drop>(pool: &mut Pool<M>, number: u64, reason: UndoReason)
    requires { IsAt (is_busy_for reason) number pool.old }
    ensures { pool.new ≡ home_for reason number pool.old }
{
    match reason {
        UndoReason::RolledBack => pool.home(number, true),
        UndoReason::Noted => pool.park(number),
        UndoReason::Stopped => pool.home(number, false),
    }
}

/// Lists an attempt, unless an entry was added for it.
fn tell_try(tried: &mut Vec<Tried>, attempt: Attempt)
    requires { attempt.logged ≡ false → vec_len tried.old < vec_capacity tried.old }
    ensures items { tried.new.items ≡ with_try attempt tried.old.items }
    ensures len { vec_len tried.new ≡ (if attempt.logged then vec_len tried.old else vec_len tried.old + 1) }
    ensures capacity { vec_capacity tried.new ≡ vec_capacity tried.old }
{
    if !attempt.logged {
        tried.push_reserved(attempt.tried);
    }
}

impl<M: Runner> Engine<M>
where
    M::Code: Drop,
{
    /// Undoes the last entry in the log of a seat that undoes its row, or, once a stop is kept, of any seat that has a member at work. Once
    /// none is left the member is home, and its attempt is listed unless an entry was added for it. Counts a turn while no stop is kept,
    /// and takes no memory.
    pub fn undo_one(&mut self, seat: u32) -> Undone
        requires busy { IsSome (attempt_of (task_at self.old.tasks seat)) }
        requires undoes { is_some self.old.stop ≡ false → IsTrue (is_undoing (task_at self.old.tasks seat)) }
        requires left { is_some self.old.stop ≡ false → self.old.turns < self.old.limits.turns }
        ensures answer { (result ≡ Undone.More) ↔ (1 < length (row_at self.old.memory.rows seat).undos) }
        ensures more { (attempt : Attempt) → attempt_of (task_at self.old.tasks seat) ≡ Some attempt → result ≡ Undone.More
            → Makes M.meaning (Event.Undo seat attempt) self.old self.new }
        ensures home { (attempt : Attempt) → attempt_of (task_at self.old.tasks seat) ≡ Some attempt → result ≡ Undone.Home
            → Makes M.meaning (Event.Home seat attempt) self.old self.new }
    {
        let task = self.tasks[seat as usize];
        let attempt = attempt_at(task);
        let reason = why_undone(task);
        let stopped = self.stop.is_some();
        self.turns = undo_turns(stopped, self.turns);
        self.counters = undo_counters(stopped, self.counters);
        let is_left = self.memory.undo_last(seat);
        if is_left {
            self.tasks[seat as usize] = Task::Undoing(attempt, reason);
            Undone::More
        } else {
            self.tasks[seat as usize] = Task::Idle;
            bring_home(&mut self.pool, attempt.tried.number, reason);
            tell_try(&mut self.tried, attempt);
            Undone::Home
        }
    }
}
