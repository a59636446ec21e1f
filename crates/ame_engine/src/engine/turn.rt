//! Seats that turn back.

ghost use Rattle.std.specs.Prelude.{◌≡◌, ◌<◌, None};
ghost use Rattle.ame_protocol.specs.Engine.Parts.{task_at};
ghost use Rattle.ame_protocol.specs.Event.Counting.{turns_in};
ghost use Rattle.ame_protocol.specs.Event.Event.{Event};
ghost use Rattle.ame_engine.specs.Makes.{Makes};
ghost use Rattle.ame_engine.specs.Turning.{reverse_of, counted_at, HasMet};

use super::Engine;
use ame_machine::Runner;
use ame_protocol::{Attempt, Counters, Task, UndoReason};
use ame_term::Loc;

/// Says why a seat turns back.
#[derive(Clone, Copy)]
pub(crate) enum Setback {
    /// It is to write this cell, which this other seat owns.
    Conflict(Loc, u32),
    /// One of its reads isn't valid, though its slice is full.
    Check,
    /// One of its reads isn't valid, though its row is to be committed.
    Commit,
    /// One of its reads isn't valid, though its member came to a condition that is false.
    Block,
    /// One of its reads isn't valid, though its next value would be nested too deeply.
    Tall,
}

/// Counts an event at which a seat turns back.
fn count(setback: Setback, counters: Counters) -> Counters
    requires turns { turns_in counters < 4000000 }
    requires invalids { counters.invalids < 4000000 }
    ensures { result ≡ counted_at setback counters }
{
    let mut counters = counters;
    match setback {
        Setback::Conflict(_, _) => {
            counters.conflicts += 1;
            return counters;
        }
        Setback::Check => counters.checks += 1,
        Setback::Commit => counters.commits += 1,
        Setback::Block => counters.blocks += 1,
        Setback::Tall => counters.talls += 1,
    }
    counters.invalids += 1;
    counters
}

impl<M: Runner> Engine<M>
where
    M::Code: Drop,
{
    /// Turns a seat back that runs protected code: its row is to be undone. Counts a turn, and takes no memory.
    pub(super) fn turn_back(&mut self, seat: u32, attempt: Attempt, setback: Setback)
        requires task { task_at self.old.tasks seat ≡ Task.Running attempt }
        requires left { self.old.turns < self.old.limits.turns }
        requires going { self.old.stop ≡ None }
        requires met { HasMet M.meaning self.old seat setback }
        ensures { (held : Attempt) → task_at self.old.tasks seat ≡ Task.Running held
            → Makes M.meaning (Event.TurnBack seat held (reverse_of setback)) self.old self.new }
    {
        self.tasks[seat as usize] = Task::Undoing(attempt, UndoReason::RolledBack);
        self.turns += 1;
        self.counters = count(setback, self.counters);
    }
}
