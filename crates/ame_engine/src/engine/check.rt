//! Checks of a seat's reads.

ghost use Rattle.std.specs.Prelude.{◌≡◌, ◌<◌, ◌++◌, ◌↔◌, None, length, false};
ghost use Rattle.ame_rows.specs.declared.notes.Bad.{Bad};
ghost use Rattle.ame_rows.specs.Valid.{IsValid, IsFirstBad};
ghost use Rattle.ame_rows.specs.MemoryView.{row_at};
ghost use Rattle.ame_protocol.specs.declared.types.Attempt.{Attempt};
ghost use Rattle.ame_protocol.specs.Engine.Parts.{task_at};
ghost use Rattle.ame_protocol.specs.Event.Event.{Event, Find, Reverse};
ghost use Rattle.ame_engine.specs.Makes.{Makes};
ghost use Rattle.ame_engine.specs.AtWork.{IsOn};

use super::Engine;
use super::turn::Setback;
use crate::answer::Checked;
use ame_journal::Entry;
use ame_machine::Runner;
use ame_protocol::{Attempt, Task, Tried};

/// Returns the attempt whose row was found valid after these steps and entries.
fn checked_attempt(attempt: Attempt, steps: u64, base: &[Entry], entries: &[Entry]) -> Attempt
    ensures { result ≡ record attempt { tried = record attempt.tried { at = length (base.now ++ entries.now); steps = steps } } }
{
    Attempt {
        tried: Tried {
            number: attempt.tried.number,
            at: base.len() as u64 + entries.len() as u64,
            steps,
        },
        logged: attempt.logged,
    }
}

impl<M: Runner> Engine<M>
where
    M::Code: Drop,
{
    /// Returns whether each read of a seat that runs protected code is valid, once its machine has made a slice of steps. If so, the seat
    /// keeps the steps and the number of entries. Otherwise it turns back. Counts a turn, and takes no memory.
    pub fn check(&mut self, seat: u32, at: &M) -> Checked
        requires on { IsOn M.meaning self.old seat at.now }
        requires outside { (M.meaning.stage self.old.code at.now).inside ≡ false }
        requires full { (M.meaning.stage self.old.code at.now).since ≡ self.old.limits.slice }
        requires left { self.old.turns < self.old.limits.turns }
        requires going { self.old.stop ≡ None }
        ensures valid { (attempt : Attempt) → task_at self.old.tasks seat ≡ Task.Running attempt → result ≡ Checked.Valid
            → Makes M.meaning (Event.Check seat attempt (M.meaning.stage self.old.code at.now).steps) self.old self.new }
        ensures back { (attempt : Attempt) (bad : Bad) → task_at self.old.tasks seat ≡ Task.Running attempt → result ≡ Checked.Invalid bad
            → Makes M.meaning (Event.TurnBack seat attempt (Reverse.Stale Find.Check)) self.old self.new }
        ensures exact { (result ≡ Checked.Valid) ↔ IsValid self.old.memory.cells seat (row_at self.old.memory.rows seat).reads }
        ensures bad { (bad : Bad) → result ≡ Checked.Invalid bad → IsFirstBad self.old.memory.cells seat (row_at self.old.memory.rows seat).reads bad }
    {
        let Task::Running(attempt) = self.tasks[seat as usize] else {
            unreachable!();
        };
        let steps = at.steps();
        match self.memory.valid(seat) {
            None => {
                let later = checked_attempt(
                    attempt,
                    steps,
                    self.base.entries(),
                    self.ledger.journal.entries(),
                );
                self.tasks[seat as usize] = Task::Running(later);
                self.turns += 1;
                self.counters.checks += 1;
                Checked::Valid
            }
            Some(bad) => {
                self.turn_back(seat, attempt, Setback::Check);
                Checked::Invalid(bad)
            }
        }
    }
}
