//! Notes of members that came to a value nested too deeply.

ghost use Rattle.std.specs.Prelude.{◌≡◌, ◌<◌, ◌↔◌, IfOk, OnOk, OnErr, Ok, Some, None};
ghost use Rattle.ame_rows.specs.declared.notes.Bad.{Bad};
ghost use Rattle.ame_rows.specs.Valid.{IsValid, IsFirstBad};
ghost use Rattle.ame_rows.specs.MemoryView.{row_at};
ghost use Rattle.ame_machine.specs.declared.wants.Wants.{Wants};
ghost use Rattle.ame_protocol.specs.declared.types.Attempt.{Attempt};
ghost use Rattle.ame_protocol.specs.declared.types.Task.{Task};
ghost use Rattle.ame_protocol.specs.Engine.Parts.{task_at, working};
ghost use Rattle.ame_protocol.specs.Event.Event.{Event, Find, Reverse};
ghost use Rattle.ame_engine.specs.Makes.{Makes, MakesAt};
ghost use Rattle.ame_engine.specs.AtWork.{IsOn};

use super::Engine;
use super::ledger::entry_of;
use super::notes::told_task;
use super::turn::Setback;
use super::undo::attempt_at;
use crate::answer::Noted;
use ame_journal::EntryKind;
use ame_machine::Runner;
use ame_protocol::Stop;
use ame_term::NoMemory;

impl<M: Runner> Engine<M>
where
    M::Code: Drop,
{
    /// Notes a row whose reads are valid, and keeps the stop. All memory is taken before the first change.
    fn tall_valid(&mut self, seat: u32, at: &M) -> Result<(), NoMemory>
        requires on { IsOn M.meaning self.old seat at.now }
        requires grows { (M.meaning.stage self.old.code at.now).want ≡ Some Wants.Tall }
        requires left { self.old.turns < self.old.limits.turns }
        requires going { self.old.stop ≡ None }
        requires valid { IsValid self.old.memory.cells seat (row_at self.old.memory.rows seat).reads }
        ensures noted { (attempt : Attempt) → working (task_at self.old.tasks seat) ≡ Some attempt
            → OnOk result (MakesAt M.meaning (M.meaning.stage self.old.code at.now) None
            (λ place. Event.Tall seat attempt (M.meaning.stage self.old.code at.now).steps place) self.old self.new) }
        ensures err { OnErr result (self.new ≡ self.old) }
    {
        let task = self.tasks[seat as usize];
        let number = attempt_at(task).tried.number;
        let entry = entry_of(*self.tasks.allocator(), EntryKind::Tall, seat, number, at)?;
        self.ledger.journal.room()?;
        self.ledger.journal.push(entry);
        self.tasks[seat as usize] = told_task(task);
        self.turns += 1;
        self.counters.talls += 1;
        self.stop = Some(Stop::Tall(number));
        Ok(())
    }

    /// Notes the row of a seat whose machine's next value would be nested too deeply, and keeps that stop with the member's number. If a read isn't
    /// valid the seat turns back instead. Counts a turn. Takes memory only if all reads are valid, and all of it before the first change.
    pub fn tall(&mut self, seat: u32, at: &M) -> Result<Noted, NoMemory>
        requires on { IsOn M.meaning self.old seat at.now }
        requires grows { (M.meaning.stage self.old.code at.now).want ≡ Some Wants.Tall }
        requires left { self.old.turns < self.old.limits.turns }
        requires going { self.old.stop ≡ None }
        ensures noted { (attempt : Attempt) → working (task_at self.old.tasks seat) ≡ Some attempt → result ≡ Ok Noted.Noted
            → MakesAt M.meaning (M.meaning.stage self.old.code at.now) None
            (λ place. Event.Tall seat attempt (M.meaning.stage self.old.code at.now).steps place) self.old self.new }
        ensures back { (attempt : Attempt) (bad : Bad) → task_at self.old.tasks seat ≡ Task.Running attempt → result ≡ Ok (Noted.Invalid bad)
            → Makes M.meaning (Event.TurnBack seat attempt (Reverse.Stale Find.Tall)) self.old self.new }
        ensures exact { IfOk result (λ noted. (noted ≡ Noted.Noted) ↔ IsValid self.old.memory.cells seat (row_at self.old.memory.rows seat).reads) }
        ensures bad { (bad : Bad) → result ≡ Ok (Noted.Invalid bad) → IsFirstBad self.old.memory.cells seat (row_at self.old.memory.rows seat).reads bad }
        ensures lacks { OnErr result (IsValid self.old.memory.cells seat (row_at self.old.memory.rows seat).reads) }
        ensures err { OnErr result (self.new ≡ self.old) }
    {
        match self.memory.valid(seat) {
            None => {
                self.tall_valid(seat, at)?;
                Ok(Noted::Noted)
            }
            Some(bad) => {
                let attempt = attempt_at(self.tasks[seat as usize]);
                self.turn_back(seat, attempt, Setback::Tall);
                Ok(Noted::Invalid(bad))
            }
        }
    }
}
