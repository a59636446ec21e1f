//! Notes of members that came to a condition that is false.

ghost use Rattle.std.specs.Prelude.{◌≡◌, ◌<◌, ◌↔◌, IfOk, OnOk, OnErr, Ok, None, map};
ghost use Rattle.ame_rows.specs.declared.notes.Bad.{Bad};
ghost use Rattle.ame_rows.specs.Valid.{IsValid, IsFirstBad};
ghost use Rattle.ame_rows.specs.MemoryView.{row_at};
ghost use Rattle.ame_protocol.specs.Row.Waiting.{read_places};
ghost use Rattle.ame_protocol.specs.declared.types.Attempt.{Attempt};
ghost use Rattle.ame_protocol.specs.Engine.Parts.{task_at};
ghost use Rattle.ame_protocol.specs.Event.Event.{Event, Find, Reverse};
ghost use Rattle.ame_engine.specs.Makes.{Makes, MakesAt};
ghost use Rattle.ame_engine.specs.AtWork.{IsOn, IsBlocking};

use super::Engine;
use super::ledger::entry_of;
use super::notes::told;
use super::turn::Setback;
use crate::answer::Noted;
use ame_journal::EntryKind;
use ame_machine::Runner;
use ame_protocol::{Attempt, Task, UndoReason};
use ame_rows::ReadNote;
use ame_term::{Loc, NoMemory};
use std::alloc::Global;

/// Returns the locations of logged reads.
fn read_locations(alloc: Global, reads: &[ReadNote]) -> Result<Vec<Loc>, NoMemory>
    ensures { IfOk result (λ locs. map (λ l. l.0) locs.items ≡ read_places reads.now) }
{
    let mut locs = Vec::new(alloc);
    for read in reads {
        locs.push(read.loc)?;
    }
    Ok(locs)
}

impl<M: Runner> Engine<M>
where
    M::Code: Drop,
{
    /// Notes a row whose reads are valid. All memory is taken before the first change.
    fn block_valid(&mut self, seat: u32, attempt: Attempt, at: &M) -> Result<(), NoMemory>
        requires on { IsOn M.meaning self.old seat at.now }
        requires blocks { IsBlocking (M.meaning.stage self.old.code at.now) }
        requires left { self.old.turns < self.old.limits.turns }
        requires going { self.old.stop ≡ None }
        requires task { task_at self.old.tasks seat ≡ Task.Running attempt }
        requires valid { IsValid self.old.memory.cells seat (row_at self.old.memory.rows seat).reads }
        ensures noted { OnOk result (MakesAt M.meaning (M.meaning.stage self.old.code at.now) None
            (λ place. Event.Note seat attempt (M.meaning.stage self.old.code at.now).steps place) self.old self.new) }
        ensures err { OnErr result (self.new ≡ self.old) }
    {
        let alloc = *self.tasks.allocator();
        let number = attempt.tried.number;
        let entry = entry_of(alloc, EntryKind::Stuck, seat, number, at)?;
        let locs = read_locations(alloc, self.memory.row(seat).reads())?;
        self.ledger.journal.room()?;
        self.pool.note(number, locs)?;
        self.ledger.journal.push(entry);
        self.tasks[seat as usize] = Task::Undoing(told(attempt), UndoReason::Noted);
        self.turns += 1;
        self.counters.blocks += 1;
        Ok(())
    }

    /// Notes the row of a seat whose machine has come to a condition that is false. An entry joins the journal, the member watches the
    /// locations that its row read, and the row is to be undone. If a read isn't valid the seat turns back instead. Counts a turn. Takes
    /// memory only if all reads are valid, and all of it before the first change.
    pub fn block(&mut self, seat: u32, at: &M) -> Result<Noted, NoMemory>
        requires on { IsOn M.meaning self.old seat at.now }
        requires blocks { IsBlocking (M.meaning.stage self.old.code at.now) }
        requires left { self.old.turns < self.old.limits.turns }
        requires going { self.old.stop ≡ None }
        ensures noted { (attempt : Attempt) → task_at self.old.tasks seat ≡ Task.Running attempt → result ≡ Ok Noted.Noted
            → MakesAt M.meaning (M.meaning.stage self.old.code at.now) None
            (λ place. Event.Note seat attempt (M.meaning.stage self.old.code at.now).steps place) self.old self.new }
        ensures back { (attempt : Attempt) (bad : Bad) → task_at self.old.tasks seat ≡ Task.Running attempt → result ≡ Ok (Noted.Invalid bad)
            → Makes M.meaning (Event.TurnBack seat attempt (Reverse.Stale Find.Block)) self.old self.new }
        ensures exact { IfOk result (λ noted. (noted ≡ Noted.Noted) ↔ IsValid self.old.memory.cells seat (row_at self.old.memory.rows seat).reads) }
        ensures bad { (bad : Bad) → result ≡ Ok (Noted.Invalid bad) → IsFirstBad self.old.memory.cells seat (row_at self.old.memory.rows seat).reads bad }
        ensures lacks { OnErr result (IsValid self.old.memory.cells seat (row_at self.old.memory.rows seat).reads) }
        ensures err { OnErr result (self.new ≡ self.old) }
    {
        let Task::Running(attempt) = self.tasks[seat as usize] else {
            unreachable!();
        };
        match self.memory.valid(seat) {
            None => {
                self.block_valid(seat, attempt, at)?;
                Ok(Noted::Noted)
            }
            Some(bad) => {
                self.turn_back(seat, attempt, Setback::Block);
                Ok(Noted::Invalid(bad))
            }
        }
    }
}
