//! Commits of seats.

ghost use Rattle.std.specs.Prelude.{◌≡◌, ◌<◌, ◌↔◌, IfOk, OnOk, OnErr, Ok, Some, None, length, map};
ghost use Rattle.ame_rows.specs.declared.notes.Bad.{Bad};
ghost use Rattle.ame_rows.specs.Valid.{IsValid, IsFirstBad};
ghost use Rattle.ame_rows.specs.MemoryView.{row_at};
ghost use Rattle.ame_machine.specs.declared.wants.Wants.{Wants};
ghost use Rattle.ame_protocol.specs.declared.types.Attempt.{Attempt};
ghost use Rattle.ame_protocol.specs.Engine.Parts.{task_at};
ghost use Rattle.ame_protocol.specs.Event.Event.{Event, Find, Reverse};
ghost use Rattle.ame_engine.specs.Seen.{parts_of};
ghost use Rattle.ame_engine.specs.Makes.{Makes, MakesAt};
ghost use Rattle.ame_engine.specs.AtWork.{IsOn};
ghost use Rattle.ame_protocol.specs.Engine.Events.{woken_for};
ghost use Rattle.ame_engine.specs.Committing.{IsCommitting, owned_places, ends_at, leaves_at};

use super::Engine;
use super::turn::Setback;
use crate::answer::Noted;
use ame_journal::EntryKind;
use ame_machine::Runner;
use ame_protocol::{Attempt, Task};
use ame_term::{Loc, NoMemory};
use members::{join_all, make_places, send_on, wake_all};

pub(super) mod members;

impl<M: Runner> Engine<M>
where
    M::Code: Drop,
{
    /// Returns the locations that a seat owns, in rising order, if a member may watch one. Otherwise returns none, which takes no memory:
    /// a commit then wakes no member.
    fn to_wake(&self, seat: u32) -> Result<Vec<Loc>, NoMemory>
        requires { seat < length self.now.memory.rows }
        ensures { IfOk result (λ locs. woken_for (map (λ l. l.0) locs.items) self.now.pool
            ≡ woken_for (owned_places seat (parts_of M.meaning self.now).memory.cells) self.now.pool) }
    {
        let alloc = *self.tasks.allocator();
        if !self.pool.is_watched() {
            return Ok(Vec::new(alloc));
        }
        let owned = self.memory.owned(alloc, seat)?;
        Ok(owned)
    }

    /// Commits a row whose reads are valid. All memory is taken before the first change.
    fn commit_valid(&mut self, seat: u32, attempt: Attempt, mut at: M) -> Result<(), NoMemory>
        requires on { IsOn M.meaning self.old seat at }
        requires commits { IsCommitting (M.meaning.stage self.old.code at) }
        requires left { self.old.turns < self.old.limits.turns }
        requires going { self.old.stop ≡ None }
        requires task { task_at self.old.tasks seat ≡ Task.Running attempt }
        requires valid { IsValid self.old.memory.cells seat (row_at self.old.memory.rows seat).reads }
        ensures ended { (M.meaning.stage self.old.code at).want ≡ Some Wants.Done → OnOk result (MakesAt M.meaning (M.meaning.stage self.old.code at) None
            (ends_at seat attempt (M.meaning.stage self.old.code at) (parts_of M.meaning self.old)) self.old self.new) }
        ensures left { (M.meaning.stage self.old.code at).want ≡ Some Wants.Leave → OnOk result (MakesAt M.meaning (M.meaning.stage self.old.code at) None
            (leaves_at seat attempt (M.meaning.stage self.old.code at) (parts_of M.meaning self.old)) self.old self.new) }
        ensures err { OnErr result (self.new ≡ self.old) }
    {
        let alloc = *self.tasks.allocator();
        let number = attempt.tried.number;
        let owned = self.to_wake(seat)?;
        let draft = self.ledger.draft(EntryKind::Ran, seat, number, &at)?;
        let next = make_places(&mut self.pool, self.next, at.spawns())?;
        self.memory.release_all(seat);
        wake_all(&mut self.pool, owned.as_slice());
        self.ledger.append(draft, at.prints());
        join_all(&mut self.pool, alloc, self.next, next, &mut at);
        send_on(&mut self.pool, number, at);
        self.next = next;
        self.tasks[seat as usize] = Task::Idle;
        self.turns += 1;
        self.counters.commits += 1;
        Ok(())
    }

    /// Commits the row of a seat whose machine has ended, or has come to `unprotected`. The seat's cells are released, and the members that
    /// wait for them are woken. The prints join the output, an entry the journal, and the new members the pool. The seat's member is gone,
    /// or goes on inside. If a read isn't valid the seat turns back instead. Counts a turn. Takes memory only if all reads are valid, and
    /// all of it before the first change. Is out of memory also if the number of a new member would have more than 64 bits.
    pub fn commit(&mut self, seat: u32, at: M) -> Result<Noted, NoMemory>
        requires on { IsOn M.meaning self.old seat at }
        requires commits { IsCommitting (M.meaning.stage self.old.code at) }
        requires left { self.old.turns < self.old.limits.turns }
        requires going { self.old.stop ≡ None }
        ensures ended { (attempt : Attempt) → task_at self.old.tasks seat ≡ Task.Running attempt → (M.meaning.stage self.old.code at).want ≡ Some Wants.Done
            → result ≡ Ok Noted.Noted → MakesAt M.meaning (M.meaning.stage self.old.code at) None
            (ends_at seat attempt (M.meaning.stage self.old.code at) (parts_of M.meaning self.old)) self.old self.new }
        ensures left { (attempt : Attempt) → task_at self.old.tasks seat ≡ Task.Running attempt → (M.meaning.stage self.old.code at).want ≡ Some Wants.Leave
            → result ≡ Ok Noted.Noted → MakesAt M.meaning (M.meaning.stage self.old.code at) None
            (leaves_at seat attempt (M.meaning.stage self.old.code at) (parts_of M.meaning self.old)) self.old self.new }
        ensures back { (attempt : Attempt) (bad : Bad) → task_at self.old.tasks seat ≡ Task.Running attempt → result ≡ Ok (Noted.Invalid bad)
            → Makes M.meaning (Event.TurnBack seat attempt (Reverse.Stale Find.Commit)) self.old self.new }
        ensures exact { IfOk result (λ noted. (noted ≡ Noted.Noted) ↔ IsValid self.old.memory.cells seat (row_at self.old.memory.rows seat).reads) }
        ensures bad { (bad : Bad) → result ≡ Ok (Noted.Invalid bad) → IsFirstBad self.old.memory.cells seat (row_at self.old.memory.rows seat).reads bad }
        ensures lacks { OnErr result (IsValid self.old.memory.cells seat (row_at self.old.memory.rows seat).reads) }
        ensures err { OnErr result (self.new ≡ self.old) }
    {
        let Task::Running(attempt) = self.tasks[seat as usize] else {
            unreachable!();
        };
        match self.memory.valid(seat) {
            None => {
                self.commit_valid(seat, attempt, at)?;
                Ok(Noted::Noted)
            }
            Some(bad) => {
                self.turn_back(seat, attempt, Setback::Commit);
                Ok(Noted::Invalid(bad))
            }
        }
    }
}
