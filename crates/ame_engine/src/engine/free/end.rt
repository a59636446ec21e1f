//! The end of a visit that called no device.

ghost use Rattle.std.specs.Prelude.{◌≡◌, ◌<◌, ◌≤◌, OnOk, OnErr, None, true, []};
ghost use Rattle.ame_machine.specs.RefSorts.{IsRefForm};
ghost use Rattle.ame_protocol.specs.Engine.Parts.{task_at};
ghost use Rattle.ame_engine.specs.Seen.{parts_of};
ghost use Rattle.ame_engine.specs.Makes.{MakesAt};
ghost use Rattle.ame_engine.specs.Visiting.{IsVisitTo, visits_at, SettlesThere, changed_by, CanChange, IsGoodChange, makes_cell};

use super::change::{CellChange, change_memory};
use super::home::send_home;
use crate::engine::Engine;
use crate::engine::commit::members::{join_all, make_places};
use ame_journal::EntryKind;
use ame_machine::Runner;
use ame_protocol::{Attempt, Task};
use ame_term::NoMemory;

impl<M: Runner> Engine<M>
where
    M::Code: Drop,
{
    /// Ends a visit at the place of its machine. The cells change, the prints join the output, an entry the journal and the new members the
    /// pool, and the visited member goes home. All memory is taken before the first change.
    pub(super) fn end_visit(
        &mut self,
        seat: u32,
        attempt: Attempt,
        mut at: M,
        change: CellChange<M::Value>,
    ) -> Result<(), NoMemory>
        requires task { task_at self.old.tasks seat ≡ Task.Free attempt }
        requires going { self.old.stop ≡ None }
        requires left { self.old.turns < self.old.limits.turns }
        requires machine { M.meaning.is_machine self.old.code at }
        requires settles { SettlesThere (M.meaning.stage self.old.code at) }
        requires visit { IsVisitTo (parts_of M.meaning self.old) attempt.tried.number None (M.meaning.stage self.old.code at)
            (changed_by (M.meaning.value_of self.old.code) change (parts_of M.meaning self.old).memory) }
        requires low { attempt.tried.steps ≤ (M.meaning.stage self.old.code at).steps }
        requires good { IsGoodChange (M.meaning.is_value self.old.code) (IsRefForm (M.meaning.program self.old.code)) change }
        requires fits { CanChange self.old.memory change }
        requires lone { makes_cell change ≡ true → (M.meaning.stage self.old.code at).spawns ≡ [] }
        ensures event { OnOk result (MakesAt M.meaning (M.meaning.stage self.old.code at) None
            (visits_at seat attempt (M.meaning.stage self.old.code at)
            (changed_by (M.meaning.value_of self.old.code) change (parts_of M.meaning self.old).memory)) self.old self.new) }
        ensures err { OnErr result (self.new ≡ self.old) }
    {
        let number = attempt.tried.number;
        let draft = self.ledger.draft(EntryKind::Free, seat, number, &at)?;
        let next = make_places(&mut self.pool, self.next, at.spawns())?;
        change_memory(&mut self.memory, change)?;
        self.ledger.append(draft, at.prints());
        let alloc = *self.tasks.allocator();
        join_all(&mut self.pool, alloc, self.next, next, &mut at);
        send_home(&mut self.pool, number, at);
        self.next = next;
        self.tasks[seat as usize] = Task::Idle;
        self.turns += 1;
        self.counters.frees += 1;
        Ok(())
    }
}
