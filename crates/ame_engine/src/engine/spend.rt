//! The stop of an engine whose turns are used up.

ghost use Rattle.std.specs.Prelude.{◌≡◌, IfOk, OnOk, OnErr, IsSome, IsTrue, ◌↔◌, Ok, Some, None, is_some};
ghost use Rattle.std.specs.Option.{ForSome};
ghost use Rattle.ame_rows.specs.Valid.{IsValid};
ghost use Rattle.ame_rows.specs.MemoryView.{row_at};
ghost use Rattle.ame_protocol.specs.declared.types.Attempt.{Attempt};
ghost use Rattle.ame_protocol.specs.Engine.Parts.{task_at, attempt_of, working};
ghost use Rattle.ame_protocol.specs.Event.Event.{Event};
ghost use Rattle.ame_protocol.specs.Event.Causes.{HasCause};
ghost use Rattle.ame_engine.specs.Seen.{parts_of};
ghost use Rattle.ame_engine.specs.Makes.{Makes, MakesAt};
ghost use Rattle.ame_engine.specs.Stops.{stopped_by};
ghost use Rattle.ame_engine.specs.AtWork.{IsOn};
ghost use Rattle.ame_protocol.specs.Event.Bounds.{LeavesNoTry};

use super::Engine;
use super::ledger::entry_of;
use super::notes::told_task;
use super::undo::attempt_at;
use ame_journal::EntryKind;
use ame_machine::Runner;
use ame_protocol::Stop;
use ame_term::NoMemory;

impl<M: Runner> Engine<M>
where
    M::Code: Drop,
{
    /// Notes the place at which a row whose reads are valid is cut off, and keeps the stop that the turns are used up. All memory is taken
    /// before the first change.
    fn cut(&mut self, seat: u32, at: &M) -> Result<(), NoMemory>
        requires on { IsOn M.meaning self.old seat at.now }
        requires used_up { self.old.turns ≡ self.old.limits.turns }
        requires going { self.old.stop ≡ None }
        requires valid { IsValid self.old.memory.cells seat (row_at self.old.memory.rows seat).reads }
        ensures cut { (attempt : Attempt) → working (task_at self.old.tasks seat) ≡ Some attempt
            → OnOk result (MakesAt M.meaning (M.meaning.stage self.old.code at.now) None
            (λ place. Event.Cut seat attempt (M.meaning.stage self.old.code at.now).steps place) self.old self.new) }
        ensures err { OnErr result (self.new ≡ self.old) }
    {
        let task = self.tasks[seat as usize];
        let number = attempt_at(task).tried.number;
        let entry = entry_of(*self.tasks.allocator(), EntryKind::Cut, seat, number, at)?;
        self.ledger.journal.room()?;
        self.ledger.journal.push(entry);
        self.tasks[seat as usize] = told_task(task);
        self.stop = Some(Stop::Spent);
        Ok(())
    }

    /// Says that a seat with a member at work is a cause to stop if the turns are used up. With one seat no attempt is left without an
    /// entry, unless the seat runs code whose reads are valid.
    fn spending_has_cause(&self, seat: u32)
        requires busy { IsSome (attempt_of (task_at self.now.tasks seat)) }
        requires used_up { self.now.turns ≡ self.now.limits.turns }
        requires stuck { IsValid self.now.memory.cells seat (row_at self.now.memory.rows seat).reads → working (task_at self.now.tasks seat) ≡ None }
        ensures cause { self.now.stop ≡ None → HasCause (Some Stop.Spent) self.now.certificates
            (parts_of M.meaning (stopped_by Stop.Spent self.now)) }
        ensures leaves { self.now.stop ≡ None → LeavesNoTry Stop.Spent (parts_of M.meaning self.now) }
    {
        let _ = seat;
        let _ = &self.turns;
    }

    /// Returns whether each read of a seat is valid.
    fn is_valid(&self, seat: u32) -> bool
        requires { IsSome (attempt_of (task_at self.now.tasks seat)) }
        ensures { IsTrue result ↔ IsValid self.now.memory.cells seat (row_at self.now.memory.rows seat).reads }
    {
        self.memory.valid(seat).is_none()
    }

    /// Keeps the stop that the turns are used up, for a seat that has a member at work. If the seat runs code, its machine is given. If its
    /// reads are valid, an entry notes the place at which it is cut off. Takes memory only for that entry, before the first change, and
    /// counts no turn.
    pub fn spend(&mut self, seat: u32, at: Option<&M>) -> Result<(), NoMemory>
        requires busy { IsSome (attempt_of (task_at self.old.tasks seat)) }
        requires given { is_some at ≡ is_some (working (task_at self.old.tasks seat)) }
        requires on { ForSome at (λ m. IsOn M.meaning self.old seat m.now) }
        requires used_up { self.old.turns ≡ self.old.limits.turns }
        requires going { self.old.stop ≡ None }
        ensures cut { ForSome at.entry (λ m. IsValid self.old.memory.cells seat (row_at self.old.memory.rows seat).reads → (attempt : Attempt)
            → working (task_at self.old.tasks seat) ≡ Some attempt
            → OnOk result (MakesAt M.meaning (M.meaning.stage self.old.code m.now) None
            (λ place. Event.Cut seat attempt (M.meaning.stage self.old.code m.now).steps place) self.old self.new)) }
        ensures halts { (IsValid self.old.memory.cells seat (row_at self.old.memory.rows seat).reads → working (task_at self.old.tasks seat) ≡ None)
            → Makes M.meaning (Event.Halt Stop.Spent) self.old self.new }
        ensures undoing { at.entry ≡ None → (result ≡ Ok tt) × (self.new ≡ stopped_by Stop.Spent self.old) }
        ensures invalid { (IsValid self.old.memory.cells seat (row_at self.old.memory.rows seat).reads → ⊥)
            → (result ≡ Ok tt) × (self.new ≡ stopped_by Stop.Spent self.old) }
        ensures err { OnErr result (self.new ≡ self.old) }
    {
        if let Some(at) = at {
            if self.is_valid(seat) {
                return self.cut(seat, at);
            }
        }
        self.spending_has_cause(seat);
        self.keep(Stop::Spent);
        Ok(())
    }
}
