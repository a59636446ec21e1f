//! Writes of seats.

ghost use Rattle.std.specs.Prelude.{◌≡◌, ◌<◌, ℕ, IfOk, OnOk, OnErr, Ok, Some, None, false};
ghost use Rattle.ame_term.specs.Tree.{Val};
ghost use Rattle.ame_term.specs.declared.types.Loc.{Loc};
ghost use Rattle.ame_protocol.specs.Row.Heap.{cell_at};
ghost use Rattle.ame_machine.specs.declared.wants.Wants.{Wants};
ghost use Rattle.ame_machine.specs.MachineView.{MachineView};
ghost use Rattle.ame_machine.specs.Input.{value_to_set};
ghost use Rattle.ame_machine.specs.Sound.{CanRun};
ghost use Rattle.ame_protocol.specs.declared.types.Attempt.{Attempt};
ghost use Rattle.ame_protocol.specs.Engine.Parts.{heap_in, task_at};
ghost use Rattle.ame_protocol.specs.Event.Event.{Event, Reverse};
ghost use Rattle.ame_engine.specs.Seen.{parts_of};
ghost use Rattle.ame_engine.specs.Makes.{Makes};
ghost use Rattle.ame_engine.specs.AtWork.{IsOn, IsOnSeat, IsWriting};
ghost use Rattle.ame_engine.specs.Writing.{answer_to_write};

use super::Engine;
use super::turn::Setback;
use crate::answer::Wrote;
use ame_machine::{Runner, Wants};
use ame_protocol::Task;
use ame_term::{Copied, NoMemory};

impl<M: Runner> Engine<M>
where
    M::Code: Drop,
{
    /// Writes in place what the machine of a seat lends, with an entry to undo at the first write of a cell. If another seat owns
    /// the cell it is a conflict, and the seat turns back. No stop is kept, and the slice isn't full. Counts a turn. Takes memory for
    /// the logs and the copy of a value, unless it is a conflict.
    pub fn write(&mut self, seat: u32, at: &M) -> Result<Wrote, NoMemory>
        requires on { IsOn M.meaning self.old seat at.now }
        requires writes { IsWriting (M.meaning.stage self.old.code at.now) }
        requires left { self.old.turns < self.old.limits.turns }
        requires going { self.old.stop ≡ None }
        requires early { (M.meaning.stage self.old.code at.now).since < self.old.limits.slice }
        ensures answer { (l : Loc) → (M.meaning.stage self.old.code at.now).want ≡ Some (Wants.Write l) → IfOk result (λ answer.
            answer ≡ answer_to_write seat (cell_at (heap_in (parts_of M.meaning self.old)) l.0).owner) }
        ensures event { (l : Loc) (v : Val) → (M.meaning.stage self.old.code at.now).want ≡ Some (Wants.Write l)
            → value_to_set (M.meaning.stage self.old.code at.now) ≡ Some v → result ≡ Ok Wrote.Wrote
            → Makes M.meaning (Event.Write seat l v) self.old self.new }
        ensures back { (l : Loc) (attempt : Attempt) (owner : ℕ) → (M.meaning.stage self.old.code at.now).want ≡ Some (Wants.Write l)
            → task_at self.old.tasks seat ≡ Task.Running attempt → result ≡ Ok (Wrote.Conflict owner)
            → Makes M.meaning (Event.TurnBack seat attempt (Reverse.Met l owner)) self.old self.new }
        ensures runs { OnOk result ((s : MachineView) → IsOnSeat (parts_of M.meaning self.new) seat s → s.inside ≡ false → CanRun s) }
        ensures err { OnErr result (self.new ≡ self.old) }
    {
        let Some(Wants::Write(l)) = at.want() else {
            unreachable!();
        };
        match self.memory.other_owner(seat, l) {
            Some(owner) => {
                let Task::Running(attempt) = self.tasks[seat as usize] else {
                    unreachable!();
                };
                self.turn_back(seat, attempt, Setback::Conflict(l, owner));
                Ok(Wrote::Conflict(owner))
            }
            None => {
                let value = at.wanted(&self.code).copy(*self.tasks.allocator())?;
                let unit = M::unit_value();
                self.memory.write(seat, l, value, &unit)?;
                self.turns += 1;
                self.counters.writes += 1;
                Ok(Wrote::Wrote)
            }
        }
    }
}
