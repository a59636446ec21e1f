//! New cells of seats.

ghost use Rattle.std.specs.Prelude.{◌≡◌, ◌<◌, IfOk, OnOk, OnErr, Some, None, false, length};
ghost use Rattle.ame_term.specs.Tree.{Val};
ghost use Rattle.ame_term.specs.declared.types.Sort.{Sort};
ghost use Rattle.ame_term.specs.declared.types.TyNo.{TyNo};
ghost use Rattle.ame_machine.specs.declared.wants.Wants.{Wants};
ghost use Rattle.ame_machine.specs.MachineView.{MachineView};
ghost use Rattle.ame_machine.specs.Input.{value_to_set};
ghost use Rattle.ame_machine.specs.Sound.{CanRun};
ghost use Rattle.ame_protocol.specs.Event.Event.{Event};
ghost use Rattle.ame_engine.specs.Seen.{parts_of};
ghost use Rattle.ame_engine.specs.Makes.{Makes};
ghost use Rattle.ame_engine.specs.AtWork.{IsOn, IsOnSeat, IsAllocating};

use super::Engine;
use ame_machine::{Runner, Wants};
use ame_term::{Copied, Loc, NoMemory};

impl<M: Runner> Engine<M>
where
    M::Code: Drop,
{
    /// Makes the cell that the machine of a seat wants, with the value that it lends. The seat owns the cell, which isn't live
    /// before its row is committed. Counts a turn. Takes memory for the cell, the logs and the copy of a value.
    pub fn alloc(&mut self, seat: u32, at: &M) -> Result<Loc, NoMemory>
        requires on { IsOn M.meaning self.old seat at.now }
        requires allocates { IsAllocating (M.meaning.stage self.old.code at.now) }
        requires left { self.old.turns < self.old.limits.turns }
        requires going { self.old.stop ≡ None }
        requires early { (M.meaning.stage self.old.code at.now).since < self.old.limits.slice }
        ensures location { IfOk result (λ l. l.0 ≡ length self.old.memory.cells) }
        ensures event { (sort : Sort) (number : TyNo) (v : Val) → (M.meaning.stage self.old.code at.now).want ≡ Some (Wants.Alloc sort number)
            → value_to_set (M.meaning.stage self.old.code at.now) ≡ Some v → OnOk result
            (Makes M.meaning (Event.Alloc seat sort number v) self.old self.new) }
        ensures runs { OnOk result ((s : MachineView) → IsOnSeat (parts_of M.meaning self.new) seat s → s.inside ≡ false → CanRun s) }
        ensures err { OnErr result (self.new ≡ self.old) }
    {
        let Some(Wants::Alloc(sort, number)) = at.want() else {
            unreachable!();
        };
        let value = at.wanted(&self.code).copy(*self.tasks.allocator())?;
        let input = M::location_value(Loc(self.memory.cells().len()));
        let l = self.memory.allocate(seat, sort, number, value, &input)?;
        self.turns += 1;
        self.counters.allocs += 1;
        Ok(l)
    }
}
