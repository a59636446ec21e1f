//! Reads of seats.

ghost use Rattle.std.specs.Prelude.{◌≡◌, ◌<◌, All, IfOk, OnOk, OnErr, Some, None, false};
ghost use Rattle.ame_term.specs.declared.types.Loc.{Loc};
ghost use Rattle.ame_laws.specs.Typed.StoreTyping.{StoreTyping};
ghost use Rattle.ame_laws.specs.Typed.TypedState.{IsStored};
ghost use Rattle.ame_store.specs.Cells.{HasItsParity};
ghost use Rattle.ame_protocol.specs.Row.Heap.{cell_at};
ghost use Rattle.ame_protocol.specs.Row.TypedHeap.{IsTypedHeap};
ghost use Rattle.ame_machine.specs.declared.wants.Wants.{Wants};
ghost use Rattle.ame_machine.specs.MachineView.{MachineView};
ghost use Rattle.ame_machine.specs.Sound.{CanRun};
ghost use Rattle.ame_protocol.specs.Engine.Parts.{heap_in};
ghost use Rattle.ame_protocol.specs.Event.Event.{Event};
ghost use Rattle.ame_engine.specs.Seen.{parts_of};
ghost use Rattle.ame_engine.specs.Makes.{Makes};
ghost use Rattle.ame_engine.specs.AtWork.{IsOn, IsOnSeat, IsReading};

use super::Engine;
use ame_machine::{Runner, Wants};
use ame_rows::Memory;
use ame_term::NoMemory;

/// Says that each cell's number is even exactly if it has no owner.
fn numbers_tell_owners<V>(memory: &Memory<V>)
    ensures { All HasItsParity memory.now.cells }
{
    let _ = memory.cells().len();
}

impl<M: Runner> Engine<M>
where
    M::Code: Drop,
{
    /// Returns the value in place at the location that the machine of a seat wants to read, with or without an owner of the cell. A cell
    /// that the seat doesn't own is logged with its number. No stop is kept, and the slice isn't full. Counts a turn. Takes memory for the
    /// logs and the copy of a value.
    pub fn read(&mut self, seat: u32, at: &M) -> Result<M::Value, NoMemory>
        requires on { IsOn M.meaning self.old seat at.now }
        requires reads { IsReading (M.meaning.stage self.old.code at.now) }
        requires left { self.old.turns < self.old.limits.turns }
        requires going { self.old.stop ≡ None }
        requires early { (M.meaning.stage self.old.code at.now).since < self.old.limits.slice }
        ensures event { (l : Loc) → (M.meaning.stage self.old.code at.now).want ≡ Some (Wants.Read l)
            → OnOk result (Makes M.meaning (Event.Read seat l) self.old self.new) }
        ensures value { (l : Loc) → (M.meaning.stage self.old.code at.now).want ≡ Some (Wants.Read l) → IfOk result (λ value.
            M.meaning.value_of self.old.code value ≡ (cell_at (heap_in (parts_of M.meaning self.old)) l.0).value) }
        ensures typed { (l : Loc) → (M.meaning.stage self.old.code at.now).want ≡ Some (Wants.Read l) → IfOk result (λ value. (types : StoreTyping)
            → IsTypedHeap (M.meaning.signature self.old.code) types (heap_in (parts_of M.meaning self.old))
            → IsStored (M.meaning.signature self.old.code) types l.0 (M.meaning.value_of self.old.code value)) }
        ensures good { IfOk result (M.meaning.is_value self.old.code) }
        ensures runs { OnOk result ((s : MachineView) → IsOnSeat (parts_of M.meaning self.new) seat s → s.inside ≡ false → CanRun s) }
        ensures err { OnErr result (self.new ≡ self.old) }
    {
        let Some(Wants::Read(l)) = at.want() else {
            unreachable!();
        };
        numbers_tell_owners(&self.memory);
        let value = self.memory.read(seat, l)?;
        self.turns += 1;
        self.counters.reads += 1;
        Ok(value)
    }
}
