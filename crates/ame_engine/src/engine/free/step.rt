//! The step that a visited machine wants, on the committed state.

ghost use Rattle.std.specs.Prelude.{◌≡◌, ◌<◌, ◌+◌, ◌^◌, ◌⊎◌, ℕ, ℤ, false, IfOk, Some};
ghost use Rattle.ame_machine.specs.declared.wants.Wants.{Wants};
ghost use Rattle.ame_engine.specs.AtWork.{IsOn};
ghost use Rattle.ame_engine.specs.Visiting.{IsVisiting, HasMadeItsStep, wants_device};

use super::change::CellChange;
use crate::engine::Engine;
use ame_machine::{Input, Runner, Wants};
use ame_term::{Copied, Loc, NoMemory, Sort, TyNo};

impl<M: Runner> Engine<M>
where
    M::Code: Drop,
{
    /// Feeds a machine the committed value of the location that it reads or peeks at.
    fn given(&self, at: &mut M, l: Loc) -> Result<CellChange<M::Value>, NoMemory>
        requires on { (seat : ℕ) × IsOn M.meaning self.now seat at.old }
        requires visits { IsVisiting (M.meaning.stage self.now.code at.old) }
        requires wants { ((M.meaning.stage self.now.code at.old).want ≡ Some (Wants.Read l)) ⊎ ((M.meaning.stage self.now.code at.old).want ≡ Some (Wants.Peek l)) }
        requires steps { (M.meaning.stage self.now.code at.old).steps + 1 < 2 ^ 64 }
        ensures { IfOk result (HasMadeItsStep M.meaning self.now at.old at.new) }
    {
        let value = self.memory.peek(l)?;
        at.feed(&self.code, Input::Value(value));
        Ok(CellChange::Stays)
    }

    /// Accepts what a machine writes, and returns the change.
    fn written(&self, at: &mut M, l: Loc) -> Result<CellChange<M::Value>, NoMemory>
        requires on { (seat : ℕ) × IsOn M.meaning self.now seat at.old }
        requires visits { IsVisiting (M.meaning.stage self.now.code at.old) }
        requires wants { (M.meaning.stage self.now.code at.old).want ≡ Some (Wants.Write l) }
        requires steps { (M.meaning.stage self.now.code at.old).steps + 1 < 2 ^ 64 }
        ensures { IfOk result (HasMadeItsStep M.meaning self.now at.old at.new) }
    {
        let value = at.wanted(&self.code).copy(*self.tasks.allocator())?;
        at.feed(&self.code, Input::Unit);
        Ok(CellChange::Puts(l, value))
    }

    /// Feeds a machine the location of the cell that is to be made for it.
    fn made(&self, at: &mut M, sort: Sort, number: TyNo) -> Result<CellChange<M::Value>, NoMemory>
        requires on { (seat : ℕ) × IsOn M.meaning self.now seat at.old }
        requires visits { IsVisiting (M.meaning.stage self.now.code at.old) }
        requires wants { (M.meaning.stage self.now.code at.old).want ≡ Some (Wants.Alloc sort number) }
        requires steps { (M.meaning.stage self.now.code at.old).steps + 1 < 2 ^ 64 }
        ensures { IfOk result (HasMadeItsStep M.meaning self.now at.old at.new) }
    {
        let value = at.wanted(&self.code).copy(*self.tasks.allocator())?;
        at.feed(&self.code, Input::Loc(Loc(self.memory.cells().len())));
        Ok(CellChange::Makes(sort, number, value))
    }

    /// Accepts what a machine spawns or prints, or closes it.
    fn accepted(&self, at: &mut M)
        requires on { (seat : ℕ) × IsOn M.meaning self.now seat at.old }
        requires visits { IsVisiting (M.meaning.stage self.now.code at.old) }
        requires wants { ((M.meaning.stage self.now.code at.old).want ≡ Some Wants.Spawn)
            ⊎ (((i : ℤ) × ((M.meaning.stage self.now.code at.old).want ≡ Some (Wants.Print i))) ⊎ ((M.meaning.stage self.now.code at.old).want ≡ Some Wants.Close)) }
        requires steps { (M.meaning.stage self.now.code at.old).steps + 1 < 2 ^ 64 }
        ensures { HasMadeItsStep M.meaning self.now at.old at.new CellChange.Stays }
    {
        at.feed(&self.code, Input::Unit);
    }

    /// Makes the step that a machine wants, unless it wants a device, and returns the change of the cells. Takes memory for the copy of a
    /// value.
    pub(super) fn serve(&self, at: &mut M) -> Result<CellChange<M::Value>, NoMemory>
        requires on { (seat : ℕ) × IsOn M.meaning self.now seat at.old }
        requires visits { IsVisiting (M.meaning.stage self.now.code at.old) }
        requires no_device { wants_device (M.meaning.stage self.now.code at.old).want ≡ false }
        requires steps { (M.meaning.stage self.now.code at.old).steps + 1 < 2 ^ 64 }
        ensures { IfOk result (HasMadeItsStep M.meaning self.now at.old at.new) }
    {
        let Some(want) = at.want() else {
            return Ok(CellChange::Stays);
        };
        match want {
            Wants::Read(l) | Wants::Peek(l) => self.given(at, l),
            Wants::Write(l) => self.written(at, l),
            Wants::Alloc(sort, number) => self.made(at, sort, number),
            Wants::Spawn | Wants::Print(_) | Wants::Close => {
                self.accepted(at);
                Ok(CellChange::Stays)
            }
            Wants::Device(..) => unreachable!(),
            Wants::Block | Wants::Done | Wants::Leave | Wants::Tall | Wants::OutOfFuel => {
                Ok(CellChange::Stays)
            }
        }
    }
}
