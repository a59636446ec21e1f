//! Values that can be copied although a clone may run out of memory.

ghost use Rattle.std.specs.Prelude.{◌≡◌, IfOk, OnOk, refl};
ghost use Rattle.std.proofs.Common.{sym, ◌∙◌};

use crate::copy::{copy_term, copy_ty, copy_value};
use crate::memory::NoMemory;
use crate::term::{Term, Value};
use crate::types::Ty;
use std::alloc::Global;

/// A value that can be copied. Two values are the same if they stand for equal plain data.
pub trait Copied: Sized {
    ghost same: { Self → Self → Type 0 };

    /// Returns a value that is the same.
    fn copy(&self, alloc: Global) -> Result<Self, NoMemory>
        ensures { IfOk result (λ c. same self.now c) };

    /// Makes this value the same as another, in the memory that it has if it can. After `NoMemory` it may be any value.
    fn copy_from(&mut self, alloc: Global, source: &Self) -> Result<(), NoMemory>
    where
        Self: Drop,
        ensures { OnOk result (same source.now self.new) }
    {
        *self = source.copy(alloc)?;
        Ok(())
    }

    ghost reflexive: { (x : Self) → same x x };

    ghost symmetric: { (x y : Self) → same x y → same y x };

    ghost transitive: { (x y z : Self) → same x y → same y z → same x z };
}

impl Copied for i64 {
    ghost same = { λ x y. x ≡ y };

    ghost reflexive = { λ x. refl };

    ghost symmetric = { λ x y e. sym e };

    ghost transitive = { λ x y z e f. e ∙ f };

    fn copy(&self, _alloc: Global) -> Result<i64, NoMemory> {
        Ok(*self)
    }
}

impl Copied for Ty {
    ghost use Rattle.ame_term.specs.View.{typ_of};

    ghost same = { λ x y. typ_of x ≡ typ_of y };

    ghost reflexive = { λ x. refl };

    ghost symmetric = { λ x y e. sym e };

    ghost transitive = { λ x y z e f. e ∙ f };

    fn copy(&self, alloc: Global) -> Result<Ty, NoMemory> {
        let copy = copy_ty(alloc, self)?;
        Ok(copy)
    }
}

impl Copied for Value {
    ghost use Rattle.ame_term.specs.View.{val_of};

    ghost same = { λ x y. val_of x ≡ val_of y };

    ghost reflexive = { λ x. refl };

    ghost symmetric = { λ x y e. sym e };

    ghost transitive = { λ x y z e f. e ∙ f };

    fn copy(&self, alloc: Global) -> Result<Value, NoMemory> {
        let copy = copy_value(alloc, self)?;
        Ok(copy)
    }
}

impl Copied for Term {
    ghost use Rattle.ame_term.specs.View.{tree_of};

    ghost same = { λ x y. tree_of x ≡ tree_of y };

    ghost reflexive = { λ x. refl };

    ghost symmetric = { λ x y e. sym e };

    ghost transitive = { λ x y z e f. e ∙ f };

    fn copy(&self, alloc: Global) -> Result<Term, NoMemory> {
        let copy = copy_term(alloc, self)?;
        Ok(copy)
    }
}
