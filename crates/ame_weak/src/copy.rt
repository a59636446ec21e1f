//! Copies of a weak state.

ghost use Rattle.std.specs.Prelude.{◌≡◌, IfOk, refl};
ghost use Rattle.std.proofs.Common.{sym, ◌∙◌};

use crate::state::WeakState;
use ame_term::{Copied, NoMemory, copy_parts};
use std::alloc::Global;

impl Copied for WeakState {
    ghost use Rattle.ame_weak.specs.View.{weak_of};

    ghost same = { λ x y. weak_of x ≡ weak_of y };

    ghost reflexive = { λ x. refl };

    ghost symmetric = { λ x y e. sym e };

    ghost transitive = { λ x y z e f. e ∙ f };

    fn copy(&self, alloc: Global) -> Result<WeakState, NoMemory> {
        let prints = Vec::from_slice(alloc, self.prints.as_slice())?;
        Ok(WeakState {
            strong: self.strong.copy(alloc)?,
            prints,
            spawns: copy_parts(alloc, self.spawns.as_slice())?,
        })
    }
}
