//! Changes of the cells by visits.

ghost use Rattle.std.specs.Prelude.{◌≡◌, true, OnOk, OnErr};
ghost use Rattle.ame_engine.specs.Visiting.{changed_by, CanChange, makes_cell};

use ame_rows::Memory;
use ame_term::{Loc, NoMemory, Sort, TyNo};

/// Describes the change that a visit makes to the cells.
#[derive(Drop)]
pub(crate) enum CellChange<V> {
    /// Not at all.
    Stays,
    /// This value is put in place.
    Puts(Loc, V),
    /// A cell is made with this value.
    Makes(Sort, TyNo, V),
}

/// Changes the cells. Takes memory for a new one.
pub(super) fn change_memory<V: Drop>(
    memory: &mut Memory<V>,
    change: CellChange<V>,
) -> Result<(), NoMemory>
    requires { CanChange memory.old change }
    ensures ok { OnOk result (memory.new ≡ changed_by (λ v. v) change memory.old) }
    ensures makes { OnErr result (makes_cell change ≡ true) }
    ensures err { OnErr result (memory.new ≡ memory.old) }
{
    match change {
        CellChange::Stays => Ok(()),
        CellChange::Puts(l, value) => {
            let _ = memory.put(l, value);
            Ok(())
        }
        CellChange::Makes(sort, number, value) => {
            memory.born(sort, number, value)?;
            Ok(())
        }
    }
}
