//! The cells of an engine that goes on from a base.

ghost use Rattle.std.specs.Prelude.{◌≡◌, ◌<◌, ℕ, Some, None, IfOk, length};
ghost use Rattle.ame_term.specs.Maps.{at};
ghost use Rattle.ame_store.specs.Changes.{made};
ghost use Rattle.ame_check.specs.declared.stored.Stored.{Stored};
ghost use Rattle.ame_engine.specs.Resuming.{AreCellsOf, IsCellOf};

use ame_check::Stored;
use ame_store::Cell;
use ame_term::{Copied, NoMemory};
use std::alloc::Global;
use std::collections::BTreeMap;

/// The most cells with which an engine goes on.
pub(super) const MOST_CELLS: u32 = 4_000_000;

/// Returns the cell for the content of a location in a replay. If the replay has no such location, it is a dead copy of the first cell.
fn cell_for<V: Copied + Drop>(
    alloc: Global,
    first: &Stored<V>,
    stored: Option<Stored<V>>,
) -> Result<Cell<V>, NoMemory>
    ensures { IfOk result (IsCellOf V.same (Some first.now) stored) }
{
    let live = stored.is_some();
    let Stored {
        sort,
        number,
        value,
    } = match stored {
        Some(stored) => stored,
        None => Stored {
            sort: first.sort,
            number: first.number,
            value: first.value.copy(alloc)?,
        },
    };
    Ok(Cell {
        sort,
        ty: number,
        value,
        number: 0,
        owner: None,
        live,
    })
}

/// Returns the cells of a replay by location, up to its greatest one. Each location that the replay hasn't gets a dead copy of the first
/// cell. Is out of memory also if the greatest location is 4,000,000 or more.
pub fn cells_of<V: Copied + Drop>(
    alloc: Global,
    mut stored: BTreeMap<u32, Stored<V>>,
) -> Result<Vec<Cell<V>>, NoMemory>
    ensures { IfOk result (λ cells. AreCellsOf V.same stored.entries cells.items) }
{
    let mut cells = Vec::new(alloc);
    let Some((last, _)) = stored.last_key_value() else {
        return Ok(cells);
    };
    if *last >= MOST_CELLS {
        return Err(NoMemory);
    }
    let end = *last + 1;
    let Some((_, first)) = stored.first_key_value() else {
        return Ok(cells);
    };
    let first = Stored {
        sort: first.sort,
        number: first.number,
        value: first.value.copy(alloc)?,
    };
    for l in 0..end {
        let cell = cell_for(alloc, &first, stored.remove(&l))?;
        cells.push(cell)?;
    }
    Ok(cells)
}
