//! The store to which a journal leads.

ghost use Rattle.std.specs.Prelude.{◌≡◌, Some, IfOk};
ghost use Rattle.ame_engine.specs.Resuming.{AreCellsOf, IsCellOf};
ghost use Rattle.ame_app.specs.Jobs.{are_alike};

use ame_check::Stored;
use ame_store::{Cell, Store};
use ame_term::{Copied, NoMemory};
use ame_value::Val;
use std::alloc::Global;
use std::collections::BTreeMap;

/// The most cells of a store, which are as many as those of an engine that goes on from a journal.
const MOST_CELLS: u32 = 4_000_000;

/// Returns the cell for what a replay has at a location, or else a dead copy of its first one.
fn cell_for(
    alloc: Global,
    first: &Stored<Val>,
    stored: Option<Stored<Val>>,
) -> Result<Cell<Val>, NoMemory>
    ensures { IfOk result (IsCellOf are_alike (Some first.now) stored) }
{
    let live = stored.is_some();
    let Stored {
        sort,
        number,
        value,
    } = match stored {
        Some(stored) => stored,
        None => Stored {
            sort: first.sort,
            number: first.number,
            value: first.value.copy(alloc)?,
        },
    };
    Ok(Cell {
        sort,
        ty: number,
        value,
        number: 0,
        owner: None,
        live,
    })
}

/// Returns the cells of a replay by location, up to its greatest one. A location without a cell has a dead copy of the first one. A location that
/// is too far for a store is answered as out of memory.
fn cells_of(
    alloc: Global,
    mut stored: BTreeMap<u32, Stored<Val>>,
) -> Result<Vec<Cell<Val>>, NoMemory>
    ensures { IfOk result (λ cells. AreCellsOf are_alike stored.entries cells.items) }
{
    let mut cells = Vec::new(alloc);
    let Some((last, _)) = stored.last_key_value() else {
        return Ok(cells);
    };
    if *last >= MOST_CELLS {
        return Err(NoMemory);
    }
    let end = *last + 1;
    let Some((_, first)) = stored.first_key_value() else {
        return Ok(cells);
    };
    let first = Stored {
        sort: first.sort,
        number: first.number,
        value: first.value.copy(alloc)?,
    };
    for l in 0..end {
        let cell = cell_for(alloc, &first, stored.remove(&l))?;
        cells.push(cell)?;
    }
    Ok(cells)
}

/// Returns the store of a replay.
pub(crate) fn store_of(
    alloc: Global,
    stored: BTreeMap<u32, Stored<Val>>,
) -> Result<Store<Val>, NoMemory>
    ensures { IfOk result (AreCellsOf are_alike stored.entries) }
{
    Ok(Store::from_cells(cells_of(alloc, stored)?))
}
