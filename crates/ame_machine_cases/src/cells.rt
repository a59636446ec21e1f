//! The values that a machine that runs alone has set.

ghost use Rattle.std.specs.Prelude.{IfOk, IfSome};
ghost use Rattle.ame_machine_cases.specs.Cells.{IsHeldAt};

use ame_term::{Loc, NoMemory};
use ame_value::Val;

/// A value that was set at a location.
#[derive(Drop)]
pub struct Cell {
    pub at: Loc,
    pub value: Val,
}

/// Copies the value that was set last at a location.
pub(crate) fn held(cells: &[Cell], l: Loc) -> Result<Option<Val>, NoMemory>
    ensures { IfOk result (λ found. IfSome found (λ v. IsHeldAt cells.now l.0 v)) }
{
    let mut n = cells.len();
    while n > 0 {
        n -= 1;
        let cell = &cells[n];
        if cell.at.0 == l.0 {
            let value = cell.value.share()?;
            return Ok(Some(value));
        }
    }
    Ok(None)
}
