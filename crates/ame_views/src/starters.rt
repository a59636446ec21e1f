//! The entry and the form that started each task.

ghost use Rattle.std.specs.Prelude.{◌≡◌, List, IfOk, length, map};
ghost use Rattle.ame_journal.specs.declared.entry.Entry.{Entry};
ghost use Rattle.ame_code.specs.Code.{program_of};
ghost use Rattle.ame_code.specs.ReadNumbers as numbering;
ghost use Rattle.ame_views.specs.Begun.{TellsBegun, TellsAllBegun, TellsForms};
ghost use Rattle.ame_views.specs.Starters as spec;

use crate::begun::{Led, started_position};
use crate::line_index::LineIndex;
use ame_code::Code;
use ame_journal::Entry;
use ame_term::{NoMemory, push};
use ame_why::Position;
use std::alloc::Global;

/// The entry that started a fragment, counted from 1, and the line and the column of the `async` form, if that is known.
#[derive(Clone, Copy, PartialEq, Eq, Debug)]
pub struct Starter {
    pub entry: u64,
    pub form: Option<Position>,
}

/// Returns the entries that started fragments, with their forms.
pub(crate) fn with_forms(
    alloc: Global,
    lines: &LineIndex,
    code: &Code,
    numbers: &[u32],
    led: &Led,
) -> Result<Vec<Starter>, NoMemory>
    requires { numbers.now ≡ numbering.read_numbers 0 (program_of code.now) }
    ensures entries { IfOk result (λ starters. map (λ s. s.entry) starters.items ≡ led.now.starters.items) }
    ensures forms { IfOk result (λ starters. (entries : List Entry) → TellsBegun code.now entries led.now.begun.entries
        → TellsAllBegun code.now entries (length led.now.starters.items) led.now.begun.entries → TellsForms lines.now.text.now code.now entries starters.items) }
{
    let mut starters = Vec::new(alloc);
    for (index, entry) in led.starters.iter().enumerate() {
        let form = started_position(lines, code, numbers, &led.begun, index as u64 + 1);
        push(
            &mut starters,
            Starter {
                entry: *entry,
                form,
            },
        )?;
    }
    Ok(starters)
}

/// Returns what started a task, if it is known.
pub(crate) fn starter_in(starters: &[Starter], fragment: u64) -> Option<Starter>
    ensures { result ≡ spec.starter_in starters.now fragment }
{
    if fragment == 0 {
        return None;
    }
    let index = fragment - 1;
    if index < starters.len() as u64 {
        Some(starters[index as usize])
    } else {
        None
    }
}
