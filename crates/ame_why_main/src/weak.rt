//! The order in which a weak run was made.

ghost use Rattle.std.specs.Prelude.{◌≤◌, length};
ghost use Rattle.ame_lex.specs.Bytes.{max_text};

use crate::views::program_of;
use ame_app::WeakEnd;
use ame_labels::{entry_numbers, weak_order_of};
use ame_term::NoMemory;
use std::alloc::Global;

/// The most labels that are shown.
const MOST_LABELS: usize = 10_000;

/// The last line of a run with more labels.
const TOO_MANY: &[u8] = b"further labels aren't shown: there are more than 10,000\n";

/// Returns the labels of a weak run, and then a line before the table of its journal.
pub fn order_text(alloc: Global, text: &[u8], weak: &WeakEnd) -> Result<Vec<u8>, NoMemory>
    requires small { length text.now ≤ max_text }
{
    let program = program_of(alloc, text)?;
    let count = weak.labels.len().min(MOST_LABELS);
    let numbers = entry_numbers(alloc, &weak.labels, &weak.tries)?;
    let rows = weak_order_of(alloc, program, &weak.labels[..count], numbers, &weak.tries)?;
    let mut page = Vec::from_slice(alloc, b"as it was run:\n")?;
    page.extend_from_slice(&rows.unwrap_or(Vec::new(alloc)))?;
    if count < weak.labels.len() {
        page.extend_from_slice(TOO_MANY)?;
    }
    page.extend_from_slice(b"\nas it is told:\n")?;
    Ok(page)
}
