//! The kind of each entry's next one.

ghost use Rattle.std.specs.Prelude.{◌≡◌, IfOk};
ghost use Rattle.std.specs.Ordering.{nat_cmp};
ghost use Rattle.std.specs.BTreeMap.{get};
ghost use Rattle.ame_views.specs.Nexts as spec;

use ame_journal::{Entry, EntryKind};
use ame_term::NoMemory;
use std::alloc::Global;
use std::collections::BTreeMap;

/// Returns for each entry the kind of its member's next one.
pub(crate) fn nexts_of(alloc: Global, entries: &[Entry]) -> Result<Vec<Option<EntryKind>>, NoMemory>
    ensures { IfOk result (λ nexts. nexts.items ≡ spec.nexts entries.now) }
{
    let mut seen: BTreeMap<u64, EntryKind> = BTreeMap::new(alloc);
    let mut nexts = Vec::new(alloc);
    let mut left = entries.len();
    while left > 0 {
        left -= 1;
        let entry = &entries[left];
        let next = seen.insert(entry.number, entry.kind)?;
        nexts.push(next)?;
    }
    nexts.reverse();
    Ok(nexts)
}
