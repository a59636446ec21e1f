//! The logs of each seat, as a shared memory begins, and one entry of them.

ghost use Rattle.std.specs.Prelude.{◌≡◌, ◌==◌, Bool, IfOk, IsPermutation, map, option_copied, option_and_then, replicate};
ghost use Rattle.std.specs.List.Sorted.{IsNonDecreasingBy};
ghost use Rattle.ame_rows.specs.MemoryView.{no_log, without_room};
ghost use Rattle.ame_rows.specs.Entries.{named_by, places, entry_at};
ghost use Rattle.ame_rows.specs.Committed.{old_value as old_of};

use crate::{Row, Undo};
use ame_term::{Loc, NoMemory};
use std::alloc::Global;

/// Makes empty logs for this many seats.
pub(crate) fn empty_rows<V: Drop>(alloc: Global, seats: u32) -> Result<Vec<Row<V>>, NoMemory>
    ensures { IfOk result (λ rows. map without_room rows.items ≡ replicate seats no_log) }
{
    let mut rows = Vec::new(alloc);
    for _ in 0..seats {
        rows.push(Row::new(alloc))?;
    }
    Ok(rows)
}

/// Returns the location that an entry names.
pub(crate) fn location<V>(undo: &Undo<V>) -> Loc
    ensures { result.0 ≡ named_by undo.now }
{
    match undo {
        Undo::Wrote(l, _, _) => *l,
        Undo::Made(l) => *l,
    }
}

/// Returns the locations that a log names, in its order.
fn locations<V>(alloc: Global, undos: &[Undo<V>]) -> Result<Vec<Loc>, NoMemory>
    ensures { IfOk result (λ locs. map (λ l. l.0) locs.items ≡ places undos.now) }
{
    let mut locs = Vec::new(alloc);
    for undo in undos {
        locs.push(location(undo))?;
    }
    Ok(locs)
}

/// Puts locations into rising order.
fn sort(locs: &mut Vec<Loc>)
    ensures same { IsPermutation locs.old.items locs.new.items }
    ensures rising { IsNonDecreasingBy (λ l. l.0) locs.new.items }
{
    locs.sort_unstable_by_key(|l| l.0);
}

/// Returns the locations that a log names, in rising order.
pub(crate) fn sorted_locations<V>(alloc: Global, undos: &[Undo<V>]) -> Result<Vec<Loc>, NoMemory>
    ensures same { IfOk result (λ locs. IsPermutation (places undos.now) (map (λ l. l.0) locs.items)) }
    ensures rising { IfOk result (λ locs. IsNonDecreasingBy (λ l. l.0) locs.items) }
{
    let mut locs = locations(alloc, undos)?;
    sort(&mut locs);
    Ok(locs)
}

/// Returns the entry of a log that names a location.
pub(crate) fn entry<V>(undos: &[Undo<V>], l: Loc) -> Option<&Undo<V>>
    ensures { option_copied result ≡ entry_at undos.now l.0 }
{
    for undo in undos {
        if location(undo).0 == l.0 {
            return Some(undo);
        }
    }
    None
}

/// Returns the value that undoing the entry of a location puts back.
pub(crate) fn old_value<V>(undos: &[Undo<V>], l: Loc) -> Option<&V>
    ensures { option_copied result ≡ option_and_then old_of (entry_at undos.now l.0) }
{
    match entry(undos, l) {
        Some(Undo::Wrote(_, _, value)) => Some(value),
        Some(Undo::Made(_)) => None,
        None => None,
    }
}
