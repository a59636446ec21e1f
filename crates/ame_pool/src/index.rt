//! The index of members that watch locations: a set of pairs of a location and the number of a member that watches it.

ghost use Rattle.std.specs.Prelude.{◌≡◌, ◌≤◌, ◌==◌, ◌&&◌, ◌||◌, ℕ, true, false, not, cond, IsTrue, IfSome, IfNone, OnOk, OnErr};
ghost use Rattle.ame_pool.specs.Index.{lists, among, IsListedAfter, IsBetween};

use crate::member::is_among;
use ame_term::{Loc, NoMemory};
use std::collections::BTreeSet;

/// Returns the least number that watches a location.
pub fn first(index: &BTreeSet<(u32, u64)>, l: Loc) -> Option<u64>
    ensures some { IfSome result (λ n. IsTrue (lists index.now l.0 n)) }
    ensures least { IfSome result (λ n. (m : ℕ) → IsTrue (lists index.now l.0 m) → n ≤ m) }
    ensures none { IfNone result ((m : ℕ) → lists index.now l.0 m ≡ false) }
{
    match index.range((l.0, 0)..).next() {
        Some(&(k, n)) => { if k == l.0 { Some(n) } else { None } }
        None => None,
    }
}

/// Adds a watcher. A refusal changes nothing.
fn add(index: &mut BTreeSet<(u32, u64)>, l: Loc, number: u64) -> Result<(), NoMemory>
    ensures ok { OnOk result (IsListedAfter number (λ k. cond (l.0 == k) true (lists index.old k number)) index.old index.new) }
    ensures err { OnErr result ((k n : ℕ) → lists index.new k n ≡ lists index.old k n) }
{
    match index.insert((l.0, number)) {
        Ok(_) => Ok(()),
        Err(_) => Err(NoMemory),
    }
}

/// Removes a watcher.
fn drop_one(index: &mut BTreeSet<(u32, u64)>, l: Loc, number: u64)
    ensures { IsListedAfter number (λ k. cond (l.0 == k) false (lists index.old k number)) index.old index.new }
{
    index.remove(&(l.0, number));
}

/// Adds these locations to those that the member with this number watches. Out of memory, it may have added some of them.
pub fn watch(index: &mut BTreeSet<(u32, u64)>, number: u64, locs: &[Loc]) -> Result<(), NoMemory>
    ensures ok { OnOk result (IsListedAfter number (λ k. among k locs.now || lists index.old k number) index.old index.new) }
    ensures err { OnErr result (IsBetween number locs.now index.old index.new) }
{
    for l in locs {
        add(index, *l, number)?;
    }
    Ok(())
}

/// Removes these locations, but for those that are kept, from those that the member with this number watches.
pub fn unwatch(index: &mut BTreeSet<(u32, u64)>, number: u64, gone: &[Loc], kept: &[Loc])
    ensures { IsListedAfter number (λ k. not (among k gone.now && not (among k kept.now)) && lists index.old k number) index.old index.new }
{
    for l in gone {
        if !is_among(kept, *l) {
            drop_one(index, *l, number);
        }
    }
}
