//! The picks that made the entries of a journal.

ghost use Rattle.std.specs.Prelude.{◌≡◌, ◌↔◌, ◌<◌, ◌^◌, IfOk, IsTrue, length, map};
ghost use Rattle.ame_drawing.specs.Stamps as spec;
ghost use Rattle.ame_drawing.specs.Stamps.{made_by_stamp, made_by_entry};

use crate::pick::DrawnPick;
use ame_journal::{Entry, EntryKind};
use ame_term::NoMemory;
use std::alloc::Global;

/// An entry of a journal, and the number of the pick that made it.
#[derive(Clone, Copy, PartialEq, Eq, Debug)]
pub struct Stamp {
    pub kind: EntryKind,
    pub seat: u32,
    pub member: u64,
    pub pick: u32,
}

/// Returns a stamp for each pick that made an entry, in order.
pub fn stamps_of(alloc: Global, picks: &[DrawnPick]) -> Result<Vec<Stamp>, NoMemory>
    requires { length picks.now < 2 ^ 32 }
    ensures { IfOk result (λ stamps. stamps.items ≡ spec.stamps 0 picks.now) }
{
    let mut stamps = Vec::new(alloc);
    for (index, pick) in picks.iter().enumerate() {
        if let Some(kind) = pick.did.kind_made() {
            stamps.push(Stamp {
                kind,
                seat: pick.seat,
                member: pick.member,
                pick: index as u32,
            })?;
        }
    }
    Ok(stamps)
}

/// Returns whether the stamps are those of these entries, one for one: of the same kind, seat and member.
pub fn are_of(stamps: &[Stamp], entries: &[Entry]) -> bool
    ensures { IsTrue result ↔ (map made_by_stamp stamps.now ≡ map made_by_entry entries.now) }
{
    if stamps.len() != entries.len() {
        return false;
    }
    for (index, stamp) in stamps.iter().enumerate() {
        if !is_of(stamp, &entries[index]) {
            return false;
        }
    }
    true
}

/// Returns whether a stamp is that of an entry.
fn is_of(stamp: &Stamp, entry: &Entry) -> bool
    ensures { IsTrue result ↔ (made_by_stamp stamp.now ≡ made_by_entry entry.now) }
{
    stamp.kind == entry.kind && stamp.seat == entry.seat && stamp.member == entry.number
}
