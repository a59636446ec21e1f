//! The entries of a journal, as attempts show them.

ghost use Rattle.std.specs.Prelude.{◌≡◌, ◌+◌, ◌++◌, ◌↔◌, IfOk, IsTrue, OnOk, length};
ghost use Rattle.std.specs.List.{flat_map};
ghost use Rattle.ame_drawing.specs.Claims as spec;

use crate::lane::DrawnAttempt;
use ame_journal::{Entry, EntryKind};
use ame_term::NoMemory;
use std::alloc::Global;

/// An entry as it is shown: its number, counted from 1, its kind, and the seat and the member that made it.
#[derive(Clone, Copy, PartialEq, Eq, Debug)]
pub struct Claim {
    pub number: u64,
    pub kind: EntryKind,
    pub seat: u32,
    pub member: u64,
}

/// Returns whether attempts show these entries one for one, seat by seat.
pub(crate) fn tell_entries(
    alloc: Global,
    seats: u32,
    entries: &[Entry],
    attempts: &[DrawnAttempt],
) -> Result<bool, NoMemory>
    ensures { IfOk result (λ are. IsTrue are ↔ spec.TellEntries seats entries.now attempts.now) }
{
    let told = claims_in(alloc, attempts)?;
    let made = claims_below(alloc, seats, entries)?;
    Ok(told.len() == entries.len() && are_same(&told, &made))
}

/// Returns whether these are the same.
fn are_same(told: &[Claim], made: &[Claim]) -> bool
    ensures { IsTrue result ↔ (told.now ≡ made.now) }
{
    if told.len() != made.len() {
        return false;
    }
    for (index, claim) in told.iter().enumerate() {
        if !is_claim(claim, &made[index]) {
            return false;
        }
    }
    true
}

/// Returns whether this is the same as another.
fn is_claim(claim: &Claim, other: &Claim) -> bool
    ensures { IsTrue result ↔ (claim.now ≡ other.now) }
{
    claim.number == other.number
        && claim.kind == other.kind
        && claim.seat == other.seat
        && claim.member == other.member
}

/// Returns the entries that attempts show.
fn claims_in(alloc: Global, attempts: &[DrawnAttempt]) -> Result<Vec<Claim>, NoMemory>
    ensures { IfOk result (λ claims. claims.items ≡ flat_map spec.claim_in attempts.now) }
{
    let mut claims = Vec::new(alloc);
    for attempt in attempts {
        if let Some(entry) = attempt.entry {
            claims.push(Claim {
                number: entry.number,
                kind: entry.kind,
                seat: attempt.seat,
                member: attempt.member,
            })?;
        }
    }
    Ok(claims)
}

/// Returns the entries as they are to be shown, seat by seat.
fn claims_below(alloc: Global, seats: u32, entries: &[Entry]) -> Result<Vec<Claim>, NoMemory>
    ensures { IfOk result (λ claims. claims.items ≡ spec.claims_below seats entries.now) }
{
    let mut claims = Vec::new(alloc);
    for seat in 0..seats {
        add_claims_on(&mut claims, seat, entries)?;
    }
    Ok(claims)
}

/// Appends the entries of a seat as they are to be shown.
fn add_claims_on(claims: &mut Vec<Claim>, seat: u32, entries: &[Entry]) -> Result<(), NoMemory>
    ensures { OnOk result (claims.new.items ≡ claims.old.items ++ spec.claims_on seat 1 entries.now) }
{
    for (index, entry) in entries.iter().enumerate() {
        if entry.seat == seat {
            claims.push(claim_of(index as u64 + 1, entry))?;
        }
    }
    Ok(())
}

/// Returns the entry with this number as it is to be shown.
fn claim_of(number: u64, entry: &Entry) -> Claim
    ensures { result ≡ spec.claim_of number entry.now }
{
    Claim {
        number,
        kind: entry.kind,
        seat: entry.seat,
        member: entry.number,
    }
}
