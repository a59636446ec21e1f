//! The certificates that all members are blocked: one certificate a member, in order of their numbers.

ghost use Rattle.std.specs.Prelude.{◌≡◌, ◌<◌, ◌++◌, ◌&&◌, ℕ, nat_lt, All, Some, None, IfOk, OnOk, OnErr, length, map, replicate, slice_get, slice_set, slice_index_or, option_and_then, option_copied, if◌then◌else◌};
ghost use Rattle.ame_journal.specs.Replay.{or_else};
ghost use Rattle.ame_pool.specs.declared.oldest.Oldest.{Oldest};
ghost use Rattle.ame_pool.specs.Begin.{oldest as oldest_of};
ghost use Rattle.ame_protocol.specs.Waits.Waiting.{is_stuck as is_stuck_kind, last_stuck};
ghost use Rattle.ame_protocol.specs.Event.Causes.{certificate_of as certificate_told, certificates_of as certificates_told, certificates_in};
ghost use Rattle.ame_engine.specs.Certifying.{certified_by};
ghost use Rattle.ame_engine.specs.Seen.{parts_of};
ghost use Rattle.ame_engine.specs.Stops.{blocked_by};

use super::Engine;
use ame_journal::{Certificate, Entry, EntryKind};
use ame_machine::Runner;
use ame_protocol::Stop;
use ame_term::{Locs, NoMemory};
use std::alloc::Global;

/// Returns whether entries of a kind note that a member came to a condition that is false.
fn is_stuck(kind: EntryKind) -> bool
    ensures { result ≡ is_stuck_kind kind }
{
    match kind {
        EntryKind::Stuck => true,
        EntryKind::Ran | EntryKind::Free | EntryKind::Cut | EntryKind::Tall => false,
    }
}

/// Returns this number of empty places.
fn no_places(alloc: Global, count: u64) -> Result<Vec<Option<usize>>, NoMemory>
    ensures { IfOk result (λ places. places.items ≡ replicate count None) }
{
    let mut places = Vec::new(alloc);
    for _ in 0..count {
        places.push(None)?;
    }
    Ok(places)
}

/// Marks an entry that is such a note as the last one of its member, if the member's number has a place.
fn mark(places: &mut Vec<Option<usize>>, i: usize, entry: &Entry)
    ensures { places.new.items ≡ (if is_stuck_kind entry.now.kind && nat_lt entry.now.number (length places.old.items)
        then slice_set places.old.items entry.now.number (Some i) else places.old.items) }
{
    if is_stuck(entry.kind) && entry.number < places.len() as u64 {
        places[entry.number as usize] = Some(i);
    }
}

/// Returns the place of the last such note of each member, by the member's number, for this number of members.
fn note_places(alloc: Global, count: u64, entries: &[Entry]) -> Result<Vec<Option<usize>>, NoMemory>
    ensures count { IfOk result (λ places. length places.items ≡ count) }
    ensures told { IfOk result (λ places. (number : ℕ) → number < count
        → option_and_then (λ i. slice_get entries.now i) (slice_index_or places.items number None) ≡ last_stuck number entries.now) }
{
    let mut places = no_places(alloc, count)?;
    for (i, entry) in entries.iter().enumerate() {
        mark(&mut places, i, entry);
    }
    Ok(places)
}

/// Returns the last such note of a member, by the places of the notes.
fn last_note<'a>(number: u64, places: &[Option<usize>], entries: &'a [Entry]) -> Option<&'a Entry>
    requires number { number < length places.now }
    requires told { option_and_then (λ i. slice_get entries.now i) (slice_index_or places.now number None) ≡ last_stuck number entries.now }
    ensures { option_copied result ≡ last_stuck number entries.now }
{
    match places[number as usize] {
        Some(i) => entries.get(i),
        None => None,
    }
}

/// Returns the later of two notes, if any.
fn later_note<'a>(later: Option<&'a Entry>, earlier: Option<&'a Entry>) -> Option<&'a Entry>
    ensures { option_copied result ≡ or_else (option_copied later.entry) (option_copied earlier.entry) }
{
    match later {
        Some(note) => Some(note),
        None => earlier,
    }
}

/// Returns the last such note of a member in a base and a journal.
fn last_note_of<'a>(
    number: u64,
    in_base: &[Option<usize>],
    base: &'a [Entry],
    places: &[Option<usize>],
    entries: &'a [Entry],
) -> Option<&'a Entry>
    requires base { number < length in_base.now }
    requires entries { number < length places.now }
    requires in_base { option_and_then (λ i. slice_get base.now i) (slice_index_or in_base.now number None) ≡ last_stuck number base.now }
    requires in_entries { option_and_then (λ i. slice_get entries.now i) (slice_index_or places.now number None) ≡ last_stuck number entries.now }
    ensures { option_copied result ≡ last_stuck number (base.now ++ entries.now) }
{
    later_note(
        last_note(number, places, entries),
        last_note(number, in_base, base),
    )
}

/// Returns a note as a certificate.
fn certificate_of(alloc: Global, number: u64, note: &Entry) -> Result<Certificate, NoMemory>
    ensures { IfOk result (λ certificate. certificate ≡ certificate_told number note.now) }
{
    let mut fresh = Vec::new(alloc);
    fresh.extend_from_slice(note.fresh.as_slice())?;
    Ok(Certificate {
        number,
        steps: note.steps,
        fresh: Locs::from_vec(fresh),
    })
}

/// Adds a certificate if a note was found.
fn add(
    certificates: &mut Vec<Certificate>,
    alloc: Global,
    number: u64,
    found: Option<&Entry>,
) -> Result<(), NoMemory>
    ensures { OnOk result (certificates.new.items ≡ certificates.old.items ++ certified_by number (option_copied found.entry)) }
{
    if let Some(note) = found {
        certificates.push(certificate_of(alloc, number, note)?)?;
    }
    Ok(())
}

/// Returns the last notes, in a base and a journal, of members with these numbers. Each number is below the count.
fn certificates_of(
    alloc: Global,
    count: u64,
    numbers: &[u64],
    base: &[Entry],
    entries: &[Entry],
) -> Result<Vec<Certificate>, NoMemory>
    requires { All (λ number. number < count) numbers.now }
    ensures { IfOk result (λ certificates. certificates.items ≡ certificates_told (base.now ++ entries.now) numbers.now) }
{
    let in_base = note_places(alloc, count, base)?;
    let in_entries = note_places(alloc, count, entries)?;
    let mut certificates = Vec::new(alloc);
    for number in numbers {
        let found = last_note_of(
            *number,
            in_base.as_slice(),
            base,
            in_entries.as_slice(),
            entries,
        );
        add(&mut certificates, alloc, *number, found)?;
    }
    Ok(certificates)
}

impl<M: Runner> Engine<M>
where
    M::Code: Drop,
{
    /// Returns the numbers of the members, which rise.
    fn numbers(&self) -> Result<Vec<u64>, NoMemory>
        ensures numbers { IfOk result (λ numbers. numbers.items ≡ map (λ m. m.number) self.now.pool.members) }
        ensures below { IfOk result (λ numbers. All (λ number. number < self.now.next) numbers.items) }
    {
        let mut numbers = Vec::new(*self.tasks.allocator());
        for number in 0..self.next {
            if self.pool.inside(number).is_some() {
                numbers.push(number)?;
            }
        }
        Ok(numbers)
    }

    /// Keeps the stop that all members are parked, with the certificates. Takes memory.
    pub(super) fn keep_blocked(&mut self) -> Result<(), NoMemory>
        requires going { self.old.stop ≡ None }
        requires parked { oldest_of self.old.pool ≡ Oldest.Parked }
        ensures ok { OnOk result (self.new ≡ blocked_by
            (certificates_in (parts_of M.meaning self.old)) self.old) }
        ensures err { OnErr result (self.new ≡ self.old) }
    {
        let alloc = *self.tasks.allocator();
        let numbers = self.numbers()?;
        let certificates = certificates_of(
            alloc,
            self.next,
            numbers.as_slice(),
            self.base.entries(),
            self.ledger.journal.entries(),
        )?;
        self.stop = Some(Stop::Blocked);
        self.certificates = certificates;
        Ok(())
    }
}
