//! The entries and tries of a run, for a picture by fragments: only these need be known.

ghost use Rattle.std.specs.Prelude.{◌≡◌, ◌++◌, ◌≤◌, IfOk, OnOk, length};
ghost use Rattle.std.specs.List.{prefix_len};
ghost use Rattle.ame_drawing.specs.Moments as spec;
ghost use Rattle.ame_drawing.specs.Moments.{is_before, ShowAll};

use ame_journal::{Entry, EntryKind};
use ame_protocol::Tried;
use ame_term::NoMemory;
use std::alloc::Global;

/// An entry of a journal, counted from 1: its kind, the seat, the fragment and its steps.
#[derive(Clone, Copy, PartialEq, Eq, Debug)]
pub struct Done {
    pub entry: u64,
    pub kind: EntryKind,
    pub seat: u32,
    pub fragment: u64,
    pub steps: u64,
}

/// An entry, or a try that left none: each has a box of its own.
#[derive(Clone, Copy, PartialEq, Eq, Debug)]
pub enum Moment {
    Entry(Done),
    Try(Tried),
}

impl Moment {
    ghost use Rattle.std.specs.Prelude.{◌≡◌};
    ghost use Rattle.ame_drawing.specs.Courses as courses;

    /// Returns the fragment whose box it is.
    pub fn fragment(&self) -> u64
        ensures { result ≡ courses.fragment_of self.now }
    {
        match self {
            Moment::Entry(done) => done.fragment,
            Moment::Try(lost) => lost.number,
        }
    }

    /// Returns whether it is the entry with this number.
    pub(crate) fn has_number(&self, number: u64) -> bool
        ensures { result ≡ courses.has_number number self.now }
    {
        match self {
            Moment::Entry(done) => done.entry == number,
            Moment::Try(_) => false,
        }
    }
}

/// Returns the entries of a journal in their order, and between them the tries in theirs, none before the entries after which it was valid last.
pub fn moments_of(
    alloc: Global,
    entries: &[Entry],
    tries: &[Tried],
) -> Result<Vec<Moment>, NoMemory>
    ensures told { IfOk result (λ moments. moments.items ≡ spec.moments 1 entries.now tries.now) }
    ensures all { IfOk result (λ moments. ShowAll entries.now tries.now moments.items) }
{
    let moments = collect(alloc, entries, tries)?;
    Ok(moments)
}

/// Collects them.
fn collect(alloc: Global, entries: &[Entry], tries: &[Tried]) -> Result<Vec<Moment>, NoMemory>
    ensures { IfOk result (λ moments. moments.items ≡ spec.moments 1 entries.now tries.now) }
{
    let mut moments = Vec::new(alloc);
    let mut rest = tries;
    for (index, entry) in entries.iter().enumerate() {
        let number = index as u64 + 1;
        let (before, later) = rest.split_at(count_before(rest, number));
        add_tries(&mut moments, before)?;
        moments.push(Moment::Entry(done_of(number, entry)))?;
        rest = later;
    }
    add_tries(&mut moments, rest)?;
    Ok(moments)
}

/// Returns the number of the first tries that were valid before an entry.
fn count_before(tries: &[Tried], number: u64) -> usize
    ensures value { result ≡ prefix_len (is_before number) tries.now }
    ensures within { result ≤ length tries.now }
{
    tries.iter().take_while(|lost| lost.at < number).count()
}

/// Appends tries.
fn add_tries(moments: &mut Vec<Moment>, tries: &[Tried]) -> Result<(), NoMemory>
    ensures { OnOk result (moments.new.items ≡ moments.old.items ++ spec.tries_shown tries.now) }
{
    for lost in tries {
        moments.push(Moment::Try(*lost))?;
    }
    Ok(())
}

/// Returns the entry with this number as it is shown.
fn done_of(number: u64, entry: &Entry) -> Done
    ensures { result ≡ spec.done_of number entry.now }
{
    Done {
        entry: number,
        kind: entry.kind,
        seat: entry.seat,
        fragment: entry.number,
        steps: entry.steps,
    }
}
