//! The entries of an engine with what they print.

ghost use Rattle.std.specs.Prelude.{◌≡◌, ◌+◌, ◌≤◌, ◌<◌, ◌∷◌, ◌++◌, [], IfOk, OnOk, None, length, vec_len, vec_capacity};
ghost use Rattle.ame_io.specs.Lines.{lines as lines_told};
ghost use Rattle.ame_journal.specs.JournalView.{IsFit};

use ame_io::lines_of;
use ame_journal::{Entry, EntryKind, Journal};
use ame_machine::Runner;
use ame_term::{Locs, NoMemory};
use std::alloc::Global;

/// The entries that an engine added, its output, and the lines of that output.
#[derive(Drop)]
pub(crate) struct Ledger {
    pub(crate) journal: Journal,
    pub(crate) output: Vec<i64>,
    pub(crate) text: Vec<u8>,
}

/// An entry that is to be appended, with the lines that it prints.
#[derive(Drop)]
pub(crate) struct Draft {
    entry: Entry,
    lines: Vec<u8>,
}

/// Returns an entry of this kind for a member whose machine a seat runs. The entry has no answer.
pub(super) fn entry_of<M: Runner>(
    alloc: Global,
    kind: EntryKind,
    seat: u32,
    number: u64,
    at: &M,
) -> Result<Entry, NoMemory>
    ensures { (code : M.Code) → IfOk result (λ entry. entry ≡ record {
      kind = kind;
      seat = seat;
      number = number;
      steps = (M.meaning.stage code at.now).steps;
      fresh = (M.meaning.stage code at.now).fresh;
      answer = None;
    }) }
{
    let mut fresh = Vec::new(alloc);
    fresh.extend_from_slice(at.fresh())?;
    Ok(Entry {
        kind,
        seat,
        number,
        steps: at.steps(),
        fresh: Locs::from_vec(fresh),
        answer: None,
    })
}

/// Appends to a list that has room. Mostly nothing is to be appended.
fn extend<T: Copy>(list: &mut Vec<T>, more: &[T])
    requires { vec_len list.old + length more.now ≤ vec_capacity list.old }
    ensures { list.new.items ≡ list.old.items ++ more.now }
{
    if !more.is_empty() {
        let _ = list.extend_from_slice(more);
    }
}

impl Ledger {
    /// Returns an empty ledger, without memory.
    pub(super) fn new(alloc: Global) -> Ledger
        ensures journal { result.journal.entries ≡ [] }
        ensures output { result.output.items ≡ [] }
        ensures text { result.text.items ≡ [] }
    {
        Ledger {
            journal: Journal::new(alloc),
            output: Vec::new(alloc),
            text: Vec::new(alloc),
        }
    }

    /// Returns the entry of a machine with the lines of its prints, and makes room for both. Nothing is appended yet.
    pub(super) fn draft<M: Runner>(
        &mut self,
        kind: EntryKind,
        seat: u32,
        number: u64,
        at: &M,
    ) -> Result<Draft, NoMemory>
        ensures entry { (code : M.Code) → IfOk result (λ draft. draft.entry ≡ record {
          kind = kind;
          seat = seat;
          number = number;
          steps = (M.meaning.stage code at.now).steps;
          fresh = (M.meaning.stage code at.now).fresh;
          answer = None;
        }) }
        ensures lines { (code : M.Code) → IfOk result (λ draft. draft.lines.items ≡ lines_told (M.meaning.stage code at.now).prints) }
        ensures journal { self.new.journal.entries ≡ self.old.journal.entries }
        ensures output { self.new.output.items ≡ self.old.output.items }
        ensures text { self.new.text.items ≡ self.old.text.items }
        ensures for_entry { OnOk result (0 < self.new.journal.room) }
        ensures for_prints { (code : M.Code) → OnOk result
            (vec_len self.new.output + length (M.meaning.stage code at.now).prints ≤ vec_capacity self.new.output) }
        ensures for_lines { IfOk result (λ draft. vec_len self.new.text + vec_len draft.lines ≤ vec_capacity self.new.text) }
    {
        let alloc = *self.output.allocator();
        let entry = entry_of(alloc, kind, seat, number, at)?;
        let lines = lines_of(alloc, at.prints())?;
        self.output.reserve(at.prints().len())?;
        self.text.reserve(lines.len())?;
        self.journal.room()?;
        Ok(Draft { entry, lines })
    }

    /// Appends an entry and what it prints, in the room that `draft` made. Takes no memory.
    pub(super) fn append(&mut self, draft: Draft, prints: &[i64])
        requires for_entry { 0 < self.old.journal.room }
        requires for_prints { vec_len self.old.output + length prints.now ≤ vec_capacity self.old.output }
        requires for_lines { vec_len self.old.text + vec_len draft.lines ≤ vec_capacity self.old.text }
        requires fit { IsFit draft.entry }
        ensures journal { self.new.journal.entries ≡ self.old.journal.entries ++ draft.entry ∷ [] }
        ensures output { self.new.output.items ≡ self.old.output.items ++ prints.now }
        ensures text { self.new.text.items ≡ self.old.text.items ++ draft.lines.items }
    {
        let Draft { entry, lines } = draft;
        extend(&mut self.output, prints);
        extend(&mut self.text, lines.as_slice());
        self.journal.push(entry);
    }
}
