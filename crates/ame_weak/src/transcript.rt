//! The journal of the labels so far.

ghost use Rattle.std.specs.Prelude.{◌≡◌, ◌+◌, ◌<◌, ◌^◌, [], ◌∷◌, map, OnOk, IfOk};
ghost use Rattle.ame_journal.specs.JournalView.{IsFit};
ghost use Rattle.ame_journal.specs.Labels.{fresh_of};
ghost use Rattle.ame_term.specs.Act.{device_answer};
ghost use Rattle.ame_term.specs.declared.semantics.Label.{Label};
ghost use Rattle.ame_weak.specs.Straight.{outset, ran, freed};
ghost use Rattle.ame_weak.specs.Tries.{note_for, noted_tries, tries_behind};
ghost use Rattle.ame_weak.specs.Straightened.{KeepsPlace, Writes, Arrives, AddsEntries};

use crate::tries::Try;
use ame_journal::{Entry, EntryKind, Journal};
use ame_term::{Label, Loc, Locs, NoMemory, StepKind, push};
use std::alloc::Global;
use std::collections::BTreeSet;

/// The journal of the labels so far, and the point that they have reached: the members inside `unprotected`, and
/// the member, the steps and the new locations of the active fragment.
#[derive(Drop)]
pub(crate) struct Transcript {
    pub(crate) journal: Journal,
    pub(crate) inside: BTreeSet<u64>,
    pub(crate) number: u64,
    pub(crate) steps: u64,
    pub(crate) fresh: Vec<Loc>,
}

impl Transcript {
    /// Makes the transcript before the first label.
    pub(crate) fn new(alloc: Global) -> Transcript
        ensures stands { KeepsPlace outset result }
        ensures empty { result.journal.entries ≡ [] }
    {
        Transcript {
            journal: Journal::new(alloc),
            inside: BTreeSet::new(alloc),
            number: 0,
            steps: 0,
            fresh: Vec::new(alloc),
        }
    }

    /// Adds an entry.
    fn add(&mut self, entry: Entry) -> Result<(), NoMemory>
        requires { IsFit entry }
        ensures { OnOk result (AddsEntries (entry ∷ []) self.old self.new) }
    {
        self.journal.room()?;
        self.journal.push(entry);
        Ok(())
    }

    /// Adds the note of an attempt.
    fn note(&mut self, alloc: Global, t: &Try) -> Result<(), NoMemory>
        ensures { OnOk result (AddsEntries (note_for t.now ∷ []) self.old self.new) }
    {
        let fresh = Vec::from_slice(alloc, t.certificate.fresh.as_slice())?;
        self.add(Entry {
            kind: if t.failing {
                EntryKind::Stuck
            } else {
                EntryKind::Cut
            },
            seat: 0,
            number: t.certificate.number,
            steps: t.certificate.steps,
            fresh: Locs::from_vec(fresh),
            answer: None,
        })
    }

    /// Adds the notes of the attempts that were made after n labels. Returns the later attempts.
    pub(crate) fn note_all<'a>(
        &mut self,
        alloc: Global,
        tries: &'a [Try],
        n: u64,
    ) -> Result<&'a [Try], NoMemory>
        ensures notes { OnOk result (AddsEntries (noted_tries n tries.now) self.old self.new) }
        ensures later { IfOk result (λ rest. rest.now ≡ tries_behind n tries.now) }
    {
        let mut rest = tries;
        while let Some((t, others)) = rest.split_first() {
            if t.after != n {
                break;
            }
            self.note(alloc, t)?;
            rest = others;
        }
        Ok(rest)
    }

    /// Adds the entries of a label. Costs the logarithm of the members inside, and for a `Leave` or `End` the
    /// locations that the fragment made.
    pub(crate) fn write(&mut self, alloc: Global, label: Label) -> Result<(), NoMemory>
        requires { self.old.steps + 1 < 2 ^ 64 }
        ensures { OnOk result (Writes label self.old self.new) }
    {
        match label {
            Label::Activate(number) => {
                self.begin(number);
                Ok(())
            }
            Label::Step(kind) => self.step(kind),
            Label::Leave => self.leave(alloc),
            Label::End => self.ran(alloc),
            Label::Free(number, kind) => self.free(alloc, number, kind),
            Label::Close(number) => self.close(alloc, number),
        }
    }

    /// Begins a fragment of a member, without an entry.
    fn begin(&mut self, number: u64)
        ensures { Writes (Label.Activate number) self.old self.new }
    {
        self.number = number;
        self.steps = 0;
        self.fresh.clear();
    }

    /// Counts a step of the active fragment, and keeps its new location.
    fn step(&mut self, kind: StepKind) -> Result<(), NoMemory>
        requires { self.old.steps + 1 < 2 ^ 64 }
        ensures { OnOk result (Writes (Label.Step kind) self.old self.new) }
    {
        if let StepKind::Alloc(l) = kind {
            push(&mut self.fresh, l)?;
        }
        self.steps += 1;
        Ok(())
    }

    /// Adds the fragment's entry. Its member is inside from then on.
    fn leave(&mut self, alloc: Global) -> Result<(), NoMemory>
        ensures { OnOk result (Writes Label.Leave self.old self.new) }
    {
        self.ran(alloc)?;
        self.inside.insert(self.number)?;
        Ok(())
    }

    /// Adds the fragment's entry.
    fn ran(&mut self, alloc: Global) -> Result<(), NoMemory>
        ensures { OnOk result (Writes Label.End self.old self.new) }
    {
        let fresh = Vec::from_slice(alloc, self.fresh.as_slice())?;
        let entry = ran(self.number, self.steps, fresh);
        self.add(entry)
    }

    /// Adds the entry of a step under `unprotected`, after the member has entered.
    fn free(&mut self, alloc: Global, number: u64, kind: StepKind) -> Result<(), NoMemory>
        ensures { OnOk result (Writes (Label.Free number kind) self.old self.new) }
    {
        self.arrive(alloc, number)?;
        self.add(freed(number, fresh_of(alloc, kind)?, answer_of(kind)))
    }

    /// Adds the entry by which a member closes, after it has entered.
    fn close(&mut self, alloc: Global, number: u64) -> Result<(), NoMemory>
        ensures { OnOk result (Writes (Label.Close number) self.old self.new) }
    {
        self.arrive(alloc, number)?;
        self.add(freed(number, Vec::new(alloc), None))?;
        self.inside.remove(&number);
        Ok(())
    }

    /// Adds the entry by which a member enters, if it isn't inside.
    fn arrive(&mut self, alloc: Global, number: u64) -> Result<(), NoMemory>
        ensures { OnOk result (Arrives number self.old self.new) }
    {
        if self.inside.contains(&number) {
            return Ok(());
        }
        self.add(ran(number, 0, Vec::new(alloc)))?;
        self.inside.insert(number)?;
        Ok(())
    }
}

/// Makes the entry of a fragment.
fn ran(number: u64, steps: u64, fresh: Vec<Loc>) -> Entry
    ensures { result ≡ ran number steps (map (λ l. l.0) fresh.items) }
{
    Entry {
        kind: EntryKind::Ran,
        seat: 0,
        number,
        steps,
        fresh: Locs::from_vec(fresh),
        answer: None,
    }
}

/// Makes the entry of one label under `unprotected`.
fn freed(number: u64, fresh: Vec<Loc>, answer: Option<i64>) -> Entry
    ensures { result ≡ freed number (map (λ l. l.0) fresh.items) answer }
{
    Entry {
        kind: EntryKind::Free,
        seat: 0,
        number,
        steps: 1,
        fresh: Locs::from_vec(fresh),
        answer,
    }
}

/// Returns the new location of a step, if it makes one.
fn fresh_of(alloc: Global, kind: StepKind) -> Result<Vec<Loc>, NoMemory>
    ensures { IfOk result (λ fresh. map (λ l. l.0) fresh.items ≡ fresh_of kind) }
{
    let mut fresh = Vec::new(alloc);
    if let StepKind::Alloc(l) = kind {
        push(&mut fresh, l)?;
    }
    Ok(fresh)
}

/// Returns the answer of a device to a step, if it is a call.
fn answer_of(kind: StepKind) -> Option<i64>
    ensures { result ≡ device_answer kind }
{
    match kind {
        StepKind::Device(answer) => Some(answer),
        _ => None,
    }
}
