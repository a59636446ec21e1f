//! Entries of a journal.

ghost use Rattle.std.specs.Prelude.{◌≡◌};

use ame_term::{Copied, Locs, NoMemory};
use std::alloc::Global;

/// The kind of an entry.
#[derive(Clone, Copy, PartialEq, Eq, Debug)]
pub enum EntryKind {
    /// A fragment, from being made active to its end or its next `unprotected`.
    Ran,
    /// Steps of a member under `unprotected`.
    Free,
    /// A note: here the fragment comes to a condition that is false.
    Stuck,
    /// A note: here the fragment was cut off.
    Cut,
    /// A note: here the fragment comes to a value of height 1,001.
    Tall,
}

impl EntryKind {
    ghost use Rattle.ame_journal.specs.Kinds.{kind_word};
    ghost use Rattle.ame_journal.specs.Totals as spec;

    /// Returns the word for a kind in a journal's text.
    pub fn word(self) -> &'static [u8]
        ensures { result.now ≡ kind_word self }
    {
        match self {
            EntryKind::Ran => b"ran",
            EntryKind::Free => b"free",
            EntryKind::Stuck => b"stuck",
            EntryKind::Cut => b"cut",
            EntryKind::Tall => b"tall",
        }
    }

    /// Returns whether entries of this kind are notes, which change nothing.
    pub fn is_note(self) -> bool
        ensures { result ≡ spec.is_note self }
    {
        match self {
            EntryKind::Ran | EntryKind::Free => false,
            EntryKind::Stuck | EntryKind::Cut | EntryKind::Tall => true,
        }
    }
}

/// One entry: the seat that made it, the member's number, the number of steps, the locations that
/// they made, in order, and the device's answer if the last step of a `Free` entry is a call.
#[derive(Drop)]
pub struct Entry {
    pub kind: EntryKind,
    pub seat: u32,
    pub number: u64,
    pub steps: u64,
    pub fresh: Locs,
    pub answer: Option<i64>,
}

impl Copied for Entry {
    ghost use Rattle.std.specs.Prelude.{refl};
    ghost use Rattle.std.proofs.Common.{sym, ◌∙◌};

    ghost same = { λ x y. x ≡ y };

    ghost reflexive = { λ x. refl };

    ghost symmetric = { λ x y e. sym e };

    ghost transitive = { λ x y z e f. e ∙ f };

    fn copy(&self, alloc: Global) -> Result<Entry, NoMemory> {
        let mut fresh = Vec::new(alloc);
        fresh.extend_from_slice(self.fresh.as_slice())?;
        Ok(Entry {
            kind: self.kind,
            seat: self.seat,
            number: self.number,
            steps: self.steps,
            fresh: Locs::from_vec(fresh),
            answer: self.answer,
        })
    }
}
