//! A list of entries that grows at its end.

ghost use Rattle.std.specs.Prelude.{◌≡◌, ◌+◌, ◌<◌, ◌≤◌, [], ◌∷◌, ◌++◌, All, OnOk, OnErr};
ghost use Rattle.ame_journal.specs.JournalView.{IsFit};

use crate::entry::Entry;
use ame_term::NoMemory;
use std::alloc::Global;
use std::marker::Model;

/// The entries of a run, in the order in which they were made. Contracts see them as a list, with
/// the number of places that are free. Each is fit.
#[derive(Drop)]
pub struct Journal {
    entries: Vec<Entry>,
}

impl Model for Journal {
    ghost use Rattle.std.specs.Prelude.{◌-◌, All, vec_len, vec_capacity};
    ghost use Rattle.ame_journal.specs.JournalView.{JournalView, IsFit};

    ghost Value = { JournalView };

    ghost view = { λ a. record { entries = a.entries.items; room = vec_capacity a.entries - vec_len a.entries } };

    ghost invariant = { λ a. All IsFit a.entries.items };
}

impl Journal {
    /// Returns an empty journal, without memory.
    pub fn new(alloc: Global) -> Journal
        ensures { result.entries ≡ [] }
    {
        Journal {
            entries: Vec::new(alloc),
        }
    }

    /// Returns the entries, in order.
    pub fn entries(&self) -> &[Entry]
        ensures entries { result.now ≡ self.now.entries }
        ensures fit { All IsFit self.now.entries }
    {
        self.entries.as_slice()
    }

    /// Makes a place for one more entry.
    pub fn room(&mut self) -> Result<(), NoMemory>
        ensures entries { self.new.entries ≡ self.old.entries }
        ensures ok { OnOk result (0 < self.new.room) }
        ensures err { OnErr result (self.new.room ≡ self.old.room) }
    {
        match self.entries.reserve(1) {
            Ok(()) => Ok(()),
            Err(_) => Err(NoMemory),
        }
    }

    /// Adds an entry at the end, in a place that `room` made. It takes no memory.
    pub fn push(&mut self, entry: Entry)
        requires room { 0 < self.old.room }
        requires fit { IsFit entry }
        ensures entries { self.new.entries ≡ self.old.entries ++ entry ∷ [] }
        ensures room { self.old.room ≤ self.new.room + 1 }
    {
        let _ = self.entries.push(entry);
    }
}
