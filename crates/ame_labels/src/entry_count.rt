//! The number of entries that labels have.

ghost use Rattle.std.specs.Prelude.{◌≡◌, OnOk, IfOk, length};
ghost use Rattle.ame_weak.specs.Straight.{outset};
ghost use Rattle.ame_weak.specs.Tries.{noted_tries, tries_behind};
ghost use Rattle.ame_labels.specs.Ledger.{IsLedgerAt, LedgerPasses, ComesIn, CountsMore};
ghost use Rattle.ame_term.specs.declared.semantics.Label.{Label};

use ame_term::{Label, NoMemory, StepKind};
use ame_weak::Try;
use std::alloc::Global;
use std::collections::BTreeSet;

/// The number of entries that the labels so far have, the members inside `unprotected`, and the member that was active last.
#[derive(Drop)]
pub(crate) struct EntryCount {
    pub(crate) count: u64,
    pub(crate) inside: BTreeSet<u64>,
    pub(crate) number: u64,
}

impl EntryCount {
    /// Begins before the first label.
    pub(crate) fn new(alloc: Global) -> EntryCount
        ensures stands { IsLedgerAt outset result }
        ensures none { result.count ≡ 0 }
    {
        EntryCount {
            count: 0,
            inside: BTreeSet::new(alloc),
            number: 0,
        }
    }

    /// Counts one more entry.
    fn add(&mut self) -> Result<(), NoMemory>
        ensures { OnOk result (CountsMore 1 self.old self.new) }
    {
        self.count = self.count.checked_add(1).ok_or(NoMemory)?;
        Ok(())
    }

    /// Counts the notes of the tries that were made after n labels, and returns the later tries.
    pub(crate) fn pass_tries<'a>(&mut self, tries: &'a [Try], n: u64) -> Result<&'a [Try], NoMemory>
        ensures notes { OnOk result (CountsMore (length (noted_tries n tries.now)) self.old self.new) }
        ensures later { IfOk result (λ rest. rest.now ≡ tries_behind n tries.now) }
    {
        let mut rest = tries;
        while let Some((t, others)) = rest.split_first() {
            if t.after != n {
                break;
            }
            self.add()?;
            rest = others;
        }
        Ok(rest)
    }

    /// Counts the entries of a label.
    pub(crate) fn pass(&mut self, label: Label) -> Result<(), NoMemory>
        ensures { OnOk result (LedgerPasses label self.old self.new) }
    {
        match label {
            Label::Activate(number) => {
                self.begin(number);
                Ok(())
            }
            Label::Step(_) => Ok(()),
            Label::Leave => self.leave(),
            Label::End => self.end(),
            Label::Free(number, kind) => self.free(number, kind),
            Label::Close(number) => self.close(number),
        }
    }

    /// Notes that a member becomes active.
    fn begin(&mut self, number: u64)
        ensures { LedgerPasses (Label.Activate number) self.old self.new }
    {
        self.number = number;
    }

    /// Notes that the fragment ends.
    fn end(&mut self) -> Result<(), NoMemory>
        ensures { OnOk result (LedgerPasses Label.End self.old self.new) }
    {
        self.add()?;
        Ok(())
    }

    /// Notes that the fragment leaves for unprotected code.
    fn leave(&mut self) -> Result<(), NoMemory>
        ensures { OnOk result (LedgerPasses Label.Leave self.old self.new) }
    {
        self.add()?;
        self.inside.insert(self.number)?;
        Ok(())
    }

    /// Notes that a member makes a step under `unprotected`.
    fn free(&mut self, number: u64, _kind: StepKind) -> Result<(), NoMemory>
        ensures { OnOk result (LedgerPasses (Label.Free number _kind) self.old self.new) }
    {
        self.arrive(number)?;
        self.add()?;
        Ok(())
    }

    /// Notes that a member closes.
    fn close(&mut self, number: u64) -> Result<(), NoMemory>
        ensures { OnOk result (LedgerPasses (Label.Close number) self.old self.new) }
    {
        self.arrive(number)?;
        self.add()?;
        self.inside.remove(&number);
        Ok(())
    }

    /// Adds a member that isn't inside.
    fn arrive(&mut self, number: u64) -> Result<(), NoMemory>
        ensures { OnOk result (ComesIn number self.old self.new) }
    {
        if self.inside.contains(&number) {
            return Ok(());
        }
        self.add()?;
        self.inside.insert(number)?;
        Ok(())
    }
}
