//! The place of a member after steps of its own.

ghost use Rattle.std.specs.Prelude.{◌≡◌, ℕ, List, IfErr, IfOk, OnOk};
ghost use Rattle.ame_term.specs.Frame.{Side};
ghost use Rattle.ame_term.specs.State.{State};
ghost use Rattle.ame_journal.specs.declared.entry.Entry.{Entry};
ghost use Rattle.ame_journal.specs.declared.entry.EntryKind.{EntryKind};
ghost use Rattle.ame_check.specs.Walked.{IsWalking, IsAtStep, StopsRun};
ghost use Rattle.ame_check.specs.Standing.{StandsAt, WatchedSteps, with_read};

use crate::entry_error::EntryError;
use crate::reason::Reason;
use crate::replay::Replay;
use crate::stored::Stored;
use crate::walk::Walk;
use ame_journal::Entry;
use ame_machine::{Runner, Wants};
use ame_term::{Copied, NoMemory};
use std::alloc::Global;
use std::collections::BTreeMap;

/// A member's machine after steps that it made, what it wants there, and for each location that it read on the way the number of
/// steps after which it did so last.
#[derive(Drop)]
pub struct Standing<M> {
    pub machine: M,
    pub want: Wants,
    pub reads: BTreeMap<u32, u64>,
}

/// Notes a location that is read after this number of steps.
fn note_read(reads: &mut BTreeMap<u32, u64>, want: Wants, made: u64) -> Result<(), NoMemory>
    ensures { OnOk result (reads.new.entries ≡ with_read want made reads.old.entries) }
{
    match want {
        Wants::Read(l) => {
            reads.insert(l.0, made)?;
            Ok(())
        }
        _ => Ok(()),
    }
}

impl<'a, M: Runner> Walk<'a, M>
where
    M::Code: Drop,
{
    /// Makes the steps of the entry but the last one after another, and returns what each of them reads, and the last one would.
    fn watch(
        &self,
        overlay: &mut BTreeMap<u32, Stored<M::Value>>,
        machine: &mut M,
    ) -> Result<BTreeMap<u32, u64>, EntryError>
        requires walking { (s : State) × (i : ℕ) × IsWalking M.meaning self.now.code.now s i self.now.entry.now.fresh self.now.cells.now.entries overlay.old.entries machine.old }
        requires none { (M.meaning.stage self.now.code.now machine.old).steps ≡ 0 }
        ensures watched { IfOk result (λ reads. (s : State) (i : ℕ) (side : Side) (n : ℕ)
            → IsAtStep M.meaning self.now.code.now s i self.now.entry.now.fresh self.now.cells.now.entries overlay.old.entries machine.old side n
            → WatchedSteps M.meaning self.now.code.now s i self.now.entry.now.fresh self.now.cells.now.entries overlay.new.entries machine.new side self.now.entry.now.steps self.now.entry.now.steps reads.entries) }
        ensures halted { IfErr result (λ error. (s : State) (i : ℕ) (side : Side) (n : ℕ)
            → IsAtStep M.meaning self.now.code.now s i self.now.entry.now.fresh self.now.cells.now.entries overlay.old.entries machine.old side n
            → StopsRun side i self.now.entry.now.steps self.now.entry.now.fresh s error) }
    {
        let mut reads = BTreeMap::new(self.alloc);
        for made in 0..self.entry.steps {
            let want = self.go(overlay, machine, made)?;
            note_read(&mut reads, want, made)?;
        }
        Ok(reads)
    }
}

impl<M: Runner> Replay<M>
where
    M::Code: Drop,
{
    ghost use Rattle.ame_check.specs.Shows.{StandsForEntries};
    ghost use Rattle.ame_check.specs.Entries.{StopsAt};

    /// Returns the place of the member of a `Cut` note, on a copy of its machine. Nothing changes.
    pub fn stand(
        &self,
        alloc: Global,
        code: &M::Code,
        entry: &Entry,
    ) -> Result<Standing<M>, EntryError>
        requires kind { entry.now.kind ≡ EntryKind.Cut }
        requires stands { (entries : List Entry) × StandsForEntries M.meaning code.now entries
            (record { cells = self.now.cells.entries; members = self.now.members.entries; output = self.now.output.items; next = self.now.next }) }
        ensures there { IfOk result (λ standing. (entries : List Entry) → StandsForEntries M.meaning code.now entries
            (record { cells = self.now.cells.entries; members = self.now.members.entries; output = self.now.output.items; next = self.now.next })
            → StandsAt M.meaning code.now entries entry.now standing.machine standing.want standing.reads.entries) }
        ensures halted { IfErr result (λ error. (entries : List Entry) → StandsForEntries M.meaning code.now entries
            (record { cells = self.now.cells.entries; members = self.now.members.entries; output = self.now.output.items; next = self.now.next })
            → StopsAt (M.meaning.program code.now) entries entry.now error) }
    {
        if entry.answer.is_some() {
            return Err(EntryError::Undefined(Reason::Answered));
        }
        let Some(member) = self.members.get(&entry.number) else {
            return Err(EntryError::Undefined(Reason::NoMember));
        };
        let mut machine = member.copy(alloc)?;
        let _next = machine.advance(alloc, code, 0)?;
        machine.settle();
        let mut overlay = BTreeMap::new(alloc);
        let walk = Walk {
            alloc,
            code,
            cells: &self.cells,
            entry,
        };
        let reads = walk.watch(&mut overlay, &mut machine)?;
        let want = walk.run(&mut overlay, &mut machine)?;
        Ok(Standing {
            machine,
            want,
            reads,
        })
    }
}
