//! The steps of one entry.

ghost use Rattle.std.specs.Prelude.{◌≡◌, ℕ, ◌≤◌, IfErr, IfOk};
ghost use Rattle.ame_term.specs.Frame.{Side};
ghost use Rattle.ame_term.specs.State.{State};
ghost use Rattle.ame_check.specs.Walked.{IsWalking, IsAtStep, WalksTo, RunsTo, StopsWalk, StopsRun};

use crate::entry_error::EntryError;
use crate::reason::Reason;
use crate::stored::Stored;
use ame_journal::Entry;
use ame_machine::{Runner, Wants};
use ame_term::NoMemory;
use std::alloc::Global;
use std::collections::BTreeMap;

/// An entry, and what its steps are made over. What they set is laid over the cells, which stay.
pub(crate) struct Walk<'a, M: Runner>
where
    M::Code: Drop,
{
    pub(crate) alloc: Global,
    pub(crate) code: &'a M::Code,
    pub(crate) cells: &'a BTreeMap<u32, Stored<M::Value>>,
    pub(crate) entry: &'a Entry,
}

impl<'a, M: Runner> Drop for Walk<'a, M>
where
    M::Code: Drop,
{
    fn drop(self) {
        let Walk {
            alloc: _,
            code: _,
            cells: _,
            entry: _,
        } = self;
    }
}

impl<'a, M: Runner> Walk<'a, M>
where
    M::Code: Drop,
{
    /// Makes the steps up to this count, and returns what the machine wants next.
    pub(crate) fn go(
        &self,
        overlay: &mut BTreeMap<u32, Stored<M::Value>>,
        machine: &mut M,
        steps: u64,
    ) -> Result<Wants, EntryError>
        requires walking { (s : State) × (i : ℕ)
            × IsWalking M.meaning self.now.code.now s i self.now.entry.now.fresh self.now.cells.now.entries overlay.old.entries machine.old }
        requires below { (M.meaning.stage self.now.code.now machine.old).steps ≤ steps }
        ensures whole { IfOk result (λ want. (s : State) (i : ℕ) (side : Side) (n : ℕ)
            → IsAtStep M.meaning self.now.code.now s i self.now.entry.now.fresh self.now.cells.now.entries overlay.old.entries machine.old side n
            → WalksTo M.meaning self.now.code.now s i self.now.entry.now.fresh self.now.cells.now.entries overlay.new.entries machine.new side steps want) }
        ensures halted { IfErr result (λ error. (s : State) (i : ℕ) (side : Side) (n : ℕ)
            → IsAtStep M.meaning self.now.code.now s i self.now.entry.now.fresh self.now.cells.now.entries overlay.old.entries machine.old side n
            → StopsWalk side i steps self.now.entry.now.fresh s error) }
    {
        'walk: loop {
            let want = machine.advance(self.alloc, self.code, steps - machine.steps())?;
            if machine.steps() == steps {
                return Ok(want);
            }
            self.take(overlay, machine, want)?;
        }
    }

    /// Makes all steps of the entry, with exactly its locations, and returns what the machine wants next.
    pub(crate) fn run(
        &self,
        overlay: &mut BTreeMap<u32, Stored<M::Value>>,
        machine: &mut M,
    ) -> Result<Wants, EntryError>
        requires walking { (s : State) × (i : ℕ)
            × IsWalking M.meaning self.now.code.now s i self.now.entry.now.fresh self.now.cells.now.entries overlay.old.entries machine.old }
        requires below { (M.meaning.stage self.now.code.now machine.old).steps ≤ self.now.entry.now.steps }
        ensures whole { IfOk result (λ want. (s : State) (i : ℕ) (side : Side) (n : ℕ)
            → IsAtStep M.meaning self.now.code.now s i self.now.entry.now.fresh self.now.cells.now.entries overlay.old.entries machine.old side n
            → RunsTo M.meaning self.now.code.now s i self.now.entry.now.fresh self.now.cells.now.entries overlay.new.entries machine.new side self.now.entry.now.steps want) }
        ensures halted { IfErr result (λ error. (s : State) (i : ℕ) (side : Side) (n : ℕ)
            → IsAtStep M.meaning self.now.code.now s i self.now.entry.now.fresh self.now.cells.now.entries overlay.old.entries machine.old side n
            → StopsRun side i self.now.entry.now.steps self.now.entry.now.fresh s error) }
    {
        let want = self.go(overlay, machine, self.entry.steps)?;
        let fresh = self.entry.fresh.as_slice();
        let used = machine.fresh().len();
        if used < fresh.len() {
            return Err(EntryError::Undefined(Reason::Unused(machine.steps(), fresh[used])));
        }
        Ok(want)
    }
}
