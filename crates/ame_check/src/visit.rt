//! The steps of a `Free` entry.

ghost use Rattle.std.specs.Prelude.{◌≡◌, true, ℕ, ◌+◌, ◌<◌, ◌^◌, List, Some, IfErr, OnOk};
ghost use Rattle.ame_term.specs.Frame.{Side};
ghost use Rattle.ame_term.specs.State.{State};
ghost use Rattle.ame_machine.specs.declared.wants.Wants.{Wants};
ghost use Rattle.ame_check.specs.Walked.{IsWalking, IsAtStep, WantsAnswer, is_plain};
ghost use Rattle.ame_check.specs.Visit.{HasVisited, StopsVisit};
ghost use Rattle.ame_check.specs.declared.stored.Stored.{Stored};

use crate::entry_error::EntryError;
use crate::reason::Reason;
use crate::stored::Stored;
use crate::walk::Walk;
use ame_machine::{Input, Runner, Wants};
use std::collections::BTreeMap;

impl<'a, M: Runner> Walk<'a, M>
where
    M::Code: Drop,
{
    /// Makes the last step if it takes the answer of a device.
    fn hear(&self, machine: &mut M) -> Result<(), EntryError>
        requires machine { M.meaning.is_machine self.now.code.now machine.old }
        requires wants { WantsAnswer (M.meaning.stage self.now.code.now machine.old).want }
        requires steps { (M.meaning.stage self.now.code.now machine.old).steps + 1 < 2 ^ 64 }
        ensures made { OnOk result ((s : State) (i : ℕ) (cells overlay : List (ℕ × Stored M.Value)) (n : ℕ)
            → IsAtStep M.meaning self.now.code.now s i self.now.entry.now.fresh cells overlay machine.old Side.Unprotected n
            → HasVisited M.meaning self.now.code.now s i self.now.entry.now.fresh self.now.entry.now.answer cells overlay machine.new n) }
        ensures halted { IfErr result (λ error. (s : State) (i : ℕ) (cells overlay : List (ℕ × Stored M.Value)) (n : ℕ)
            → IsAtStep M.meaning self.now.code.now s i self.now.entry.now.fresh cells overlay machine.old Side.Unprotected n
            → StopsVisit s i self.now.entry.now.fresh self.now.entry.now.answer n error) }
    {
        let fresh = self.entry.fresh.as_slice();
        let used = machine.fresh().len();
        let Some(answer) = self.entry.answer else {
            return Err(EntryError::Undefined(Reason::Unanswered(machine.steps())));
        };
        if used < fresh.len() {
            return Err(EntryError::Undefined(Reason::Unused(machine.steps(), fresh[used])));
        }
        machine.feed(self.code, Input::Int(answer));
        Ok(())
    }

    /// Makes the last step if it is the one that closes.
    fn close(&self, machine: &mut M) -> Result<(), EntryError>
        requires machine { M.meaning.is_machine self.now.code.now machine.old }
        requires wants { (M.meaning.stage self.now.code.now machine.old).want ≡ Some Wants.Close }
        requires steps { (M.meaning.stage self.now.code.now machine.old).steps + 1 < 2 ^ 64 }
        ensures made { OnOk result ((s : State) (i : ℕ) (cells overlay : List (ℕ × Stored M.Value)) (n : ℕ)
            → IsAtStep M.meaning self.now.code.now s i self.now.entry.now.fresh cells overlay machine.old Side.Unprotected n
            → HasVisited M.meaning self.now.code.now s i self.now.entry.now.fresh self.now.entry.now.answer cells overlay machine.new n) }
        ensures halted { IfErr result (λ error. (s : State) (i : ℕ) (cells overlay : List (ℕ × Stored M.Value)) (n : ℕ)
            → IsAtStep M.meaning self.now.code.now s i self.now.entry.now.fresh cells overlay machine.old Side.Unprotected n
            → StopsVisit s i self.now.entry.now.fresh self.now.entry.now.answer n error) }
    {
        let fresh = self.entry.fresh.as_slice();
        let used = machine.fresh().len();
        if self.entry.answer.is_some() {
            return Err(EntryError::Undefined(Reason::Answered));
        }
        if used < fresh.len() {
            return Err(EntryError::Undefined(Reason::Unused(machine.steps(), fresh[used])));
        }
        machine.feed(self.code, Input::Unit);
        Ok(())
    }

    /// Makes the last step if it is any other.
    fn go_on(
        &self,
        overlay: &mut BTreeMap<u32, Stored<M::Value>>,
        machine: &mut M,
        want: Wants,
    ) -> Result<(), EntryError>
        requires walking { (s : State) × (i : ℕ) × IsWalking M.meaning self.now.code.now s i self.now.entry.now.fresh self.now.cells.now.entries overlay.old.entries machine.old }
        requires told { (M.meaning.stage self.now.code.now machine.old).want ≡ Some want }
        requires other { is_plain want ≡ true }
        requires count { (M.meaning.stage self.now.code.now machine.old).steps + 1 ≡ self.now.entry.now.steps }
        ensures made { OnOk result ((s : State) (i : ℕ) (n : ℕ)
            → IsAtStep M.meaning self.now.code.now s i self.now.entry.now.fresh self.now.cells.now.entries overlay.old.entries machine.old Side.Unprotected n
            → HasVisited M.meaning self.now.code.now s i self.now.entry.now.fresh self.now.entry.now.answer self.now.cells.now.entries overlay.new.entries machine.new n) }
        ensures halted { IfErr result (λ error. (s : State) (i : ℕ) (n : ℕ)
            → IsAtStep M.meaning self.now.code.now s i self.now.entry.now.fresh self.now.cells.now.entries overlay.old.entries machine.old Side.Unprotected n
            → StopsVisit s i self.now.entry.now.fresh self.now.entry.now.answer n error) }
    {
        if self.entry.answer.is_some() {
            return Err(EntryError::Undefined(Reason::Answered));
        }
        let _next = self.run(overlay, machine)?;
        Ok(())
    }

    /// Makes the last step of a machine that has made all others and wants this.
    fn last(
        &self,
        overlay: &mut BTreeMap<u32, Stored<M::Value>>,
        machine: &mut M,
        want: Wants,
    ) -> Result<(), EntryError>
        requires walking { (s : State) × (i : ℕ) × IsWalking M.meaning self.now.code.now s i self.now.entry.now.fresh self.now.cells.now.entries overlay.old.entries machine.old }
        requires told { (M.meaning.stage self.now.code.now machine.old).want ≡ Some want }
        requires count { (M.meaning.stage self.now.code.now machine.old).steps + 1 ≡ self.now.entry.now.steps }
        requires fits { self.now.entry.now.steps < 2 ^ 64 }
        ensures made { OnOk result ((s : State) (i : ℕ) (n : ℕ)
            → IsAtStep M.meaning self.now.code.now s i self.now.entry.now.fresh self.now.cells.now.entries overlay.old.entries machine.old Side.Unprotected n
            → HasVisited M.meaning self.now.code.now s i self.now.entry.now.fresh self.now.entry.now.answer self.now.cells.now.entries overlay.new.entries machine.new n) }
        ensures halted { IfErr result (λ error. (s : State) (i : ℕ) (n : ℕ)
            → IsAtStep M.meaning self.now.code.now s i self.now.entry.now.fresh self.now.cells.now.entries overlay.old.entries machine.old Side.Unprotected n
            → StopsVisit s i self.now.entry.now.fresh self.now.entry.now.answer n error) }
    {
        match want {
            Wants::Device(_, _) => self.hear(machine),
            Wants::Close => self.close(machine),
            Wants::Tall => Err(EntryError::Tall),
            _ => self.go_on(overlay, machine, want),
        }
    }

    /// Makes the steps of the entry, which has at least one. Only the last may call a device or close.
    pub(crate) fn visit(
        &self,
        overlay: &mut BTreeMap<u32, Stored<M::Value>>,
        machine: &mut M,
    ) -> Result<(), EntryError>
        requires walking { (s : State) × (i : ℕ) × IsWalking M.meaning self.now.code.now s i self.now.entry.now.fresh self.now.cells.now.entries overlay.old.entries machine.old }
        requires none { (M.meaning.stage self.now.code.now machine.old).steps ≡ 0 }
        requires some { 0 < self.now.entry.now.steps }
        ensures made { OnOk result ((s : State) (i : ℕ) (n : ℕ) → n + 1 ≡ self.now.entry.now.steps
            → IsAtStep M.meaning self.now.code.now s i self.now.entry.now.fresh self.now.cells.now.entries overlay.old.entries machine.old Side.Unprotected 0
            → HasVisited M.meaning self.now.code.now s i self.now.entry.now.fresh self.now.entry.now.answer self.now.cells.now.entries overlay.new.entries machine.new n) }
        ensures halted { IfErr result (λ error. (s : State) (i : ℕ) (n : ℕ) → n + 1 ≡ self.now.entry.now.steps
            → IsAtStep M.meaning self.now.code.now s i self.now.entry.now.fresh self.now.cells.now.entries overlay.old.entries machine.old Side.Unprotected 0
            → StopsVisit s i self.now.entry.now.fresh self.now.entry.now.answer n error) }
    {
        let want = self.go(overlay, machine, self.entry.steps - 1)?;
        self.last(overlay, machine, want)
    }
}
