//! The stops that are found while nothing is active.

ghost use Rattle.std.specs.Prelude.{◌≡◌, ◌<◌, ◌≤◌, ◌==◌, ℕ, [], true, false, length, is_some, IfOk, OnOk, None};
ghost use Rattle.std.specs.List.{AllByRecursion, list_any};
ghost use Rattle.ame_term.specs.Maps.{at};
ghost use Rattle.ame_engine.specs.Ending.{Rise};
ghost use Rattle.ame_journal.specs.Replay.{fails_after};
ghost use Rattle.ame_strong.specs.Pool.{pool};

use crate::choices::candidates;
use crate::run::Run;
use crate::stop::WeakStop;
use crate::trial::{AttemptEnd, note_of, try_member};
use ame_journal::Certificate;
use ame_term::{Loc, NoMemory, push};
use std::alloc::Global;

impl<'a> Run<'a> {
    ghost use Rattle.ame_runner.specs.Choices.{candidates};
    ghost use Rattle.ame_runner.specs.Run.{IsRunning};
    ghost use Rattle.ame_runner.specs.Stop.{certified_numbers, MayGoOn, FoundAtRest, HasCertified};
    ghost use Rattle.ame_runner.specs.View.{run_of};

    /// Returns whether a member is active.
    pub(crate) fn is_busy(&self) -> bool
        ensures { result ≡ false → (run_of self.now).play.weak.state.active ≡ None }
    {
        self.play.state().active().is_some()
    }

    /// Returns whether no member is left.
    fn is_over(&self) -> bool
        ensures yes { result ≡ true → length (pool (run_of self.now).play.weak.state) ≡ 0 }
        ensures no { result ≡ false → length (pool (run_of self.now).play.weak.state) ≡ 0 → ⊥ }
    {
        self.play.state().strong().pool_len() == 0
    }

    /// Returns whether the turns are used up.
    pub(crate) fn is_spent(&self) -> bool
        ensures yes { result ≡ true → (run_of self.now).limit ≤ (run_of self.now).turns }
        ensures no { result ≡ false → (run_of self.now).turns < (run_of self.now).limit }
    {
        self.turns >= self.limit
    }

    /// Returns the members that may go on, in order of their numbers.
    pub(crate) fn who_may(&self, alloc: Global) -> Result<Vec<u64>, NoMemory>
        ensures { IfOk result (λ may. may.items ≡ candidates (run_of self.now).play.weak (run_of self.now).aside) }
    {
        candidates(alloc, self.play.state(), self.notes.aside())
    }

    /// Returns whether no member may go on.
    fn is_stuck(&self, alloc: Global) -> Result<bool, NoMemory>
        ensures yes { IfOk result (λ stuck. stuck ≡ true → candidates (run_of self.now).play.weak (run_of self.now).aside ≡ []) }
        ensures no { IfOk result (λ stuck. stuck ≡ false → MayGoOn (run_of self.now)) }
    {
        let may = self.who_may(alloc)?;
        Ok(may.is_empty())
    }

    /// Returns the stop of the run while nothing is active, if it stops here. Otherwise turns are left.
    pub(crate) fn stop_at_rest(&self, alloc: Global) -> Result<Option<WeakStop>, NoMemory>
        requires { (run_of self.now).left ≡ [] }
        ensures { IfOk result (FoundAtRest (run_of self.now)) }
    {
        if self.is_busy() {
            return Err(NoMemory);
        }
        if self.is_over() {
            return Ok(Some(WeakStop::Finished));
        }
        let stuck = self.is_stuck(alloc)?;
        if stuck {
            let certificates = self.certificates(alloc)?;
            return Ok(Some(WeakStop::Blocked(certificates)));
        }
        if self.is_spent() {
            return Ok(Some(WeakStop::Spent));
        }
        Ok(None)
    }

    /// Returns the certificates of all members if every member fails.
    fn certificates(&self, alloc: Global) -> Result<Vec<Certificate>, NoMemory>
        requires { (run_of self.now).play.weak.state.active ≡ None }
        ensures fail { IfOk result (λ certificates. IsRunning (run_of self.now)
            → AllByRecursion (λ c. fails_after (run_of self.now).play.weak.state c.number c.steps c.fresh ≡ true) certificates.items) }
        ensures all { IfOk result (λ certificates. (i : ℕ) → i < (run_of self.now).play.weak.state.next
            → is_some (at (pool (run_of self.now).play.weak.state) i) ≡ true → list_any (λ c. c.number == i) certificates.items ≡ true) }
        ensures rise { IfOk result (λ certificates. Rise (certified_numbers certificates.items)) }
    {
        let mut certificates = Vec::new(alloc);
        for number in 0..self.play.state().next() {
            self.certify(alloc, number, &mut certificates)?;
        }
        Ok(certificates)
    }

    /// Adds the certificate of a member that fails, if there is such a member.
    fn certify(
        &self,
        alloc: Global,
        number: u64,
        certificates: &mut Vec<Certificate>,
    ) -> Result<(), NoMemory>
        requires { (run_of self.now).play.weak.state.active ≡ None }
        ensures { OnOk result (HasCertified (run_of self.now) number certificates.old.items certificates.new.items) }
    {
        if self.play.state().member(number).is_none() {
            return Ok(());
        }
        let certificate = self.certificate(alloc, number)?;
        push(certificates, certificate)?;
        Ok(())
    }

    /// Returns the certificate of a member that fails.
    fn certificate(&self, alloc: Global, number: u64) -> Result<Certificate, NoMemory>
        requires { (run_of self.now).play.weak.state.active ≡ None }
        ensures number { IfOk result (λ c. c.number ≡ number) }
        ensures fails { IfOk result (λ c. IsRunning (run_of self.now)
            → fails_after (run_of self.now).play.weak.state c.number c.steps c.fresh ≡ true) }
    {
        let tried = try_member(alloc, self.play.state(), Loc(self.above), number, u32::MAX)?;
        match tried.outcome {
            AttemptEnd::Fails => {
                let t = note_of(alloc, 0, number, &tried)?;
                Ok(t.certificate)
            }
            _ => Err(NoMemory),
        }
    }
}
