//! A run that makes its choices.

ghost use Rattle.std.specs.Prelude.{◌≡◌, ◌+◌, ◌-◌, ◌<◌, ◌≤◌, [], ◌∷◌, ◌++◌, false, length, List, None, Some, IfOk, OnOk, OnErr};
ghost use Rattle.ame_term.specs.View.{tree_of};
ghost use Rattle.ame_device.specs.declared.told.Told.{Told};
ghost use Rattle.ame_journal.specs.Labels.{fragment_labels};

use crate::notes::Notes;
use crate::play::Play;
use crate::trial::{AttemptEnd, TriedOut, note_of, tall_of, try_member};
use ame_journal::Entry;
use ame_term::{Accepted, Label, Loc, NoMemory, StepKind};
use std::alloc::Global;
use std::collections::VecDeque;

/// A weak run, the tries in it, and the labels that its active fragment is still to make.
#[derive(Drop)]
pub struct Run<'a> {
    pub(crate) play: Play<'a>,
    pub(crate) notes: Notes,
    /// The labels of the active fragment that are still to be made, in order.
    pub(crate) left: VecDeque<Label>,
    /// The least location above all that were made and are to be made.
    pub(crate) above: u32,
    pub(crate) turns: u32,
    pub(crate) limit: u32,
}

impl<'a> Run<'a> {
    ghost use Rattle.ame_runner.specs.Labels.{label_location, behind_location};
    ghost use Rattle.ame_runner.specs.Trial.{last_turn, IsTriedOut};
    ghost use Rattle.ame_runner.specs.Freeing.{MakesOnly};
    ghost use Rattle.ame_runner.specs.Run.{IsOwn, HasMadeUncounted, IsRunning, IsAtRunStart, KeepsFrame, CountsNothing, RunsOrEnds, CanBeEnded};
    ghost use Rattle.ame_runner.specs.Stop.{HearsOn, GrowsOrEnds, HasAttempted};
    ghost use Rattle.ame_runner.specs.Drawn.{MakesNextLabel, GrowsInAttempt, last_label};
    ghost use Rattle.ame_runner.specs.Drawing.{HasCountedTurn, HasRunOut, HasTried, KeepsCourse};
    ghost use Rattle.ame_runner.specs.View.{run_of};

    /// Returns a run before its first label, with this limit of turns.
    pub fn start(alloc: Global, accepted: &'a Accepted, limit: u32) -> Result<Run<'a>, NoMemory>
        ensures runs { IfOk result (λ run. IsRunning (run_of run)) }
        ensures begins { IfOk result (λ run. IsAtRunStart (tree_of accepted.now.program.term) limit (run_of run)) }
    {
        Ok(Run {
            play: Play::start(alloc, accepted)?,
            notes: Notes::new(alloc),
            left: VecDeque::new(alloc),
            above: 0,
            turns: 0,
            limit,
        })
    }

    /// Makes one label.
    fn make(&mut self, alloc: Global, label: Label) -> Result<(), NoMemory>
        ensures frame { KeepsFrame (run_of self.old) (run_of self.new) }
        ensures made { OnOk result (HasMadeUncounted label (run_of self.old) (run_of self.new)) }
        ensures err { OnErr result (run_of self.new ≡ run_of self.old) }
    {
        match self.play.make(alloc, label) {
            Ok(()) => {
                self.notes.pass(label);
                Ok(())
            }
            Err(_) => Err(NoMemory),
        }
    }

    /// Makes the next label of the active fragment. It isn't counted.
    pub(crate) fn go_on(&mut self, alloc: Global) -> Result<(), NoMemory>
        ensures frame { KeepsFrame (run_of self.old) (run_of self.new) }
        ensures runs { IsRunning (run_of self.old) → RunsOrEnds result (run_of self.new) }
        ensures hears { OnOk result ((told : List Told) → HearsOn None (run_of self.old) (run_of self.new) told told) }
        ensures counts { OnOk result (CountsNothing (run_of self.old) (run_of self.new)) }
        ensures left { OnOk result (length (run_of self.new).left + 1 ≡ length (run_of self.old).left) }
        ensures goes { OnOk result (MakesNextLabel (run_of self.old) (run_of self.new)) }
    {
        match self.left.pop_front() {
            Some(label) => self.make(alloc, label),
            None => Err(NoMemory),
        }
    }

    /// Makes all labels that the active fragment is still to make.
    pub(crate) fn run_out(&mut self, alloc: Global) -> Result<(), NoMemory>
        ensures frame { KeepsFrame (run_of self.old) (run_of self.new) }
        ensures runs { IsRunning (run_of self.old) → RunsOrEnds result (run_of self.new) }
        ensures hears { OnOk result ((told : List Told) → HearsOn None (run_of self.old) (run_of self.new) told told) }
        ensures counts { OnOk result (CountsNothing (run_of self.old) (run_of self.new)) }
        ensures none { OnOk result ((run_of self.new).left ≡ []) }
        ensures out { OnOk result (HasRunOut (run_of self.old) (run_of self.new)) }
    {
        while !self.left.is_empty() {
            self.go_on(alloc)?;
        }
        Ok(())
    }

    /// Makes a label of a resting member, which takes a turn.
    pub(crate) fn count(&mut self, alloc: Global, label: Label) -> Result<(), NoMemory>
        requires fresh { MakesOnly (run_of self.old).above label }
        requires turns { (run_of self.old).turns < (run_of self.old).limit }
        ensures frame { KeepsFrame (run_of self.old) (run_of self.new) }
        ensures runs { IsRunning (run_of self.old) → RunsOrEnds result (run_of self.new) }
        ensures counts { OnOk result (HasCountedTurn label (run_of self.old) (run_of self.new)) }
    {
        self.make(alloc, label)?;
        self.above = self.above.max(self.play.fresh().0);
        self.turns += 1;
        Ok(())
    }

    /// Tries a member that may become active. If it leaves or ends, its labels are planned. If it comes to a value that is
    /// nested too deeply, this returns the note about that. Otherwise the try is noted.
    pub(crate) fn attempt(&mut self, alloc: Global, number: u64) -> Result<Option<Entry>, NoMemory>
        requires idle { (run_of self.old).play.weak.state.active ≡ None }
        requires turns { (run_of self.old).turns < (run_of self.old).limit }
        requires free { (run_of self.old).aside number ≡ false }
        requires left { (run_of self.old).left ≡ [] }
        ensures frame { KeepsFrame (run_of self.old) (run_of self.new) }
        ensures ok { IfOk result (λ grown. IsRunning (run_of self.old) → HasAttempted grown (run_of self.new)) }
        ensures err { OnErr result (IsRunning (run_of self.old) → CanBeEnded (run_of self.new)) }
        ensures play { (run_of self.new).play ≡ (run_of self.old).play }
        ensures tried { IfOk result (HasTried number (run_of self.old) (run_of self.new)) }
    {
        let turns = self.limit - self.turns;
        let tried = try_member(alloc, self.play.state(), Loc(self.above), number, turns)?;
        if let AttemptEnd::Tall = tried.outcome {
            let entry = self.grow(alloc, number, &tried)?;
            return Ok(Some(entry));
        }
        self.take(alloc, number, &tried)?;
        Ok(None)
    }

    /// Plans a fragment that was tried, or notes the try.
    fn take(&mut self, alloc: Global, number: u64, tried: &TriedOut) -> Result<(), NoMemory>
        requires idle { (run_of self.old).play.weak.state.active ≡ None }
        requires free { (run_of self.old).aside number ≡ false }
        requires tried { IsTriedOut (run_of self.old).play.weak number (run_of self.old).above ((run_of self.old).limit - (run_of self.old).turns) tried.now }
        requires low { tried.now.outcome ≡ AttemptEnd.Tall → ⊥ }
        requires turns { (run_of self.old).turns < (run_of self.old).limit }
        requires left { (run_of self.old).left ≡ [] }
        ensures frame { KeepsFrame (run_of self.old) (run_of self.new) }
        ensures runs { IsRunning (run_of self.old) → RunsOrEnds result (run_of self.new) }
        ensures play { (run_of self.new).play ≡ (run_of self.old).play }
        ensures tried { OnOk result (HasTried number (run_of self.old) (run_of self.new) None) }
    {
        match tried.outcome {
            AttemptEnd::Leaves => self.begin(number, tried, Label::Leave),
            AttemptEnd::Ends => self.begin(number, tried, Label::End),
            AttemptEnd::Fails | AttemptEnd::Tall | AttemptEnd::Cut => self.note(
                alloc, number, tried,
            ),
        }
    }

    /// Counts the turns of a fragment that came to a value nested too deeply, and returns the note about it.
    fn grow(&mut self, alloc: Global, number: u64, tried: &TriedOut) -> Result<Entry, NoMemory>
        requires idle { (run_of self.old).play.weak.state.active ≡ None }
        requires tried { IsTriedOut (run_of self.old).play.weak number (run_of self.old).above ((run_of self.old).limit - (run_of self.old).turns) tried.now }
        requires tall { tried.now.outcome ≡ AttemptEnd.Tall }
        requires turns { (run_of self.old).turns < (run_of self.old).limit }
        requires left { (run_of self.old).left ≡ [] }
        ensures frame { KeepsFrame (run_of self.old) (run_of self.new) }
        ensures runs { IsRunning (run_of self.old) → GrowsOrEnds result (run_of self.new) }
        ensures play { (run_of self.new).play ≡ (run_of self.old).play }
        ensures grown { IfOk result (GrowsInAttempt number (run_of self.old) (run_of self.new).turns) }
        ensures kept { OnOk result (KeepsCourse (run_of self.old) (run_of self.new)) }
    {
        let entry = tall_of(alloc, number, tried)?;
        self.turns += tried.turns;
        Ok(entry)
    }

    /// Plans the labels of a fragment that was tried.
    fn begin(&mut self, number: u64, tried: &TriedOut, last: Label) -> Result<(), NoMemory>
        requires tried { IsTriedOut (run_of self.old).play.weak number (run_of self.old).above ((run_of self.old).limit - (run_of self.old).turns) tried.now }
        requires turn { last_turn tried.now.outcome ≡ 1 }
        requires none { behind_location (label_location last) ≡ 0 }
        requires own { IsOwn last }
        requires turns { (run_of self.old).turns < (run_of self.old).limit }
        requires left { (run_of self.old).left ≡ [] }
        requires ends { last_label tried.now.outcome ≡ Some last }
        ensures frame { KeepsFrame (run_of self.old) (run_of self.new) }
        ensures runs { IsRunning (run_of self.old) → RunsOrEnds result (run_of self.new) }
        ensures play { (run_of self.new).play ≡ (run_of self.old).play }
        ensures tried { OnOk result (HasTried number (run_of self.old) (run_of self.new) None) }
    {
        add_labels(&mut self.left, number, &tried.kinds, last)?;
        self.above = tried.above;
        self.turns += tried.turns;
        Ok(())
    }

    /// Notes a try that came to nothing.
    fn note(&mut self, alloc: Global, number: u64, tried: &TriedOut) -> Result<(), NoMemory>
        requires low { tried.now.outcome ≡ AttemptEnd.Tall → ⊥ }
        requires idle { (run_of self.old).play.weak.state.active ≡ None }
        requires free { (run_of self.old).aside number ≡ false }
        requires tried { IsTriedOut (run_of self.old).play.weak number (run_of self.old).above ((run_of self.old).limit - (run_of self.old).turns) tried.now }
        requires turn { last_turn tried.now.outcome ≡ 0 }
        requires turns { (run_of self.old).turns < (run_of self.old).limit }
        requires left { (run_of self.old).left ≡ [] }
        ensures frame { KeepsFrame (run_of self.old) (run_of self.new) }
        ensures runs { IsRunning (run_of self.old) → RunsOrEnds result (run_of self.new) }
        ensures play { (run_of self.new).play ≡ (run_of self.old).play }
        ensures tried { OnOk result (HasTried number (run_of self.old) (run_of self.new) None) }
    {
        let after = self.play.labels().len() as u64;
        let t = note_of(alloc, after, number, tried)?;
        self.notes.add(t)?;
        self.turns += tried.turns;
        Ok(())
    }
}

/// Appends the labels of a fragment.
fn add_labels(
    left: &mut VecDeque<Label>,
    number: u64,
    kinds: &[StepKind],
    last: Label,
) -> Result<(), NoMemory>
    ensures { OnOk result (left.new.items ≡ left.old.items ++ (fragment_labels number kinds.now ++ last ∷ [])) }
{
    left.push_back(Label::Activate(number))?;
    for kind in kinds {
        left.push_back(Label::Step(*kind))?;
    }
    left.push_back(last)?;
    Ok(())
}
