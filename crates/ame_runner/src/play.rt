//! A weak run under way.

ghost use Rattle.std.specs.Prelude.{take, max, ◌≡◌, ◌+◌, ◌<◌, ◌^◌, [], ◌∷◌, ◌++◌, length, vec_len, vec_capacity, IfOk, OnOk, OnErr, Err, None};
ghost use Rattle.ame_term.specs.View.{tree_of};
ghost use Rattle.ame_weak.specs.View.{weak_of};
ghost use Rattle.ame_runner.specs.Labels.{label_location, behind_location};

use crate::labels::label_location;
use ame_strong::StepFail;
use ame_term::{Accepted, Label, Loc, NoMemory, copy_term};
use ame_weak::WeakState;
use std::alloc::Global;

/// A weak run of an accepted program, label by label.
#[derive(Drop)]
pub struct Play<'a> {
    accepted: &'a Accepted,
    state: WeakState,
    labels: Vec<Label>,
    /// The least location above all that the labels made.
    above: u32,
    /// The number of labels when nothing was active last.
    settled: usize,
}

impl<'a> Play<'a> {
    ghost use Rattle.ame_weak.specs.Weak.{weak_after};
    ghost use Rattle.ame_runner.specs.Play.{begun_play, HasMadeLabel, IsPlayedWeakly};
    ghost use Rattle.ame_runner.specs.View.{play_of};

    /// Returns a run before its first label.
    pub fn start(alloc: Global, accepted: &'a Accepted) -> Result<Play<'a>, NoMemory>
        ensures begins { IfOk result (λ play. play_of play ≡ begun_play (tree_of accepted.now.program.term)) }
        ensures played { IfOk result (λ play. IsPlayedWeakly (play_of play)) }
    {
        let program = copy_term(alloc, &accepted.program.term)?;
        Ok(Play {
            accepted,
            state: WeakState::start(alloc, program)?,
            labels: Vec::new(alloc),
            above: 0,
            settled: 0,
        })
    }

    /// Returns the weak state to which the labels lead.
    pub fn state(&self) -> &WeakState
        ensures { weak_of result.now ≡ (play_of self.now).weak }
    {
        &self.state
    }

    /// Returns the labels so far.
    pub fn labels(&self) -> &[Label]
        ensures { result.now ≡ (play_of self.now).labels }
    {
        self.labels.as_slice()
    }

    /// Returns the least location above all that the labels made.
    pub fn fresh(&self) -> Loc
        ensures { result.0 ≡ (play_of self.now).above }
    {
        Loc(self.above)
    }

    /// Returns the labels up to the last moment with nothing active, in the memory that they have.
    pub fn into_settled(self) -> Vec<Label>
        ensures { result.items ≡ take (play_of self.entry).settled (play_of self.entry).labels }
    {
        let Play {
            accepted: _,
            state: _,
            mut labels,
            above: _,
            settled,
        } = self;
        labels.truncate(settled);
        labels
    }

    /// Makes one label. Returns out of memory also if numbers or locations have run out.
    pub fn make(&mut self, alloc: Global, label: Label) -> Result<(), StepFail>
        ensures ok { OnOk result (HasMadeLabel label (play_of self.old) (play_of self.new)) }
        ensures illegal { result ≡ Err StepFail.Illegal → weak_after (play_of self.old).weak label ≡ None }
        ensures err { OnErr result (play_of self.new ≡ play_of self.old) }
        ensures played { IsPlayedWeakly (play_of self.old) → IsPlayedWeakly (play_of self.new) }
    {
        let above = self.above_with(label)?;
        self.room()?;
        self.state.step(alloc, &label)?;
        self.labels.push_reserved(label);
        self.above = above;
        if self.state.active().is_none() {
            self.settled = self.labels.len();
        }
        Ok(())
    }

    /// Returns the least location above all that the labels and one more make.
    fn above_with(&self, label: Label) -> Result<u32, NoMemory>
        ensures { IfOk result (λ above. above ≡ max (play_of self.now).above (behind_location (label_location label))) }
    {
        match label_location(label) {
            Some(l) => match l.0.checked_add(1) {
                Some(behind) => Ok(self.above.max(behind)),
                None => Err(NoMemory),
            },
            None => Ok(self.above),
        }
    }

    /// Makes a place for one more label, if there is one more number for a member.
    fn room(&mut self) -> Result<(), NoMemory>
        ensures same { play_of self.new ≡ play_of self.old }
        ensures place { OnOk result (vec_len self.new.labels < vec_capacity self.new.labels) }
        ensures number { OnOk result ((play_of self.new).weak.state.next + length (play_of self.new).weak.spawns < 2 ^ 63) }
    {
        if !self.state.has_room() {
            return Err(NoMemory);
        }
        match self.labels.reserve(1) {
            Ok(()) => Ok(()),
            Err(_) => Err(NoMemory),
        }
    }
}
