//! The tries of a run, and who is put aside.

ghost use Rattle.std.specs.Prelude.{◌≡◌, ◌∷◌, ◌++◌, [], ℕ, ◌==◌, ◌&&◌, ◌||◌, ◌-◌, true, false, take, length, if◌then◌else◌, OnOk, OnErr, ◌<◌, vec_len, vec_capacity};
ghost use Rattle.std.specs.BTreeSet.{contains};
ghost use Rattle.std.specs.Ordering.{nat_cmp};
ghost use Rattle.ame_runner.specs.Notes.{without_cut, lets_try_again};

use crate::labels::label_location;
use ame_term::{Label, NoMemory};
use ame_weak::Try;
use std::alloc::Global;
use std::collections::BTreeSet;

/// The tries of a run so far, and the members that are put aside.
#[derive(Drop)]
pub struct Notes {
    tries: Vec<Try>,
    aside: BTreeSet<u64>,
}

impl Notes {
    ghost use Rattle.ame_runner.specs.View.{tries_made, aside_of};

    /// Returns notes with no tries and no member put aside.
    pub fn new(alloc: Global) -> Notes
        ensures tries { tries_made result ≡ [] }
        ensures aside { (i : ℕ) → aside_of result i ≡ false }
    {
        Notes {
            tries: Vec::new(alloc),
            aside: BTreeSet::new(alloc),
        }
    }

    /// Returns the members that are put aside.
    pub fn aside(&self) -> &BTreeSet<u64>
        ensures { contains nat_cmp result.now ≡ aside_of self.now }
    {
        &self.aside
    }

    /// Returns the tries in order, in the memory that they have.
    pub fn into_tries(self) -> Vec<Try>
        ensures { result.items ≡ tries_made self }
    {
        let Notes { tries, aside: _ } = self;
        tries
    }

    /// Removes the last try if it was cut off, and returns whether it was.
    pub fn let_cut_go(&mut self) -> bool
        ensures tries { tries_made self.new ≡ without_cut (tries_made self.old) }
        ensures none { result ≡ false → tries_made self.new ≡ tries_made self.old }
    {
        let cut = self.ends_cut();
        if cut {
            self.tries.pop();
        }
        cut
    }

    /// Returns whether the last try was cut off.
    fn ends_cut(&self) -> bool
        ensures yes { result ≡ true → take (length (tries_made self.now) - 1) (tries_made self.now) ≡ without_cut (tries_made self.now) }
        ensures no { result ≡ false → tries_made self.now ≡ without_cut (tries_made self.now) }
    {
        match self.tries.last() {
            Some(t) => !t.failing,
            None => false,
        }
    }

    /// Passes a label that was made. If a fragment has left or ended or a location is new, no member stays put aside.
    pub fn pass(&mut self, label: Label)
        ensures tries { tries_made self.new ≡ tries_made self.old }
        ensures aside { (i : ℕ) → aside_of self.new i ≡ (if lets_try_again label then false else aside_of self.old i) }
    {
        if lets_try_again(label) {
            self.aside.clear();
        }
    }

    /// Adds a try. If it failed, its member is put aside.
    pub fn add(&mut self, t: Try) -> Result<(), NoMemory>
        ensures tries { OnOk result (tries_made self.new ≡ tries_made self.old ++ t ∷ []) }
        ensures aside { OnOk result ((i : ℕ) → aside_of self.new i ≡ (t.failing && (t.certificate.number == i) || aside_of self.old i)) }
        ensures err { OnErr result (tries_made self.new ≡ tries_made self.old) }
    {
        self.room()?;
        if t.failing {
            self.put_aside(t.certificate.number)?;
        }
        self.tries.push_reserved(t);
        Ok(())
    }

    /// Makes a place for one more try.
    fn room(&mut self) -> Result<(), NoMemory>
        ensures tries { tries_made self.new ≡ tries_made self.old }
        ensures aside { (i : ℕ) → aside_of self.new i ≡ aside_of self.old i }
        ensures place { OnOk result (vec_len self.new.tries < vec_capacity self.new.tries) }
    {
        match self.tries.reserve(1) {
            Ok(()) => Ok(()),
            Err(_) => Err(NoMemory),
        }
    }

    /// Puts a member aside.
    fn put_aside(&mut self, number: u64) -> Result<(), NoMemory>
        ensures tries { self.new.tries ≡ self.old.tries }
        ensures aside { OnOk result ((i : ℕ) → aside_of self.new i ≡ ((number == i) || aside_of self.old i)) }
    {
        self.aside.insert(number)?;
        Ok(())
    }
}

/// Returns whether the members put aside may be tried again after a label.
fn lets_try_again(label: Label) -> bool
    ensures { result ≡ lets_try_again label }
{
    match label {
        Label::Leave | Label::End => true,
        _ => label_location(label).is_some(),
    }
}
