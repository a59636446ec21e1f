//! The names of a program, by their numbers.

ghost use Rattle.std.specs.Prelude.{◌≡◌, ◌+◌, ◌<◌, ◌≤◌, [], map, length, IfOk, OnErr};
ghost use Rattle.ame_parse.specs.Names as spec;

use indexmap::IndexSet;
use std::alloc::{AllocError, Global};
use std::marker::Model;

#[derive(Drop)]
pub struct Names {
    set: IndexSet<Vec<u8>>,
}

impl Model for Names {
    ghost use Rattle.std.specs.Prelude.{List, ℕ, map};

    ghost Value = { List (List ℕ) };

    ghost view = { λ n. map (λ name. name.items) n.set.keys };
}

impl Names {
    pub fn new(alloc: Global) -> Names
        ensures { result ≡ [] }
    {
        Names {
            set: IndexSet::new(alloc),
        }
    }

    /// Returns the number of a name. A name that is not among those so far becomes the last one.
    pub fn number(&mut self, alloc: Global, name: &[u8]) -> Result<usize, AllocError>
        ensures number { IfOk result (λ n. n ≡ spec.number_in self.old name.now) }
        ensures names { IfOk result (λ n. self.new ≡ spec.with_name self.old name.now) }
        ensures few { length self.new ≤ length self.old + 1 }
        ensures err { OnErr result (self.new ≡ self.old) }
        ensures within { IfOk result (λ n. n < length self.new) }
    {
        let (number, _) = self.set.insert_full(Vec::from_slice(alloc, name)?)?;
        Ok(number)
    }

    pub fn into_list(self, alloc: Global) -> Result<Vec<Vec<u8>>, AllocError>
        ensures { IfOk result (λ list. map (λ name. name.items) list.items ≡ self) }
    {
        let Names { set } = self;
        set.into_iter().collect(alloc)
    }
}
