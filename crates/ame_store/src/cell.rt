//! Cells.

ghost use Rattle.std.specs.Prelude.{◌≡◌};

use ame_term::{Sort, TyNo};

/// One cell of a store. Its number grows with each change, and is even exactly if it has no owner.
/// A cell that isn't live is one that a seat made and has not released, or one that was killed.
#[derive(Drop)]
pub struct Cell<V> {
    pub sort: Sort,
    pub ty: TyNo,
    pub value: V,
    pub number: u64,
    pub owner: Option<u32>,
    pub live: bool,
}

impl<V> Cell<V> {
    ghost use Rattle.ame_store.specs.Cells.{CanGrow};
    ghost use Rattle.ame_store.specs.Changes.{let_go};

    // Its owner lets it go.
    pub(crate) fn let_go(&mut self)
        requires { CanGrow self.old }
        ensures { self.new ≡ let_go self.old }
    {
        self.number += 1;
        self.owner = None;
    }
}
