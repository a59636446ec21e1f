//! A list that grows at its end, and that contracts alone see.

ghost use Rattle.std.specs.Prelude.{◌≡◌, ◌++◌, ◌∷◌, []};

use std::marker::Model;
use std::snapshot::Snapshot;

/// A list of values as contracts see them. It holds none of them, so it takes no memory, and a push no time.
#[derive(Drop)]
pub struct Trace<V> {
    last: Option<(Snapshot<Trace<V>>, Snapshot<V>)>,
}

impl<V> Model for Trace<V> {
    ghost use Rattle.std.specs.Prelude.{List, length};
    ghost use Rattle.std.proofs.Common.{arith, length-append};
    ghost use Rattle.ame_trace.specs.Traced.{traced};

    ghost Value = { List V };

    ghost view = { λ trace. traced trace.last };

    ghost size = { length };

    ghost size_decreases = { λ a h. Prim.grind (arith, length-append) };
}

impl<V> Trace<V> {
    /// Returns the empty list.
    pub fn new() -> Trace<V>
        ensures { result ≡ [] }
    {
        Trace { last: None }
    }

    /// Adds a value at the end, as contracts see it now.
    pub fn push(&mut self, value: &V)
        ensures { self.new ≡ self.old ++ value.now ∷ [] }
    {
        let earlier = Snapshot::of(self);
        self.last = Some((earlier, Snapshot::of(value)));
    }
}
