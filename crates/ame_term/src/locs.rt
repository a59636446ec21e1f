//! Lists of locations.

ghost use Rattle.std.specs.Prelude.{◌≡◌, map};

use crate::types::Loc;
use std::marker::Model;

/// Locations in an order. Contracts see the list of their numbers.
#[derive(Drop)]
pub struct Locs {
    items: Vec<Loc>,
}

impl Model for Locs {
    ghost use Rattle.std.specs.Prelude.{List, ℕ, map};

    ghost Value = { List ℕ };

    ghost view = { λ a. map (λ l. l.0) a.items.items };
}

impl Locs {
    /// Returns the locations of a vector, whose memory they keep.
    pub fn from_vec(items: Vec<Loc>) -> Locs
        ensures { result ≡ map (λ l. l.0) items.items }
    {
        Locs { items }
    }

    /// Returns the locations, in order.
    pub fn as_slice(&self) -> &[Loc]
        ensures { self.now ≡ map (λ l. l.0) result.now }
    {
        self.items.as_slice()
    }
}
