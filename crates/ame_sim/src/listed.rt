//! The chooser of a list of picks.
ghost use Rattle.std.specs.Prelude.{◌≡◌, ◌<◌, [], ◌∷◌, ◌++◌, Contains, IsOk, length, IfNone, IfOk, OnErr, option_to_list};
ghost use Rattle.ame_sim.specs.Strategy.{PicksSeats};
ghost use Rattle.ame_sim.specs.Listed.{picked_as_listed};

use crate::chooser::Chooser;
use ame_term::NoMemory;
use std::marker::Model;

/// Takes the next seat of its list for each question, and picks it if it may be picked. If it may not, or the list has no seat
/// left, it picks the first seat that may. Contracts see it as the seats that are left.
#[derive(Drop)]
pub struct Listed {
    seats: Vec<u32>,
    at: usize,
}

impl Model for Listed {
    ghost use Rattle.std.specs.Prelude.{ℕ, List, ◌≤◌, drop, vec_len};

    ghost Value = { List ℕ };

    ghost view = { λ chooser. drop chooser.at chooser.seats.items };

    ghost invariant = { λ chooser. chooser.at ≤ vec_len chooser.seats };
}

impl Listed {
    /// Makes the chooser of these picks, in the memory of their list.
    pub fn new(seats: Vec<u32>) -> Listed
        ensures { result ≡ seats.items }
    {
        Listed { seats, at: 0 }
    }

    /// Takes the next seat of the list.
    fn take(&mut self) -> Option<u32>
        ensures none { IfNone result (self.old ≡ []) }
        ensures rest { self.old ≡ option_to_list result ++ self.new }
    {
        let seat = self.seats.get(self.at).copied()?;
        self.at += 1;
        Some(seat)
    }
}

impl Chooser for Listed {
    ghost strategy = { picked_as_listed };

    /// Picks as the list says. It takes no memory.
    fn choose(&mut self, may: &[u32]) -> Result<u32, NoMemory>
        requires some { 0 < length may.now }
        ensures picks { IfOk result (Contains may.now) }
        ensures answers { IfOk result (λ seat. PicksSeats (picked_as_listed self.old) (may.now ∷ []) (seat ∷ []) (picked_as_listed self.new)) }
        ensures stays { OnErr result (PicksSeats (picked_as_listed self.old) [] [] (picked_as_listed self.new)) }
        ensures ok { IsOk result }
    {
        let Some(seat) = self.take() else {
            return Ok(may[0]);
        };
        if may.contains(&seat) {
            Ok(seat)
        } else {
            Ok(may[0])
        }
    }
}
