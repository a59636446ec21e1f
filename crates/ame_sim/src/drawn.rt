//! The chooser of a seed.
ghost use Rattle.std.specs.Prelude.{◌≡◌, ◌<◌, ◌≤◌, [], ◌∷◌, Contains, IsOk, length, IfOk, OnErr};
ghost use Rattle.ame_sim.specs.Strategy.{PicksSeats};
ghost use Rattle.ame_sim.specs.Drawn.{drawn};

use crate::chooser::Chooser;
use ame_gen::{Numbers, SEED_LIMIT};
use ame_term::NoMemory;
use std::marker::Model;

/// Draws a number for each question, and picks the seat at that place of the list, counted round and round. It draws even
/// if only one seat may be picked. Contracts see it as the number that it drew last, which is the seed at first.
#[derive(Drop)]
pub struct Drawn {
    numbers: Numbers,
}

impl Model for Drawn {
    ghost use Rattle.std.specs.Prelude.{ℕ};

    ghost Value = { ℕ };

    ghost view = { λ chooser. chooser.numbers };
}

impl Drawn {
    /// Makes the chooser of a seed. It takes no memory.
    pub fn new(seed: u32) -> Drawn
        requires { seed ≤ SEED_LIMIT }
        ensures { result ≡ seed }
    {
        Drawn {
            numbers: Numbers::new(seed),
        }
    }
}

impl Chooser for Drawn {
    ghost strategy = { drawn };

    /// Picks by the next number. It takes no memory.
    fn choose(&mut self, may: &[u32]) -> Result<u32, NoMemory>
        requires some { 0 < length may.now }
        ensures picks { IfOk result (Contains may.now) }
        ensures answers { IfOk result (λ seat. PicksSeats (drawn self.old) (may.now ∷ []) (seat ∷ []) (drawn self.new)) }
        ensures stays { OnErr result (PicksSeats (drawn self.old) [] [] (drawn self.new)) }
        ensures ok { IsOk result }
    {
        let place = self.numbers.draw() as usize % may.len();
        Ok(may[place])
    }
}
