//! The trait of choosers, with their promises.
ghost use Rattle.std.specs.Prelude.{ℕ, ◌<◌, List, [], ◌∷◌, Contains, length, IfOk, OnErr};
ghost use Rattle.ame_sim.specs.Strategy.{PicksSeats};

use ame_term::NoMemory;

/// Picks the seat that makes the next turn. Contracts see a chooser as its strategy: what it would pick, were it asked
/// these questions one after the other. A question is the list of the seats that may be picked.
pub trait Chooser: Drop {
    ghost strategy: { Self → List (List ℕ) → List ℕ };

    /// Picks one of these seats. If it runs out of memory, the same question may be asked again.
    fn choose(&mut self, may: &[u32]) -> Result<u32, NoMemory>
        requires some { 0 < length may.now }
        ensures picks { IfOk result (Contains may.now) }
        ensures answers { IfOk result (λ seat. PicksSeats (strategy self.old) (may.now ∷ []) (seat ∷ []) (strategy self.new)) }
        ensures stays { OnErr result (PicksSeats (strategy self.old) [] [] (strategy self.new)) };
}
