ghost use Rattle.std.specs.Prelude.{◌≡◌};
ghost use Rattle.ame_baton.specs.Batons.{knows};

use super::SeatAt;

impl<S, F, R, E> SeatAt<S, F, R, E> {
    /// Returns the number of the seat. The first one has 0.
    pub fn number(&self) -> u32
        ensures { result ≡ (knows self.now).number }
    {
        self.number
    }
}
