//! The stream of numbers.
ghost use Rattle.std.specs.Prelude.{◌≡◌, ◌≤◌};
ghost use Rattle.ame_gen.specs.Stream.{next};

use std::marker::Model;

/// The greatest seed.
pub const SEED_LIMIT: u32 = 65_536;

/// A stream of numbers below 65,537, each made of the one before. Contracts see it as the number that it gave last, which
/// is the seed at first.
#[derive(Drop)]
pub struct Numbers {
    last: u32,
}

impl Model for Numbers {
    ghost use Rattle.std.specs.Prelude.{ℕ, ◌<◌};

    ghost Value = { ℕ };

    ghost view = { λ numbers. numbers.last };

    ghost invariant = { λ numbers. numbers.last < 65537 };
}

impl Numbers {
    /// Returns the stream that a seed begins. The seed itself isn't drawn.
    pub fn new(seed: u32) -> Numbers
        requires { seed ≤ SEED_LIMIT }
        ensures { result ≡ seed }
    {
        Numbers { last: seed }
    }

    /// Returns the next number.
    pub fn draw(&mut self) -> u32
        ensures answer { result ≡ next self.old }
        ensures after { self.new ≡ next self.old }
    {
        self.last = (75 * self.last + 74) % 65537;
        self.last
    }
}
