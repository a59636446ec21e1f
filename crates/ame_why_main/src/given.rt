//! A source that can't be read.

ghost use Rattle.std.specs.Prelude.{None};

use ame_io::{Failed, Source};

/// A file that couldn't be opened: each read fails.
#[derive(Drop)]
pub struct Unopened {
    faults: u64,
}

impl Unopened {
    pub fn new() -> Unopened {
        Unopened { faults: 0 }
    }
}

impl Source for Unopened {
    ghost left = { λ _. None };

    ghost faults = { λ s. s.faults };

    fn read(&mut self, _buf: &mut [u8]) -> Result<usize, Failed> {
        self.faults = self.faults.saturating_add(1);
        Err(Failed)
    }
}
