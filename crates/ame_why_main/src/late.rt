//! A sink that keeps the verdict line back.

ghost use Rattle.std.specs.Prelude.{◌≡◌, None};

use ame_io::{Failed, Sink, WriteFault, write_all};
use std::alloc::Global;

/// Writes to another sink, but holds back everything from a verdict line on, which begins with a letter, as far as there is
/// memory for it.
#[derive(Drop)]
pub struct Late<K> {
    sink: K,
    held: Vec<u8>,
}

impl<K: Sink> Late<K> {
    pub fn new(alloc: Global, sink: K) -> Late<K> {
        Late {
            sink,
            held: Vec::new(alloc),
        }
    }

    /// Writes what was kept back.
    pub fn release(&mut self) -> Result<(), WriteFault> {
        write_all(&mut self.sink, &self.held)
    }

    /// Writes bytes at once, whatever they begin with.
    pub fn pass(&mut self, bytes: &[u8]) -> Result<(), WriteFault> {
        write_all(&mut self.sink, bytes)
    }
}

impl<K: Sink> Sink for Late<K> {
    ghost written = { λ _. None };

    ghost faults = { λ s. K.faults s.sink };

    fn write(&mut self, piece: &[u8]) -> Result<usize, Failed> {
        let is_kept = !self.held.is_empty() || matches!(piece.first(), Some(b'a'..=b'z'));
        if is_kept && self.held.extend_from_slice(piece).is_ok() {
            return Ok(piece.len());
        }
        self.sink.write(piece)
    }
}
