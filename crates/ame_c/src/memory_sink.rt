//! A sink in memory that grows.

ghost use Rattle.std.specs.Prelude.{◌≡◌, [], Some};

use ame_io::{Failed, Sink};
use std::alloc::Global;

/// Keeps what is written, and fails if there is no memory.
#[derive(Drop)]
pub struct MemorySink {
    pub bytes: Vec<u8>,
    pub faults: u64,
}

impl MemorySink {
    /// Returns an empty page, without memory.
    pub(crate) fn new(alloc: Global) -> MemorySink
        ensures bytes { result.bytes.items ≡ [] }
        ensures faults { result.faults ≡ 0 }
    {
        MemorySink {
            bytes: Vec::new(alloc),
            faults: 0,
        }
    }
}

impl Sink for MemorySink {
    ghost written = { λ page. Some page.bytes.items };

    ghost faults = { λ page. page.faults };

    fn write(&mut self, piece: &[u8]) -> Result<usize, Failed> {
        match self.bytes.extend_from_slice(piece) {
            Ok(()) => Ok(piece.len()),
            Err(_) => {
                self.faults = self.faults.saturating_add(1);
                Err(Failed)
            }
        }
    }
}
