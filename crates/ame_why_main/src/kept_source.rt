//! A source that records what was read from it.

ghost use Rattle.std.specs.Prelude.{◌≡◌};

use ame_io::{Failed, Source};
use std::alloc::Global;

/// Reads from another source, and keeps the bytes that it gave, as far as there is memory for them.
#[derive(Drop)]
pub struct KeptSource<S> {
    source: S,
    bytes: Vec<u8>,
}

impl<S: Source> KeptSource<S> {
    pub fn new(alloc: Global, source: S) -> KeptSource<S> {
        KeptSource {
            source,
            bytes: Vec::new(alloc),
        }
    }

    /// Returns the bytes that were given.
    pub fn bytes(&self) -> &[u8] {
        &self.bytes
    }
}

impl<S: Source> Source for KeptSource<S> {
    ghost left = { λ s. S.left s.source };

    ghost faults = { λ s. S.faults s.source };

    fn read(&mut self, buf: &mut [u8]) -> Result<usize, Failed> {
        let count = self.source.read(buf)?;
        let _ = self.bytes.extend_from_slice(&buf[..count]);
        Ok(count)
    }
}
