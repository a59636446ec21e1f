//! The behavior of source and sink.

use crate::fault::Fault;
use crate::item::Item;
use crate::text::numbers;
use std::alloc::Global;

/// Describes the behavior of source and sink.
#[derive(Drop)]
pub struct Ends {
    /// The most bytes of a read, and of a write.
    pub read_chunk: usize,
    pub write_chunk: usize,
    /// The reads, and the writes, that fail, by their numbers from 1.
    pub failing_reads: Vec<u64>,
    pub failing_writes: Vec<u64>,
    /// Limits the bytes that the sink takes in all.
    pub room: usize,
}

impl Ends {
    /// Ends that never fail.
    pub fn ample(alloc: Global) -> Ends {
        Ends {
            read_chunk: 4096,
            write_chunk: 4096,
            failing_reads: Vec::new(alloc),
            failing_writes: Vec::new(alloc),
            room: 1_048_576,
        }
    }

    /// Takes what an item says of them.
    pub fn take(&mut self, alloc: Global, item: &Item) -> Result<(), Fault> {
        match item.key.as_str() {
            "read-chunk" => self.read_chunk = item.size()?,
            "write-chunk" => self.write_chunk = item.size()?,
            "read-fails" => self.failing_reads = numbers(alloc, item)?,
            "write-fails" => self.failing_writes = numbers(alloc, item)?,
            "room" => self.room = item.size()?,
            _ => return Err(item.fault("there is no such key")),
        }
        Ok(())
    }
}
