//! A sink in memory.
ghost use Rattle.std.specs.Prelude.{◌≡◌, ◌<◌, ◌≤◌, ◌-◌, [], ◌++◌, ◌↔◌, ◌⊎◌, Some, min, take, length, IfOk, IsErr, OnErr};
ghost use Rattle.std.specs.Io.KnownBytes.{WriteAppends};
ghost use Rattle.ame_io.specs.Counts.{next_count, CountsFault};
ghost use Rattle.ame_io.specs.InMemory.{FailsNext};

use crate::append::append_within;
use crate::ends::{Failed, Sink};
use crate::no_memory::NoMemory;
use crate::plan::Plan;
use std::alloc::Global;
use std::marker::Model;

/// Keeps bytes in memory, in pieces of at most `chunk` bytes while there is room, and fails at the planned
/// calls, and when no room is left.
#[derive(Debug, Drop)]
pub struct MemSink {
    bytes: Vec<u8>,
    room: usize,
    chunk: usize,
    plan: Plan,
}

impl Model for MemSink {
    ghost use Rattle.std.specs.Prelude.{◌≤◌, ◌+◌, vec_len, vec_capacity};
    ghost use Rattle.ame_io.specs.InMemory.{SinkState};

    ghost Value = { SinkState };

    ghost view = { λ s. record { written = s.bytes.items; room = s.room; chunk = s.chunk; fails = s.plan.fails.items; calls = s.plan.calls; faults = s.plan.faults } };

    ghost invariant = { λ s. (vec_len s.bytes + s.room ≤ vec_capacity s.bytes) × (1 ≤ s.chunk) };
}

impl MemSink {
    /// Takes the memory for `room` bytes, and the sink takes none later. Calls are numbered from 1. A call past the last
    /// number of 64 bits has that number.
    pub fn new(
        alloc: Global,
        room: usize,
        chunk: usize,
        fails: Vec<u64>,
    ) -> Result<MemSink, NoMemory>
        requires { 1 ≤ chunk }
        ensures { IfOk result (λ sink. sink
            ≡ record { written = []; room = room; chunk = chunk; fails = fails.items; calls = 0; faults = 0 }) }
    {
        let bytes = Vec::with_capacity(alloc, room)?;
        Ok(MemSink {
            bytes,
            room,
            chunk,
            plan: Plan::new(fails),
        })
    }

    pub fn written(&self) -> &[u8]
        ensures { result.now ≡ self.now.written }
    {
        &self.bytes
    }
}

impl Sink for MemSink {
    ghost written = { λ s. Some s.written };

    ghost faults = { λ s. s.faults };

    fn write(&mut self, piece: &[u8]) -> Result<usize, Failed>
        requires has_bytes { 0 < length piece.now }
        ensures some { IfOk result (λ n. 1 ≤ n) }
        ensures within { IfOk result (λ n. n ≤ length piece.now) }
        ensures bytes { WriteAppends (Some self.old.written) (Some self.new.written) result piece.now }
        ensures counts { CountsFault result self.old.faults self.new.faults }

        ensures failed { IsErr result ↔ (FailsNext self.old.fails self.old.calls ⊎ (self.old.room ≡ 0)) }
        ensures taken { IfOk result (λ n. n ≡ min self.old.chunk (min (length piece.now) self.old.room)) }
        ensures ok { IfOk result (λ n. self.new
            ≡ record self.old { written = self.old.written ++ take n piece.now; room = self.old.room - n; calls = next_count self.old.calls }) }
        ensures err { OnErr result (self.new
            ≡ record self.old { calls = next_count self.old.calls; faults = next_count self.old.faults }) }
    {
        if self.plan.fails_next() || self.room == 0 {
            self.plan.count_fault();
            return Err(Failed);
        }
        let n = self.chunk.min(piece.len().min(self.room));
        append_within(&mut self.bytes, &piece[..n]);
        self.room -= n;
        Ok(n)
    }
}
