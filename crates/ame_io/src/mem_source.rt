//! A source in memory.
ghost use Rattle.std.specs.Prelude.{◌≡◌, ◌<◌, ◌≤◌, ◌++◌, ◌↔◌, Some, min, take, drop, length, IfOk, IsErr, OnOk, OnErr};
ghost use Rattle.std.specs.Io.KnownBytes.{ReadConsumes};
ghost use Rattle.ame_io.specs.Counts.{next_count, CountsFault};
ghost use Rattle.ame_io.specs.InMemory.{FailsNext};

use crate::ends::{Failed, Source};
use crate::plan::Plan;
use std::marker::Model;

/// Gives bytes from memory, in pieces of at most `chunk` bytes, and fails at the planned calls.
#[derive(Debug, Drop)]
pub struct MemSource {
    bytes: Vec<u8>,
    at: usize,
    chunk: usize,
    plan: Plan,
}

impl Model for MemSource {
    ghost use Rattle.std.specs.Prelude.{◌≤◌, drop, vec_len};
    ghost use Rattle.ame_io.specs.InMemory.{SourceState};

    ghost Value = { SourceState };

    ghost view = { λ s. record { left = drop s.at s.bytes.items; chunk = s.chunk; fails = s.plan.fails.items; calls = s.plan.calls; faults = s.plan.faults } };

    ghost invariant = { λ s. (s.at ≤ vec_len s.bytes) × (1 ≤ s.chunk) };
}

impl MemSource {
    /// Calls are numbered from 1. A call past the last number of 64 bits has that number.
    pub fn new(bytes: Vec<u8>, chunk: usize, fails: Vec<u64>) -> MemSource
        requires { 1 ≤ chunk }
        ensures { result ≡ record { left = bytes.items; chunk = chunk; fails = fails.items; calls = 0; faults = 0 } }
    {
        MemSource {
            bytes,
            at: 0,
            chunk,
            plan: Plan::new(fails),
        }
    }
}

impl Source for MemSource {
    ghost left = { λ s. Some s.left };

    ghost faults = { λ s. s.faults };

    fn read(&mut self, buf: &mut [u8]) -> Result<usize, Failed>
        requires has_room { 0 < length buf.old }
        ensures within { IfOk result (λ n. n ≤ length buf.new) }
        ensures bytes { ReadConsumes (Some self.old.left) (Some self.new.left) result buf.new }
        ensures counts { CountsFault result self.old.faults self.new.faults }

        ensures failed { IsErr result ↔ FailsNext self.old.fails self.old.calls }
        ensures given { IfOk result (λ n. n ≡ min self.old.chunk (min (length buf.old) (length self.old.left))) }
        ensures copied { IfOk result (λ n. buf.new ≡ take n self.old.left ++ drop n buf.old) }
        ensures ok { IfOk result (λ n. self.new
            ≡ record self.old { left = drop n self.old.left; calls = next_count self.old.calls }) }
        ensures err { OnErr result (self.new
            ≡ record self.old { calls = next_count self.old.calls; faults = next_count self.old.faults }) }
    {
        if self.plan.fails_next() {
            self.plan.count_fault();
            return Err(Failed);
        }
        let left = &self.bytes[self.at..];
        let n = self.chunk.min(buf.len().min(left.len()));
        buf[..n].copy_from_slice(&left[..n]);
        self.at += n;
        Ok(n)
    }
}
