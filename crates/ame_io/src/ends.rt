//! The promises of a source and a sink.
ghost use Rattle.std.specs.Prelude.{ℕ, ◌<◌, ◌≤◌, List, Option, length, IfOk};
ghost use Rattle.std.specs.Io.KnownBytes.{ReadConsumes, WriteAppends};
ghost use Rattle.ame_io.specs.Counts.{CountsFault};

/// The end had a fault in this call, and counted it.
#[derive(Clone, Copy, Debug, PartialEq, Eq)]
pub struct Failed;

/// A source of bytes.
pub trait Source {
    // The bytes that reads will give from here on, if the source reports them.
    ghost left: { Self → Option (List ℕ) };

    // The number of calls that have failed. It never falls, and a counter of 64 bits stays at its last value.
    ghost faults: { Self → ℕ };

    /// Moves bytes to the beginning of the buffer, and returns their number. Nothing is said of the bytes after them.
    fn read(&mut self, buf: &mut [u8]) -> Result<usize, Failed>
        requires has_room { 0 < length buf.old }
        // No bytes come only at the end of the input.
        ensures within { IfOk result (λ n. n ≤ length buf.new) }
        ensures bytes { ReadConsumes (left self.old) (left self.new) result buf.new }
        ensures counts { CountsFault result (faults self.old) (faults self.new) };
}

/// A sink of bytes.
pub trait Sink {
    // The bytes written, if the sink reports them.
    ghost written: { Self → Option (List ℕ) };

    // The number of calls that have failed. It never falls, and a counter of 64 bits stays at its last value.
    ghost faults: { Self → ℕ };

    /// Appends the first bytes of the piece, and returns their number.
    fn write(&mut self, piece: &[u8]) -> Result<usize, Failed>
        requires has_bytes { 0 < length piece.now }
        ensures some { IfOk result (λ n. 1 ≤ n) }
        ensures within { IfOk result (λ n. n ≤ length piece.now) }
        ensures bytes { WriteAppends (written self.old) (written self.new) result piece.now }
        ensures counts { CountsFault result (faults self.old) (faults self.new) };
}
