//! Lines of output: one, made on the stack, and all of them.
ghost use Rattle.std.specs.Prelude.{◌≡◌, ◌++◌, IfOk, OnOk, OnErr};
ghost use Rattle.std.specs.Io.KnownBytes.{Appends};
ghost use Rattle.ame_io.specs.Counts.{HasRisen};
ghost use Rattle.ame_io.specs.Lines.{line_of, lines};
ghost use Rattle.ame_io.specs.Writes.{AppendsFront};

use crate::ends::Sink;
use crate::whole_write::{WriteFault, write_all};
use arrayvec::ArrayString;
use itoa::Buffer;
use std::alloc::{AllocError, Global};

/// A line with its line feed. The longest is shorter than this.
pub type Line = ArrayString<64>;

/// Returns the line of an integer, in decimal. It takes no memory.
pub fn integer_line(n: &i64) -> Line
    ensures { result.bytes ≡ line_of n.now }
{
    let mut buffer = Buffer::new();
    let mut line = Line::new();
    line.push_str(buffer.format(*n));
    line.push_str("\n");
    line
}

/// Returns the lines of an output.
pub fn lines_of(alloc: Global, output: &[i64]) -> Result<Vec<u8>, AllocError>
    ensures { IfOk result (λ text. text.items ≡ lines output.now) }
{
    let mut text = Vec::new(alloc);
    for n in output {
        text.extend_from_slice(integer_line(n).as_str().as_bytes())?;
    }
    Ok(text)
}

/// Writes a whole line, or fails if the sink failed. It takes no memory.
pub fn write_line<K: Sink>(sink: &mut K, line: &Line) -> Result<(), WriteFault>
    ensures whole { OnOk result (Appends (K.written sink.old) (K.written sink.new) line.now.bytes) }
    ensures stayed { OnOk result (K.faults sink.new ≡ K.faults sink.old) }
    ensures front { OnErr result (AppendsFront (K.written sink.old) (K.written sink.new) line.now.bytes) }
    ensures risen { OnErr result (HasRisen (K.faults sink.old) (K.faults sink.new)) }
{
    write_all(sink, line.as_str().as_bytes())
}
