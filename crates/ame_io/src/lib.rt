//! Sources and sinks of bytes, in memory and real, the reading of a whole input and the writing of a whole
//! text.
#![tactic(auto)]

mod append;
mod ends;
mod line;
mod mem_sink;
mod mem_source;
mod no_memory;
mod plan;
mod std_sink;
mod std_source;
mod whole_read;
mod whole_write;

pub use ends::{Failed, Sink, Source};
pub use line::{Line, integer_line, lines_of, write_line};
pub use mem_sink::MemSink;
pub use mem_source::MemSource;
pub use no_memory::NoMemory;
pub use std_sink::StdSink;
pub use std_source::StdSource;
pub use whole_read::{READ_LIMIT, ReadAllFail, read_all};
pub use whole_write::{WriteFault, write_all};
