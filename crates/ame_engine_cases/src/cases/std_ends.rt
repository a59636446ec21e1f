//! The ends of std, with a reader and a writer that fail once: no clause says that their errors are faults.

use ame_io::{Failed, Sink, Source, StdSink, StdSource};
use std::io;
use std::io::{ErrorKind, Read, Write};
use std::test::Fail;

/// Fails at its first call, and fills the buffer at each later one.
#[derive(Drop)]
struct ReadsLater {
    kind: ErrorKind,
    has_failed: bool,
}

impl Read for ReadsLater {
    fn read(&mut self, buf: &mut [u8]) -> io::Result<usize> {
        if !self.has_failed {
            self.has_failed = true;
            return Err(io::Error::from(self.kind));
        }
        buf.fill(7);
        Ok(buf.len())
    }
}

/// Kinds of errors that a reader starts with.
const KINDS: &[ErrorKind] = &[
    ErrorKind::Interrupted,
    ErrorKind::WouldBlock,
    ErrorKind::Other,
];

/// Returns what the first two reads of two bytes answer, and what the buffer then holds.
fn read_twice<R: Read + Drop>(
    reader: R,
) -> (Result<usize, Failed>, Result<usize, Failed>, [u8; 2]) {
    let mut source = StdSource::new(reader);
    let mut buf = [0; 2];
    let first = source.read(&mut buf);
    let second = source.read(&mut buf);
    (first, second, buf)
}

#[test]
fn the_first_error_is_answered_and_the_next_read_goes_on(rt: HostRuntime) {
    for &kind in KINDS {
        let reader = ReadsLater {
            kind,
            has_failed: false,
        };
        assert_eq!(rt; read_twice(reader), (Err(Failed), Ok(2), [7, 7]));
    }
}

/// Fails at its first call, or takes nothing, and takes every byte at each later one.
#[derive(Drop)]
struct WritesLater {
    error: Option<ErrorKind>,
    was_called: bool,
}

impl Write for WritesLater {
    fn write(&mut self, buf: &[u8]) -> io::Result<usize> {
        if self.was_called {
            return Ok(buf.len());
        }
        self.was_called = true;
        match self.error {
            Some(kind) => Err(io::Error::from(kind)),
            None => Ok(0),
        }
    }

    fn flush(&mut self) -> io::Result<()> {
        Ok(())
    }
}

#[test]
fn the_first_error_is_answered_and_the_next_write_goes_on(rt: HostRuntime) {
    let errors = [
        Some(ErrorKind::Interrupted),
        Some(ErrorKind::WouldBlock),
        Some(ErrorKind::Other),
        None,
    ];
    for error in errors {
        let mut sink = StdSink::new(WritesLater {
            error,
            was_called: false,
        });
        assert_eq!(rt; sink.write(b"ab"), Err(Failed));
        assert_eq!(rt; sink.write(b"ab"), Ok(2));
    }
}
