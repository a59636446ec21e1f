//! Reading a whole input.
ghost use Rattle.std.specs.Prelude.{◌≡◌, ◌≤◌, IfOk, IfErr, OnOk, vec_len};
ghost use Rattle.ame_io.specs.Reads.{IsReadWhole, LeftAfter, FaultsAfter};

use crate::append::append_within;
use crate::ends::{Failed, Source};
use std::alloc::Global;

/// The most bytes that a whole input may have.
pub const READ_LIMIT: usize = 1_048_576;

const CHUNK: usize = 8192;

/// Why a whole input wasn't read.
#[derive(Clone, Copy, Debug, PartialEq, Eq)]
pub enum ReadAllFail {
    ReadFault,
    /// The source gave more than `READ_LIMIT` bytes. It isn't read further.
    TooLong,
    NoMemory,
}

/// Reads to the end of the input, by reads of at most 8 KiB. The memory for `READ_LIMIT` bytes is taken before the
/// first read, and none later.
pub fn read_all<S: Source>(alloc: Global, source: &mut S) -> Result<Vec<u8>, ReadAllFail>
    ensures whole { IfOk result (λ bytes. IsReadWhole (S.left source.old) (S.left source.new) bytes.items) }
    ensures most { IfOk result (λ bytes. vec_len bytes ≤ READ_LIMIT) }
    ensures stayed { OnOk result (S.faults source.new ≡ S.faults source.old) }

    // Too long only if more than the limit was given, and a fault only if no more was.
    ensures left { IfErr result (λ e. LeftAfter e (S.left source.old) (S.left source.new)) }
    ensures faults { IfErr result (λ e. FaultsAfter e (S.faults source.old) (S.faults source.new)) }
{
    let Ok(mut bytes) = Vec::with_capacity(alloc, READ_LIMIT) else {
        return Err(ReadAllFail::NoMemory);
    };
    let mut chunk = [0; CHUNK];
    'reads: loop {
        match source.read(&mut chunk) {
            Ok(0) => return Ok(bytes),
            Ok(n) if n > READ_LIMIT - bytes.len() => return Err(ReadAllFail::TooLong),
            Ok(n) => append_within(&mut bytes, &chunk[..n]),
            Err(Failed) => return Err(ReadAllFail::ReadFault),
        }
    }
}
