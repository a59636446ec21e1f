//! Structs that cross to C.

ghost use Rattle.std.specs.Prelude.{◌≡◌};
ghost use Rattle.ame_c.specs.CallResult.{options_of};

use ame_cli::Options;

/// The limits of a run: `--workers`, `--turns` and `--slice` of `ame`.
#[repr(C)]
#[derive(Clone, Copy)]
pub struct RunLimits {
    pub workers: u32,
    pub turns: u32,
    pub slice: u32,
}

impl RunLimits {
    /// Returns the options that these are.
    pub(crate) fn options(&self) -> Options
        ensures { result ≡ options_of self.now }
    {
        Options {
            workers: self.workers,
            turns: self.turns,
            slice: self.slice,
        }
    }
}

/// The number in the line of a status, and how many bytes each text has in all.
#[repr(C)]
#[derive(Clone, Copy)]
pub struct Whole {
    pub number: u64,
    pub lines: usize,
    pub certificate: usize,
    pub schedule: usize,
}
