//! Limits of a command's numbers and of its words.

pub const WORKER_LIMIT: u32 = 32;

pub const TURN_LIMIT: u32 = 4_000_000;

pub const SLICE_LIMIT: u32 = 1_000;

pub const SEED_LIMIT: u32 = 65_536;

pub const SIZE_LIMIT: u32 = 4_000;

/// The most digits of a number word.
pub const DIGIT_LIMIT: usize = 10;

/// The most words of a list that is read; no command has as many.
pub const WORD_LIMIT: usize = 16;
