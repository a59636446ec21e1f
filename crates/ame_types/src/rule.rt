//! The rules of typing, by the numbers that faults report.

/// A part is of another type than the form needs.
pub const TYPE_MISMATCH: u8 = 1;

/// A call is of something other than a function.
pub const NO_FUNCTION: u8 = 2;

/// The form may not stand under this effect.
pub const WRONG_EFFECT: u8 = 3;

/// The reference is of the sort of other code.
pub const WRONG_SORT: u8 = 4;

/// A read or a write is of something other than a reference.
pub const NO_REFERENCE: u8 = 5;

/// `blockUntil` stands outside of protected code.
pub const MISPLACED_BLOCK: u8 = 6;

/// `unprotected` stands outside of protected code.
pub const MISPLACED_UNPROTECTED: u8 = 7;

/// There is no device of this number.
pub const NO_DEVICE: u8 = 8;

/// A value is given at a place that discards it.
pub const NOT_UNIT: u8 = 9;

/// A part is taken of something other than a pair.
pub const NO_PAIR: u8 = 11;
