//! The errors of a journal's text.

/// Why a text gave no journal.
#[derive(Clone, Copy, PartialEq, Eq, Debug)]
pub enum JournalFault {
    /// The line of this number, counted from 1, is the first that spells no entry.
    BadLine(u32),
    NoMemory,
}
