//! The answers of a write.

/// The answer to a write by a seat.
#[derive(Drop)]
pub enum Taken<V> {
    /// The cell had no owner, and this value and number. The seat owns it now.
    First(V, u64),
    /// The seat owned the cell, which had this value.
    Again(V),
    /// This other seat owns the cell. The value that was to be written is handed back.
    Owned(u32, V),
}
