//! The knowledge of a seat. No value of these types is made: only contracts and proofs speak of them.
use std::collections::LinkedList;

/// The knowledge of a seat: its part of the state, and the place of the turn.
pub struct Knows<F, R, E> {
    pub number: u32,
    /// `None` before the opening and after the end.
    pub fixed: Option<F>,
    pub row: R,
    /// The entries that it has seen.
    pub seen: LinkedList<E>,
    /// Its own entries.
    pub own: LinkedList<E>,
    pub holds: bool,
    /// The rows as taken, while it holds the turn.
    pub rows: LinkedList<R>,
    /// The number of seats that there can be.
    pub seats: u32,
    /// The number of seats that the first one has made, itself among them. It is 0 for the others.
    pub made: u32,
    /// The parts that the seats 1, 2 and so on left that have joined the first one.
    pub ended: LinkedList<LastSeen<R, E>>,
}

/// The part that a seat leaves.
pub struct LastSeen<R, E> {
    pub row: R,
    pub seen: LinkedList<E>,
    pub own: LinkedList<E>,
}
