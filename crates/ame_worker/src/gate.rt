//! The points that a worker passes.

/// The point of a worker's turn, with the number of the member.
#[derive(Clone, Copy, PartialEq, Eq, Debug)]
pub enum Point {
    /// It began the member.
    Began(u64),
    /// Anything that no other point names.
    Stepped,
    /// It committed the member's fragment.
    Ran(u64),
    /// It visited the member, which is inside.
    Freed(u64),
    /// The member went home.
    Home(u64),
    /// No ready member may begin.
    Idle,
    /// A stop is kept, and it has nothing at work.
    Stopped,
}

/// A gate that each worker passes after each of its turns, once it has given the turn back. A worker that leads passes it after each event.
/// It may hold the worker.
pub trait Gate {
    fn pass(&self, seat: u32, point: Point);

    /// Returns whether it may hold a worker until another one has come somewhere. If it never does, one worker leads, and the others come
    /// once they could help.
    fn may_hold(&self) -> bool {
        true
    }
}

/// A gate that lets every worker pass.
#[derive(Clone, Copy)]
pub struct NoGate;

impl Gate for NoGate {
    fn pass(&self, _seat: u32, _point: Point) {}

    fn may_hold(&self) -> bool {
        false
    }
}
