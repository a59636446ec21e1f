//! The baton: the queue of one place that holds the turn.
use crate::state::Rowed;
use crate::steps::TurnRule;
use crate::view::Knows;
use crossbeam_queue::RuledArrayQueue;

mod ending;
mod opening;
mod passing;

pub use passing::Elsewhere;

/// The one shared state, in a queue of capacity one. What is in the queue is the turn.
#[derive(Drop)]
pub struct Baton<S: Rowed> {
    queue: RuledArrayQueue<S, Knows<S::Fixed, S::Row, S::Entry>, TurnRule<S>>,
}
