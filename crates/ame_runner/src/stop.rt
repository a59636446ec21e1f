//! The reasons for which a run stops, and its report.

use ame_journal::{Certificate, Entry};
use ame_term::Label;
use ame_weak::Try;

/// Why a run stops.
#[derive(Drop)]
pub enum WeakStop {
    /// No member is left.
    Finished,
    /// Every member fails, as these certificates show.
    Blocked(Vec<Certificate>),
    /// The turns are used up.
    Spent,
    /// This device failed.
    DeviceFault(u8),
    /// A member was about to become a value 1,001 high, as this note shows.
    Tall(Entry),
    NoMemory,
}

/// A run that has stopped.
#[derive(Drop)]
pub struct WeakRun {
    /// Its labels, in order.
    pub labels: Vec<Label>,
    /// The fragments that were tried and came to nothing.
    pub tries: Vec<Try>,
    /// The turns that it took.
    pub turns: u32,
    pub stop: WeakStop,
}
