//! A replay of journals by the strong rules, on machines, at the speed of a run.
#![tactic(auto)]

mod entry_error;
mod halt;
mod input;
mod judging;
mod reason;
mod replay;
mod standing;
mod step;
mod stored;
mod theorems;
mod visit;
mod walk;

pub use entry_error::EntryError;
pub use halt::Halt;
pub use input::split_input;
pub use judging::{Judged, MOST_STEPS, judge};
pub use reason::Reason;
pub use replay::Replay;
pub use standing::Standing;
pub use stored::Stored;
pub use theorems::journals_are_judged_in_one_way;
