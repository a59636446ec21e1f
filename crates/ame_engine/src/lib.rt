//! The speculating engine for many seats.
#![tactic(auto)]

mod answer;
mod ended;
mod engine;
mod pick;
mod resume_fail;

pub use ame_protocol::{Counters, Stop};
pub use answer::{Begin, Checked, Freed, Noted, Undone, Wrote};
pub use ended::Ended;
pub use engine::{Engine, cells_of};
pub use resume_fail::ResumeFail;
