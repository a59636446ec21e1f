//! Reads and writes schedules as text: the seats that were picked, in order, as one line.
mod fault;
mod read;
mod sign;
mod write;

pub use fault::ScheduleFault;
pub use read::{Scheduled, read_schedule};
pub use sign::sign_of;
pub use write::{schedule_line, schedule_text};
