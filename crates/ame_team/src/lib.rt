//! A team of workers in threads, and a whole run of a program by a team.
#![tactic(auto)]

mod run;
mod shared;
mod team;
mod worker_room;

pub use run::{resume_by_workers, run_by_workers};
