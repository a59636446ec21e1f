//! The promise of a run by the rules alone, from the text that it reads to the lines that it writes.
#![tactic(auto)]

mod call;
mod process;
mod theorems;

pub use ame_app::{exit_of, process_words};
pub use call::run_by_the_rules;
pub use process::run_process;
pub use theorems::{certificates_round_trip, each_run, one_run, picked_runs_repeat};
