//! Theorems on the judge's answers to the journals of runs: each is a function that does nothing, and its contract is the statement.
#![tactic(auto)]

mod ended;
mod judged;
mod machines;
mod runs;
mod weak;

pub use ended::{bases_stay_low, ended_runs_are_judged_valid};
pub use judged::{journals_are_judged_valid, journals_are_never_invalid};
pub use machines::{machines_make_low_events, machines_stay_low};
pub use runs::{
    engine_runs_stay_low, judged_certificates_go_on, runs_are_judged_valid, runs_are_never_invalid,
};
pub use weak::{weak_journals_are_judged_valid, weak_journals_stay_low};
