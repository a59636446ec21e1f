//! A fragment's run by itself, and what an engine needs of a machine that makes such runs.
#![tactic(auto)]

mod runner;
mod theorems;
mod wants;

pub use runner::Runner;
pub use theorems::{
    fragments_are_runs, free_labels_are_runs, machines_on_typed_runs_can_run,
    protected_runs_are_labels,
};
pub use wants::{Input, Wants};
