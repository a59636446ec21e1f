//! Theorems on the calculus, beyond one run: each a function that does nothing, whose contract is the statement.
#![tactic(auto)]

mod dead;
mod names;
mod operators;
mod order;
mod weak;

pub use dead::blocked_is_dead;
pub use names::{
    names_of_locations_do_not_matter, renamed_certificates_replay, renamed_labels_run,
    runs_are_one_but_for_names,
};
pub use operators::operators_compute;
pub use order::{entries_are_runs, independent_entries_commute};
pub use weak::{strong_runs_are_weak, weak_runs_show_what_strong_runs_show};
