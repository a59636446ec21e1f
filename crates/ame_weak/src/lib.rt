//! The weak semantics, and the journal of a weak run.
#![tactic(auto)]

mod bounds;
mod copy;
mod held;
mod let_go;
mod parts;
mod state;
mod step;
mod straightening;
mod theorems;
mod transcript;
mod tries;

pub use state::WeakState;
pub use straightening::{Straight, straighten};
pub use theorems::{
    calls_are_told_with, notes_are_of_the_tries, tries_straighten, values_stay_low,
    weak_calls_are_told, weak_labels_follow_the_rules, weak_runs_are_typed,
    weak_runs_follow_the_rules, weak_runs_straighten,
};
pub use tries::Try;
