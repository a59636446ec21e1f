//! Theorems over the theory of the engine: each a function that does nothing, whose contract is the statement.
#![tactic(auto)]

mod blocked;
mod doomed;
mod journals;
mod ran;
mod so_far;

pub use blocked::blocked_ends_are_final;
pub use doomed::{
    doomed_attempts_show_nothing, events_without_entries_show_nothing,
    machines_on_valid_rows_are_under_way, valid_rows_are_fragments,
};
pub use journals::{journals_compose, prefixes_replay, runs_have_journals};
pub use ran::{counters_tell_entries, first_stops_decide, members_turn_back_seldom};
pub use so_far::shells_tell_a_run_so_far;
