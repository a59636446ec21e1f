//! The protocol of a speculating engine, as plain data: what its parts are, what each event makes of them, and what stands
//! throughout. A law is a lemma of `proofs/`.
#![tactic(auto)]

mod counters;
mod stop;
mod theorems;
mod types;

pub use counters::Counters;
pub use stop::Stop;
pub use theorems::events::{
    entries_take_rollbacks_off, events_keep_states_sound, runs_go_on, runs_keep_states_sound,
    runs_take_turns, runs_tell_their_entries, runs_turn_back_seldom, states_start_sound,
};
pub use theorems::{
    certificates_are_computed, ended_rows_commit, engines_open, engines_start,
    exhausted_members_open_alone, few_rollbacks_are_bounded, journals_tell_the_calls_of_visits,
    left_rows_commit, members_rise_after_visits, paid_turns_need_steps, rows_are_typed,
    undo_logs_stand_after_an_undo, unprotected_code_wakes_nobody,
    waiting_members_have_certificates,
};
pub use types::{Attempt, Limits, Task, Tried, UndoReason};
