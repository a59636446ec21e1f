//! Theorems on runs by picks that are made again: each a function that does nothing, whose contract is the statement.
#![tactic(auto)]

mod repeats;

pub use repeats::{
    chosen_runs_repeat, picks_repeat, prepared_machines_are_one, replays_repeat, schedules_repeat,
    turns_repeat,
};
