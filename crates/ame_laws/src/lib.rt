//! Laws of the language's definitions: rules, contexts, substitution, heights, typing, preservation and progress.
//! A law is a lemma of `proofs/`.
#![tactic(auto)]

mod theorems;

pub use theorems::{
    accepted_runs_are_typed, active_members_progress, after_follows_the_rules, closed_terms_stay,
    contexts_are_focus, entered_names, heights_are_of_what_is_held, labels_keep_given_types,
    labels_keep_types, labels_run_locally, local_steps_reduce, one_decomposition,
    reductions_follow_the_rows, ref_types_are_had, resting_members_progress, runs_follow_the_rules,
    states_progress, steps_keep_given_types, substitution_puts, substitutions_commute,
    table_gives_what_is_had, types_are_unique, what_the_table_gives_is_had,
};
