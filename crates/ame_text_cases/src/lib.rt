//! Tests of texts: tokens, programs, terms, flat code, canonical forms, pages on faults and on certificates, tables of runs, words and a generated program.
//! The text of the generated program is read as a term that is written down here, and that term is accepted.
#![tactic(auto)]

mod accept;
#[cfg(test)]
mod cases;
mod laws;

pub use accept::accepted_workload;
pub use laws::{text_has_canonical_tokens, text_is_accepted, text_is_read, workload_is_typed};
