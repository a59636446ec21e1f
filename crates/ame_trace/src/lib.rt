//! A list that contracts alone see.
#![tactic(auto)]

mod trace;

pub use trace::Trace;
