//! The checker of types: it accepts a typed program, and answers the first fault of any other.
#![tactic(auto)]

mod build;
mod check_state;
mod checker;
mod expect;
mod fault;
mod keys;
mod program;
pub mod rule;
mod shared_type;
mod site;
mod table;
mod type_scope;
mod unary;

pub use fault::{Shown, TypeFault, TypesFail};
pub use program::check;
