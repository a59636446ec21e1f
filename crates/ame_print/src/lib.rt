//! Canonical text of types, terms and programs: the text that reads back as the same program.
#![tactic(auto)]

mod heads;
mod print;
mod terms;
mod theorems;
mod token_page;
mod types;

pub use print::{print_program, print_term, print_ty};
pub use theorems::printed_is_read;
