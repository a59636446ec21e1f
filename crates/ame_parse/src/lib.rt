//! The program of a list of tokens, or the first token at which the reading can't go on.
#![tactic(auto)]

mod ahead;
mod build;
mod fault;
mod forms;
mod grammar;
mod laws;
mod letters;
mod names;
mod parser;
mod reader;
mod ty;
mod words;

pub use fault::{ParseFault, Want};
pub use laws::{bytes_come_first, fault_is_expected, fault_is_first, one_program, spelled_is_read};
pub use parser::parse;
