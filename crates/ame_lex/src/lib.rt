//! Tokens of a program's text, or its first error and the place of that.
#![tactic(auto)]

mod classes;
mod laws;
mod lexer;
mod numbers;
mod pieces;
mod runs;
mod tokens;

pub use laws::{fault_is_first, grammar_is_reading, one_outcome, tokens_lie_within};
pub use lexer::lex;
pub use tokens::{Kind, LexFault, Token};
