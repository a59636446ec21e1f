//! The logs of a seat: what it read, what it was given, and how to undo what it wrote.
#![tactic(auto)]

mod access;
mod letting_go;
mod memory;
mod notes;
mod row;
mod rows;
mod theorems;

pub use memory::Memory;
pub use notes::{Bad, ReadNote, Undo};
pub use row::Row;
pub use theorems::{releases_commit, unprotected_code_commits};
