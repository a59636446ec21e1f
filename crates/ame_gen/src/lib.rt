//! A large valid program from two numbers: a bank of eight accounts, and transfers between them that all run at once. It is
//! the workload with which runs are measured.
#![tactic(auto)]

mod laws;
mod lines;
mod no_memory;
mod numbers;
mod text;
mod transfers;

pub use laws::{
    first_balances, length_is_linear, money_stays, money_suffices, transfers_are_valid,
};
pub use no_memory::NoMemory;
pub use numbers::{Numbers, SEED_LIMIT};
pub use text::{SIZE_LIMIT, generate};
pub use transfers::Transfer;
