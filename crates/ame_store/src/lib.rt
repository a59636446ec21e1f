//! The store that seats write in place: cells with numbers and owners.
#![tactic(auto)]

mod cell;
mod store;
mod taken;

pub use cell::Cell;
pub use store::Store;
pub use taken::Taken;
