//! Workers that share one run by passing a baton: turns, and the row that each leaves.
#![tactic(auto)]

mod gate;
mod leading;
mod opening;
mod pause;
mod points;
mod shared;
mod turns;
mod worker;

pub use gate::{Gate, NoGate, Point};
pub use shared::{Opened, SeatPlace, SeatRow, Shared};
pub use turns::TurnRecord;
pub use worker::{TurnAnswer, Worker};
