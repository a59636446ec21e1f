//! The turn and its seats: one shared state passes from seat to seat, and each seat knows what it
//! will find.
#![tactic(auto)]

mod seats;
mod state;
mod steps;
pub mod tally;
mod theorems;
mod turn;
mod view;

pub use seats::{Seat, SeatAt};
pub use state::{AnyRow, Leaves, Rowed, SEAT_LIMIT};
pub use theorems::{
    give_leaves_row_and_entries, rows_at_the_end_were_left, take_finds_what_was_left,
};
pub use turn::{Baton, Elsewhere};
pub use view::{Knows, LastSeen};
