//! The turns of seats over an engine with its sink and its devices, and what a run leaves of them.
#![tactic(auto)]

mod accesses;
mod acts;
mod events;
mod io;
mod prepares;
mod remains;
mod rows;
mod shell;
mod spends;
mod theorems;
mod visits;
mod work;

pub use io::Io;
pub use prepares::{prepare, prepare_seat};
pub use remains::Remains;
pub use shell::Shell;
pub use theorems::machines_on_their_seats_can_run;
pub use work::{Outcome, Turn, Work};
