//! Views of a run: its journal as a table, and what it counted, stored and waits for.
#![tactic(auto)]

mod begun;
mod counts;
mod forms;
mod input;
mod line_index;
mod nexts;
mod node_places;
mod replayed;
mod row;
mod standing_lines;
mod standings;
mod starter_column;
mod starters;
mod stored;
mod table;
mod trace;
mod waits;

pub use counts::{counts_of, weak_counts_of};
pub use forms::{Created, forms_of};
pub use input::{input_is_of_one_run, input_of, journal_of};
pub use replayed::{ReplayedRun, replayed_run_of};
pub use standings::{halted_of, standings_of};
pub use starters::Starter;
pub use stored::store_of;
pub use table::table_of;
pub use trace::trace_of;
pub use waits::waits_of;
