//! The journal of a run: its entries, and what a run it stands for.
#![tactic(auto)]

mod certificate;
mod entry;
mod fault;
mod journal;
mod line;
mod numbers;
mod spelling;
mod text;
mod theorems;
mod words;

pub use certificate::Certificate;
pub use entry::{Entry, EntryKind};
pub use fault::JournalFault;
pub use journal::Journal;
pub use numbers::{number, signed_number};
pub use theorems::{
    accepted_replayed_is_typed, calls_are_of_the_labels, first_bad_line_is_one, journal_is_one_run,
    labels_are_one, notes_change_nothing, text_is_of_one_journal, unfolded_is_replayed,
};
pub use words::kind_of;
