//! Runs of the weak semantics: the labels so far, who may go on, members that are tried on a copy, and the notes of tries.
#![tactic(auto)]

mod choices;
mod choosing;
mod freeing;
mod labels;
mod notes;
mod play;
mod run;
mod running;
mod stop;
mod stopping;
mod theorems;
mod trial;

pub use choices::{candidates, drawn};
pub use freeing::{FreeStep, next_free};
pub use notes::Notes;
pub use play::Play;
pub use running::weak_run;
pub use stop::{WeakRun, WeakStop};
pub use theorems::{notes_stand_apart, tried_fragments_hold, turns_are_told};
pub use trial::{AttemptEnd, TriedOut, kind_of, note_of, try_member};
