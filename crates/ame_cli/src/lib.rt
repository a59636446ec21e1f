//! Commands with their options, read from a list of words on the command line, or a usage fault.
#![tactic(auto)]

mod bounds;
mod command;
mod given;
mod item;
mod laws;
mod limits;
mod numbers;
mod read;
mod screen;
mod syntax;
mod verb;

pub use bounds::Bounds;
pub use command::{CliFail, Command, Options};
pub use item::Item;
pub use laws::{commands_in_range_are_spelled, spells_one_command};
pub use limits::{
    DIGIT_LIMIT, SEED_LIMIT, SIZE_LIMIT, SLICE_LIMIT, TURN_LIMIT, WORD_LIMIT, WORKER_LIMIT,
};
pub use read::read_words;
pub use verb::{Verb, VerbGrammar};
