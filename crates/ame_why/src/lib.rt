//! Why a text is refused, as a person reads it.
#![tactic(auto)]

mod binders;
mod bytes;
mod caret;
mod entry;
mod heading;
mod journal_line;
mod parts;
mod placed;
mod position;
mod rule_pages;
mod rules;
mod spans;
mod tokens;
mod words;

pub use bytes::explain_bytes;
pub use caret::excerpt;
pub use entry::explain_entry;
pub use heading::heading_of;
pub use journal_line::explain_line;
pub use position::{Position, append_position, position_of};
pub use rule_pages::explain_rule;
pub use rules::explain_types;
pub use spans::tokens_of;
pub use tokens::explain_tokens;
