//! The picture of a run as one SVG file without script, and its events as one JSON text.
#![tactic(auto)]

mod constants;
mod course;
mod events;
mod layout;
mod marks;
mod picture;
mod svg;
mod words;

pub use course::{Labels, course_picture_of};
pub use events::{course_events_of, events_page_of};
pub use picture::{Captions, picture_of};
