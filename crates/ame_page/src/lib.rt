//! A text that grows at its end: what tables, reports, programs and pictures are written on.
#![tactic(auto)]

mod escape;
mod format;
mod page;

pub use page::Page;
