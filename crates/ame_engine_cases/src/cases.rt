//! The tests.

mod baton;
mod memories;
mod pools;
mod std_ends;
