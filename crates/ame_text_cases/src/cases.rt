//! The tests.

mod certificates;
mod code;
mod generated;
mod lines;
mod pages;
mod printed;
mod programs;
mod tables;
mod terms;
mod texts;
mod tokens;
mod words;
