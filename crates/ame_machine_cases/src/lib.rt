//! Machines that run alone, and tests of all that steps without an engine: machines, the strong and the weak semantics as programs, and
//! the judge of journals.
#![tactic(auto)]

mod cells;
mod lone;
mod serve;

pub use cells::Cell;
pub use lone::Lone;

#[cfg(test)]
mod journals;
#[cfg(test)]
mod strong;
#[cfg(test)]
mod texts;
#[cfg(test)]
mod wants;
#[cfg(test)]
mod weak;
