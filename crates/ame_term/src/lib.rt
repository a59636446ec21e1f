//! Terms, values and types of the language, their meaning as plain data, and the strong semantics
//! as definitions.
#![tactic(auto)]

mod accepted;
mod context;
mod copied;
mod copy;
mod focus;
mod forms;
mod heights;
mod locs;
mod memory;
mod operators;
mod program;
mod semantics;
mod substitution;
mod term;
mod types;

pub use accepted::Accepted;
pub use context::{refill, split};
pub use copied::Copied;
pub use copy::{copy_function, copy_parts, copy_term, copy_ty, copy_value};
pub use focus::Split;
pub use forms::Form;
pub use heights::{TALL, height};
pub use locs::Locs;
pub use memory::{NoMemory, boxed, push};
pub use operators::{Scalar, ScalarTy};
pub use program::Program;
pub use semantics::{Label, StepKind};
pub use substitution::substitute;
pub use term::{Function, Own, Term, Value};
pub use types::{Binary, Effect, Loc, Name, Op, Sort, Ty, TyNo, Unary};
