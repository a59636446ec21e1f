//! The pool of fragments: who may begin, who waits for what, and who is woken.
#![tactic(auto)]

mod counts;
mod index;
mod member;
mod members;
mod numbers;
mod oldest;
mod pool;
mod queue;
mod ready;
mod registry;
mod theorems;
mod turn;

pub use member::{Member, MemberStanding, ROLLBACK_LIMIT, Watch};
pub use oldest::Oldest;
pub use pool::{MachineCopy, Pool};
pub use theorems::found_are_all;
