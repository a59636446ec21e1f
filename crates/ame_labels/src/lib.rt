//! The labels of a run, strong or weak, as rows.
#![tactic(auto)]

mod entry_count;
mod label_row;
mod marked;
mod numbering;
mod steps;
mod weak_order;
mod weak_row;

pub use numbering::entry_numbers;
pub use steps::steps_of;
pub use weak_order::weak_order_of;
