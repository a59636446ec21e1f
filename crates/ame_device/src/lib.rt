//! Devices: what unprotected code calls with an integer, and what each heard.
#![tactic(auto)]

mod adder;
mod boxed;
mod call_log;
mod counter;
mod device;
mod fault;
mod laws;
mod list;
mod told;

pub use adder::Adder;
pub use call_log::CallLog;
pub use counter::Counter;
pub use device::Device;
pub use fault::DeviceFail;
pub use laws::want_of_memory_leaves_the_list;
pub use list::call_device;
pub use told::{DeviceKind, Heard, Told};
