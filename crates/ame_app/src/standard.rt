//! The devices of a process.

use ame_device::{Adder, Counter, Device, DeviceFail, Heard};

/// A device that a process gives its program.
#[derive(Drop)]
pub enum StandardDevice {
    Counter(Counter),
    Adder(Adder),
}

impl Device for StandardDevice {
    ghost use Rattle.ame_app.specs.Standard.{told_by};

    ghost device_told = { told_by };

    fn call(&mut self, argument: i64) -> Result<i64, DeviceFail> {
        match self {
            StandardDevice::Counter(device) => device.call(argument),
            StandardDevice::Adder(device) => device.call(argument),
        }
    }

    fn heard(&self) -> Option<&[Heard]> {
        match self {
            StandardDevice::Counter(device) => device.heard(),
            StandardDevice::Adder(device) => device.heard(),
        }
    }
}
