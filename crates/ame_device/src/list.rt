//! Calling one device of a list.
ghost use Rattle.std.specs.Prelude.{◌<◌, vec_len};
ghost use Rattle.ame_device.specs.Calls.{CallsDevice};

use crate::device::Device;
use crate::fault::DeviceFail;

/// Calls the device with a number, from 0.
pub fn call_device<D: Device>(
    devices: &mut Vec<D>,
    number: usize,
    argument: i64,
) -> Result<i64, DeviceFail>
    requires { number < vec_len devices.old }
    ensures { CallsDevice D.device_told devices.old.items number argument result devices.new.items }
{
    devices[number].call(argument)
}
