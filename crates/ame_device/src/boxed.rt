//! A boxed device: a call goes to the device inside.
use crate::device::Device;
use crate::fault::DeviceFail;
use crate::told::Heard;

impl Device for Box<dyn Device + Send> {
    ghost device_told = { λ b. (Device-box b).device_told b.value };

    fn call(&mut self, argument: i64) -> Result<i64, DeviceFail> {
        (**self).call(argument)
    }

    fn heard(&self) -> Option<&[Heard]> {
        (**self).heard()
    }
}
