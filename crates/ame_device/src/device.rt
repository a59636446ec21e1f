//! The promises of a device.
ghost use Rattle.std.specs.Prelude.{◌≡◌, option_map};
ghost use Rattle.ame_device.specs.declared.told.Told.{Told};
ghost use Rattle.ame_device.specs.Calls.{AnswersCall};

use crate::fault::DeviceFail;
use crate::told::Heard;

/// A device answers a call of unprotected code with an integer by an integer. A list of devices
/// takes any type that meets this trait.
pub trait Device: Drop {
    // Its kind; the calls that it answered, in order, if it reports them; and the number of calls that have failed. That
    // never falls, and a counter of 64 bits stays at its last value.
    ghost device_told: { Self → Told };

    /// Answers an argument.
    fn call(&mut self, argument: i64) -> Result<i64, DeviceFail>
        ensures answers { AnswersCall (device_told self.old) argument result (device_told self.new) };

    /// Returns the calls that it answered, in order, or `None` if it doesn't report them. Takes no memory.
    fn heard(&self) -> Option<&[Heard]>
        ensures { option_map (λ calls. calls.now) result ≡ (device_told self.now).heard };
}
