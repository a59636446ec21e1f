//! A device that adds.
ghost use Rattle.std.specs.Prelude.{◌≡◌, ◌≢◌, [], ◌∷◌, ◌++◌, Some, Err, IfOk};
ghost use Rattle.ame_device.specs.Calls.{AnswersCall, arguments, told};
ghost use Rattle.ame_device.specs.Sums.{wrapping_sum};
ghost use Rattle.ame_device.specs.declared.told.DeviceKind.{DeviceKind};

use crate::call_log::CallLog;
use crate::device::Device;
use crate::fault::DeviceFail;
use crate::told::Heard;
use std::alloc::Global;
use std::marker::Model;

/// Answers the sum of all arguments that it heard, this one among them, which wraps at 64 bits. It never
/// fails.
#[derive(Drop)]
pub struct Adder {
    log: CallLog,
    sum: i64,
}

impl Model for Adder {
    ghost use Rattle.std.specs.Prelude.{◌≡◌};
    ghost use Rattle.ame_device.specs.Calls.{arguments};
    ghost use Rattle.ame_device.specs.InMemory.{Calls};
    ghost use Rattle.ame_device.specs.Sums.{wrapping_sum};

    ghost Value = { Calls };

    ghost view = { λ device. device.log };

    ghost invariant = { λ device. device.sum ≡ wrapping_sum (arguments device.log.heard) };
}

impl Adder {
    /// Makes a device that heard nothing yet, without memory.
    pub fn new(alloc: Global) -> Adder
        ensures { result ≡ record { heard = []; faults = 0 } }
    {
        Adder {
            log: CallLog::new(alloc),
            sum: 0,
        }
    }
}

impl Device for Adder {
    ghost device_told = { λ device. told DeviceKind.Adder (Some device.heard) device.faults };

    fn call(&mut self, argument: i64) -> Result<i64, DeviceFail>
        ensures answers { AnswersCall (told DeviceKind.Adder (Some self.old.heard) self.old.faults) argument result (told DeviceKind.Adder (Some self.new.heard) self.new.faults) }
        ensures answer { IfOk result (λ answer. answer ≡ wrapping_sum (arguments self.old.heard ++ argument ∷ [])) }
        ensures never_fails { result ≢ Err DeviceFail.Failed }
    {
        let sum = self.sum.wrapping_add(argument);
        match self.log.answer(argument, sum) {
            Ok(answer) => {
                self.sum = sum;
                Ok(answer)
            }
            Err(fail) => Err(fail),
        }
    }

    fn heard(&self) -> Option<&[Heard]> {
        Some(self.log.calls())
    }
}
