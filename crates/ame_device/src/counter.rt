//! A device that counts.
ghost use Rattle.std.specs.Prelude.{◌≡◌, ◌≢◌, ◌+◌, [], Some, Err, pos, length, IfOk};
ghost use Rattle.ame_device.specs.Calls.{AnswersCall, told};
ghost use Rattle.ame_device.specs.declared.told.DeviceKind.{DeviceKind};

use crate::call_log::CallLog;
use crate::device::Device;
use crate::fault::DeviceFail;
use crate::told::Heard;
use std::alloc::Global;
use std::marker::Model;

/// Answers how many calls it answered, this one among them. It never fails.
#[derive(Drop)]
pub struct Counter {
    log: CallLog,
}

impl Model for Counter {
    ghost use Rattle.ame_device.specs.InMemory.{Calls};

    ghost Value = { Calls };

    ghost view = { λ device. device.log };
}

impl Counter {
    /// Makes a device that heard nothing yet, without memory.
    pub fn new(alloc: Global) -> Counter
        ensures { result ≡ record { heard = []; faults = 0 } }
    {
        Counter {
            log: CallLog::new(alloc),
        }
    }
}

impl Device for Counter {
    ghost device_told = { λ device. told DeviceKind.Counter (Some device.heard) device.faults };

    fn call(&mut self, argument: i64) -> Result<i64, DeviceFail>
        ensures answers { AnswersCall (told DeviceKind.Counter (Some self.old.heard) self.old.faults) argument result (told DeviceKind.Counter (Some self.new.heard) self.new.faults) }
        ensures answer { IfOk result (λ answer. answer ≡ pos (length self.old.heard + 1)) }
        ensures never_fails { result ≢ Err DeviceFail.Failed }
    {
        let Ok(answer) = i64::try_from(self.log.calls().len()) else {
            return Err(DeviceFail::NoMemory);
        };
        match answer.checked_add(1) {
            Some(answer) => self.log.answer(argument, answer),
            None => Err(DeviceFail::NoMemory),
        }
    }

    fn heard(&self) -> Option<&[Heard]> {
        Some(self.log.calls())
    }
}
