//! Devices that fail.

ghost use Rattle.std.specs.Prelude.{Some};
ghost use Rattle.ame_device.specs.Calls.{told};
ghost use Rattle.ame_device.specs.declared.told.DeviceKind.{DeviceKind};

use ame_device::{CallLog, Device, DeviceFail, Heard};
use std::alloc::Global;

/// Answers the next of its answers, and fails if none is left.
#[derive(Drop)]
pub struct Tape {
    log: CallLog,
    answers: Vec<i64>,
    at: usize,
}

impl Tape {
    /// Makes a device that has heard nothing, over the memory of its answers.
    pub fn new(alloc: Global, answers: Vec<i64>) -> Tape {
        Tape {
            log: CallLog::new(alloc),
            answers,
            at: 0,
        }
    }
}

impl Device for Tape {
    ghost device_told = { λ device. told DeviceKind.Other (Some device.log.heard) device.log.faults };

    fn call(&mut self, argument: i64) -> Result<i64, DeviceFail> {
        let Some(answer) = self.answers.get(self.at).copied() else {
            return self.log.fail();
        };
        match self.log.answer(argument, answer) {
            Ok(answer) => {
                self.at = self.at.saturating_add(1);
                Ok(answer)
            }
            Err(fail) => Err(fail),
        }
    }

    fn heard(&self) -> Option<&[Heard]> {
        Some(self.log.calls())
    }
}

/// Answers its argument, and fails at the call with one number. Calls are numbered from 1, with those that fail or run out of memory.
#[derive(Drop)]
pub struct FailsAt {
    log: CallLog,
    calls: u64,
    fails_at: u64,
}

impl FailsAt {
    /// Makes a device that has heard nothing. It never fails if the number is 0.
    pub fn new(alloc: Global, call: u64) -> FailsAt {
        FailsAt {
            log: CallLog::new(alloc),
            calls: 0,
            fails_at: call,
        }
    }
}

impl Device for FailsAt {
    ghost device_told = { λ device. told DeviceKind.Other (Some device.log.heard) device.log.faults };

    fn call(&mut self, argument: i64) -> Result<i64, DeviceFail> {
        self.calls = self.calls.saturating_add(1);
        if self.calls == self.fails_at {
            self.log.fail()
        } else {
            self.log.answer(argument, argument)
        }
    }

    fn heard(&self) -> Option<&[Heard]> {
        Some(self.log.calls())
    }
}
