//! The calls that a device in memory keeps.
ghost use Rattle.std.specs.Prelude.{◌≡◌, ◌≢◌, ◌++◌, [], ◌∷◌, Ok, Err, OnOk, OnErr};
ghost use Rattle.ame_io.specs.Counts.{HasRisen};
ghost use Rattle.ame_device.specs.Calls.{answered};

use crate::fault::DeviceFail;
use crate::told::Heard;
use std::alloc::Global;
use std::marker::Model;

/// The calls that were answered, and the count of those that failed.
#[derive(Drop)]
pub struct CallLog {
    calls: Vec<Heard>,
    faults: u64,
}

impl Model for CallLog {
    ghost use Rattle.ame_device.specs.InMemory.{Calls};

    ghost Value = { Calls };

    ghost view = { λ log. record { heard = log.calls.items; faults = log.faults } };
}

impl CallLog {
    /// Makes an empty log, without memory.
    pub fn new(alloc: Global) -> CallLog
        ensures { result ≡ record { heard = []; faults = 0 } }
    {
        CallLog {
            calls: Vec::new(alloc),
            faults: 0,
        }
    }

    /// Returns the calls that were answered, in order.
    pub fn calls(&self) -> &[Heard]
        ensures { result.now ≡ self.now.heard }
    {
        &self.calls
    }

    /// Keeps a call that is answered.
    pub fn answer(&mut self, argument: i64, answer: i64) -> Result<i64, DeviceFail>
        ensures answer { result ≢ Ok answer → result ≡ Err DeviceFail.NoMemory }
        ensures ok { OnOk result (self.new ≡ record self.old { heard = self.old.heard ++ answered argument answer ∷ [] }) }
        ensures err { OnErr result (self.new ≡ self.old) }
    {
        match self.calls.push(Heard { argument, answer }) {
            Ok(()) => Ok(answer),
            Err(_) => Err(DeviceFail::NoMemory),
        }
    }

    /// Counts a call that fails.
    pub fn fail(&mut self) -> Result<i64, DeviceFail>
        ensures err { result ≡ Err DeviceFail.Failed }
        ensures heard { self.new.heard ≡ self.old.heard }
        ensures risen { HasRisen self.old.faults self.new.faults }
    {
        self.faults = self.faults.saturating_add(1);
        Err(DeviceFail::Failed)
    }
}
