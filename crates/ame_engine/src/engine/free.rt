//! Visits of members that are inside `unprotected`.

ghost use Rattle.std.specs.Prelude.{◌≡◌, ◌<◌, ◌+◌, ◌≤◌, ◌^◌, ℕ, OnErr, Ok, None, vec_len};
ghost use Rattle.ame_device.specs.Calls.{all_told};
ghost use Rattle.ame_protocol.specs.declared.types.Attempt.{Attempt};
ghost use Rattle.ame_protocol.specs.Engine.Parts.{task_at};
ghost use Rattle.ame_engine.specs.AtWork.{IsOn};
ghost use Rattle.ame_engine.specs.Visiting.{IsVisiting, HasComeHome, HasBeenRefused};

use super::Engine;
use crate::answer::Freed;
use ame_device::Device;
use ame_machine::{Runner, Wants};
use ame_protocol::Task;
use ame_term::NoMemory;

mod call;
mod change;
mod end;
mod home;
mod step;

impl<M: Runner> Engine<M>
where
    M::Code: Drop,
{
    /// Ends the visit of a seat at the place of its machine. The step that the machine wants, if any, is made on the committed state: a
    /// read, a peek, a write, a new cell, a print, a new member, the close, or the call of a device, which is the only call of the visit.
    /// An entry records the visit, and the member is home with the settled machine, inside unless it closed. If the device fails there is
    /// no entry, the member is home as it was begun, and that stop is kept. Counts a turn. Takes memory, all of it before the first change
    /// and before the device is called. Is out of memory also if the number of a new member would have more than 64 bits.
    pub fn free<D: Device>(
        &mut self,
        seat: u32,
        at: M,
        devices: &mut Vec<D>,
    ) -> Result<Freed, NoMemory>
        requires on { IsOn M.meaning self.old seat at }
        requires visits { IsVisiting (M.meaning.stage self.old.code at) }
        requires steps { (M.meaning.stage self.old.code at).steps + 1 < 2 ^ 64 }
        requires going { self.old.stop ≡ None }
        requires left { self.old.turns < self.old.limits.turns }
        requires devices { (M.meaning.signature self.old.code).devices ≤ vec_len devices.old }
        ensures home { (attempt : Attempt) → task_at self.old.tasks seat ≡ Task.Free attempt → result ≡ Ok Freed.Home
            → HasComeHome M.meaning seat attempt.tried.number (M.meaning.stage self.old.code at)
            (all_told D.device_told devices.old.items) (all_told D.device_told devices.new.items) self.old self.new }
        ensures refused { (attempt : Attempt) (k : ℕ) → task_at self.old.tasks seat ≡ Task.Free attempt → result ≡ Ok (Freed.DeviceFault k)
            → HasBeenRefused M.meaning seat attempt.tried.number k (M.meaning.stage self.old.code at)
            (all_told D.device_told devices.old.items) (all_told D.device_told devices.new.items) self.old self.new }
        ensures err { OnErr result (self.new ≡ self.old) }
        ensures quiet { OnErr result (all_told D.device_told devices.new.items ≡ all_told D.device_told devices.old.items) }
    {
        let Task::Free(attempt) = self.tasks[seat as usize] else {
            unreachable!();
        };
        if let Some(Wants::Device(device, argument)) = at.want() {
            return self.visit_device(seat, attempt, at, device, argument, devices);
        }
        let mut at = at;
        let change = self.serve(&mut at)?;
        self.end_visit(seat, attempt, at, change)?;
        Ok(Freed::Home)
    }
}
