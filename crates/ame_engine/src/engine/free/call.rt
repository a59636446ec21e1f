//! Calls of devices by visited machines.

ghost use Rattle.std.specs.Prelude.{◌≡◌, ◌<◌, ◌+◌, ◌≤◌, ◌^◌, ℕ, OnErr, Ok, Some, None, vec_len};
ghost use Rattle.ame_device.specs.Calls.{all_told};
ghost use Rattle.ame_machine.specs.declared.wants.Wants.{Wants};
ghost use Rattle.ame_protocol.specs.Engine.Parts.{task_at};
ghost use Rattle.ame_protocol.specs.Event.Event.{Event};
ghost use Rattle.ame_engine.specs.Seen.{parts_of};
ghost use Rattle.ame_engine.specs.Makes.{Makes};
ghost use Rattle.ame_protocol.specs.Event.Faults.{LeadsToCall};
ghost use Rattle.ame_engine.specs.AtWork.{IsOn};
ghost use Rattle.ame_engine.specs.Visiting.{IsVisiting, HasComeHome, HasBeenRefused};

use super::home::send_home;
use crate::answer::Freed;
use crate::engine::Engine;
use crate::engine::ledger::entry_of;
use ame_device::{Device, DeviceFail, call_device};
use ame_journal::{Entry, EntryKind};
use ame_machine::{Input, Runner};
use ame_protocol::{Attempt, Stop, Task};
use ame_term::NoMemory;

/// Returns the entry of a visit with one step more, which a device answered.
fn answered(entry: Entry, answer: i64) -> Entry
    requires { entry.steps + 1 < 2 ^ 64 }
    ensures { result ≡ record entry { steps = entry.steps + 1; answer = Some answer } }
{
    Entry {
        kind: entry.kind,
        seat: entry.seat,
        number: entry.number,
        steps: entry.steps + 1,
        fresh: entry.fresh,
        answer: Some(answer),
    }
}

impl<M: Runner> Engine<M>
where
    M::Code: Drop,
{
    /// Sends a visited member home as it was begun, since a device failed, and keeps that stop.
    fn refuse(&mut self, seat: u32, attempt: Attempt, device: u8)
        requires task { task_at self.old.tasks seat ≡ Task.Free attempt }
        requires going { self.old.stop ≡ None }
        requires left { self.old.turns < self.old.limits.turns }
        requires calls { LeadsToCall (parts_of M.meaning self.old) device }
        ensures { Makes M.meaning (Event.Refuse seat attempt device) self.old self.new }
    {
        self.pool.home(attempt.tried.number, false);
        self.tasks[seat as usize] = Task::Idle;
        self.turns += 1;
        self.counters.frees += 1;
        self.stop = Some(Stop::DeviceFault(device));
    }

    /// Calls the device that a visited machine wants. If the device answers, an entry with the answer joins the journal, and the member
    /// goes home. If it fails, the member goes home as it was begun. All memory but the device's own is taken before the call.
    pub(super) fn visit_device<D: Device>(
        &mut self,
        seat: u32,
        attempt: Attempt,
        mut at: M,
        device: u8,
        argument: i64,
        devices: &mut Vec<D>,
    ) -> Result<Freed, NoMemory>
        requires task { task_at self.old.tasks seat ≡ Task.Free attempt }
        requires on { IsOn M.meaning self.old seat at }
        requires visits { IsVisiting (M.meaning.stage self.old.code at) }
        requires wants { (M.meaning.stage self.old.code at).want ≡ Some (Wants.Device device argument) }
        requires steps { (M.meaning.stage self.old.code at).steps + 1 < 2 ^ 64 }
        requires going { self.old.stop ≡ None }
        requires left { self.old.turns < self.old.limits.turns }
        requires devices { (M.meaning.signature self.old.code).devices ≤ vec_len devices.old }
        ensures home { result ≡ Ok Freed.Home → HasComeHome M.meaning seat attempt.tried.number (M.meaning.stage self.old.code at)
            (all_told D.device_told devices.old.items) (all_told D.device_told devices.new.items) self.old self.new }
        ensures refused { (k : ℕ) → result ≡ Ok (Freed.DeviceFault k) → HasBeenRefused M.meaning seat attempt.tried.number k
            (M.meaning.stage self.old.code at)
            (all_told D.device_told devices.old.items) (all_told D.device_told devices.new.items) self.old self.new }
        ensures err { OnErr result (self.new ≡ self.old) }
        ensures quiet { OnErr result (all_told D.device_told devices.new.items ≡ all_told D.device_told devices.old.items) }
    {
        let number = attempt.tried.number;
        let alloc = *self.tasks.allocator();
        let entry = entry_of(alloc, EntryKind::Free, seat, number, &at)?;
        self.ledger.journal.room()?;
        match call_device(devices, device as usize, argument) {
            Ok(answer) => {
                at.feed(&self.code, Input::Int(answer));
                self.ledger.journal.push(answered(entry, answer));
                send_home(&mut self.pool, number, at);
                self.tasks[seat as usize] = Task::Idle;
                self.turns += 1;
                self.counters.frees += 1;
                Ok(Freed::Home)
            }
            Err(DeviceFail::Failed) => {
                self.refuse(seat, attempt, device);
                Ok(Freed::DeviceFault(device))
            }
            Err(DeviceFail::NoMemory) => Err(NoMemory),
        }
    }
}
