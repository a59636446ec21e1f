//! Choices, until a run stops.

ghost use Rattle.std.specs.Prelude.{◌≡◌, ◌<◌, [], true, length, List, None, Some, IfOk, OnOk};
ghost use Rattle.ame_gen.specs.Stream.{next};
ghost use Rattle.ame_device.specs.Calls.{all_told};
ghost use Rattle.ame_device.specs.declared.told.Told.{Told};
ghost use Rattle.ame_weak.specs.Bounds.{is_growing_tall};

use crate::choices::{drawn, goes_free};
use crate::freeing::{FreeStep, next_free};
use crate::run::Run;
use crate::stop::WeakStop;
use crate::trial::tall_at;
use ame_device::Device;
use ame_gen::Numbers;
use ame_journal::Entry;
use ame_strong::Next;
use ame_term::{Loc, NoMemory};
use std::alloc::Global;

impl<'a> Run<'a> {
    ghost use Rattle.ame_runner.specs.Run.{IsRunning, RunsOrEnds, KeepsFrame};
    ghost use Rattle.ame_runner.specs.Stop.{HearsOn, StandsAtCall, HasStoppedWeakly, GrowsOrEnds, GoesOrStops, PlaysOn};
    ghost use Rattle.ame_runner.specs.Stop.{MayGoOn};
    ghost use Rattle.ame_runner.specs.Tall.{tall_note};
    ghost use Rattle.ame_runner.specs.Drawn.{drawn_by};
    ghost use Rattle.ame_runner.specs.Drawing.{HasActivated, HasRunOut, TakesOrStops, DrawsOrEnds, DrawsAll};
    ghost use Rattle.ame_runner.specs.View.{run_of};

    /// Makes choices until the run stops. Every choice takes the next number of the stream.
    pub(crate) fn play_on<D: Device>(
        &mut self,
        alloc: Global,
        numbers: &mut Numbers,
        devices: &mut Vec<D>,
    ) -> Result<WeakStop, NoMemory>
        ensures frame { KeepsFrame (run_of self.old) (run_of self.new) }
        ensures count { length devices.new.items ≡ length devices.old.items }
        ensures plays { PlaysOn (run_of self.old) (run_of self.new) (all_told D.device_told devices.old.items)
            (all_told D.device_told devices.new.items) result }
        ensures drawn { IfOk result (DrawsAll numbers.old (run_of self.old) (run_of self.new)) }
    {
        for _ in 0..u64::MAX {
            if let Some(stop) = self.choose(alloc, numbers, devices)? {
                return Ok(stop);
            }
        }
        Err(NoMemory)
    }

    /// Makes one choice, or finds the stop in its place.
    fn choose<D: Device>(
        &mut self,
        alloc: Global,
        numbers: &mut Numbers,
        devices: &mut Vec<D>,
    ) -> Result<Option<WeakStop>, NoMemory>
        ensures frame { KeepsFrame (run_of self.old) (run_of self.new) }
        ensures count { length devices.new.items ≡ length devices.old.items }
        ensures goes { GoesOrStops (run_of self.old) (run_of self.new) (all_told D.device_told devices.old.items)
            (all_told D.device_told devices.new.items) result }
        ensures drawn { IfOk result (DrawsOrEnds numbers.old numbers.new (run_of self.old) (run_of self.new)) }
    {
        if self.left.is_empty() {
            self.choose_at_rest(alloc, numbers, devices)
        } else {
            self.choose_within(alloc, numbers, devices)
        }
    }

    /// Makes a choice while nothing is active, or finds the stop in its place.
    fn choose_at_rest<D: Device>(
        &mut self,
        alloc: Global,
        numbers: &mut Numbers,
        devices: &mut Vec<D>,
    ) -> Result<Option<WeakStop>, NoMemory>
        requires { (run_of self.old).left ≡ [] }
        ensures frame { KeepsFrame (run_of self.old) (run_of self.new) }
        ensures count { length devices.new.items ≡ length devices.old.items }
        ensures goes { GoesOrStops (run_of self.old) (run_of self.new) (all_told D.device_told devices.old.items)
            (all_told D.device_told devices.new.items) result }
        ensures drawn { IfOk result (DrawsOrEnds numbers.old numbers.new (run_of self.old) (run_of self.new)) }
    {
        if let Some(stop) = self.stop_at_rest(alloc)? {
            return Ok(Some(stop));
        }
        let number = self.one_of(alloc, numbers)?;
        self.choose_resting(alloc, number, devices)
    }

    /// Makes a choice while a fragment is active. With no turns left, it runs that fragment to its end instead, and draws no number.
    fn choose_within<D: Device>(
        &mut self,
        alloc: Global,
        numbers: &mut Numbers,
        devices: &mut Vec<D>,
    ) -> Result<Option<WeakStop>, NoMemory>
        ensures frame { KeepsFrame (run_of self.old) (run_of self.new) }
        ensures count { length devices.new.items ≡ length devices.old.items }
        ensures goes { GoesOrStops (run_of self.old) (run_of self.new) (all_told D.device_told devices.old.items)
            (all_told D.device_told devices.new.items) result }
        ensures drawn { IfOk result (DrawsOrEnds numbers.old numbers.new (run_of self.old) (run_of self.new)) }
    {
        if self.is_spent() {
            self.run_out(alloc)?;
            return Ok(None);
        }
        let number = self.one_of(alloc, numbers)?;
        if self.is_active(number) {
            self.go_on(alloc)?;
            return Ok(None);
        }
        self.go_free(alloc, number, devices)
    }

    /// Runs the drawn member while nothing is active: a step under `unprotected`, or an attempt.
    fn choose_resting<D: Device>(
        &mut self,
        alloc: Global,
        number: u64,
        devices: &mut Vec<D>,
    ) -> Result<Option<WeakStop>, NoMemory>
        requires idle { (run_of self.old).play.weak.state.active ≡ None }
        requires left { (run_of self.old).left ≡ [] }
        requires turns { (run_of self.old).turns < (run_of self.old).limit }
        ensures frame { KeepsFrame (run_of self.old) (run_of self.new) }
        ensures count { length devices.new.items ≡ length devices.old.items }
        ensures goes { GoesOrStops (run_of self.old) (run_of self.new) (all_told D.device_told devices.old.items)
            (all_told D.device_told devices.new.items) result }
        ensures taken { IfOk result (TakesOrStops number (run_of self.old) (run_of self.new)) }
    {
        if goes_free(self.play.state(), number) {
            return self.go_free(alloc, number, devices);
        }
        if self.is_aside(number) {
            return Err(NoMemory);
        }
        let grown = self.attempt(alloc, number)?;
        if let Some(entry) = grown {
            return Ok(Some(WeakStop::Tall(entry)));
        }
        self.activate(alloc)?;
        Ok(None)
    }

    /// Makes the first label of the planned fragment, if there is one.
    fn activate(&mut self, alloc: Global) -> Result<(), NoMemory>
        ensures frame { KeepsFrame (run_of self.old) (run_of self.new) }
        ensures runs { IsRunning (run_of self.old) → RunsOrEnds result (run_of self.new) }
        ensures hears { OnOk result ((told : List Told) → HearsOn None (run_of self.old) (run_of self.new) told told) }
        ensures begun { OnOk result (HasActivated (run_of self.old) (run_of self.new)) }
    {
        if self.left.is_empty() {
            return Ok(());
        }
        self.go_on(alloc)
    }

    /// Makes a step of a member under `unprotected`, or stops the run if the step would make a value nested too deeply.
    fn go_free<D: Device>(
        &mut self,
        alloc: Global,
        number: u64,
        devices: &mut Vec<D>,
    ) -> Result<Option<WeakStop>, NoMemory>
        requires { (run_of self.old).turns < (run_of self.old).limit }
        ensures frame { KeepsFrame (run_of self.old) (run_of self.new) }
        ensures count { length devices.new.items ≡ length devices.old.items }
        ensures goes { GoesOrStops (run_of self.old) (run_of self.new) (all_told D.device_told devices.old.items)
            (all_told D.device_told devices.new.items) result }
        ensures taken { IfOk result (TakesOrStops number (run_of self.old) (run_of self.new)) }
    {
        let grows = self.is_growing(alloc, number)?;
        if grows {
            let entry = self.end_tall(alloc, number)?;
            return Ok(Some(WeakStop::Tall(entry)));
        }
        self.free_or_fault(alloc, number, devices)
    }

    /// Runs the active fragment to its end, and returns the note of a member that is about to become a value nested too deeply.
    fn end_tall(&mut self, alloc: Global, number: u64) -> Result<Entry, NoMemory>
        ensures frame { KeepsFrame (run_of self.old) (run_of self.new) }
        ensures runs { IsRunning (run_of self.old) → GrowsOrEnds result (run_of self.new) }
        ensures hears { OnOk result ((told : List Told) → HearsOn None (run_of self.old) (run_of self.new) told told) }
        ensures out { OnOk result (HasRunOut (run_of self.old) (run_of self.new)) }
        ensures note { IfOk result (λ entry. entry ≡ tall_note number 0 []) }
    {
        self.run_out(alloc)?;
        if self.is_busy() {
            return Err(NoMemory);
        }
        let grows = self.is_growing(alloc, number)?;
        if grows {
            return Ok(tall_at(alloc, number));
        }
        Err(NoMemory)
    }

    /// Returns whether a member of the pool is about to become a value nested too deeply, under `unprotected`.
    fn is_growing(&self, alloc: Global, number: u64) -> Result<bool, NoMemory>
        ensures { IfOk result (λ grows. grows ≡ is_growing_tall (run_of self.now).play.weak (Some number)) }
    {
        self.play.state().is_growing_tall(alloc, Some(number))
    }

    /// Makes a step of a member under `unprotected`, or stops the run if the device that it calls fails.
    fn free_or_fault<D: Device>(
        &mut self,
        alloc: Global,
        number: u64,
        devices: &mut Vec<D>,
    ) -> Result<Option<WeakStop>, NoMemory>
        requires { (run_of self.old).turns < (run_of self.old).limit }
        ensures frame { KeepsFrame (run_of self.old) (run_of self.new) }
        ensures count { length devices.new.items ≡ length devices.old.items }
        ensures goes { GoesOrStops (run_of self.old) (run_of self.new) (all_told D.device_told devices.old.items)
            (all_told D.device_told devices.new.items) result }
        ensures taken { IfOk result (TakesOrStops number (run_of self.old) (run_of self.new)) }
    {
        match next_free(self.play.state(), Loc(self.above), number, devices)? {
            FreeStep::Label(label) => {
                self.count(alloc, label)?;
                Ok(None)
            }
            FreeStep::Fault(device) => {
                self.end_by(alloc, number, device)?;
                Ok(Some(WeakStop::DeviceFault(device)))
            }
        }
    }

    /// Runs the active fragment to its end, after a device has failed for a member.
    fn end_by(&mut self, alloc: Global, number: u64, device: u8) -> Result<(), NoMemory>
        ensures frame { KeepsFrame (run_of self.old) (run_of self.new) }
        ensures runs { IsRunning (run_of self.old) → RunsOrEnds result (run_of self.new) }
        ensures hears { OnOk result ((told : List Told) → HearsOn None (run_of self.old) (run_of self.new) told told) }
        ensures stopped { OnOk result (HasStoppedWeakly (WeakStop.DeviceFault device) (run_of self.new)) }
        ensures out { OnOk result (HasRunOut (run_of self.old) (run_of self.new)) }
    {
        self.run_out(alloc)?;
        if self.is_busy() {
            return Err(NoMemory);
        }
        if self.stands_at(number, device) {
            return Ok(());
        }
        Err(NoMemory)
    }

    /// Draws the next number and returns the candidate that it chooses.
    fn one_of(&self, alloc: Global, numbers: &mut Numbers) -> Result<u64, NoMemory>
        ensures place { IfOk result (λ number. number ≡ drawn_by (next numbers.old) (run_of self.now)) }
        ensures some { OnOk result (MayGoOn (run_of self.now)) }
        ensures stream { OnOk result (numbers.new ≡ next numbers.old) }
    {
        let may = self.who_may(alloc)?;
        if may.is_empty() {
            return Err(NoMemory);
        }
        Ok(drawn(numbers, &may))
    }

    /// Returns whether this member is active.
    fn is_active(&self, number: u64) -> bool
        ensures { result ≡ true → (run_of self.now).play.weak.state.active ≡ Some number }
    {
        match self.play.state().active() {
            Some(active) => active == number,
            None => false,
        }
    }

    /// Returns whether this member is put aside.
    fn is_aside(&self, number: u64) -> bool
        ensures { result ≡ (run_of self.now).aside number }
    {
        self.notes.aside().contains(&number)
    }

    /// Returns whether a member stands at a call of this device.
    fn stands_at(&self, number: u64, device: u8) -> bool
        ensures { result ≡ true → StandsAtCall (run_of self.now).play.weak device }
    {
        match self.play.state().next_of(Some(number)) {
            Next::Device(called, _) => called == device,
            _ => false,
        }
    }
}
