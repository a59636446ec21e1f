//! A whole run of the weak semantics.

ghost use Rattle.std.specs.Prelude.{◌≡◌, ◌≢◌, ℕ, ◌≤◌, ◌⊎◌, take, length, true, List, Some, []};
ghost use Rattle.ame_term.specs.Tree.{Tree};
ghost use Rattle.ame_term.specs.View.{tree_of};
ghost use Rattle.ame_device.specs.declared.told.Told.{Told};
ghost use Rattle.ame_device.specs.Calls.{all_told};
ghost use Rattle.ame_runner.specs.Ended.{IsWeakRunOf, TellsStop};
ghost use Rattle.ame_runner.specs.Run.{IsRunning, IsAtRunStart};
ghost use Rattle.ame_runner.specs.Stop.{HeardSoFar};
ghost use Rattle.ame_runner.specs.Drawn.{IsDrawn};
ghost use Rattle.ame_runner.specs.View.{run_of};
ghost use Rattle.ame_runner.specs.declared.stop.WeakStop.{WeakStop as Stop};

use crate::run::Run;
use crate::stop::{WeakRun, WeakStop};
use ame_device::Device;
use ame_gen::{Numbers, SEED_LIMIT};
use ame_term::Accepted;
use std::alloc::Global;

/// Runs a program as a weakly atomic runtime would, with at most `turns` turns. The seed begins the stream of numbers
/// that decides which member goes on. Every label takes a turn, and so does every step of a fragment that is tried. When
/// out of memory, devices may have heard more than the labels show.
pub fn weak_run<D: Device>(
    alloc: Global,
    accepted: &Accepted,
    turns: u32,
    seed: u32,
    devices: &mut Vec<D>,
) -> WeakRun
    requires { seed ≤ SEED_LIMIT }
    ensures count { length devices.new.items ≡ length devices.old.items }
    ensures run { IsWeakRunOf (tree_of accepted.now.program.term) turns result.labels.items result.tries.items result.stop }
    ensures stop { TellsStop (tree_of accepted.now.program.term) turns result.labels.items result.tries.items result.turns
        (all_told D.device_told devices.old.items) (all_told D.device_told devices.new.items) result.stop }
    ensures drawn { result.stop ≢ Stop.NoMemory
        → IsDrawn (tree_of accepted.now.program.term) turns seed result.labels.items result.tries.items result.turns result.stop }
{
    match Run::start(alloc, accepted, turns) {
        Ok(run) => play_out(alloc, run, seed, devices),
        Err(_) => not_begun(alloc),
    }
}

/// Plays a run until it stops.
fn play_out<D: Device>(alloc: Global, run: Run<'_>, seed: u32, devices: &mut Vec<D>) -> WeakRun
    requires { seed ≤ SEED_LIMIT }
    ensures count { length devices.new.items ≡ length devices.old.items }
    ensures run { IsRunning (run_of run.entry) → IsWeakRunOf (run_of run.entry).play.program (run_of run.entry).limit result.labels.items result.tries.items result.stop }
    ensures stop { IsRunning (run_of run.entry)
        → HeardSoFar (run_of run.entry) (all_told D.device_told devices.old.items) (all_told D.device_told devices.old.items)
        → TellsStop (run_of run.entry).play.program (run_of run.entry).limit result.labels.items result.tries.items result.turns
        (all_told D.device_told devices.old.items) (all_told D.device_told devices.new.items) result.stop }
    ensures drawn { (program : Tree) (limit : ℕ) → IsRunning (run_of run.entry) → IsAtRunStart program limit (run_of run.entry) → result.stop ≢ Stop.NoMemory
        → IsDrawn program limit seed result.labels.items result.tries.items result.turns result.stop }
{
    let mut run = run;
    let mut numbers = Numbers::new(seed);
    match run.play_on(alloc, &mut numbers, devices) {
        Ok(stop) => run.end(stop),
        Err(_) => run.end(WeakStop::NoMemory),
    }
}

/// Returns the report of a run that had no memory to begin.
fn not_begun(alloc: Global) -> WeakRun
    ensures labels { result.labels.items ≡ [] }
    ensures tries { result.tries.items ≡ [] }
    ensures stop { result.stop ≡ Stop.NoMemory }
{
    WeakRun {
        labels: Vec::new(alloc),
        tries: Vec::new(alloc),
        turns: 0,
        stop: WeakStop::NoMemory,
    }
}

/// Returns whether a try may have been cut off with this stop.
fn may_be_cut(stop: &WeakStop) -> bool
    ensures { result ≡ true → stop.now ≡ Stop.Spent }
{
    match stop {
        WeakStop::Spent => true,
        WeakStop::Finished
        | WeakStop::Blocked(_)
        | WeakStop::DeviceFault(_)
        | WeakStop::Tall(_)
        | WeakStop::NoMemory => false,
    }
}

impl<'a> Run<'a> {
    ghost use Rattle.ame_runner.specs.Run.{CanBeEnded};
    ghost use Rattle.ame_runner.specs.Stop.{FailsBy, HasStoppedWeakly, RunsUntil};
    ghost use Rattle.ame_runner.specs.Drawing.{IsReportOf};

    /// Returns the report of the run with this stop. If a try was cut off for want of turns, only that stop fits.
    fn end(self, stop: WeakStop) -> WeakRun
        ensures run { CanBeEnded (run_of self.entry) → IsWeakRunOf (run_of self.entry).play.program (run_of self.entry).limit result.labels.items result.tries.items result.stop }
        ensures stop { RunsUntil (Some stop) (run_of self.entry) → HasStoppedWeakly stop (run_of self.entry) → (before now : List Told)
            → HeardSoFar (run_of self.entry) before now → FailsBy (Some stop) before now
            → TellsStop (run_of self.entry).play.program (run_of self.entry).limit result.labels.items result.tries.items result.turns before now result.stop }
        ensures kept { (result.stop ≡ stop) ⊎ (result.stop ≡ Stop.NoMemory) }
        ensures report { (result.stop ≡ Stop.NoMemory)
            ⊎ IsReportOf (run_of self.entry) stop result.labels.items result.tries.items result.turns result.stop }
    {
        let mut run = self;
        if may_be_cut(&stop) {
            return run.told(stop);
        }
        if run.notes.let_cut_go() {
            return run.told(WeakStop::NoMemory);
        }
        run.told(stop)
    }

    /// Returns its labels up to the last moment with nothing active, its tries and its turns.
    fn told(self, stop: WeakStop) -> WeakRun
        ensures labels { result.labels.items ≡ take (run_of self.entry).play.settled (run_of self.entry).play.labels }
        ensures tries { result.tries.items ≡ (run_of self.entry).tries }
        ensures turns { result.turns ≡ (run_of self.entry).turns }
        ensures stop { result.stop ≡ stop }
    {
        let Run {
            play,
            notes,
            left: _,
            above: _,
            turns,
            limit: _,
        } = self;
        WeakRun {
            labels: play.into_settled(),
            tries: notes.into_tries(),
            turns,
            stop,
        }
    }
}
