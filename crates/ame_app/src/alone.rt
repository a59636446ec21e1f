//! Commands that one thread does, and that wait for nothing.

ghost use Rattle.std.specs.Prelude.{◌≡◌, ◌≤◌, ◌↔◌, [], IfSome, IsTrue, None, Some, length, vec_len};
ghost use Rattle.std.specs.Arc.{arc_value};
ghost use Rattle.ame_types.specs.Limits.{max_devices};
ghost use Rattle.ame_cli.specs.Ranges.{AreInRange, IsInBounds, IsInRange};
ghost use Rattle.ame_shell.specs.Ends.{ends_of};
ghost use Rattle.ame_app.specs.Alone.{command_of};
ghost use Rattle.ame_app.specs.Answered.{IsPromised};
ghost use Rattle.ame_app.specs.Calls.{Call, IsCallOf};
ghost use Rattle.ame_app.specs.Headline.{Headline, IsToldAlone};
ghost use Rattle.ame_app.specs.RunResult.{end_in};
ghost use Rattle.ame_app.specs.Reported.{reported};
ghost use Rattle.ame_app.specs.Jobs.{IsJobOf, IsLeft};
ghost use Rattle.ame_app.specs.declared.parts.ReportPart.{ReportPart};
ghost use Rattle.ame_app.specs.declared.status.Status.{Status};

use crate::answer::{conclude, leave, leave_unbegun, opened};
use crate::asked::{Asked, asked_of};
use crate::refusal::turn_away;
use crate::report::Report;
use crate::verbs::make_alone;
use ame_cli::{Bounds, Command, Item, Options, SEED_LIMIT, spells_one_command};
use ame_device::Device;
use ame_io::Sink;
use ame_shell::Io;
use std::alloc::Global;

/// A command that one thread does, and that waits for nothing.
#[derive(Clone, Copy, Debug, PartialEq, Eq)]
pub enum Alone {
    /// Runs a program under the choices of this seed.
    Sim(u32, Options),
    /// Runs a program under the choices of the schedule before it.
    Replay(Options),
    /// Runs a program under the weak semantics by the choices of a seed, with a limit of turns.
    Weak(u32, u32),
}

impl Alone {
    /// Returns the command.
    pub fn command(self) -> Command
        ensures { result ≡ command_of self }
    {
        match self {
            Alone::Sim(seed, options) => Command::Sim(seed, options),
            Alone::Replay(options) => Command::Replay(options),
            Alone::Weak(seed, turns) => Command::Weak(seed, turns),
        }
    }

    /// Returns whether each of its numbers is one that the command may have.
    pub fn is_in_range(self) -> bool
        ensures { IsTrue result ↔ IsInRange (command_of self) }
    {
        match self {
            Alone::Sim(seed, options) => seed <= SEED_LIMIT && are_in_range(options),
            Alone::Replay(options) => are_in_range(options),
            Alone::Weak(seed, turns) => {
                seed <= SEED_LIMIT && is_within(Item::Turns.bounds(), turns)
            }
        }
    }
}

/// Returns whether a number lies in bounds.
fn is_within(bounds: Bounds, number: u32) -> bool
    ensures { IsTrue result ↔ IsInBounds bounds number }
{
    bounds.least <= number && number <= bounds.most
}

/// Returns whether each option is one that a command may have.
fn are_in_range(options: Options) -> bool
    ensures { IsTrue result ↔ AreInRange options }
{
    is_within(Item::Workers.bounds(), options.workers)
        && is_within(Item::Turns.bounds(), options.turns)
        && is_within(Item::Slice.bounds(), options.slice)
}

/// Does what a command asks for with these bytes, as if its source gave them: writes the integers that a run prints, a line each,
/// and then a verdict line. Starts no thread, and waits for nothing. Sink and devices are handed back.
pub fn run_alone_over<K, D>(
    alloc: Global,
    command: Alone,
    bytes: &[u8],
    sink: K,
    devices: Vec<D>,
) -> Report<K, D>
where
    K: Sink + Drop,
    D: Device,
    requires ranges { IsInRange (command_of command) }
    requires few { vec_len devices ≤ max_devices }
    ensures answered { (call : Call) → IsCallOf call (command_of command) bytes.now (vec_len devices) → IsPromised call (reported result)
        (ends_of K.written K.faults D.device_told sink devices.items)
        (ends_of K.written K.faults D.device_told result.sink result.devices.items) }
{
    spells_one_command();
    match asked_of(alloc, command, bytes, devices.len() as u32) {
        Ok(asked) => answer_alone(alloc, asked, Io::new(sink, devices)),
        Err(refusal) => turn_away(refusal, sink, devices),
    }
}

/// Answers without a run where possible; otherwise makes one and reports how it ended.
fn answer_alone<K: Sink + Drop, D: Device>(
    alloc: Global,
    asked: Asked,
    io: Io<K, D>,
) -> Report<K, D>
    requires ranges { IsInRange asked.job.command }
    requires devices { (arc_value asked.job.code).accepted.devices ≡ length io.ends.told }
    ensures text { result.text ≡ asked.text }
    ensures ran { IfSome (reported result).run (λ run. (call : Call)
        → IsJobOf call asked.text.items (arc_value asked.job.code) asked.job.command asked.job.front
        → Headline call (reported result) run (end_in run.left) io.ends
        (ends_of K.written K.faults D.device_told result.sink result.devices.items)) }
    ensures turned_away { (reported result).run ≡ None → IsLeft asked.job.command asked.job.front (arc_value asked.job.code) (reported result) io.ends
        (ends_of K.written K.faults D.device_told result.sink result.devices.items) }
{
    match opened(alloc, &asked.job) {
        Ok(_) => run_here(alloc, asked, io),
        Err(settled) => leave(asked, settled, io),
    }
}

/// Makes a run on this thread, and reports how it ended.
fn run_here<K: Sink + Drop, D: Device>(alloc: Global, asked: Asked, io: Io<K, D>) -> Report<K, D>
    requires ranges { IsInRange asked.job.command }
    requires devices { (arc_value asked.job.code).accepted.devices ≡ length io.ends.told }
    ensures text { result.text ≡ asked.text }
    ensures command { result.command ≡ Some asked.job.command }
    ensures ran { IfSome (reported result).run (λ run. (call : Call)
        → IsJobOf call asked.text.items (arc_value asked.job.code) asked.job.command asked.job.front
        → Headline call (reported result) run (end_in run.left) io.ends
        (ends_of K.written K.faults D.device_told result.sink result.devices.items)) }
    ensures turned_away { (reported result).run ≡ None → IsToldAlone [] ReportPart.Nothing Status.NoMemory (reported result) io.ends
        (ends_of K.written K.faults D.device_told result.sink result.devices.items) }
{
    match make_alone(alloc, &asked.job, io) {
        Ok(made) => conclude(asked, made),
        Err(io) => leave_unbegun(asked, io),
    }
}
