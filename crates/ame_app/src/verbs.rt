//! The work of each command: functions with an arm a command.

mod bench;
mod check;
mod replay;
mod resume;
mod run;
mod sim;
mod weak;

ghost use Rattle.std.specs.Prelude.{◌≡◌, ◌≤◌, [], IfOk, IfErr, IfSome, OnOk, OnErr, length, vec_len};
ghost use Rattle.std.specs.Arc.{arc_value};
ghost use Rattle.std.specs.Io.KnownBytes.{Appends};
ghost use Rattle.ame_cli.specs.Ranges.{IsInRange};
ghost use Rattle.ame_io.specs.Counts.{HasRisen};
ghost use Rattle.ame_io.specs.Writes.{AppendsFront};
ghost use Rattle.ame_app.specs.Jobs.{IsOpened, IsOutlook, IsRunMade, IsUntaken};
ghost use Rattle.ame_app.specs.Verbs as spec;

use crate::parts::{Front, ReportPart};
use crate::run_result::RunResult;
use crate::status::Status;
use ame_cli::Command;
use ame_code::Code;
use ame_device::Device;
use ame_engine::Engine;
use ame_eval::Fragment;
use ame_io::{READ_LIMIT, Sink, WriteFault};
use ame_shell::Io;
use ame_sim::Drawn;
use ame_term::NoMemory;
use ame_worker::Gate;
pub use check::{Certified, judge_journal, read_certificate};
use std::alloc::Global;
use std::sync::{Arc, Wait};
use std::thread::Threads;

/// Code to run, by a command, with what was before its text.
#[derive(Drop)]
pub(crate) struct Job {
    pub(crate) code: Arc<Code>,
    pub(crate) command: Command,
    pub(crate) front: Front,
}

/// The parts that a command takes of the bytes that it is given.
#[derive(Drop)]
pub(crate) struct CommandInput {
    pub(crate) front: Front,
    pub(crate) text: Vec<u8>,
}

/// A status that is reported without a run, with the bytes to write before the verdict line, and what the command has of its own.
#[derive(Drop)]
pub struct Settled {
    pub told: Status,
    pub ahead: Vec<u8>,
    pub own: ReportPart,
}

/// The way in which a job goes on: by a status, or by a run.
#[derive(Drop)]
pub(crate) enum Outlook {
    /// This status is reported without a run.
    Told(Settled),
    /// A run begins with nothing.
    Begins,
    /// A run goes on from this engine.
    GoesOn(Engine<Fragment>),
}

/// A finished run. If it was weak, `ahead` has its lines, which are yet to be written.
pub(crate) struct FinishedRun<K: Sink, D: Device> {
    pub(crate) left: RunResult,
    pub(crate) ahead: Vec<u8>,
    pub(crate) io: Io<K, D>,
}

/// Returns true if a command reads its source.
pub(crate) fn reads_source(command: &Command) -> bool
    ensures { result ≡ spec.reads_source command.now }
{
    match command {
        Command::Run(_) => true,
        Command::Bench(_, _, _) => false,
        Command::Sim(_, _)
        | Command::Replay(_)
        | Command::Check
        | Command::Resume(_)
        | Command::Weak(_, _) => true,
    }
}

/// Returns the front and the text of a command. The error is the status of bytes that it doesn't take.
pub(crate) fn take(alloc: Global, command: &Command, bytes: Vec<u8>) -> Result<CommandInput, Status>
    requires ranges { IsInRange command.now }
    requires most { vec_len bytes ≤ READ_LIMIT }
    ensures takes { IfOk result (λ taken. spec.TakesInput command.now bytes.items taken.front taken.text.items) }
    ensures small { IfOk result (λ taken. vec_len taken.text ≤ READ_LIMIT) }
    ensures declines { IfErr result (λ told. IsUntaken command.now bytes.items told) }
{
    match command {
        Command::Run(_) | Command::Sim(_, _) | Command::Weak(_, _) => Ok(run::take(bytes)),
        Command::Bench(seed, size, _) => bench::take(alloc, *seed, *size),
        Command::Replay(_) => replay::take(alloc, &bytes),
        Command::Check | Command::Resume(_) => check::take(alloc, &bytes),
    }
}

/// Makes a status with no bytes before the verdict line.
pub(crate) fn told_alone(alloc: Global, told: Status, own: ReportPart) -> Settled
    ensures told { result.told ≡ told }
    ensures ahead { result.ahead.items ≡ [] }
    ensures own { result.own ≡ own }
{
    Settled {
        told,
        ahead: Vec::new(alloc),
        own,
    }
}

/// Returns the status that a command reports without a run, or how its run begins.
pub(crate) fn settle(alloc: Global, job: &Job) -> Result<Outlook, NoMemory>
    requires ranges { IsInRange job.now.command }
    ensures { IfOk result (IsOutlook job.now.command job.now.front (arc_value job.now.code)) }
{
    match job.command {
        Command::Check => Ok(Outlook::Told(check::settle(alloc, &job.code, &job.front)?)),
        Command::Resume(options) => resume::settle(alloc, &job.code, options, &job.front),
        Command::Run(_)
        | Command::Bench(_, _, _)
        | Command::Sim(_, _)
        | Command::Replay(_)
        | Command::Weak(_, _) => Ok(Outlook::Begins),
    }
}

/// Makes the run that a command asks for, from the engine if there is one. If nothing was begun, because memory ran out, sink and devices
/// come back as they were.
pub(crate) fn make<R, K, D, G>(
    rt: &R,
    alloc: Global,
    job: &Job,
    engine: Option<Engine<Fragment>>,
    io: Io<K, D>,
    gate: &G,
) -> Result<FinishedRun<K, D>, Io<K, D>>
where
    R: Threads + Wait + Sync,
    K: Sink + Send + Drop,
    D: Device + Send,
    G: Gate + Sync,
    requires ranges { IsInRange job.now.command }
    requires devices { (arc_value job.now.code).accepted.devices ≡ length io.ends.told }
    requires opened { IfSome engine (IsOpened job.now.command job.now.front (arc_value job.now.code)) }
    ensures made { IfOk result (λ made. IsRunMade job.now.command job.now.front (arc_value job.now.code) io.ends made.left made.ahead.items made.io.ends) }
    ensures back { IfErr result (λ back. back ≡ io) }
{
    if let Some(engine) = engine {
        return resume::run(rt, alloc, &job.code, engine, io, gate);
    }
    match job.command {
        Command::Run(options) | Command::Bench(_, _, options) => {
            run::run(rt, alloc, &job.code, options, io, gate)
        }
        Command::Sim(_, _)
        | Command::Replay(_)
        | Command::Check
        | Command::Resume(_)
        | Command::Weak(_, _) => make_alone(alloc, job, io),
    }
}

/// Makes the run that a command asks for on this thread. If nothing was begun, because memory ran out or the command makes no such run, sink
/// and devices come back as they were.
pub(crate) fn make_alone<K, D>(
    alloc: Global,
    job: &Job,
    io: Io<K, D>,
) -> Result<FinishedRun<K, D>, Io<K, D>>
where
    K: Sink + Drop,
    D: Device,
    requires ranges { IsInRange job.now.command }
    requires devices { (arc_value job.now.code).accepted.devices ≡ length io.ends.told }
    ensures made { IfOk result (λ made. IsRunMade job.now.command job.now.front (arc_value job.now.code) io.ends made.left made.ahead.items made.io.ends) }
    ensures back { IfErr result (λ back. back ≡ io) }
{
    match job.command {
        Command::Sim(seed, options) => {
            let mut chooser = Drawn::new(seed);
            sim::run(alloc, &job.code, options, io, &mut chooser)
        }
        Command::Replay(options) => { replay::run(alloc, &job.code, options, &job.front, io) }
        Command::Weak(seed, turns) => Ok(weak::run(alloc, &job.code, seed, turns, io)),
        Command::Run(_) | Command::Bench(_, _, _) | Command::Check | Command::Resume(_) => Err(io),
    }
}

/// Writes what stands after the verdict line of a run.
pub(crate) fn write_behind<K: Sink>(
    sink: &mut K,
    command: &Command,
    left: &RunResult,
    told: &Status,
) -> Result<(), WriteFault>
    ensures whole { OnOk result (Appends (K.written sink.old) (K.written sink.new) (spec.written_behind command.now left.now told.now)) }
    ensures stayed { OnOk result (K.faults sink.new ≡ K.faults sink.old) }
    ensures front { OnErr result (AppendsFront (K.written sink.old) (K.written sink.new) (spec.written_behind command.now left.now told.now)) }
    ensures risen { OnErr result (HasRisen (K.faults sink.old) (K.faults sink.new)) }
{
    match command {
        Command::Run(_)
        | Command::Bench(_, _, _)
        | Command::Check
        | Command::Resume(_)
        | Command::Weak(_, _) => Ok(()),
        Command::Sim(_, _) | Command::Replay(_) => sim::write_behind(sink, left, told),
    }
}
