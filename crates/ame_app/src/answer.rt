//! Answers to jobs, however a run is made.

ghost use Rattle.std.specs.Prelude.{◌≡◌, ◌⊎◌, [], IfErr, IfOk, IfSome, IsSome, None, Some};
ghost use Rattle.std.specs.Arc.{arc_value};
ghost use Rattle.ame_cli.specs.Ranges.{IsInRange};
ghost use Rattle.ame_code.specs.Code.{program_of};
ghost use Rattle.ame_shell.specs.Ends.{Ends, ends_of};
ghost use Rattle.ame_app.specs.Calls.{Call};
ghost use Rattle.ame_app.specs.Headline.{Headline, IsToldAlone};
ghost use Rattle.ame_app.specs.RunResult.{end_in};
ghost use Rattle.ame_app.specs.Reported.{reported};
ghost use Rattle.ame_app.specs.Jobs.{IsJobOf, IsOpened, IsRunMade, IsLeft};
ghost use Rattle.ame_app.specs.Verbs.{Settles};

use crate::asked::Asked;
use crate::parts::ReportPart;
use crate::refusal::{Refusal, turn_back};
use crate::report::Report;
use crate::run_result::Ran;
use crate::speak::speak_after;
use crate::status::Status;
use crate::verbs::{FinishedRun, Job, Outlook, Settled, settle, told_alone};
use ame_device::Device;
use ame_engine::Engine;
use ame_eval::Fragment;
use ame_io::Sink;
use ame_shell::Io;
use ame_term::NoMemory;
use std::alloc::Global;

/// Returns the engine from which the run of a job goes on, if there is one; or how the job is answered without a run.
pub(crate) fn opened(alloc: Global, job: &Job) -> Result<Option<Engine<Fragment>>, Settled>
    requires ranges { IsInRange job.now.command }
    ensures opened { IfOk result (λ engine. IfSome engine (IsOpened job.now.command job.now.front (arc_value job.now.code))) }
    ensures settled { IfErr result (λ s. Settles job.now.command job.now.front (program_of (arc_value job.now.code)) s.ahead.items s.own s.told
        ⊎ ((s.ahead.items ≡ []) × (s.own ≡ ReportPart.Nothing) × (s.told ≡ Status.NoMemory))) }
{
    match settle(alloc, job) {
        Ok(Outlook::Told(settled)) => Err(settled),
        Ok(Outlook::Begins) => Ok(None),
        Ok(Outlook::GoesOn(engine)) => Ok(Some(engine)),
        Err(NoMemory) => Err(told_alone(alloc, Status::NoMemory, ReportPart::Nothing)),
    }
}

/// Reports the answer to a job without a run.
pub(crate) fn leave<K: Sink + Drop, D: Device>(
    asked: Asked,
    settled: Settled,
    io: Io<K, D>,
) -> Report<K, D>
    requires settled { Settles asked.job.command asked.job.front (program_of (arc_value asked.job.code)) settled.ahead.items settled.own settled.told
        ⊎ ((settled.ahead.items ≡ []) × (settled.own ≡ ReportPart.Nothing) × (settled.told ≡ Status.NoMemory)) }
    ensures text { result.text ≡ asked.text }
    ensures run { result.run ≡ None }
    ensures left { IsLeft asked.job.command asked.job.front (arc_value asked.job.code) (reported result) io.ends
        (ends_of K.written K.faults D.device_told result.sink result.devices.items) }
{
    let Settled { told, ahead, own } = settled;
    let refusal = Refusal {
        command: Some(asked.job.command),
        told,
        text: asked.text,
    };
    turn_back(&ahead, own, refusal, io)
}

/// Reports that there was no memory for the run of a job.
pub(crate) fn leave_unbegun<K: Sink + Drop, D: Device>(asked: Asked, io: Io<K, D>) -> Report<K, D>
    ensures text { result.text ≡ asked.text }
    ensures command { result.command ≡ Some asked.job.command }
    ensures run { result.run ≡ None }
    ensures alone { IsToldAlone [] ReportPart.Nothing Status.NoMemory (reported result) io.ends
        (ends_of K.written K.faults D.device_told result.sink result.devices.items) }
{
    let told = Status::NoMemory;
    let refusal = Refusal {
        command: Some(asked.job.command),
        told,
        text: asked.text,
    };
    turn_back(&[], ReportPart::Nothing, refusal, io)
}

/// Writes how a run ended, and reports it.
pub(crate) fn conclude<K: Sink + Drop, D: Device>(
    asked: Asked,
    made: FinishedRun<K, D>,
) -> Report<K, D>
    ensures run { IsSome (reported result).run }
    ensures text { result.text ≡ asked.text }
    ensures command { result.command ≡ Some asked.job.command }
    ensures ran { IfSome (reported result).run (λ run. (call : Call) (before : Ends)
        → IsJobOf call asked.text.items (arc_value asked.job.code) asked.job.command asked.job.front
        → IsRunMade asked.job.command asked.job.front (arc_value asked.job.code) before made.left made.ahead.items made.io.ends
        → Headline call (reported result) run (end_in run.left) before
        (ends_of K.written K.faults D.device_told result.sink result.devices.items)) }
{
    let FinishedRun { left, ahead, io } = made;
    let (mut sink, devices) = io.into_parts();
    let Asked { job, text } = asked;
    let told = Status::of(&left);
    let status = speak_after(&mut sink, &ahead, told, &job.command, &left);
    Report {
        status,
        text,
        command: Some(job.command),
        run: Some(Ran {
            code: job.code,
            left,
        }),
        own: ReportPart::Nothing,
        sink,
        devices,
    }
}
