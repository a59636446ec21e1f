//! Runs that are made in memory.

ghost use Rattle.std.specs.Prelude.{◌≡◌, ℕ, IfErr, IfOk, List, option_map, vec_len};
ghost use Rattle.ame_app.specs.Reported.{run_view};
ghost use Rattle.ame_app.specs.declared.alone.Alone.{Alone as Asked};
ghost use Rattle.ame_c.specs.CallResult as spec;
ghost use Rattle.ame_c.specs.CallResult.{AnswersRun, Certifies, IsCallResult, IsNoResult, Schedules, TellsMade, texts};
ghost use Rattle.ame_c.specs.Out.{bytes_in};

use crate::lines::Lines;
use crate::memory_sink::MemorySink;
use crate::out::{hand_out, tell};
use crate::whole::Whole;
use ame_app::{Alone, Extra, Ran, RunResult, Status, run_alone_over, standard_devices};
use ame_term::NoMemory;
use ame_views::{input_of, journal_of};
use std::alloc::Global;

/// The status of a call with its lines, and the certificate and the schedule of its run.
#[derive(Drop)]
pub(crate) struct CallResult {
    pub(crate) told: Status,
    pub(crate) lines: Lines,
    pub(crate) certificate: Vec<u8>,
    pub(crate) schedule: Vec<u8>,
}

impl CallResult {
    /// Writes lines, certificate and schedule, each as far as there is room, and how long each is. Returns the number of the status.
    pub(crate) fn hand_out(
        &self,
        lines: &mut [u8],
        certificate: &mut [u8],
        schedule: &mut [u8],
        whole: &mut Whole,
    ) -> u8
        ensures { (command : Asked) (bytes : List ℕ)
            → TellsMade command bytes self.now.told (texts (bytes_in self.now.lines) self.now.certificate.items self.now.schedule.items)
            → AnswersRun command bytes (texts lines.old certificate.old schedule.old) (texts lines.new certificate.new schedule.new) result whole.new }
    {
        hand_out(self.lines.as_bytes(), lines, &mut whole.lines);
        hand_out(&self.certificate, certificate, &mut whole.certificate);
        hand_out(&self.schedule, schedule, &mut whole.schedule);
        tell(&self.told, &mut whole.number)
    }
}

/// Does a command with these bytes. If that can't be done, there is only the line that says why.
pub(crate) fn made_by(alloc: Global, command: Alone, bytes: &[u8]) -> CallResult
    ensures { TellsMade command bytes.now result.told (texts (bytes_in result.lines) result.certificate.items result.schedule.items) }
{
    match make(alloc, command, bytes) {
        Ok(made) => made,
        Err(told) => CallResult {
            lines: Lines::of(&told),
            told,
            certificate: Vec::new(alloc),
            schedule: Vec::new(alloc),
        },
    }
}

/// Does a command with these bytes, or returns why that can't be done.
fn make(alloc: Global, command: Alone, bytes: &[u8]) -> Result<CallResult, Status>
    ensures made { IfOk result (λ made. IsCallResult command bytes.now made.told (texts (bytes_in made.lines) made.certificate.items made.schedule.items)) }
    ensures unmade { IfErr result (IsNoResult command) }
{
    if !command.is_in_range() {
        return Err(Status::Usage);
    }
    let Ok(devices) = standard_devices(alloc) else {
        return Err(Status::NoMemory);
    };
    let report = run_alone_over(alloc, command, bytes, MemorySink::new(alloc), devices);
    let (Ok(certificate), Ok(schedule)) = (
        certificate_of(alloc, &report.run, &report.text),
        schedule_of(alloc, &report.run, &report.text),
    ) else {
        return Err(Status::NoMemory);
    };
    Ok(CallResult {
        told: told_of(report.status),
        lines: Lines::Many(report.sink.bytes),
        certificate,
        schedule,
    })
}

/// Returns the status of a call whose lines stay in memory, by that of its report.
fn told_of(status: Status) -> Status
    ensures { result ≡ spec.told_of status }
{
    match status {
        Status::WriteFault => Status::NoMemory,
        status => status,
    }
}

/// Returns the certificate of a run, if one was begun.
fn certificate_of(alloc: Global, run: &Option<Ran>, text: &[u8]) -> Result<Vec<u8>, NoMemory>
    ensures { IfOk result (λ bytes. Certifies (option_map run_view run.now) text.now bytes.items) }
{
    let Some(run) = run else {
        return Ok(Vec::new(alloc));
    };
    match journal_of(alloc, run.left.journal())? {
        Some(journal) => input_of(alloc, &journal, text),
        None => Ok(Vec::new(alloc)),
    }
}

/// Returns the schedule of a run with its program, if one was begun that has picks.
fn schedule_of(alloc: Global, run: &Option<Ran>, text: &[u8]) -> Result<Vec<u8>, NoMemory>
    ensures { IfOk result (λ bytes. Schedules (option_map run_view run.now) text.now bytes.items) }
{
    let Some(run) = run else {
        return Ok(Vec::new(alloc));
    };
    match &run.left {
        RunResult::Engine(_, Extra::Picked(mades)) => mades.schedule_text(alloc, text),
        RunResult::Engine(_, Extra::Nothing | Extra::Resumed(_)) | RunResult::Weak(_) => Ok(
            Vec::new(alloc),
        ),
    }
}
