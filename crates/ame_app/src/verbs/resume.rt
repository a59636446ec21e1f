//! `resume`: a run that goes on from a certificate.

ghost use Rattle.std.specs.Prelude.{◌≡◌, All, IfErr, IfOk, List, length, vec_len, ℕ, ℤ};
ghost use Rattle.std.specs.Arc.{arc_value};
ghost use Rattle.ame_journal.specs.JournalView.{IsFit};
ghost use Rattle.ame_journal.specs.Totals.{without_notes};
ghost use Rattle.ame_check.specs.Judge.{IsPlace, LeadsTo, IsTallAt};
ghost use Rattle.ame_cli.specs.Ranges.{AreInRange};
ghost use Rattle.ame_cli.specs.declared.command.Command.{Command as Asked};
ghost use Rattle.ame_code.specs.Code.{program_of};
ghost use Rattle.ame_code.specs.FlatCode.{FlatCode};
ghost use Rattle.ame_engine.specs.Resuming.{AreActs, FailsToResume, IsFar};
ghost use Rattle.ame_engine.specs.Whole.{AreLimits};
ghost use Rattle.ame_app.specs.Jobs.{HasJustResumed, IsEngineOn, IsOutlook, IsOverResumed, IsReplayable};
ghost use Rattle.ame_app.specs.RunResult.{end_in};
ghost use Rattle.ame_app.specs.Verbs.Check.{entries_before as entries_in};
ghost use Rattle.ame_app.specs.Verbs.Resume.{TellsResumed};

use crate::limits::limits_of;
use crate::parts::{Front, ReportPart};
use crate::run_result::{Extra, RunResult};
use crate::status::Status;
use crate::verbs::check::entries_before;
use crate::verbs::{FinishedRun, Outlook, told_alone};
use ame_check::{Judged, judge};
use ame_cli::Options;
use ame_code::Code;
use ame_device::Device;
use ame_engine::{Engine, ResumeFail};
use ame_eval::Fragment;
use ame_io::Sink;
use ame_journal::{Entry, Journal};
use ame_shell::Io;
use ame_team::resume_by_workers;
use ame_term::{Copied, NoMemory};
use ame_worker::Gate;
use std::alloc::Global;
use std::sync::{Arc, Wait};
use std::thread::Threads;

/// Returns a copy of the entries without the notes.
pub(crate) fn acts_of(alloc: Global, entries: &[Entry]) -> Result<Journal, NoMemory>
    requires fit { All IsFit entries.now }
    ensures { IfOk result (λ acts. acts.entries ≡ without_notes entries.now) }
{
    let mut acts = Journal::new(alloc);
    for entry in entries {
        if !entry.kind.is_note() {
            let act = entry.copy(alloc)?;
            acts.room()?;
            acts.push(act);
        }
    }
    Ok(acts)
}

/// Counts the entries that are no notes.
fn acts_among(entries: &[Entry]) -> usize
    ensures { result ≡ length (without_notes entries.now) }
{
    entries.iter().filter(|entry| !entry.kind.is_note()).count()
}

/// Refuses a journal whose entry at a place, from 1, passes a form whose value would be nested too deeply. The status counts the entries
/// without the notes. If that entry is itself a note, no run goes on from it, and the error is `NoMemory`.
fn tall(alloc: Global, front: &Front, options: Options, place: u64) -> Result<Outlook, NoMemory>
    requires place { IsPlace (entries_in front.now) place }
    ensures { IfOk result (λ outlook. (code : FlatCode) → IsTallAt (program_of code) (entries_in front.now) place
        → IsOutlook (Asked.Resume options) front.now code outlook) }
{
    let with = &entries_before(front)[..place as usize];
    match with.last() {
        Some(entry) if !entry.kind.is_note() => Ok(Outlook::Told(told_alone(
            alloc,
            Status::TallJournal(acts_among(with) as u64),
            ReportPart::Nothing,
        ))),
        _ => Err(NoMemory),
    }
}

/// Opens an engine that goes on from entries that are no notes and lead to a state.
fn engine_on(
    alloc: Global,
    code: &Arc<Code>,
    options: Options,
    base: Journal,
) -> Result<Engine<Fragment>, ResumeFail>
    requires ranges { AreInRange options }
    requires acts { AreActs base.entries }
    requires leads { IsReplayable (program_of (arc_value code.now)) base.entries }
    ensures on { IfOk result (IsEngineOn options base.entries (arc_value code.now)) }
    ensures near { IfOk result (λ _. (n : ℕ) → IsFar base.entries n → ⊥) }
    ensures fail { IfErr result (FailsToResume (program_of (arc_value code.now)) base.entries) }
{
    let Ok(code) = Arc::try_clone(code) else {
        return Err(ResumeFail::NoMemory);
    };
    let limits = limits_of(options);
    Engine::<Fragment>::resume(alloc, code, limits, base)
}

/// Opens an engine that goes on from a valid journal without its notes, or reports the first entry that is too far for an engine.
fn go_on(
    alloc: Global,
    code: &Arc<Code>,
    options: Options,
    front: &Front,
) -> Result<Outlook, NoMemory>
    requires ranges { AreInRange options }
    requires leads { (output : List ℤ) × LeadsTo (program_of (arc_value code.now)) (entries_in front.now) output }
    ensures { IfOk result (IsOutlook (Asked.Resume options) front.now (arc_value code.now)) }
{
    let base = acts_of(alloc, entries_before(front))?;
    match engine_on(alloc, code, options, base) {
        Ok(engine) => Ok(Outlook::GoesOn(engine)),
        Err(ResumeFail::Far(place)) => Ok(Outlook::Told(told_alone(
            alloc,
            Status::FarJournal(place),
            ReportPart::Nothing,
        ))),
        Err(ResumeFail::Tall(_) | ResumeFail::NoMemory) => Err(NoMemory),
    }
}

/// Opens an engine that goes on from the journal before a text, or reports why none can.
pub(crate) fn settle(
    alloc: Global,
    code: &Arc<Code>,
    options: Options,
    front: &Front,
) -> Result<Outlook, NoMemory>
    requires ranges { AreInRange options }
    ensures { IfOk result (IsOutlook (Asked.Resume options) front.now (arc_value code.now)) }
{
    match judge::<Fragment>(alloc, code, entries_before(front))? {
        Judged::Valid(_) => go_on(alloc, code, options, front),
        Judged::Invalid(place, why) => Ok(Outlook::Told(told_alone(
            alloc,
            Status::Invalid(place),
            ReportPart::Unmade(why),
        ))),
        Judged::Long(place) => Ok(Outlook::Told(told_alone(
            alloc,
            Status::LongJournal(place),
            ReportPart::Nothing,
        ))),
        Judged::Tall(place) => tall(alloc, front, options, place),
    }
}

/// Runs on from an engine by as many workers as its limits have seats.
pub(crate) fn run<R, K, D, G>(
    rt: &R,
    alloc: Global,
    code: &Arc<Code>,
    engine: Engine<Fragment>,
    io: Io<K, D>,
    gate: &G,
) -> Result<FinishedRun<K, D>, Io<K, D>>
where
    R: Threads + Wait + Sync,
    K: Sink + Send + Drop,
    D: Device + Send,
    G: Gate + Sync,
    requires resumed { HasJustResumed engine }
    requires limits { AreLimits engine.limits }
    requires code { arc_value code.now ≡ engine.code }
    requires devices { engine.code.accepted.devices ≡ length io.ends.told }
    ensures over { IfOk result (λ made. IsOverResumed engine io.ends (end_in made.left) made.io.ends) }
    ensures own { IfOk result (λ made. TellsResumed made.left) }
    ensures back { IfErr result (λ back. back ≡ io) }
{
    let Ok(code) = Arc::try_clone(code) else {
        return Err(io);
    };
    match resume_by_workers::<Fragment, K, D, G, R>(rt, alloc, code, engine, io, gate) {
        Ok(left) => {
            let resumed = left.ended.base().len() as u64;
            Ok(FinishedRun {
                left: RunResult::Engine(left.ended, Extra::Resumed(resumed)),
                ahead: Vec::new(alloc),
                io: left.io,
            })
        }
        Err(back) => Err(back),
    }
}
