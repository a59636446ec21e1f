//! Views of a run.

ghost use Rattle.std.specs.Prelude.{◌≤◌, length, vec_len};
ghost use Rattle.ame_lex.specs.Bytes.{max_text};

use crate::course::course_text;
use crate::events::{course_events_text, events_text};
use crate::picture::picture_text;
use crate::view_request::View;
use crate::weak::order_text;
use ame_app::{Extra, Ran, Report, RunResult, StandardDevice};
use ame_check::Halt;
use ame_engine::Stop;
use ame_journal::Entry;
use ame_labels::steps_of;
use ame_lex::lex;
use ame_parse::parse;
use ame_term::{Copied, NoMemory, Program, push};
use ame_views::{
    ReplayedRun, counts_of, input_of, journal_of, replayed_run_of, store_of, trace_of,
    weak_counts_of,
};
use std::alloc::Global;

/// The answer for a run that has no schedule.
const NO_SCHEDULE: &[u8] = b"this run has no schedule; those of `sim` and `replay` have one\n";

/// Returns what is asked for of a run.
pub fn page_of<K>(
    alloc: Global,
    view: View,
    report: &Report<K, StandardDevice>,
    run: &Ran,
    title: &str,
) -> Result<Vec<u8>, NoMemory>
    requires small { vec_len report.now.text ≤ max_text }
{
    let entries = entries_of(alloc, report)?;
    match view {
        View::Trace => trace_text(alloc, report, run, &entries),
        View::Schedule => schedule_text(alloc, &run.left, &report.text),
        View::Counts => counts_text(alloc, report, run, &entries),
        View::Store => store_of(alloc, &report.text, run.left.store()),
        View::Steps => steps_text(alloc, &report.text, &entries),
        View::Picture => {
            let shown = shown_by(alloc, report, run, &entries)?.unwrap_or(ReplayedRun::empty(
                alloc,
            ));
            match &run.left {
                RunResult::Engine(_, Extra::Picked(mades)) => {
                    picture_text(alloc, report, mades, &entries, &shown, title)
                }
                RunResult::Engine(_, _) | RunResult::Weak(_) => {
                    course_text(alloc, report, run, &entries, &shown, title)
                }
            }
        }
        View::Events => match &run.left {
            RunResult::Engine(_, Extra::Picked(mades)) => events_text(alloc, mades, &entries),
            RunResult::Engine(_, _) | RunResult::Weak(_) => course_events_text(
                alloc, &run.left, &entries,
            ),
        },
        View::Why | View::Journal => journal_text(alloc, &entries, &report.text),
    }
}

/// Returns the entries of a whole run: those from which it went on, and those that it added.
pub fn entries_of<K, D>(alloc: Global, report: &Report<K, D>) -> Result<Vec<Entry>, NoMemory> {
    let mut entries = Vec::new(alloc);
    for entry in report.base() {
        push(&mut entries, entry.copy(alloc)?)?;
    }
    for entry in report.journal() {
        push(&mut entries, entry.copy(alloc)?)?;
    }
    Ok(entries)
}

/// Returns what a run counted, next to its bounds; nothing if its journal can't be replayed.
fn counts_text<K>(
    alloc: Global,
    report: &Report<K, StandardDevice>,
    run: &Ran,
    entries: &[Entry],
) -> Result<Vec<u8>, NoMemory> {
    let Some(shown) = shown_by(alloc, report, run, entries)? else {
        return Ok(Vec::new(alloc));
    };
    match &run.left {
        RunResult::Weak(weak) if matches!(weak.stop, Stop::NoMemory) => Ok(Vec::new(alloc)),
        RunResult::Weak(weak) => weak_counts_of(alloc, weak.turns, entries, &shown),
        RunResult::Engine(ended, _) => counts_of(alloc, ended, &shown),
    }
}

/// Replays a run. None if its journal can't be replayed.
fn shown_by<K>(
    alloc: Global,
    report: &Report<K, StandardDevice>,
    run: &Ran,
    entries: &[Entry],
) -> Result<Option<ReplayedRun>, NoMemory> {
    match replayed_run_of(alloc, &report.text, &run.code, entries) {
        Ok(shown) => Ok(Some(shown)),
        Err(Halt::Undefined(_, _) | Halt::Tall(_)) => Ok(None),
        Err(Halt::NoMemory) => Err(NoMemory),
    }
}

/// Returns the labels of a run, one after another, as far as they are few enough.
fn steps_text(alloc: Global, text: &[u8], entries: &[Entry]) -> Result<Vec<u8>, NoMemory>
    requires small { length text.now ≤ max_text }
{
    let program = program_of(alloc, text)?;
    let page = steps_of(alloc, program, entries)?;
    Ok(page.unwrap_or(Vec::new(alloc)))
}

/// Returns the program that a text is which was read before.
pub fn program_of(alloc: Global, text: &[u8]) -> Result<Program, NoMemory>
    requires small { length text.now ≤ max_text }
{
    let Ok(tokens) = lex(alloc, text) else {
        return Err(NoMemory);
    };
    match parse(alloc, text, &tokens) {
        Ok(program) => Ok(program),
        Err(_) => Err(NoMemory),
    }
}

/// Returns the schedule of a run, the line `program` and the text; if the run has no schedule, why.
fn schedule_text(alloc: Global, left: &RunResult, text: &[u8]) -> Result<Vec<u8>, NoMemory> {
    match left {
        RunResult::Engine(_, Extra::Picked(mades)) => mades.schedule_text(alloc, text),
        RunResult::Engine(_, _) | RunResult::Weak(_) => Ok(Vec::from_slice(alloc, NO_SCHEDULE)?),
    }
}

/// Returns the table of a run's journal, and the forms that created the locations that are left, if any; for a weak run first the order in
/// which it was made.
fn trace_text<K>(
    alloc: Global,
    report: &Report<K, StandardDevice>,
    run: &Ran,
    entries: &[Entry],
) -> Result<Vec<u8>, NoMemory>
    requires small { vec_len report.now.text ≤ max_text }
{
    let mut page = match &run.left {
        RunResult::Weak(weak) => order_text(alloc, &report.text, weak)?,
        RunResult::Engine(_, _) => Vec::new(alloc),
    };
    let shown = shown_by(alloc, report, run, entries)?.unwrap_or(ReplayedRun::empty(alloc));
    let left = &run.left;
    page.extend_from_slice(&trace_of(&report.text, entries, &shown, left.tried(), left.store())?)?;
    Ok(page)
}

/// Returns the text of these entries, the line `program` and the text.
pub fn journal_text(alloc: Global, entries: &[Entry], text: &[u8]) -> Result<Vec<u8>, NoMemory> {
    match journal_of(alloc, entries)? {
        Some(journal) => input_of(alloc, &journal, text),
        None => Ok(Vec::new(alloc)),
    }
}
