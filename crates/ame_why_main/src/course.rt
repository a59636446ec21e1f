//! The picture of a run by its fragments.

use crate::views::journal_text;
use ame_app::{Ran, Report, StandardDevice};
use ame_drawing::moments_of;
use ame_journal::Entry;
use ame_picture::{Labels, course_picture_of};
use ame_term::{NoMemory, push};
use ame_views::{ReplayedRun, Starter};
use std::alloc::Global;

/// The most entries and tries that are drawn.
const MOST_COLUMNS: usize = 10_000;

/// The answer for a run with more.
const TOO_WIDE: &[u8] = b"this run has no picture, as it has more than 10,000 entries and tries\n";

/// Returns the picture of a run by its fragments, with what a replay of it shows, or why it has none.
pub fn course_text<K>(
    alloc: Global,
    report: &Report<K, StandardDevice>,
    run: &Ran,
    entries: &[Entry],
    shown: &ReplayedRun,
    title: &str,
) -> Result<Vec<u8>, NoMemory> {
    let moments = moments_of(alloc, entries, run.left.tried())?;
    if moments.len() > MOST_COLUMNS {
        return Ok(Vec::from_slice(alloc, TOO_WIDE)?);
    }
    let starters = starters_by_number(alloc, &shown.starters)?;
    let labels = Labels {
        title: Vec::from_slice(alloc, title.as_bytes())?,
        verdict: Vec::from_slice(alloc, report.status.line().as_str().as_bytes())?,
        certificate: journal_text(alloc, entries, &report.text)?,
    };
    course_picture_of(alloc, &moments, &starters, &shown.lines, &labels)
}

/// Returns the entries that started all fragments, by their numbers; the program has entry 0, which there isn't.
pub fn starters_by_number(alloc: Global, starters: &[Starter]) -> Result<Vec<u64>, NoMemory> {
    let mut all = Vec::new(alloc);
    push(&mut all, 0)?;
    for starter in starters {
        push(&mut all, starter.entry)?;
    }
    Ok(all)
}
