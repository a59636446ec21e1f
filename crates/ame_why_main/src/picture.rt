//! The picture of a run whose picks are known.

use crate::course::starters_by_number;
use ame_app::{Mades, Report, StandardDevice};
use ame_drawing::{drawing_of, shown_picks, shown_seats};
use ame_journal::Entry;
use ame_picture::{Captions, picture_of};
use ame_term::NoMemory;
use ame_views::{ReplayedRun, journal_of};
use std::alloc::Global;

/// The most picks that are drawn.
const MOST_PICKS: usize = 10_000;

/// The answers for a run that has no picture, and for one whose picture would be too wide.
const NO_PICTURE: &[u8] = b"this run has no picture\n";

const TOO_WIDE: &[u8] = b"this run has no picture, as it has more than 10,000 turns\n";

/// Returns the picture of a run, with what a replay of it shows, or why it has none.
pub fn picture_text<K>(
    alloc: Global,
    report: &Report<K, StandardDevice>,
    mades: &Mades,
    entries: &[Entry],
    shown: &ReplayedRun,
    title: &str,
) -> Result<Vec<u8>, NoMemory> {
    if mades.len() > MOST_PICKS {
        return Ok(Vec::from_slice(alloc, TOO_WIDE)?);
    }
    let picks = shown_picks(alloc, mades.iter(), entries)?;
    let starters = starters_by_number(alloc, &shown.starters)?;
    let (Some(drawing), Some(journal)) = (
        drawing_of(
            alloc,
            shown_seats(mades.picks()),
            &picks,
            entries,
            &starters,
        )?,
        journal_of(alloc, entries)?,
    ) else {
        return Ok(Vec::from_slice(alloc, NO_PICTURE)?);
    };
    let captions = Captions {
        title: Vec::from_slice(alloc, title.as_bytes())?,
        verdict: Vec::from_slice(alloc, report.status.line().as_str().as_bytes())?,
        replay: mades.schedule_text(alloc, &report.text)?,
        journal: journal.to_text(alloc)?,
    };
    picture_of(alloc, &drawing, &shown.lines, &captions)
}
