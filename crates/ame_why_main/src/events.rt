//! The events of a run, for a viewer of traces.

use ame_app::{Mades, RunResult};
use ame_drawing::{moments_of, shown_picks, shown_seats, timeline_of};
use ame_journal::Entry;
use ame_picture::{course_events_of, events_page_of};
use ame_term::NoMemory;
use std::alloc::Global;

/// The most picks that are shown: more than a run has.
const MOST_PICKS: usize = 0xffff_ffff;

/// The answer for a run that has no events.
const NO_EVENTS: &[u8] = b"this run has no events\n";

/// Returns the events of a run whose picks are known: a track a seat.
pub fn events_text(alloc: Global, mades: &Mades, entries: &[Entry]) -> Result<Vec<u8>, NoMemory> {
    if mades.len() > MOST_PICKS {
        return Ok(Vec::from_slice(alloc, NO_EVENTS)?);
    }
    let picks = shown_picks(alloc, mades.iter(), entries)?;
    match timeline_of(alloc, shown_seats(mades.picks()), &picks, entries)? {
        Some(timeline) => events_page_of(alloc, &timeline),
        None => Ok(Vec::from_slice(alloc, NO_EVENTS)?),
    }
}

/// Returns the events of another run: a track a fragment.
pub fn course_events_text(
    alloc: Global,
    left: &RunResult,
    entries: &[Entry],
) -> Result<Vec<u8>, NoMemory> {
    let moments = moments_of(alloc, entries, left.tried())?;
    course_events_of(alloc, &moments)
}
