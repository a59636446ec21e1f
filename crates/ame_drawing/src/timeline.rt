//! The events of a run.

ghost use Rattle.std.specs.Prelude.{◌<◌, ◌^◌, IfOk, MatchOption, length};
ghost use Rattle.ame_drawing.specs.Claims.{TellEntries};
ghost use Rattle.ame_drawing.specs.Lanes as lanes;
ghost use Rattle.ame_drawing.specs.Timelines.{IsTimelineOf};

use crate::claim::tell_entries;
use crate::lane::{DrawnAttempt, lanes_below};
use crate::pick::DrawnPick;
use ame_journal::Entry;
use ame_term::NoMemory;
use std::alloc::Global;

/// The attempts of a run, lane by lane, each an event.
#[derive(Drop)]
pub struct Timeline {
    pub seats: u32,
    pub attempts: Vec<DrawnAttempt>,
}

/// Returns the events of a run, or `None` if they don't show these entries one for one.
pub fn timeline_of(
    alloc: Global,
    seats: u32,
    picks: &[DrawnPick],
    entries: &[Entry],
) -> Result<Option<Timeline>, NoMemory>
    requires { length picks.now < 2 ^ 32 }
    ensures { IfOk result (λ made. MatchOption made (¬ TellEntries seats entries.now (lanes.lanes_below seats picks.now))
        (IsTimelineOf seats picks.now entries.now)) }
{
    let attempts = lanes_below(alloc, seats, picks)?;
    if tell_entries(alloc, seats, entries, &attempts)? {
        return Ok(Some(Timeline { seats, attempts }));
    }
    Ok(None)
}
