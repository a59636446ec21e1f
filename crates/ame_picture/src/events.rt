//! The events of a run as text, in the format of traces that browsers show. No text of a program is in it.

ghost use Rattle.std.specs.Prelude.{◌≡◌, ◌+◌, ◌-◌};

use crate::constants::{COURSE_BEGIN, EVENTS_BEGIN, EVENTS_END};
use crate::words::{attempt_sort, fate_words, kind_words};
use ame_drawing::{Done, DrawnAttempt, Moment, Timeline, lane_up_to, lanes_up_to};
use ame_page::Page;
use ame_protocol::Tried;
use ame_term::NoMemory;
use std::alloc::Global;

/// The last track, which the fragments from this number on share.
const LAST_TRACK: u32 = 999_999;

/// Returns the events of a run as one JSON text, which Perfetto and Chrome read: a track a seat, and an event for each attempt, from its first pick to
/// its last, a microsecond a pick.
pub fn events_page_of(alloc: Global, timeline: &Timeline) -> Result<Vec<u8>, NoMemory> {
    let mut page = Page::new(alloc);
    page.add(EVENTS_BEGIN)?;
    add_tracks(&mut page, "seat", timeline.seats)?;
    for attempt in &timeline.attempts {
        add_attempt(&mut page, attempt)?;
    }
    page.add(EVENTS_END)?;
    Ok(page.into_bytes())
}

/// Returns the events of a run by its fragments as such a text: a track a fragment, and in it an event for each of these moments, a microsecond a
/// moment.
pub fn course_events_of(alloc: Global, moments: &[Moment]) -> Result<Vec<u8>, NoMemory> {
    let mut page = Page::new(alloc);
    page.add(COURSE_BEGIN)?;
    add_tracks(&mut page, "task", lanes_up_to(LAST_TRACK, moments))?;
    for (index, moment) in moments.iter().enumerate() {
        match moment {
            Moment::Entry(done) => add_done(&mut page, index as u64, done)?,
            Moment::Try(lost) => add_lost(&mut page, index as u64, lost)?,
        }
    }
    page.add(EVENTS_END)?;
    Ok(page.into_bytes())
}

/// Appends the name of each track.
fn add_tracks(page: &mut Page, word: &str, tracks: u32) -> Result<(), NoMemory> {
    for track in 0..tracks {
        let id = u64::from(track) + 1;
        write!(
            page,
            ",\n{{\"ph\":\"M\",\"pid\":1,\"tid\":{id},\"name\":\"thread_name\",\"args\":{{\"name\":\"{word} {track}\"}}}}"
        )?;
    }
    Ok(())
}

/// Appends an attempt. Its sort is the kind of the entry that it made, or `try`.
fn add_attempt(page: &mut Page, attempt: &DrawnAttempt) -> Result<(), NoMemory> {
    let member = attempt.member;
    let start = u64::from(attempt.from);
    write!(page, ",\n{{\"name\":\"task {member}\",\"cat\":\"")?;
    page.add(attempt_sort(attempt.entry))?;
    add_span(page, attempt.seat, start, length_of(attempt))?;
    if let Some(entry) = attempt.entry {
        let number = entry.number;
        write!(page, "\"entry\":{number},")?;
    }
    end_event(page, fate_words(attempt.fate))
}

/// Returns the number of picks that an attempt lasts.
fn length_of(attempt: &DrawnAttempt) -> u64
    ensures { result ≡ attempt.now.to + 1 - attempt.now.from }
{
    (u64::from(attempt.to) + 1).saturating_sub(u64::from(attempt.from))
}

/// Appends an entry, which lasts from this number to the next.
fn add_done(page: &mut Page, number: u64, done: &Done) -> Result<(), NoMemory> {
    let (entry, fragment, steps, seat) = (done.entry, done.fragment, done.steps, done.seat);
    write!(page, ",\n{{\"name\":\"entry {entry}\",\"cat\":\"")?;
    page.add(done.kind.word())?;
    add_span(page, lane_up_to(LAST_TRACK, fragment), number, 1)?;
    write!(
        page,
        "\"task\":{fragment},\"steps\":{steps},\"seat\":{seat},"
    )?;
    end_event(page, kind_words(done.kind))
}

/// Appends a try.
fn add_lost(page: &mut Page, number: u64, lost: &Tried) -> Result<(), NoMemory> {
    let (at, fragment, steps) = (lost.at, lost.number, lost.steps);
    write!(page, ",\n{{\"name\":\"try behind {at}\",\"cat\":\"try")?;
    add_span(page, lane_up_to(LAST_TRACK, fragment), number, 1)?;
    write!(page, "\"task\":{fragment},\"steps\":{steps},")?;
    end_event(page, "rolled back")
}

/// Appends in which track an event is, when it begins and how long it lasts.
fn add_span(page: &mut Page, track: u32, start: u64, count: u64) -> Result<(), NoMemory> {
    let id = u64::from(track) + 1;
    write!(
        page,
        "\",\"ph\":\"X\",\"pid\":1,\"tid\":{id},\"ts\":{start},\"dur\":{count},\"args\":{{"
    )
}

/// Appends what became of an event, and ends it.
fn end_event(page: &mut Page, fate: &str) -> Result<(), NoMemory> {
    write!(page, "\"fate\":\"{fate}\"}}}}")
}
