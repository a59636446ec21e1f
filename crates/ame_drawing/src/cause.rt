//! Which commit let a member begin: the one that started it, or the one that woke it.

ghost use Rattle.std.specs.Prelude.{◌≡◌, ◌<◌, ◌^◌, All, IfOk, Some, length};
ghost use Rattle.ame_drawing.specs.Arrows.{LeadsAmong};
ghost use Rattle.ame_drawing.specs.Causes as spec;
ghost use Rattle.ame_drawing.specs.Spans as spec_spans;
ghost use Rattle.ame_drawing.specs.Stamps as spec_stamps;

use crate::arrow::{Arrow, ArrowKind, Sought, Spot, between, last_spot, spot_of};
use crate::pick::{Did, DrawnPick};
use crate::span::{Span, SpanEnd};
use crate::stamp::Stamp;
use ame_term::NoMemory;
use std::alloc::Global;

/// The touch of an attempt on a location.
#[derive(Clone, Copy, PartialEq, Eq, Debug)]
pub(crate) enum Touch {
    Untouched,
    /// It wrote it before it read it.
    Owned,
    /// It read what others wrote.
    Watched,
}

/// The wait of a member for a location: the touch of its last attempt, and the pick that found its condition false.
#[derive(Clone, Copy, PartialEq, Eq, Debug)]
pub(crate) struct Wait {
    pub touch: Touch,
    pub since: Option<u32>,
}

/// A run in which causes are sought: the entry that started each member, by its number; the entries; and the owners of the first locations.
#[derive(Clone, Copy)]
pub(crate) struct Known<'a> {
    pub starters: &'a [u64],
    pub stamps: &'a [Stamp],
    pub places: u32,
    pub spans: &'a [Span],
}

/// Returns an arrow for each pick with which a member begins that a commit started or woke, in the order of these picks. Costs the picks before it
/// and all spans, for each location.
pub(crate) fn causes_of(
    alloc: Global,
    known: &Known<'_>,
    picks: &[DrawnPick],
) -> Result<Vec<Arrow>, NoMemory>
    requires { length picks.now < 2 ^ 32 }
    ensures told { IfOk result (λ arrows. arrows.items
        ≡ spec.causes_from known.now.starters.now known.now.stamps.now known.now.places known.now.spans.now picks.now 0 picks.now) }
    ensures among { known.now.stamps.now ≡ spec_stamps.stamps 0 picks.now → known.now.spans.now ≡ spec_spans.spans known.now.places picks.now
        → IfOk result (λ arrows. All (LeadsAmong picks.now) arrows.items) }
{
    let arrows = collect(alloc, known, picks)?;
    Ok(arrows)
}

/// Collects the causes.
fn collect(alloc: Global, known: &Known<'_>, picks: &[DrawnPick]) -> Result<Vec<Arrow>, NoMemory>
    requires { length picks.now < 2 ^ 32 }
    ensures { IfOk result (λ arrows. arrows.items
        ≡ spec.causes_from known.now.starters.now known.now.stamps.now known.now.places known.now.spans.now picks.now 0 picks.now) }
{
    let mut arrows = Vec::new(alloc);
    for (index, pick) in picks.iter().enumerate() {
        if let Some(arrow) = cause_of(known, &picks[..index], index as u32, pick) {
            arrows.push(arrow)?;
        }
    }
    Ok(arrows)
}

/// Returns what led to a pick, if these were made before it.
fn cause_of(known: &Known<'_>, earlier: &[DrawnPick], index: u32, pick: &DrawnPick) -> Option<Arrow>
    requires { length earlier.now < 2 ^ 32 }
    ensures { result ≡ spec.cause_by known.now.starters.now known.now.stamps.now known.now.places known.now.spans.now index pick.now earlier.now pick.now.did }
{
    if !matches!(pick.did, Did::Began) {
        return None;
    }
    match last_spot(earlier, Sought::Member(pick.member)) {
        None => {
            let spot = starting_pick(known.starters, known.stamps, pick.member);
            arrow_from(ArrowKind::Starts, index, pick, spot)
        }
        Some(_) => {
            let spot = waker(known.places, pick.member, index, known.spans, earlier);
            arrow_from(ArrowKind::Wakes, index, pick, spot)
        }
    }
}

/// Returns an arrow to the beginning of a member, if its cause is known.
fn arrow_from(kind: ArrowKind, index: u32, pick: &DrawnPick, spot: Option<Spot>) -> Option<Arrow>
    ensures { result ≡ spec.arrow_from kind index pick.now spot }
{
    Some(between(kind, pick.member, spot?, spot_of(index, pick)))
}

/// Returns the pick that started a member, if it is known by which entry.
fn starting_pick(starters: &[u64], stamps: &[Stamp], member: u64) -> Option<Spot>
    ensures { result ≡ spec.starting_pick starters.now stamps.now member }
{
    match starters.get(member as usize) {
        Some(number) => entry_pick(stamps, *number),
        None => None,
    }
}

/// Returns the pick that made an entry, counted from 1.
fn entry_pick(stamps: &[Stamp], number: u64) -> Option<Spot>
    ensures { result ≡ spec.entry_pick stamps.now (Some number) }
{
    if number == 0 {
        return None;
    }
    match stamps.get((number - 1) as usize) {
        Some(stamp) => Some(Spot {
            pick: stamp.pick,
            seat: stamp.seat,
        }),
        None => None,
    }
}

/// Returns the first commit before a pick of one of the first locations, if the member waits for it after these picks.
fn waker(
    places: u32,
    member: u64,
    index: u32,
    spans: &[Span],
    earlier: &[DrawnPick],
) -> Option<Spot>
    requires { length earlier.now < 2 ^ 32 }
    ensures { result ≡ spec.waker places member index spans.now earlier.now }
{
    let mut first = None;
    for place in 0..places {
        if let Some(since) = waits_since(member, place, earlier) {
            first = first_release(place, since, index, first, spans);
        }
    }
    first
}

/// Returns the first commit of a location between two picks, unless another is known that was before it.
fn first_release(
    place: u32,
    since: u32,
    index: u32,
    known: Option<Spot>,
    spans: &[Span],
) -> Option<Spot>
    ensures { result ≡ spec.first_release place since index known spans.now }
{
    let mut first = known;
    for span in spans {
        first = first_with(place, since, index, first, span);
    }
    first
}

/// Returns the first commit that is known, or that of a span, if it is one of the location between these picks and was before it.
fn first_with(place: u32, since: u32, index: u32, first: Option<Spot>, span: &Span) -> Option<Spot>
    ensures { result ≡ spec.first_with place since index first span.now }
{
    if is_release_between(place, since, index, span) {
        let spot = Spot {
            pick: span.to,
            seat: span.seat,
        };
        Some(sooner(spot, first))
    } else {
        first
    }
}

/// Returns whether what was written to a location was committed between two picks.
fn is_release_between(place: u32, since: u32, index: u32, span: &Span) -> bool
    ensures { result ≡ spec.is_release_between place since index span.now }
{
    matches!(span.outcome, SpanEnd::Committed)
        && span.place == place
        && since < span.to
        && span.to < index
}

/// Returns the earlier one of the first that is known, if there is one, and a spot.
fn sooner(spot: Spot, first: Option<Spot>) -> Spot
    ensures { result ≡ spec.sooner spot first }
{
    match first {
        None => spot,
        Some(first) => { if spot.pick < first.pick { spot } else { first } }
    }
}

/// Returns the pick since which a member waits for a location, if these picks were made.
fn waits_since(member: u64, place: u32, picks: &[DrawnPick]) -> Option<u32>
    requires { length picks.now < 2 ^ 32 }
    ensures { result ≡ spec.waits_since member place picks.now }
{
    let wait = wait_over(member, place, picks);
    match wait.touch {
        Touch::Watched => wait.since,
        Touch::Untouched | Touch::Owned => None,
    }
}

/// Returns the wait of a member for a location after these picks.
fn wait_over(member: u64, place: u32, picks: &[DrawnPick]) -> Wait
    requires { length picks.now < 2 ^ 32 }
    ensures { result ≡ spec.wait_from member place 0 spec.no_wait picks.now }
{
    let mut wait = Wait {
        touch: Touch::Untouched,
        since: None,
    };
    for (index, pick) in picks.iter().enumerate() {
        wait = wait_after(member, place, index as u32, pick, wait);
    }
    wait
}

/// Returns the wait after one more pick.
fn wait_after(member: u64, place: u32, index: u32, pick: &DrawnPick, wait: Wait) -> Wait
    ensures { result ≡ spec.wait_after member place index pick.now wait }
{
    if pick.member == member && pick.did.is_work() {
        wait_by(place, index, pick, wait)
    } else {
        wait
    }
}

/// Returns the wait after one more pick of the member. An attempt begins untouched; if its condition is false, the member waits from then on.
fn wait_by(place: u32, index: u32, pick: &DrawnPick, wait: Wait) -> Wait
    ensures { result ≡ spec.wait_by place index pick.now pick.now.did wait }
{
    match pick.did {
        Did::Began => Wait {
            touch: Touch::Untouched,
            since: None,
        },
        Did::Noted => Wait {
            since: Some(index),
            ..wait
        },
        _ => Wait {
            touch: wait.touch.after(place, pick),
            ..wait
        },
    }
}

impl Touch {
    ghost use Rattle.ame_drawing.specs.Causes as spec;

    /// Returns the touch of an attempt after one more pick.
    fn after(self, place: u32, pick: &DrawnPick) -> Touch
        ensures { result ≡ spec.touch_after place pick.now self }
    {
        match self {
            Touch::Untouched => {
                if pick.is_write_to(place) {
                    Touch::Owned
                } else if pick.is_read_of(place) {
                    Touch::Watched
                } else {
                    Touch::Untouched
                }
            }
            Touch::Owned | Touch::Watched => self,
        }
    }
}
