//! The lane of a location: who owned it, and when.

ghost use Rattle.std.specs.Prelude.{◌≡◌, ◌+◌, ◌<◌, ◌^◌, ◌++◌, None, IfOk, OnOk, length, min};
ghost use Rattle.ame_drawing.specs.Spans as spec;

use crate::pick::{Did, DrawnPick};
use ame_term::NoMemory;
use std::alloc::Global;

/// The fate of what was written.
#[derive(Clone, Copy, PartialEq, Eq, Debug)]
pub enum SpanEnd {
    /// The run was over before.
    Owned,
    Committed,
    Undone,
}

/// A location is owned by a seat with this member at work, from the pick that writes it first to the one that ends the attempt.
#[derive(Clone, Copy, PartialEq, Eq, Debug)]
pub struct Span {
    pub place: u32,
    pub seat: u32,
    pub member: u64,
    pub from: u32,
    pub to: u32,
    pub outcome: SpanEnd,
}

/// The most locations that have a lane.
pub const LANES: u32 = 12;

/// Returns the spans of the first locations, one location after another.
pub(crate) fn spans_of(
    alloc: Global,
    places: u32,
    picks: &[DrawnPick],
) -> Result<Vec<Span>, NoMemory>
    requires { length picks.now < 2 ^ 32 }
    ensures { IfOk result (λ spans. spans.items ≡ spec.spans places picks.now) }
{
    let mut spans = Vec::new(alloc);
    for place in 0..places {
        add_spans_at(&mut spans, place, picks)?;
    }
    Ok(spans)
}

/// Appends the spans of a location, in order.
fn add_spans_at(spans: &mut Vec<Span>, place: u32, picks: &[DrawnPick]) -> Result<(), NoMemory>
    requires { length picks.now < 2 ^ 32 }
    ensures { OnOk result (spans.new.items ≡ spans.old.items ++ spec.spans_from place 0 None picks.now) }
{
    let mut begun = None;
    for (index, pick) in picks.iter().enumerate() {
        match begun {
            None => {
                if pick.is_write_to(place) {
                    begun = Some(begin(place, index as u32, pick));
                }
            }
            Some(span) => {
                if pick.is_release_of(span.seat) {
                    spans.push(end(index as u32, pick, span))?;
                    begun = None;
                }
            }
        }
    }
    if let Some(span) = begun {
        spans.push(Span {
            to: picks.len() as u32,
            ..span
        })?;
    }
    Ok(())
}

/// Returns a span that begins with a pick.
fn begin(place: u32, index: u32, pick: &DrawnPick) -> Span
    ensures { result ≡ spec.span_begun place index pick.now }
{
    Span {
        place,
        seat: pick.seat,
        member: pick.member,
        from: index,
        to: index,
        outcome: SpanEnd::Owned,
    }
}

/// Returns a span that ends with a pick.
fn end(index: u32, pick: &DrawnPick, span: Span) -> Span
    ensures { result ≡ spec.span_ended index pick.now span }
{
    let outcome = match pick.did {
        Did::Ended | Did::Left => SpanEnd::Committed,
        _ => SpanEnd::Undone,
    };
    Span {
        to: index,
        outcome,
        ..span
    }
}

/// Returns the number of locations that have a lane: those that the picks name, and all below them, but for those past the limit.
pub(crate) fn lanes_of(picks: &[DrawnPick]) -> u32
    ensures { result ≡ min (spec.count_from 0 picks.now) LANES }
{
    let mut count = 0;
    for pick in picks {
        count = count_with(count, pick.place);
    }
    count.min(u64::from(LANES)) as u32
}

/// Returns the number of locations, if there are at least `count`, and this one.
fn count_with(count: u64, place: Option<u32>) -> u64
    ensures { result ≡ spec.count_with count place }
{
    match place {
        None => count,
        Some(place) => count.max(u64::from(place) + 1),
    }
}
