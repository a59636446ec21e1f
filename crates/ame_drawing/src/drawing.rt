//! The drawing of a run.

ghost use Rattle.std.specs.Prelude.{◌<◌, ◌^◌, All, IfOk, IfSome, MatchOption, length};
ghost use Rattle.ame_drawing.specs.Arrows.{LeadsAmong};
ghost use Rattle.ame_drawing.specs.Drawings.{AreMadeBy, IsDrawingOf};

use crate::arrow::{Arrow, arrows_of};
use crate::cause::{Known, causes_of};
use crate::lane::{DrawnAttempt, lanes_below};
use crate::pick::DrawnPick;
use crate::span::{Span, lanes_of, spans_of};
use crate::stamp::{Stamp, are_of, stamps_of};
use ame_journal::Entry;
use ame_term::NoMemory;
use std::alloc::Global;

/// The picks of a run, the attempts lane by lane, what leads from pick to pick, which commits let members begin, who owned which of the first
/// locations, and the entries of its journal.
#[derive(Drop)]
pub struct Drawing {
    pub seats: u32,
    pub picks: Vec<DrawnPick>,
    pub attempts: Vec<DrawnAttempt>,
    pub arrows: Vec<Arrow>,
    pub causes: Vec<Arrow>,
    pub places: u32,
    pub spans: Vec<Span>,
    pub stamps: Vec<Stamp>,
}

/// Returns the drawing of a run, or `None` if the picks didn't make these entries. The starters are the entries that started the members, by their
/// numbers, as far as they are known; entries are counted from 1, and 0 is none.
pub fn drawing_of(
    alloc: Global,
    seats: u32,
    picks: &[DrawnPick],
    entries: &[Entry],
    starters: &[u64],
) -> Result<Option<Drawing>, NoMemory>
    requires { length picks.now < 2 ^ 32 }
    ensures told { IfOk result (λ made. MatchOption made (¬ AreMadeBy entries.now picks.now) (IsDrawingOf seats picks.now entries.now starters.now)) }
    ensures arrows { IfOk result (λ made. IfSome made (λ drawing. All (LeadsAmong picks.now) drawing.arrows.items)) }
    ensures causes { IfOk result (λ made. IfSome made (λ drawing. All (LeadsAmong picks.now) drawing.causes.items)) }
{
    let stamps = stamps_of(alloc, picks)?;
    if !are_of(&stamps, entries) {
        return Ok(None);
    }
    let attempts = lanes_below(alloc, seats, picks)?;
    let arrows = arrows_of(alloc, picks)?;
    let places = lanes_of(picks);
    let spans = spans_of(alloc, places, picks)?;
    let known = Known {
        starters,
        stamps: &stamps,
        places,
        spans: &spans,
    };
    let causes = causes_of(alloc, &known, picks)?;
    let picks = Vec::from_slice(alloc, picks)?;
    Ok(Some(Drawing {
        seats,
        picks,
        attempts,
        arrows,
        causes,
        places,
        spans,
        stamps,
    }))
}
