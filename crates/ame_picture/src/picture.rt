//! The picture of a run whose picks are known.

ghost use Rattle.std.specs.Prelude.{◌<◌, ◌^◌, IfOk, codes, length};
ghost use Rattle.ame_picture.specs.Hidden.{HasHidden};

use crate::constants::KEYS;
use crate::layout::{Layout, PagePoint};
use crate::svg::Svg;
use ame_drawing::{ArrowKind, Drawing, Stamp};
use ame_term::NoMemory;
use std::alloc::Global;

/// The words above a picture, and the texts that are hidden in it.
#[derive(Drop)]
pub struct Captions {
    pub title: Vec<u8>,
    pub verdict: Vec<u8>,
    /// The input of `replay`: the schedule, the line `program`, and the program's text.
    pub replay: Vec<u8>,
    /// The journal's text.
    pub journal: Vec<u8>,
}

/// Returns the picture of a run, as one SVG file without script, with the lines that each entry printed, as far as they are known. It holds the
/// input of `replay`, and the journal.
pub fn picture_of(
    alloc: Global,
    drawing: &Drawing,
    lines: &[Vec<i64>],
    captions: &Captions,
) -> Result<Vec<u8>, NoMemory>
    requires { length drawing.now.picks.items < 2 ^ 32 }
    ensures replay { IfOk result (λ page. HasHidden page.items (codes "replay") captions.now.replay.items) }
    ensures journal { IfOk result (λ page. HasHidden page.items (codes "journal") captions.now.journal.items) }
{
    let layout = Layout {
        lanes: drawing.seats,
        places: drawing.places,
        columns: drawing.picks.as_slice().len() as u32,
    };
    let mut svg = Svg::new(
        alloc,
        layout,
        captions.title.as_slice(),
        captions.verdict.as_slice(),
    )?;
    draw_lanes(&mut svg, layout)?;
    draw_stamps(&mut svg, layout, drawing.stamps.as_slice())?;
    draw_picks(&mut svg, layout, drawing)?;
    draw_prints(&mut svg, layout, drawing.stamps.as_slice(), lines)?;
    svg.legend(layout, KEYS)?;
    svg.hide(b"replay", captions.replay.as_slice())?;
    svg.hide(b"journal", captions.journal.as_slice())?;
    svg.finish()
}

/// Draws the lanes of seats and locations.
fn draw_lanes(svg: &mut Svg, layout: Layout) -> Result<(), NoMemory> {
    for seat in 0..layout.lanes {
        svg.lane_name("seat ", seat)?;
        svg.floor(layout, seat, 0)?;
    }
    for place in 0..layout.places {
        let y = layout.place_top(place) + 10;
        svg.label("place", PagePoint(24, y), "@", u64::from(place))?;
    }
    Ok(())
}

/// Draws the entries, counted from 1, in the journal.
fn draw_stamps(svg: &mut Svg, layout: Layout, stamps: &[Stamp]) -> Result<(), NoMemory> {
    for (index, stamp) in stamps.iter().enumerate() {
        svg.stamp(layout, index as u64 + 1, stamp)?;
    }
    Ok(())
}

/// Writes what the entries printed, as far as it is known.
fn draw_prints(
    svg: &mut Svg,
    layout: Layout,
    stamps: &[Stamp],
    lines: &[Vec<i64>],
) -> Result<(), NoMemory> {
    for (stamp, printed) in stamps.iter().zip(lines) {
        svg.print(layout, stamp.pick, printed.as_slice())?;
    }
    Ok(())
}

/// Draws what happened, above the journal. What comes later lies above what comes before.
fn draw_picks(svg: &mut Svg, layout: Layout, drawing: &Drawing) -> Result<(), NoMemory>
    requires { length drawing.now.picks.items < 2 ^ 32 }
{
    for arrow in &drawing.arrows {
        if arrow.kind == ArrowKind::GoesOn {
            svg.edge(6, arrow)?;
        }
    }
    for arrow in &drawing.causes {
        svg.edge(22, arrow)?;
    }
    for attempt in &drawing.attempts {
        svg.attempt(attempt)?;
    }
    for (index, pick) in drawing.picks.iter().enumerate() {
        svg.sign(index as u32, pick)?;
    }
    for arrow in &drawing.arrows {
        if arrow.kind == ArrowKind::InTheWay {
            svg.obstacle(arrow)?;
        }
    }
    for (index, pick) in drawing.picks.iter().enumerate() {
        svg.stale(layout, index as u32, pick)?;
    }
    for span in &drawing.spans {
        svg.span(layout, span)?;
    }
    Ok(())
}
