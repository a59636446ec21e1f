//! The picture of a run by its fragments.

ghost use Rattle.std.specs.Prelude.{◌≡◌, ◌≢◌, ◌<◌, ◌^◌, [], IfOk, codes, length};
ghost use Rattle.ame_drawing.specs.Courses as lanes;
ghost use Rattle.ame_drawing.specs.Moments.{entry_in};
ghost use Rattle.ame_picture.specs.Hidden.{HasHidden};

use crate::constants::COURSE_KEYS;
use crate::layout::{Layout, PagePoint, left_of, middle_of, top_of};
use crate::svg::Svg;
use crate::words::{kind_class, kind_words};
use ame_drawing::{Done, LAST_LANE, Moment, Stamp, birth, lane_up_to, lanes_up_to};
use ame_term::NoMemory;
use std::alloc::Global;

/// The words above a picture by fragments, and the text that is hidden in it.
#[derive(Drop)]
pub struct Labels {
    pub title: Vec<u8>,
    pub verdict: Vec<u8>,
    /// The journal, the line `program`, and the program's text.
    pub certificate: Vec<u8>,
}

/// Returns a picture of these moments, a column each, as one SVG file without script: a lane a fragment, in which each moment has its box, from below the
/// entry that started it on; below the lanes the journal, with the lines that each entry printed. Starters are known by the fragment's number, and
/// lines from the first entry on, as far as they go. It holds a certificate.
pub fn course_picture_of(
    alloc: Global,
    moments: &[Moment],
    starters: &[u64],
    lines: &[Vec<i64>],
    labels: &Labels,
) -> Result<Vec<u8>, NoMemory>
    requires { length moments.now < 2 ^ 32 }
    ensures { IfOk result (λ page. HasHidden page.items (codes "certificate") labels.now.certificate.items) }
{
    let layout = Layout {
        lanes: lanes_up_to(LAST_LANE, moments),
        places: 0,
        columns: moments.len() as u32,
    };
    let mut svg = Svg::new(
        alloc,
        layout,
        labels.title.as_slice(),
        labels.verdict.as_slice(),
    )?;
    draw_lives(&mut svg, layout, starters, moments)?;
    draw_entries(&mut svg, layout, moments)?;
    draw_boxes(&mut svg, moments)?;
    draw_prints(&mut svg, layout, moments, lines)?;
    svg.legend(layout, COURSE_KEYS)?;
    svg.hide(b"certificate", labels.certificate.as_slice())?;
    svg.finish()
}

/// Draws the lanes of the fragments, each from the entry on that started it, with a line down from there.
fn draw_lives(
    svg: &mut Svg,
    layout: Layout,
    starters: &[u64],
    moments: &[Moment],
) -> Result<(), NoMemory>
    requires { length moments.now < 2 ^ 32 }
{
    for lane in 0..layout.lanes {
        svg.lane_name("task ", lane)?;
        let Some(spot) = birth(starters, moments, lane) else {
            svg.floor(layout, lane, 0)?;
            continue;
        };
        let x = middle_of(spot.pick);
        let at = PagePoint(x, top_of(spot.seat) + 30);
        let to = PagePoint(x, top_of(lane) + 33);
        svg.floor(layout, lane, spot.pick)?;
        svg.member_line(u64::from(lane), "on", at, to)?;
    }
    Ok(())
}

/// Draws the entries in the journal.
fn draw_entries(svg: &mut Svg, layout: Layout, moments: &[Moment]) -> Result<(), NoMemory>
    requires { length moments.now < 2 ^ 32 }
{
    for (index, moment) in moments.iter().enumerate() {
        if let Moment::Entry(done) = moment {
            svg.stamp(layout, done.entry, &stamp_in(index as u32, done))?;
        }
    }
    Ok(())
}

/// Returns an entry in a column, tied to the lane of its fragment.
fn stamp_in(column: u32, done: &Done) -> Stamp
    ensures at { (result.pick ≡ column) × (result.seat ≡ lanes.lane_up_to LAST_LANE done.now.fragment) }
    ensures of { (result.member ≡ done.now.fragment) × (result.kind ≡ done.now.kind) }
{
    Stamp {
        kind: done.kind,
        seat: lane_up_to(LAST_LANE, done.fragment),
        member: done.fragment,
        pick: column,
    }
}

/// Draws the boxes of moments in the lanes of their fragments.
fn draw_boxes(svg: &mut Svg, moments: &[Moment]) -> Result<(), NoMemory>
    requires { length moments.now < 2 ^ 32 }
{
    for (index, moment) in moments.iter().enumerate() {
        svg.begin_group(moment.fragment())?;
        svg.moment_title(moment)?;
        let at = PagePoint(
            left_of(index as u32) + 1,
            top_of(lane_up_to(LAST_LANE, moment.fragment())),
        );
        svg.rect(moment_class(moment), at, 20, 30)?;
        svg.end_group()?;
    }
    Ok(())
}

/// Writes what the entries printed, as far as it is known from entry 1 on.
fn draw_prints(
    svg: &mut Svg,
    layout: Layout,
    moments: &[Moment],
    lines: &[Vec<i64>],
) -> Result<(), NoMemory>
    requires { length moments.now < 2 ^ 32 }
{
    for (index, moment) in moments.iter().enumerate() {
        if let Moment::Entry(done) = moment {
            if let Some(printed) = lines.get(done.entry.saturating_sub(1) as usize) {
                svg.print(layout, index as u32, printed.as_slice())?;
            }
        }
    }
    Ok(())
}

/// Returns how the box of a moment looks.
fn moment_class(moment: &Moment) -> &'static str
    ensures { result.now ≡ codes "ran" → entry_in moment.now ≢ [] }
{
    match moment {
        Moment::Entry(done) => kind_class(done.kind),
        Moment::Try(_) => "rolled",
    }
}

impl Svg {
    /// Writes the title of a box.
    fn moment_title(&mut self, moment: &Moment) -> Result<(), NoMemory> {
        match moment {
            Moment::Entry(done) => {
                let (fragment, entry, seat, steps) = (
                    done.fragment,
                    done.entry,
                    done.seat,
                    done.steps,
                );
                let did = kind_words(done.kind);
                writeln!(
                    self.page,
                    "<title>task {fragment}, entry {entry} on seat {seat}: {did}, {steps} steps</title>"
                )
            }
            Moment::Try(lost) => {
                let (fragment, at, steps) = (lost.number, lost.at, lost.steps);
                writeln!(
                    self.page,
                    "<title>task {fragment}: rolled back, {steps} steps, last valid after entry {at}</title>"
                )
            }
        }
    }
}
