//! The shapes that make up a picture, as text.

ghost use Rattle.std.specs.Prelude.{◌≡◌, ◌++◌, IfOk, OnOk, codes};
ghost use Rattle.ame_picture.specs.Hidden.{hidden};

use crate::constants::{BOX_KEYS, HATCHINGS, HIDDEN, HIDDEN_END, STYLES};
use crate::layout::{Layout, PagePoint, left_of, top_of};
use ame_page::Page;
use ame_term::NoMemory;
use std::alloc::Global;

/// A picture that is being drawn.
#[derive(Drop)]
pub(crate) struct Svg {
    pub page: Page,
}

impl Svg {
    /// Begins a picture: its size, how its marks look, what is written above it, and a tick each five columns.
    pub(crate) fn new(
        alloc: Global,
        layout: Layout,
        title: &[u8],
        verdict: &[u8],
    ) -> Result<Svg, NoMemory> {
        let width = layout.width();
        let height = layout.journal_top() + 124;
        let mut svg = Svg {
            page: Page::new(alloc),
        };
        writeln!(
            svg.page,
            "<svg xmlns=\"http://www.w3.org/2000/svg\" width=\"{width}\" height=\"{height}\" viewBox=\"0 0 {width} {height}\">"
        )?;
        svg.page.add(STYLES)?;
        svg.page.add(HATCHINGS)?;
        svg.words("title", PagePoint(96, 22), title)?;
        svg.words("told", PagePoint(96, 40), verdict)?;
        svg.ticks(layout)?;
        Ok(svg)
    }

    fn ticks(&mut self, layout: Layout) -> Result<(), NoMemory> {
        let y = layout.journal_top();
        for five in 0..layout.columns / 5 + 1 {
            let x = left_of(5 * five);
            self.label("tick", PagePoint(x + 2, 62), "", u64::from(5 * five))?;
            self.line("grid", PagePoint(x, 66), PagePoint(x, y))?;
        }
        Ok(())
    }

    /// Draws what is below the lanes, apart from the entries: what boxes mean, and these keys.
    pub(crate) fn legend(&mut self, layout: Layout, keys: &[u8]) -> Result<(), NoMemory> {
        let top = layout.journal_top();
        let y = top + 62;
        self.words("lane", PagePoint(10, top + 14), b"journal")?;
        writeln!(
            self.page,
            "<g class=\"key\" transform=\"translate(96,{y})\">"
        )?;
        self.page.add(BOX_KEYS)?;
        self.page.add(keys)
    }

    /// Holds a text that isn't shown.
    #[tactic(auto, unfolding(crate::specs::Hidden::hidden_begin, crate::specs::Hidden::hidden))]
    pub(crate) fn hide(&mut self, name: &[u8], text: &[u8]) -> Result<(), NoMemory>
        ensures { OnOk result (self.new.page ≡ self.old.page ++ hidden name.now text.now) }
    {
        self.page.add(HIDDEN)?;
        self.page.add(name)?;
        self.page.add(b"\">")?;
        self.page.add_escaped(text)?;
        self.page.add(HIDDEN_END)
    }

    /// Ends a picture, and returns it.
    pub(crate) fn finish(self) -> Result<Vec<u8>, NoMemory>
        ensures { IfOk result (λ text. text.items ≡ self.page ++ codes "</svg>\n") }
    {
        let mut page = self.page;
        page.add(b"</svg>\n")?;
        Ok(page.into_bytes())
    }

    /// Begins the marks of a member, which have one of eight colours.
    pub(crate) fn begin_group(&mut self, member: u64) -> Result<(), NoMemory> {
        let colour = member % 8;
        write!(self.page, "<g class=\"m{colour}\">")
    }

    pub(crate) fn end_group(&mut self) -> Result<(), NoMemory> {
        self.page.add(b"</g>\n")
    }

    /// Draws a box at a place.
    pub(crate) fn rect(
        &mut self,
        class: &str,
        at: PagePoint,
        width: u64,
        height: u64,
    ) -> Result<(), NoMemory> {
        let PagePoint(x, y) = at;
        writeln!(
            self.page,
            "<rect class=\"{class}\" x=\"{x}\" y=\"{y}\" width=\"{width}\" height=\"{height}\" rx=\"3\"/>"
        )
    }

    pub(crate) fn line(
        &mut self,
        class: &str,
        at: PagePoint,
        to: PagePoint,
    ) -> Result<(), NoMemory> {
        let PagePoint(x, y) = at;
        let PagePoint(x2, y2) = to;
        writeln!(
            self.page,
            "<line class=\"{class}\" x1=\"{x}\" y1=\"{y}\" x2=\"{x2}\" y2=\"{y2}\"/>"
        )
    }

    /// Draws a line of a member.
    pub(crate) fn member_line(
        &mut self,
        member: u64,
        class: &str,
        at: PagePoint,
        to: PagePoint,
    ) -> Result<(), NoMemory> {
        self.begin_group(member)?;
        self.line(class, at, to)?;
        self.end_group()
    }

    /// Begins words at a place.
    pub(crate) fn begin_words(&mut self, class: &str, at: PagePoint) -> Result<(), NoMemory> {
        let PagePoint(x, y) = at;
        write!(self.page, "<text class=\"{class}\" x=\"{x}\" y=\"{y}\">")
    }

    pub(crate) fn end_words(&mut self) -> Result<(), NoMemory> {
        self.page.add(b"</text>\n")
    }

    /// Writes words at a place. Nothing in them is read as a mark.
    pub(crate) fn words(
        &mut self,
        class: &str,
        at: PagePoint,
        words: &[u8],
    ) -> Result<(), NoMemory> {
        self.begin_words(class, at)?;
        self.page.add_escaped(words)?;
        self.end_words()
    }

    /// Writes a word with a number at a place.
    pub(crate) fn label(
        &mut self,
        class: &str,
        at: PagePoint,
        word: &str,
        number: u64,
    ) -> Result<(), NoMemory> {
        self.begin_words(class, at)?;
        write!(self.page, "{word}{number}")?;
        self.end_words()
    }

    /// Writes the name of a lane.
    pub(crate) fn lane_name(&mut self, word: &str, lane: u32) -> Result<(), NoMemory> {
        let at = PagePoint(10, top_of(lane) + 20);
        self.label("lane", at, word, u64::from(lane))
    }

    /// Draws the floor of a lane, from a column on to the last.
    pub(crate) fn floor(&mut self, layout: Layout, lane: u32, column: u32) -> Result<(), NoMemory> {
        let at = PagePoint(left_of(column), top_of(lane) + 33);
        let count = layout.columns.saturating_sub(column);
        self.rect("floor", at, 22 * u64::from(count), 1)
    }
}
