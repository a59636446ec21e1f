//! The marks of what a run did.

use crate::layout::{Layout, PagePoint, left_of, middle_of, top_of};
use crate::svg::Svg;
use crate::words::{
    arrow_class, fate_class, fate_words, kind_class, outcome_class, outcome_words, sign_class,
    sign_word,
};
use ame_drawing::{Arrow, Did, DrawnAttempt, DrawnPick, Span, Stamp};
use ame_term::NoMemory;

impl Svg {
    /// Draws an attempt: a box from its first pick to its last, with the member's number in a field.
    pub(crate) fn attempt(&mut self, attempt: &DrawnAttempt) -> Result<(), NoMemory> {
        let (member, from, to) = (attempt.member, attempt.from, attempt.to);
        let became = fate_words(attempt.fate);
        let x = left_of(from);
        let y = top_of(attempt.seat);
        let width = 20 + 22 * u64::from(to.saturating_sub(from));
        self.begin_group(member)?;
        writeln!(
            self.page,
            "<title>task {member}, picks {from} to {to}: {became}</title>"
        )?;
        self.rect(fate_class(attempt.fate), PagePoint(x + 1, y), width, 30)?;
        self.rect("field", PagePoint(x + 3, y + 3), 17, 13)?;
        let number = PagePoint(x + 5, y + 13);
        self.label("number", number, "", member)?;
        self.end_group()
    }

    /// Draws the sign of what a pick did, if it has one, with the location if there is one.
    pub(crate) fn sign(&mut self, column: u32, pick: &DrawnPick) -> Result<(), NoMemory> {
        let Some(word) = sign_word(pick.did) else {
            return Ok(());
        };
        let class = sign_class(pick.did);
        let at = PagePoint(middle_of(column), top_of(pick.seat) + 27);
        self.begin_group(pick.member)?;
        match pick.place {
            None => self.words(class, at, word.as_bytes())?,
            Some(place) => self.label(class, at, word, u64::from(place))?,
        }
        self.end_group()
    }

    /// Draws an entry in the journal, tied to the pick that made it.
    pub(crate) fn stamp(
        &mut self,
        layout: Layout,
        number: u64,
        stamp: &Stamp,
    ) -> Result<(), NoMemory> {
        let member = stamp.member;
        let x = middle_of(stamp.pick);
        let y = layout.journal_top();
        let tied = PagePoint(x, top_of(stamp.seat) + 30);
        let corner = PagePoint(left_of(stamp.pick) + 2, y);
        self.begin_group(member)?;
        write!(self.page, "<title>entry {number}: ")?;
        self.page.add(stamp.kind.word())?;
        writeln!(self.page, ", task {member}</title>")?;
        self.line("tie", tied, PagePoint(x, y))?;
        self.rect(kind_class(stamp.kind), corner, 18, 20)?;
        self.label("entry", PagePoint(x, y + 14), "", member)?;
        self.label("below", PagePoint(x, y + 31), "", number)?;
        self.end_group()
    }

    /// Writes what an entry printed below it, if it printed anything.
    pub(crate) fn print(
        &mut self,
        layout: Layout,
        column: u32,
        printed: &[i64],
    ) -> Result<(), NoMemory> {
        if printed.is_empty() {
            return Ok(());
        }
        let at = PagePoint(middle_of(column), layout.journal_top() + 46);
        self.begin_words("print", at)?;
        for integer in printed {
            self.page.add_labelled(b" ", *integer)?;
        }
        self.end_words()
    }

    /// Draws who owned a location from one pick to another.
    pub(crate) fn span(&mut self, layout: Layout, span: &Span) -> Result<(), NoMemory> {
        let (place, member, from, to) = (span.place, span.member, span.from, span.to);
        let became = outcome_words(span.outcome);
        let at = PagePoint(middle_of(from), layout.place_top(place));
        let width = 22 * u64::from(to.saturating_sub(from));
        self.begin_group(member)?;
        writeln!(
            self.page,
            "<title>location {place}, owned by task {member}, picks {from} to {to}: {became}</title>"
        )?;
        self.rect(outcome_class(span.outcome), at, width, 12)?;
        self.end_group()
    }

    /// Draws an arrow from the right edge of a box to the left edge of another, so far below their upper edges.
    pub(crate) fn edge(&mut self, below: u8, arrow: &Arrow) -> Result<(), NoMemory> {
        let at = PagePoint(
            left_of(arrow.from) + 21,
            top_of(arrow.from_seat) + u64::from(below),
        );
        let to = PagePoint(
            left_of(arrow.to) + 1,
            top_of(arrow.to_seat) + u64::from(below),
        );
        self.member_line(arrow.member, arrow_class(arrow.kind), at, to)
    }

    /// Draws an arrow from the middle of a pick to that of another.
    pub(crate) fn obstacle(&mut self, arrow: &Arrow) -> Result<(), NoMemory> {
        let at = PagePoint(middle_of(arrow.from), top_of(arrow.from_seat) + 17);
        let to = PagePoint(middle_of(arrow.to), top_of(arrow.to_seat) + 17);
        self.member_line(arrow.member, arrow_class(arrow.kind), at, to)
    }

    /// Draws a line from a read that is no longer valid down to its location's lane, if it has one.
    pub(crate) fn stale(
        &mut self,
        layout: Layout,
        column: u32,
        pick: &DrawnPick,
    ) -> Result<(), NoMemory> {
        let (Did::FoundInvalid, Some(place)) = (pick.did, pick.place) else {
            return Ok(());
        };
        if place >= layout.places {
            return Ok(());
        }
        let x = middle_of(column);
        let at = PagePoint(x, top_of(pick.seat) + 31);
        let to = PagePoint(x, layout.place_top(place));
        self.member_line(pick.member, "stale", at, to)
    }
}
