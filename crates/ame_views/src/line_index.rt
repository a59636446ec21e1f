//! A text with the places of its line feeds, by which the lines of many places are found.

ghost use Rattle.std.specs.Prelude.{◌≡◌, ◌+◌, ◌≤◌, IfOk, count_by, length, take, vec_len};
ghost use Rattle.std.specs.List.{after_last};
ghost use Rattle.ame_why.specs.Position.{is_feed, line_number, column_of};
ghost use Rattle.ame_views.specs.LineIndex.{feeds_before};

use ame_term::{NoMemory, push};
use ame_why::Position;
use std::alloc::Global;

/// A text, and the places of its line feeds, the first one first.
#[derive(Drop)]
pub(crate) struct LineIndex<'a> {
    pub(crate) text: &'a [u8],
    feeds: Vec<usize>,
    ghost listed: { feeds.items ≡ feeds_before text.now (length text.now) },
}

impl<'a> LineIndex<'a> {
    /// Returns the index of a text. Time is linear in the text.
    pub(crate) fn of(alloc: Global, text: &'a [u8]) -> Result<LineIndex<'a>, NoMemory>
        ensures { IfOk result (λ lines. lines.text.now ≡ text.now) }
    {
        let mut feeds = Vec::new(alloc);
        for (place, byte) in text.iter().enumerate() {
            if *byte == b'\n' {
                push(&mut feeds, place)?;
            }
        }
        Ok(LineIndex { text, feeds })
    }

    /// Returns the line and the column of a place. Time is logarithmic in the lines.
    pub(crate) fn position(&self, place: usize) -> Position
        requires { place ≤ length self.now.text.now }
        ensures line { result.line ≡ line_number self.now.text.now place }
        ensures column { result.column ≡ column_of self.now.text.now place }
    {
        let feeds = self.feed_count(place);
        Position {
            line: feeds + 1,
            column: place - self.line_start(place, feeds) + 1,
        }
    }

    /// Returns how many line feeds there are before a place.
    fn feed_count(&self, place: usize) -> usize
        requires { place ≤ length self.now.text.now }
        ensures value { result ≡ count_by is_feed (take place self.now.text.now) }
        ensures within { result ≤ vec_len self.now.feeds }
    {
        self.feeds.as_slice().partition_point(|feed| *feed < place)
    }

    /// Returns the first place of a line: the line of a place that has this many line feeds before it.
    fn line_start(&self, place: usize, feeds: usize) -> usize
        requires within { place ≤ length self.now.text.now }
        requires counted { feeds ≡ count_by is_feed (take place self.now.text.now) }
        ensures { result + length (after_last is_feed (take place self.now.text.now)) ≡ place }
    {
        if feeds == 0 {
            0
        } else {
            self.feeds[feeds - 1] + 1
        }
    }
}
