//! The line and the column of a place in a text.

ghost use Rattle.std.specs.Prelude.{◌≡◌, ◌++◌, ◌≤◌, OnOk, count_by, length};
ghost use Rattle.std.specs.List.{after_last, before_first, position_or_len, suffix_len};
ghost use Rattle.ame_why.specs.Position.{is_feed, is_within_line, line_number, column_of, position_words};

use ame_page::Page;
use ame_term::NoMemory;

/// A line and a column of it, both counted from 1. A column is a byte.
#[derive(Clone, Copy, PartialEq, Eq, Debug)]
pub struct Position {
    pub line: usize,
    pub column: usize,
}

/// Returns the line and the column of a place, both counted from 1. A column is a byte.
pub fn position_of(text: &[u8], place: usize) -> Position
    requires { place ≤ length text.now }
    ensures line { result.line ≡ line_number text.now place }
    ensures column { result.column ≡ column_of text.now place }
{
    let before = &text[..place];
    Position {
        line: feeds(before) + 1,
        column: line_before(before).len() + 1,
    }
}

/// Returns how many line feeds there are.
fn feeds(text: &[u8]) -> usize
    ensures value { result ≡ count_by is_feed text.now }
    ensures within { result ≤ length text.now }
{
    text.iter().filter(|b| **b == b'\n').count()
}

/// Returns the bytes after the last line feed.
pub(crate) fn line_before(text: &[u8]) -> &[u8]
    ensures { result.now ≡ after_last is_feed text.now }
{
    &text[text.len() - open_len(text)..]
}

/// Returns how many bytes follow the last line feed.
fn open_len(text: &[u8]) -> usize
    ensures value { result ≡ suffix_len is_within_line text.now }
    ensures within { result ≤ length text.now }
{
    text.iter().rev().take_while(|b| **b != b'\n').count()
}

/// Returns the bytes before the first line feed.
pub(crate) fn line_behind(text: &[u8]) -> &[u8]
    ensures { result.now ≡ before_first is_feed text.now }
{
    text.split_at(line_len(text)).0
}

/// Returns how many bytes there are before the first line feed.
fn line_len(text: &[u8]) -> usize
    ensures value { result ≡ position_or_len is_feed text.now }
    ensures within { result ≤ length text.now }
{
    text.iter().take_while(|b| **b != b'\n').count()
}

/// Appends a line and a column.
pub fn append_position(page: &mut Page, at: Option<Position>) -> Result<(), NoMemory>
    ensures { OnOk result (page.new ≡ page.old ++ position_words at) }
{
    let Some(at) = at else {
        return page.add(b"unknown");
    };
    page.add_number(at.line as u64)?;
    page.add(b":")?;
    page.add_number(at.column as u64)
}
