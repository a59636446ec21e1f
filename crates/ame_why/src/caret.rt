//! The line in which a place is, with a caret below the place.

ghost use Rattle.std.specs.Prelude.{◌≡◌, ◌++◌, ◌≤◌, length, map, IfOk, OnOk};
ghost use Rattle.std.specs.List.{flat_map};
ghost use Rattle.ame_why.specs.Excerpt as spec;
ghost use Rattle.ame_why.specs.Excerpt.{shown_byte, below_byte};

use crate::position::{line_before, line_behind};
use ame_page::Page;
use ame_term::NoMemory;
use std::alloc::Global;

/// The most bytes of a line that are shown before a place, and from it on.
const BEFORE: usize = 60;

const BEHIND: usize = 40;

/// Replaces the rest of a long line.
const REST: &[u8; 3] = b"...";

/// Returns the line of a place, and a caret below the place. A long line is shortened to what is near the place.
pub fn excerpt(alloc: Global, text: &[u8], place: usize) -> Result<Vec<u8>, NoMemory>
    requires { place ≤ length text.now }
    ensures { IfOk result (λ page. page.items ≡ spec.excerpt text.now place) }
{
    let (before, behind) = text.split_at(place);
    let before = shown_before(alloc, line_before(before))?;
    let behind = shown_behind(alloc, line_behind(behind))?;
    lines(alloc, &before, &behind)
}

#[tactic(auto, unfolding(crate::specs::Excerpt::page_lines))]
/// Returns the two lines: what is shown, and the caret below the end of its front.
fn lines(alloc: Global, before: &[u8], behind: &[u8]) -> Result<Vec<u8>, NoMemory>
    ensures { IfOk result (λ page. page.items ≡ spec.page_lines before.now behind.now) }
{
    let mut page = Page::new(alloc);
    page.add(b"    ")?;
    append_shown(&mut page, before)?;
    append_shown(&mut page, behind)?;
    page.add(b"\n    ")?;
    append_below(&mut page, before)?;
    page.add(b"^\n")?;
    Ok(page.into_bytes())
}

/// Returns the end of a stretch before the place.
#[tactic(auto, unfolding(crate::specs::Excerpt::shown_before))]
fn shown_before(alloc: Global, line: &[u8]) -> Result<Vec<u8>, NoMemory>
    ensures { IfOk result (λ shown. shown.items ≡ spec.shown_before line.now) }
{
    let mut shown = Page::new(alloc);
    if line.len() <= BEFORE {
        shown.add(line)?;
    } else {
        shown.add(REST)?;
        shown.add(line.split_at(line.len() - (BEFORE - 3)).1)?;
    }
    Ok(shown.into_bytes())
}

/// Returns the beginning of the rest of a line from the place on.
#[tactic(auto, unfolding(crate::specs::Excerpt::shown_behind))]
fn shown_behind(alloc: Global, line: &[u8]) -> Result<Vec<u8>, NoMemory>
    ensures { IfOk result (λ shown. shown.items ≡ spec.shown_behind line.now) }
{
    let mut shown = Page::new(alloc);
    if line.len() <= BEHIND {
        shown.add(line)?;
    } else {
        shown.add(line.split_at(BEHIND - 3).0)?;
        shown.add(REST)?;
    }
    Ok(shown.into_bytes())
}

/// Appends bytes as they are shown.
fn append_shown(page: &mut Page, bytes: &[u8]) -> Result<(), NoMemory>
    ensures { OnOk result (page.new ≡ page.old ++ map shown_byte bytes.now) }
{
    for byte in bytes {
        page.add_byte(shown_byte(*byte))?;
    }
    Ok(())
}

/// Appends what stands below bytes, so that what follows is below what follows them.
fn append_below(page: &mut Page, bytes: &[u8]) -> Result<(), NoMemory>
    ensures { OnOk result (page.new ≡ page.old ++ flat_map below_byte bytes.now) }
{
    for byte in bytes {
        page.add(below_byte(*byte))?;
    }
    Ok(())
}

/// Returns a byte as it is shown.
fn shown_byte(byte: u8) -> u8
    ensures { result ≡ shown_byte byte }
{
    match byte {
        b'\t' => b'\t',
        b'\r' => b' ',
        0..=31 | 127 => b'?',
        _ => byte,
    }
}

/// Returns what stands below a byte: nothing below one that goes on a character.
fn below_byte(byte: u8) -> &'static [u8]
    ensures { result.now ≡ below_byte byte }
{
    match byte {
        b'\t' => b"\t",
        128..=191 => b"",
        _ => b" ",
    }
}
