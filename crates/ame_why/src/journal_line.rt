//! A line that spells no entry of a journal.

ghost use Rattle.std.specs.Prelude.{◌≡◌, ◌==◌, ◌≤◌, ◌↔◌, IsTrue, IfOk, codes, length};
ghost use Rattle.std.specs.List.{list_any};
ghost use Rattle.ame_why.specs.BadLines as spec;

use crate::placed::explained;
use crate::words::{line_from, line_start, word_from};
use ame_check::split_input;
use ame_journal::{kind_of, number, signed_number};
use ame_term::NoMemory;
use std::alloc::Global;

/// A part of a line that may come next.
#[derive(Clone, Copy, PartialEq, Eq, Debug)]
enum LinePart {
    Kind,
    Seat,
    Member,
    Steps,
    /// A location; after the word `free` also `=` and an answer.
    Location,
    Answer,
    End,
}

/// Returns why this line makes an input no certificate: the place in the line, and what is expected there.
pub fn explain_line(alloc: Global, input: &[u8], line: u64) -> Result<Vec<u8>, NoMemory>
    ensures { IfOk result (λ page. spec.ExplainsLine input.now line page.items) }
{
    let start = line_start(input, line);
    if split_input(input).is_none() {
        let page = explained(
            alloc,
            input,
            start,
            b"missing line `program` between the journal and the program text\n",
        )?;
        return Ok(page);
    }
    let (place, message) = fault_of(line_from(input, start));
    let page = explained(alloc, input, start + place, message)?;
    Ok(page)
}

/// Returns the place of the first word that is not expected, and what is expected there.
fn fault_of(line: &[u8]) -> (usize, &'static [u8])
    ensures fault { spec.IsLineError line.now result.0 result.1.now }
    ensures within { result.0 ≤ length line.now }
{
    let mut start: usize = 0;
    let mut part = LinePart::Kind;
    let mut is_free = false;
    loop {
        let word = word_from(line, start);
        if !may_stand(is_free, part, word) {
            return (start, wanted(part, word));
        }
        if word.len() >= line.len() - start {
            return (line.len(), ending(part, word));
        }
        is_free = is_free || word == b"free".as_slice();
        part = next_part(part, word);
        start += word.len() + 1;
    }
}

/// Returns whether a line that ends with this word lacks a part.
fn ends_early(part: LinePart, word: &[u8]) -> bool
    ensures { result ≡ spec.ends_early part word.now }
{
    match part {
        LinePart::Steps | LinePart::Answer => false,
        LinePart::Location => word == b"=".as_slice(),
        LinePart::Kind | LinePart::Seat | LinePart::Member | LinePart::End => true,
    }
}

/// Returns the message for a line that ends with this word, if all its words may stand.
fn ending(part: LinePart, word: &[u8]) -> &'static [u8]
    ensures { result.now ≡ spec.ending part word.now }
{
    if ends_early(part, word) {
        b"incomplete line: expected kind, seat, task, steps, then new locations\n"
    } else {
        b"no error in this line: it has all parts of an entry\n"
    }
}

/// Returns whether a word may stand for a part of a line, which has the word `free` before it or not.
fn may_stand(is_free: bool, part: LinePart, word: &[u8]) -> bool
    ensures { IsTrue result ↔ spec.MayStand is_free part word.now }
{
    match part {
        LinePart::Kind => is_kind(word),
        LinePart::Seat => is_up_to(word, 31),
        LinePart::Member | LinePart::Steps => is_up_to(word, u64::MAX),
        LinePart::Location => is_up_to(word, 4_294_967_295) || is_free && word == b"=".as_slice(),
        LinePart::Answer => is_answer(word),
        LinePart::End => false,
    }
}

/// Returns the part that follows a word.
fn next_part(part: LinePart, word: &[u8]) -> LinePart
    ensures { result ≡ spec.next_part part word.now }
{
    match part {
        LinePart::Kind => LinePart::Seat,
        LinePart::Seat => LinePart::Member,
        LinePart::Member => LinePart::Steps,
        LinePart::Steps => LinePart::Location,
        LinePart::Location if word == b"=".as_slice() => LinePart::Answer,
        LinePart::Location => LinePart::Location,
        LinePart::Answer | LinePart::End => LinePart::End,
    }
}

/// Returns whether a word is the kind of an entry.
fn is_kind(word: &[u8]) -> bool
    ensures { IsTrue result ↔ spec.IsKind word.now }
{
    kind_of(word).is_some()
}

/// Returns whether a word is a number up to this one.
fn is_up_to(word: &[u8], most: u64) -> bool
    ensures { IsTrue result ↔ spec.IsUpTo most word.now }
{
    match number(word) {
        Some(value) => value <= most,
        None => false,
    }
}

/// Returns whether a word is an integer of 64 bits.
fn is_answer(word: &[u8]) -> bool
    ensures { IsTrue result ↔ spec.SpellsInteger word.now }
{
    signed_number(word).is_some()
}

/// Returns what is expected in the place of this word.
fn wanted(part: LinePart, word: &[u8]) -> &'static [u8]
    ensures { result.now ≡ spec.wanted part word.now }
{
    if has_return(word) {
        b"carriage return in the line: a line ends with a line feed only\n"
    } else {
        part_words(part)
    }
}

fn has_return(word: &[u8]) -> bool
    ensures { result ≡ list_any (λ b. b == 13) word.now }
{
    word.iter().any(|b| *b == b'\r')
}

/// Returns what must stand somewhere, in words.
fn part_words(part: LinePart) -> &'static [u8]
    ensures { result.now ≡ spec.part_words part }
{
    match part {
        LinePart::Kind => b"expected `ran`, `free`, `stuck`, `cut` or `tall`\n",
        LinePart::Seat => b"expected a seat: a number from 0 to 31\n",
        LinePart::Member =>
            b"expected the number of a task: below 18446744073709551616, without leading zeros\n",
        LinePart::Steps =>
            b"expected the number of steps: below 18446744073709551616, without leading zeros\n",
        LinePart::Location => {
            b"expected a new location: below 4294967296, without leading zeros; only a `free` line has an answer, after `=`\n"
        }
        LinePart::Answer => b"expected an answer: a signed 64-bit integer without leading zeros\n",
        LinePart::End => b"text after the answer: an answer ends its line\n",
    }
}
