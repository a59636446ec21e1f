//! The row of an entry.

ghost use Rattle.std.specs.Prelude.{◌≡◌, ◌++◌, OnOk, decimal, map};
ghost use Rattle.std.specs.List.{flat_map};
ghost use Rattle.ame_views.specs.Table as spec;
ghost use Rattle.ame_views.specs.Table.{spaced_number, spaced_integer, made_words, answer_shown, printed_words};

use crate::starter_column::append_starter;
use crate::starters::Starter;
use ame_journal::{Entry, EntryKind};
use ame_page::Page;
use ame_term::{Loc, NoMemory};
use itoa::Buffer;

/// Appends the row of an entry with this number, given its task's starter, the kind of the task's next entry, and the lines that it printed.
#[tactic(auto, unfolding(crate::specs::Table::entry_row))]
pub(crate) fn append_row(
    page: &mut Page,
    number: u64,
    entry: &Entry,
    starter: Option<Starter>,
    next: Option<EntryKind>,
    printed: &[i64],
) -> Result<(), NoMemory>
    ensures { OnOk result (page.new ≡ page.old ++ spec.entry_row number entry.now starter next printed.now) }
{
    append_counts(page, number, entry, starter)?;
    append_deed(page, entry, next, printed)
}

/// Appends the columns before the words.
#[tactic(auto, unfolding(crate::specs::Table::counts))]
fn append_counts(
    page: &mut Page,
    number: u64,
    entry: &Entry,
    starter: Option<Starter>,
) -> Result<(), NoMemory>
    ensures { OnOk result (page.new ≡ page.old ++ spec.counts number entry.now starter) }
{
    page.add_column(5, number)?;
    page.add_column(5, u64::from(entry.seat))?;
    page.add_column(9, entry.number)?;
    append_starter(page, starter)?;
    page.add_column(6, entry.steps)
}

/// Appends the column of words.
#[tactic(auto, unfolding(crate::specs::Table::deed))]
fn append_deed(
    page: &mut Page,
    entry: &Entry,
    next: Option<EntryKind>,
    printed: &[i64],
) -> Result<(), NoMemory>
    ensures { OnOk result (page.new ≡ page.old ++ spec.deed entry.now next printed.now) }
{
    page.add(b" ")?;
    page.add(kind_words(entry.kind, next))?;
    append_left(page, entry, printed)?;
    page.add(b"\n")
}

/// Appends what an entry left.
#[tactic(auto, unfolding(crate::specs::Table::left_words))]
fn append_left(page: &mut Page, entry: &Entry, printed: &[i64]) -> Result<(), NoMemory>
    ensures { OnOk result (page.new ≡ page.old ++ spec.left_words entry.now printed.now) }
{
    append_made(page, entry.fresh.as_slice())?;
    append_answer(page, entry.answer)?;
    append_printed(page, printed)
}

/// Returns an entry's kind in words, given the kind of its member's next entry.
fn kind_words(kind: EntryKind, next: Option<EntryKind>) -> &'static [u8]
    ensures { result.now ≡ spec.kind_words kind next }
{
    match kind {
        EntryKind::Ran => fragment_words(next),
        EntryKind::Free => outside_words(next),
        EntryKind::Stuck => b"rolled back: condition false",
        EntryKind::Cut => b"rolled back: cut off",
        EntryKind::Tall => b"rolled back: value nested too deeply",
    }
}

/// Returns a fragment's words: whether its member came to `unprotected`.
fn fragment_words(next: Option<EntryKind>) -> &'static [u8]
    ensures { result.now ≡ spec.fragment_words next }
{
    match next {
        None => b"ran",
        Some(_) => b"ran, and entered unprotected code",
    }
}

/// Returns the words for steps of unprotected code: whether they reached its end.
fn outside_words(next: Option<EntryKind>) -> &'static [u8]
    ensures { result.now ≡ spec.outside_words next }
{
    match next {
        Some(EntryKind::Ran | EntryKind::Stuck) => b"finished its unprotected code",
        _ => b"ran unprotected code",
    }
}

/// Appends which locations were made, if any were.
fn append_made(page: &mut Page, made: &[Loc]) -> Result<(), NoMemory>
    ensures { OnOk result (page.new ≡ page.old ++ made_words (map (λ l. l.0) made.now)) }
{
    if made.is_empty() {
        return Ok(());
    }
    page.add(b", created")?;
    append_numbers(page, made)
}

/// Appends each location, after a space.
fn append_numbers(page: &mut Page, made: &[Loc]) -> Result<(), NoMemory>
    ensures { OnOk result (page.new ≡ page.old ++ flat_map spaced_number (map (λ l. l.0) made.now)) }
{
    for location in made {
        let mut buffer = Buffer::new();
        page.add(b" ")?;
        page.add(buffer.format(location.0).as_bytes())?;
    }
    Ok(())
}

/// Appends what a device answered, if one was called.
fn append_answer(page: &mut Page, answer: Option<i64>) -> Result<(), NoMemory>
    ensures { OnOk result (page.new ≡ page.old ++ answer_shown answer) }
{
    match answer {
        None => Ok(()),
        Some(answer) => page.add_labelled(b", answer ", answer),
    }
}

/// Appends which lines were printed, if any were.
fn append_printed(page: &mut Page, printed: &[i64]) -> Result<(), NoMemory>
    ensures { OnOk result (page.new ≡ page.old ++ printed_words printed.now) }
{
    if printed.is_empty() {
        return Ok(());
    }
    page.add(b", printed")?;
    append_lines(page, printed)
}

/// Appends each integer, after a space.
fn append_lines(page: &mut Page, printed: &[i64]) -> Result<(), NoMemory>
    ensures { OnOk result (page.new ≡ page.old ++ flat_map spaced_integer printed.now) }
{
    for line in printed {
        page.add_labelled(b" ", *line)?;
    }
    Ok(())
}
