//! The table of a journal.

ghost use Rattle.std.specs.Prelude.{◌≡◌, ◌++◌, [], IfOk, OnOk, map, slice_index_or};
ghost use Rattle.ame_views.specs.Nexts as spec_nexts;
ghost use Rattle.ame_views.specs.Starters.{starter_in};
ghost use Rattle.ame_views.specs.Table as spec;

use crate::nexts::nexts_of;
use crate::row::append_row;
use crate::starter_column::append_starter;
use crate::starters::{Starter, starter_in};
use ame_journal::{Entry, EntryKind};
use ame_page::Page;
use ame_protocol::Tried;
use ame_term::NoMemory;
use std::alloc::Global;

/// Returns the table of a journal: a line that names the columns, and a row for each entry, with its task's starter and the lines that it
/// printed, as far as they are given. An attempt that left no entry stands after the last entry after which its reads were valid.
pub fn table_of(
    alloc: Global,
    entries: &[Entry],
    tries: &[Tried],
    starters: &[Starter],
    lines: &[Vec<i64>],
) -> Result<Vec<u8>, NoMemory>
    ensures { IfOk result (λ page. page.items ≡ spec.table entries.now tries.now starters.now (map (λ v. v.items) lines.now)) }
{
    let nexts = nexts_of(alloc, entries)?;
    let mut page = Page::new(alloc);
    page.add(b"entry  seat      task  started by      steps  what it did\n")?;
    append_rows(&mut page, entries, &nexts, tries, starters, lines)?;
    Ok(page.into_bytes())
}

/// Appends a row for each entry, with the kind of the next one of its fragment, and for each try.
#[tactic(auto, unfolding(crate::specs::Table::rows))]
fn append_rows(
    page: &mut Page,
    entries: &[Entry],
    nexts: &[Option<EntryKind>],
    tries: &[Tried],
    starters: &[Starter],
    lines: &[Vec<i64>],
) -> Result<(), NoMemory>
    requires { nexts.now ≡ spec_nexts.nexts entries.now }
    ensures { OnOk result (page.new ≡ page.old
        ++ spec.rows 1 entries.now tries.now (starter_in starters.now) (spec.lines_at (map (λ v. v.items) lines.now))) }
{
    let mut rest = tries;
    for (index, entry) in entries.iter().enumerate() {
        let number = index as u64 + 1;
        rest = append_tries(page, rest, number, starters)?;
        append_row(
            page,
            number,
            entry,
            starter_in(starters, entry.number),
            nexts[index],
            line_at(lines, index),
        )?;
    }
    let _none = append_tries(page, rest, entries.len() as u64 + 1, starters)?;
    Ok(())
}

/// Appends the rows of those tries that were last valid before this entry, and returns the others.
#[tactic(auto, unfolding(crate::specs::Table::tried_rows))]
fn append_tries<'a>(
    page: &mut Page,
    tries: &'a [Tried],
    number: u64,
    starters: &[Starter],
) -> Result<&'a [Tried], NoMemory>
    ensures rows { OnOk result (page.new ≡ page.old ++ spec.tried_rows number tries.now (starter_in starters.now)) }
    ensures later { IfOk result (λ rest. rest.now ≡ spec.later_tries number tries.now) }
{
    let mut rest = tries;
    while let Some((t, others)) = rest.split_first() {
        if t.at >= number {
            break;
        }
        append_tried(page, *t, starter_in(starters, t.number))?;
        rest = others;
    }
    Ok(rest)
}

/// Appends the row of a try, whose fragment was started so.
#[tactic(auto, unfolding(crate::specs::Table::tried_row))]
fn append_tried(page: &mut Page, t: Tried, starter: Option<Starter>) -> Result<(), NoMemory>
    ensures { OnOk result (page.new ≡ page.old ++ spec.tried_row t starter) }
{
    page.add_spaces(12)?;
    page.add_column(9, t.number)?;
    append_starter(page, starter)?;
    page.add_column(6, t.steps)?;
    append_tried_words(page, t.at)
}

/// Appends how far the reads of a try were valid.
#[tactic(auto, unfolding(crate::specs::Table::tried_words))]
fn append_tried_words(page: &mut Page, at: u64) -> Result<(), NoMemory>
    ensures { OnOk result (page.new ≡ page.old ++ spec.tried_words at) }
{
    page.add(b" rolled back; its reads were last valid after entry ")?;
    page.add_number(at)?;
    page.add(b"\n")
}

/// Returns the lines of the entry with this index; none if there are fewer entries.
fn line_at(lines: &[Vec<i64>], index: usize) -> &[i64]
    ensures { result.now ≡ slice_index_or (map (λ v. v.items) lines.now) index [] }
{
    match lines.get(index) {
        Some(line) => line.as_slice(),
        None => &[],
    }
}
