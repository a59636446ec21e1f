//! The lines on a member's place and on its reads.

ghost use Rattle.std.specs.Prelude.{◌≡◌, ◌++◌, Some, OnOk};
ghost use Rattle.std.specs.List.{flat_map};
ghost use Rattle.ame_views.specs.Standings as spec;

use crate::forms::position_at;
use crate::stored::held_text;
use ame_check::Stored;
use ame_journal::{Entry, EntryKind};
use ame_page::Page;
use ame_term::{NoMemory, TyNo};
use ame_value::Val;
use ame_why::{Position, append_position};
use std::collections::BTreeMap;

/// Appends the line of a note: its member, the place that started the member, and the place that it has come to.
#[tactic(auto, unfolding(crate::specs::Standings::standing_line))]
pub(crate) fn append_standing(
    page: &mut Page,
    note: &Entry,
    started: Option<Position>,
    there: Option<Position>,
) -> Result<(), NoMemory>
    ensures { OnOk result (page.new ≡ page.old ++ spec.standing_line note.now started there) }
{
    append_member(page, note.number, started)?;
    append_stance(page, note, there)
}

/// Appends a member, and the place that started it.
#[tactic(auto, unfolding(crate::specs::Standings::member_words))]
fn append_member(page: &mut Page, number: u64, started: Option<Position>) -> Result<(), NoMemory>
    ensures { OnOk result (page.new ≡ page.old ++ spec.member_words number started) }
{
    page.add(b"task ")?;
    page.add_number(number)?;
    append_start(page, started)
}

/// Appends the place that a member has come to after a note's steps.
#[tactic(auto, unfolding(crate::specs::Standings::stands_words))]
fn append_stance(page: &mut Page, note: &Entry, there: Option<Position>) -> Result<(), NoMemory>
    ensures { OnOk result (page.new ≡ page.old ++ spec.stands_words note.now there) }
{
    page.add(stance(note.kind))?;
    append_place(page, there)?;
    page.add(b" after ")?;
    page.add_number(note.steps)?;
    page.add(ending(note.kind))
}

/// Appends the place at which it stands, if that is known.
fn append_place(page: &mut Page, there: Option<Position>) -> Result<(), NoMemory>
    ensures { OnOk result (page.new ≡ page.old ++ spec.place_words there) }
{
    if there.is_none() {
        return Ok(());
    }
    page.add(b" at ")?;
    append_position(page, there)
}

/// Returns what a member does that has a note of this kind, in words.
fn stance(kind: EntryKind) -> &'static [u8]
    ensures { result.now ≡ spec.stance kind }
{
    match kind {
        EntryKind::Stuck => b" is blocked",
        EntryKind::Tall => b" stops",
        EntryKind::Ran | EntryKind::Free | EntryKind::Cut => b" was cut off",
    }
}

/// Returns why it does, in words.
fn ending(kind: EntryKind) -> &'static [u8]
    ensures { result.now ≡ spec.ending kind }
{
    match kind {
        EntryKind::Stuck => b" steps: its condition is false\n",
        EntryKind::Tall => b" steps: a value would be nested too deeply\n",
        EntryKind::Ran | EntryKind::Free | EntryKind::Cut => b" steps: the run ended\n",
    }
}

/// Appends the place of the form that started a member, if it is known.
fn append_start(page: &mut Page, started: Option<Position>) -> Result<(), NoMemory>
    ensures { OnOk result (page.new ≡ page.old ++ spec.start_words started) }
{
    if started.is_none() {
        return Ok(());
    }
    page.add(b" (started at ")?;
    append_position(page, started)?;
    page.add(b")")
}

/// Appends a line for each location that was read, in the order of their numbers.
pub(crate) fn append_reads(
    page: &mut Page,
    forms: &[Position],
    cells: &BTreeMap<u32, Stored<Val>>,
    reads: BTreeMap<u32, u64>,
) -> Result<(), NoMemory>
    ensures { OnOk result (page.new ≡ page.old ++ flat_map (spec.read_line forms.now cells.now.entries) reads.entries) }
{
    let mut left = reads;
    while let Some((l, _)) = left.pop_first() {
        append_read(page, forms, cells, l)?;
    }
    Ok(())
}

/// Appends the line of a location, if it was there before.
#[tactic(auto, unfolding(crate::specs::Standings::held_line))]
fn append_read(
    page: &mut Page,
    forms: &[Position],
    cells: &BTreeMap<u32, Stored<Val>>,
    l: u32,
) -> Result<(), NoMemory>
    ensures { OnOk result (page.new ≡ page.old ++ spec.read_line forms.now cells.now.entries (l, 0)) }
{
    match cells.get(&l) {
        Some(cell) => append_held(page, forms, l, cell),
        None => Ok(()),
    }
}

/// Appends the place of its `ref` form, and its value.
#[tactic(auto, unfolding(crate::specs::Standings::held_line))]
fn append_held(
    page: &mut Page,
    forms: &[Position],
    l: u32,
    cell: &Stored<Val>,
) -> Result<(), NoMemory>
    ensures { OnOk result (page.new ≡ page.old ++ spec.held_line forms.now l (Some cell.now)) }
{
    append_made(page, forms, l, cell.number)?;
    append_holds(page, &cell.value)
}

/// Appends a location, and the place of its `ref` form.
#[tactic(auto, unfolding(crate::specs::Standings::made_words))]
fn append_made(page: &mut Page, forms: &[Position], l: u32, form: TyNo) -> Result<(), NoMemory>
    ensures { OnOk result (page.new ≡ page.old ++ spec.made_words forms.now l form.0) }
{
    page.add(b"  it read location ")?;
    page.add_number(u64::from(l))?;
    page.add(b" (created at ")?;
    append_position(page, position_at(forms, form))?;
    Ok(())
}

/// Appends what it holds.
#[tactic(auto, unfolding(crate::specs::Standings::holds_words))]
fn append_holds(page: &mut Page, value: &Val) -> Result<(), NoMemory>
    ensures { OnOk result (page.new ≡ page.old ++ spec.holds_words value.now) }
{
    let held = held_text(page.allocator(), value)?;
    page.add(b"), which now holds ")?;
    page.add(&held)?;
    page.add(b"\n")?;
    Ok(())
}
