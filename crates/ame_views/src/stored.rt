//! The values of the locations that are left.

ghost use Rattle.std.specs.Prelude.{◌≡◌, ◌++◌, ◌≤◌, IfOk, OnOk, length};
ghost use Rattle.ame_lex.specs.Bytes.{max_text};
ghost use Rattle.ame_lex.specs.Reading.{tokens_of};
ghost use Rattle.ame_value.specs.View.{flat_value};
ghost use Rattle.ame_why.specs.Open.{tokens_or_none};
ghost use Rattle.ame_why.specs.Position.{position_words};
ghost use Rattle.ame_views.specs.Forms.{positions};
ghost use Rattle.ame_views.specs.Stored as spec;
ghost use Rattle.ame_views.specs.Stored.{IsFirstOrder, held_words, origin_words, stored_row, stored_rows};

use crate::forms::{position_at, positions_in};
use crate::line_index::LineIndex;
use ame_page::Page;
use ame_print::print_term;
use ame_store::{Cell, Store};
use ame_term::{Loc, NoMemory, Sort, Term, Value, boxed};
use ame_value::Val;
use ame_why::{Position, append_position};
use std::alloc::Global;

/// Returns a line that names the columns, and a row for each location that is live: its sort, the line and the column of the word of the `ref` form
/// that made it, and the value that it holds, as canonical text unless a function is in it.
pub fn store_of(alloc: Global, text: &[u8], store: &Store<Val>) -> Result<Vec<u8>, NoMemory>
    requires { length text.now ≤ max_text }
    ensures { IfOk result (λ page. page.items ≡ spec.store_table (positions text.now (tokens_or_none (tokens_of text.now))) store.now) }
{
    let lines = LineIndex::of(alloc, text)?;
    let places = positions_in(alloc, &lines)?;
    let mut page = Page::new(alloc);
    page.add(b"location  sort  ref form  value\n")?;
    append_cells(&mut page, &places, store)?;
    Ok(page.into_bytes())
}

/// Appends a row for each location that is live.
#[tactic(auto, unfolding(crate::specs::Stored::stored_rows))]
fn append_cells(page: &mut Page, places: &[Position], store: &Store<Val>) -> Result<(), NoMemory>
    ensures { OnOk result (page.new ≡ page.old ++ stored_rows places.now 0 store.now) }
{
    for number in 0..store.len() {
        append_cell(page, places, number, store.cell(Loc(number)))?;
    }
    Ok(())
}

/// Appends the row of a location, if it is live.
#[tactic(auto, unfolding(crate::specs::Stored::stored_row))]
fn append_cell(
    page: &mut Page,
    places: &[Position],
    number: u32,
    cell: &Cell<Val>,
) -> Result<(), NoMemory>
    ensures { OnOk result (page.new ≡ page.old ++ stored_row places.now number cell.now) }
{
    if !cell.live {
        return Ok(());
    }
    let held = held_text(page.allocator(), &cell.value)?;
    append_origin(page, places, number, cell)?;
    page.add(&held)?;
    page.add(b"\n")
}

/// Appends a location, its sort, and the place of its `ref` form.
#[tactic(auto, unfolding(crate::specs::Stored::origin_words))]
fn append_origin(
    page: &mut Page,
    places: &[Position],
    number: u32,
    cell: &Cell<Val>,
) -> Result<(), NoMemory>
    ensures { OnOk result (page.new ≡ page.old ++ origin_words places.now number cell.now) }
{
    let place = position_text(page.allocator(), position_at(places, cell.ty))?;
    page.add_column(8, u64::from(number))?;
    page.add(sort_column(cell.sort))?;
    page.add_padded(10, &place)
}

/// Returns a line and a column as text.
fn position_text(alloc: Global, at: Option<Position>) -> Result<Vec<u8>, NoMemory>
    ensures { IfOk result (λ words. words.items ≡ position_words at) }
{
    let mut words = Page::new(alloc);
    append_position(&mut words, at)?;
    Ok(words.into_bytes())
}

fn sort_column(sort: Sort) -> &'static [u8]
    ensures { result.now ≡ spec.sort_column sort }
{
    match sort {
        Sort::Protected => b" p     ",
        Sort::Unprotected => b" u     ",
    }
}

/// Returns the canonical text of a value, unless a function is in it.
#[tactic(auto, unfolding(crate::specs::Stored::held_words))]
pub(crate) fn held_text(alloc: Global, value: &Val) -> Result<Vec<u8>, NoMemory>
    ensures { IfOk result (λ words. words.items ≡ held_words (flat_value value.now)) }
{
    match plain(alloc, value)? {
        Some(value) => print_term(alloc, &[], &Term::Held(value)),
        None => Ok(Vec::from_slice(alloc, b"has a function")?),
    }
}

/// Returns the value for which one of a run stands, unless a function is in it.
fn plain(alloc: Global, value: &Val) -> Result<Option<Value>, NoMemory>
    ensures { IfOk result (IsFirstOrder (flat_value value.now)) }
{
    match value {
        Val::Unit => Ok(Some(Value::Unit)),
        Val::Bool(truth) => Ok(Some(Value::Bool(*truth))),
        Val::Int(number) => Ok(Some(Value::Int(*number))),
        Val::Loc(location) => Ok(Some(Value::Loc(*location))),
        Val::Clo(_) => Ok(None),
        Val::Pair(pair) => {
            let Some(first) = plain(alloc, pair.first())? else {
                return Ok(None);
            };
            let Some(second) = plain(alloc, pair.second())? else {
                return Ok(None);
            };
            let pair = Value::Pair(boxed(alloc, first)?, boxed(alloc, second)?);
            Ok(Some(pair))
        }
    }
}
