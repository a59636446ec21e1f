//! A run as a table, and the forms that created its locations.

ghost use Rattle.std.specs.Prelude.{◌≡◌, ◌++◌, ◌≤◌, IfOk, OnOk, length, map};
ghost use Rattle.ame_lex.specs.Bytes.{max_text};
ghost use Rattle.ame_lex.specs.Reading.{tokens_of};
ghost use Rattle.ame_why.specs.Open.{tokens_or_none};
ghost use Rattle.ame_views.specs.Forms.{positions};
ghost use Rattle.ame_views.specs.Trace as spec;

use crate::forms::{Created, forms_of};
use crate::replayed::ReplayedRun;
use crate::table::table_of;
use ame_journal::Entry;
use ame_page::Page;
use ame_protocol::Tried;
use ame_store::{Cell, Store};
use ame_term::{Loc, NoMemory, push};
use ame_value::Val;
use std::alloc::Global;

/// Returns the table of a run's journal with its lost attempts, and the forms that created the locations that are left, if any.
pub fn trace_of(
    text: &[u8],
    entries: &[Entry],
    run: &ReplayedRun,
    tried: &[Tried],
    store: &Store<Val>,
) -> Result<Vec<u8>, NoMemory>
    requires { length text.now ≤ max_text }
    ensures { IfOk result (λ page. page.items
        ≡ spec.trace (positions text.now (tokens_or_none (tokens_of text.now))) entries.now run.now.starters.items (map (λ v. v.items) run.now.lines.items) tried.now store.now) }
{
    let alloc = *run.lines.allocator();
    let table = table_of(
        alloc,
        entries,
        tried,
        run.starters.as_slice(),
        run.lines.as_slice(),
    )?;
    let mut page = Page::from_bytes(table);
    let made = made_in(alloc, store)?;
    append_origins(alloc, &mut page, text, &made)?;
    Ok(page.into_bytes())
}

/// Appends where locations were made, if there are any.
fn append_origins(
    alloc: Global,
    page: &mut Page,
    text: &[u8],
    made: &[Created],
) -> Result<(), NoMemory>
    requires { length text.now ≤ max_text }
    ensures { OnOk result (page.new ≡ page.old
        ++ spec.origin_part (positions text.now (tokens_or_none (tokens_of text.now))) made.now) }
{
    if made.is_empty() {
        return Ok(());
    }
    let forms = forms_of(alloc, text, made)?;
    page.add_byte(b'\n')?;
    page.add(&forms)
}

/// Returns the locations that are left, with the forms that made them.
#[tactic(auto, unfolding(crate::specs::Trace::made_from))]
fn made_in(alloc: Global, store: &Store<Val>) -> Result<Vec<Created>, NoMemory>
    ensures { IfOk result (λ made. made.items ≡ spec.made_from 0 store.now) }
{
    let mut made = Vec::new(alloc);
    for number in 0..store.len() {
        note_made(&mut made, number, store.cell(Loc(number)))?;
    }
    Ok(made)
}

/// Appends a location, if it is live.
fn note_made(made: &mut Vec<Created>, number: u32, cell: &Cell<Val>) -> Result<(), NoMemory>
    ensures { OnOk result (made.new.items ≡ made.old.items ++ spec.made_there number cell.now) }
{
    if !cell.live {
        return Ok(());
    }
    push(
        made,
        Created {
            location: Loc(number),
            form: cell.ty,
        },
    )
}
