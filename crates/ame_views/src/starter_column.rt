//! The column of starters.

ghost use Rattle.std.specs.Prelude.{◌≡◌, ◌++◌, IfOk, OnOk};
ghost use Rattle.ame_views.specs.Table as spec;

use crate::starters::Starter;
use ame_page::Page;
use ame_term::NoMemory;
use ame_why::{Position, append_position};
use std::alloc::Global;

/// Appends what started a fragment, in a column.
#[tactic(auto, unfolding(crate::specs::Table::starter_column))]
pub(crate) fn append_starter(page: &mut Page, starter: Option<Starter>) -> Result<(), NoMemory>
    ensures { OnOk result (page.new ≡ page.old ++ spec.starter_column starter) }
{
    let words = starter_text(page.allocator(), starter)?;
    page.add_padded(15, &words)?;
    page.add(b" ")
}

/// Returns what started a fragment, as text.
fn starter_text(alloc: Global, starter: Option<Starter>) -> Result<Vec<u8>, NoMemory>
    ensures { IfOk result (λ words. words.items ≡ spec.starter_words starter) }
{
    let mut words = Page::new(alloc);
    append_started(&mut words, starter)?;
    Ok(words.into_bytes())
}

/// Appends the entry that started a task, and the place of the form.
fn append_started(words: &mut Page, starter: Option<Starter>) -> Result<(), NoMemory>
    ensures { OnOk result (words.new ≡ words.old ++ spec.starter_words starter) }
{
    let Some(starter) = starter else {
        return words.add(b"    -");
    };
    words.add_column(5, starter.entry)?;
    append_form(words, starter.form)
}

/// Appends the place of the form that started a task, if it is known.
fn append_form(words: &mut Page, form: Option<Position>) -> Result<(), NoMemory>
    ensures { OnOk result (words.new ≡ words.old ++ spec.form_words form) }
{
    if form.is_none() {
        return Ok(());
    }
    words.add(b"at ")?;
    append_position(words, form)
}
