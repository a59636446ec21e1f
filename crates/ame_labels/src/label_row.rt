//! The row of a label.

ghost use Rattle.std.specs.Prelude.{◌≡◌, ◌++◌, IfOk, OnOk, codes, option_map};
ghost use Rattle.ame_term.specs.Context.{focus};
ghost use Rattle.ame_term.specs.View.{tree_of, val_of};
ghost use Rattle.ame_print.specs.Printer.{spelling_of};
ghost use Rattle.ame_strong.specs.View.{state_of};
ghost use Rattle.ame_labels.specs.Stepped as spec;
ghost use Rattle.ame_labels.specs.Stepped.{label_words, step_words, shown_term, target_of, stored_words, started_words};

use crate::marked::marked_text;
use ame_page::Page;
use ame_print::print_term;
use ame_strong::StrongState;
use ame_term::{Label, Loc, NoMemory, Split, StepKind, Term, Value, copy_value, split};
use std::alloc::Global;

/// Returns the reduction that a label makes.
pub(crate) fn kind_of(label: Label) -> Option<StepKind>
    ensures { result ≡ spec.kind_of label }
{
    match label {
        Label::Step(kind) | Label::Free(_, kind) => Some(kind),
        Label::Activate(_) | Label::Leave | Label::End | Label::Close(_) => None,
    }
}

/// Returns the term of the member that a label reduces, lets go or closes.
pub(crate) fn reduced_term(state: &StrongState, label: Label) -> Option<&Term>
    ensures { option_map (λ term. tree_of term.now) result ≡ spec.reduced_term (state_of state.now) label }
{
    match label {
        Label::Activate(_) => None,
        Label::Free(number, _) | Label::Close(number) => state.member(number),
        Label::Step(_) | Label::Leave | Label::End => state.active_term(),
    }
}

/// Returns what a label does, and the term that it reduces. The names are as before.
pub(crate) fn row_before(
    alloc: Global,
    names: &mut Vec<Vec<u8>>,
    term: Option<&Term>,
    label: Label,
) -> Result<Vec<u8>, NoMemory>
    ensures text { IfOk result (λ row. row.items
        ≡ label_words label ++ shown_term (spelling_of names.old.items) (option_map (λ t. tree_of t.now) term.entry)) }
    ensures names { OnOk result (spelling_of names.new.items ≡ spelling_of names.old.items) }
{
    let mut row = Page::new(alloc);
    row.add(label_words(label))?;
    let Some(term) = term else {
        return Ok(row.into_bytes());
    };
    let text = marked_text(alloc, names, term)?;
    row.add(&text)?;
    Ok(row.into_bytes())
}

/// Returns the location whose value a label changes.
pub(crate) fn changed_location(term: Option<&Term>, label: Label) -> Option<Loc>
    ensures { option_map (λ l. l.0) result ≡ spec.changed_location (spec.kind_of label) (option_map (λ t. tree_of t.now) term.entry) }
{
    match kind_of(label) {
        Some(StepKind::Alloc(location)) => Some(location),
        Some(StepKind::Write) => target_of(term),
        _ => None,
    }
}

/// Returns the location to which the redex of a term writes.
fn target_of(term: Option<&Term>) -> Option<Loc>
    ensures { option_map (λ l. l.0) result ≡ target_of (option_map (λ t. tree_of t.now) term.entry) }
{
    match term {
        Some(term) => written_at(term),
        None => None,
    }
}

/// Returns the same of a term.
fn written_at(term: &Term) -> Option<Loc>
    ensures { option_map (λ l. l.0) result ≡ spec.written_at (focus (tree_of term.now)) }
{
    let Split::Redex {
        redex: Term::Set(cell, _),
        ..
    } = split(term)
    else {
        return None;
    };
    match &**cell {
        Term::Held(Value::Loc(location)) => Some(*location),
        _ => None,
    }
}

/// Appends the line before the rows of an entry.
pub(crate) fn append_entry_heading(
    page: &mut Page,
    number: u64,
    member: u64,
) -> Result<(), NoMemory>
    ensures { OnOk result (page.new ≡ page.old ++ spec.entry_heading number member) }
{
    page.add(b"entry ")?;
    page.add_number(number)?;
    page.add(b", task ")?;
    page.add_number(member)?;
    page.add(b"\n")
}

/// Appends the row of a label that led to this state, with the location that it changed or the member that it started.
pub(crate) fn append_row(
    alloc: Global,
    page: &mut Page,
    names: &[Vec<u8>],
    state: &StrongState,
    before: &[u8],
    changed: Option<Loc>,
    member: u64,
    label: Label,
) -> Result<(), NoMemory>
    ensures { OnOk result (page.new ≡ page.old ++ (before.now
        ++ stored_words (spelling_of names.now) (state_of state.now) (option_map (λ l. l.0) changed)
        ++ started_words member (spec.kind_of label) ++ codes "\n")) }
{
    page.add(before)?;
    append_stored(alloc, page, names, state, changed)?;
    append_started(page, member, label)?;
    page.add(b"\n")
}

/// Appends the value of a location, if one is given.
fn append_stored(
    alloc: Global,
    page: &mut Page,
    names: &[Vec<u8>],
    state: &StrongState,
    changed: Option<Loc>,
) -> Result<(), NoMemory>
    ensures { OnOk result (page.new ≡ page.old ++ stored_words (spelling_of names.now) (state_of state.now) (option_map (λ l. l.0) changed)) }
{
    let Some(location) = changed else {
        return Ok(());
    };
    let held = held_text(alloc, names, state.stored(location))?;
    page.add(b"  ; @")?;
    page.add_number(u64::from(location.0))?;
    page.add(b" = ")?;
    page.add(&held)
}

/// Returns the text of a value; nothing if there is none.
pub(crate) fn held_text(
    alloc: Global,
    names: &[Vec<u8>],
    value: Option<&Value>,
) -> Result<Vec<u8>, NoMemory>
    ensures { IfOk result (λ text. text.items ≡ spec.held_text (spelling_of names.now) (option_map (λ v. val_of v.now) value.entry)) }
{
    match value {
        Some(value) => print_term(alloc, names, &Term::Held(copy_value(alloc, value)?)),
        None => Ok(Vec::new(alloc)),
    }
}

/// Appends which member a label starts, if it starts one.
fn append_started(page: &mut Page, member: u64, label: Label) -> Result<(), NoMemory>
    ensures { OnOk result (page.new ≡ page.old ++ started_words member (spec.kind_of label)) }
{
    match kind_of(label) {
        Some(StepKind::Spawn) => {
            page.add(b"  ; starts ")?;
            page.add_number(member)
        }
        _ => Ok(()),
    }
}

fn label_words(label: Label) -> &'static [u8]
    ensures { result.now ≡ label_words label }
{
    match label {
        Label::Activate(_) => b"  activate",
        Label::Step(kind) | Label::Free(_, kind) => step_words(kind),
        Label::Leave => b"  leave    ",
        Label::End => b"  end      ",
        Label::Close(_) => b"  close    ",
    }
}

fn step_words(kind: StepKind) -> &'static [u8]
    ensures { result.now ≡ step_words kind }
{
    match kind {
        StepKind::Local => b"  local    ",
        StepKind::Alloc(_) => b"  alloc    ",
        StepKind::Read => b"  read     ",
        StepKind::Peek => b"  peek     ",
        StepKind::Write => b"  write    ",
        StepKind::Spawn => b"  spawn    ",
        StepKind::Print => b"  print    ",
        StepKind::Block => b"  block    ",
        StepKind::Device(_) => b"  device   ",
    }
}
