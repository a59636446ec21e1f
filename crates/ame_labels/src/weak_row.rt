//! The row of a label of a weak run.

ghost use Rattle.std.specs.Prelude.{◌≡◌, ◌++◌, IfOk, OnOk, option_map};
ghost use Rattle.ame_term.specs.Context.{focus};
ghost use Rattle.ame_term.specs.View.{tree_of};
ghost use Rattle.ame_print.specs.Printer.{spelling_of};
ghost use Rattle.ame_strong.specs.View.{state_of};
ghost use Rattle.ame_weak.specs.View.{weak_of};
ghost use Rattle.ame_labels.specs.Stepped as stepped;
ghost use Rattle.ame_labels.specs.WeakOrder as spec;

use crate::label_row::{changed_location, held_text, kind_of, reduced_term};
use ame_page::Page;
use ame_strong::StrongState;
use ame_term::{Label, Loc, NoMemory, Split, StepKind, Term, Value, split};
use ame_weak::{Try, WeakState};
use std::alloc::Global;

/// Appends what is known of a label before it is made, and returns the location that it touches.
#[tactic(auto, unfolding(crate::specs::WeakOrder::before_label))]
pub(crate) fn append_before(
    page: &mut Page,
    state: &WeakState,
    number: u64,
    entry: u64,
    label: Label,
) -> Result<Option<Loc>, NoMemory>
    ensures page { OnOk result (page.new ≡ page.old ++ spec.before_label number entry (weak_of state.now) label) }
    ensures touched { IfOk result (λ l. option_map (λ l. l.0) l
        ≡ spec.touched_at (stepped.kind_of label) (stepped.reduced_term (weak_of state.now).state label)) }
{
    let term = reduced_term(state.strong(), label);
    append_columns(page, number, entry, state.active(), label)?;
    append_said(page, term, label)?;
    Ok(touched_at(term, label))
}

/// Appends the value of the location that a label touched, in the state after the label.
#[tactic(auto, unfolding(crate::specs::WeakOrder::behind_label))]
pub(crate) fn append_behind(
    alloc: Global,
    page: &mut Page,
    names: &[Vec<u8>],
    state: &WeakState,
    touched: Option<Loc>,
) -> Result<(), NoMemory>
    ensures { OnOk result (page.new ≡ page.old
        ++ spec.behind_label (spelling_of names.now) (weak_of state.now) (option_map (λ l. l.0) touched)) }
{
    append_touched(alloc, page, names, state.strong(), touched)?;
    page.add(b"\n")
}

/// Returns the location that a label makes, reads or writes.
fn touched_at(term: Option<&Term>, label: Label) -> Option<Loc>
    ensures { option_map (λ l. l.0) result ≡ spec.touched_at (stepped.kind_of label) (option_map (λ t. tree_of t.now) term.entry) }
{
    match kind_of(label) {
        Some(StepKind::Read | StepKind::Peek) => read_location(term),
        _ => changed_location(term, label),
    }
}

/// Returns the location from which the redex of a term reads.
fn read_location(term: Option<&Term>) -> Option<Loc>
    ensures { option_map (λ l. l.0) result ≡ spec.read_location (option_map (λ t. tree_of t.now) term.entry) }
{
    match term {
        Some(term) => read_at(term),
        None => None,
    }
}

/// Returns the same of a term.
fn read_at(term: &Term) -> Option<Loc>
    ensures { option_map (λ l. l.0) result ≡ spec.read_at (focus (tree_of term.now)) }
{
    let Split::Redex {
        redex: Term::Get(cell) | Term::Peek(cell),
        ..
    } = split(term)
    else {
        return None;
    };
    match &**cell {
        Term::Held(Value::Loc(location)) => Some(*location),
        _ => None,
    }
}

/// Appends the columns of a label, and its reduction.
#[tactic(auto, unfolding(crate::specs::WeakOrder::columns))]
fn append_columns(
    row: &mut Page,
    number: u64,
    entry: u64,
    active: Option<u64>,
    label: Label,
) -> Result<(), NoMemory>
    ensures { OnOk result (row.new ≡ row.old ++ spec.columns number entry active label) }
{
    row.add_column(5, number)?;
    row.add_column(6, entry)?;
    row.add_column(9, label_member(active, label))?;
    row.add_spaces(lane_width(label))?;
    row.add(label_deed(label))
}

/// Returns the member whose label it is.
fn label_member(active: Option<u64>, label: Label) -> u64
    ensures { result ≡ spec.label_member active label }
{
    match label {
        Label::Activate(number) | Label::Free(number, _) | Label::Close(number) => number,
        Label::Step(_) | Label::Leave | Label::End => active.unwrap_or(0),
    }
}

/// Returns the indent of a label's column.
fn lane_width(label: Label) -> usize
    ensures { result ≡ spec.lane_width label }
{
    match label {
        Label::Free(_, _) | Label::Close(_) => 22,
        _ => 0,
    }
}

/// Returns what a label does.
fn label_deed(label: Label) -> &'static [u8]
    ensures { result.now ≡ spec.label_deed label }
{
    match label {
        Label::Activate(_) => b"  activate",
        Label::Step(kind) | Label::Free(_, kind) => step_deed(kind),
        Label::Leave => b"  leave",
        Label::End => b"  end",
        Label::Close(_) => b"  close",
    }
}

/// Returns a reduction in words, padded if more follows.
fn step_deed(kind: StepKind) -> &'static [u8]
    ensures { result.now ≡ spec.step_deed kind }
{
    match kind {
        StepKind::Local => b"  local",
        StepKind::Alloc(_) => b"  alloc    ",
        StepKind::Read => b"  read     ",
        StepKind::Peek => b"  peek     ",
        StepKind::Write => b"  write    ",
        StepKind::Spawn => b"  spawn",
        StepKind::Print => b"  print    ",
        StepKind::Block => b"  block",
        StepKind::Device(_) => b"  device   ",
    }
}

/// Appends what a term's reduction sends to others, and its answer.
fn append_said(row: &mut Page, term: Option<&Term>, label: Label) -> Result<(), NoMemory>
    ensures { OnOk result (row.new ≡ row.old ++ spec.said_words (stepped.kind_of label) (option_map (λ t. tree_of t.now) term.entry)) }
{
    match kind_of(label) {
        Some(StepKind::Print) => append_said_by(row, term),
        Some(StepKind::Device(answer)) => {
            append_said_by(row, term)?;
            row.add_labelled(b" = ", answer)
        }
        _ => Ok(()),
    }
}

/// Appends what the redex of a term prints or calls.
fn append_said_by(row: &mut Page, term: Option<&Term>) -> Result<(), NoMemory>
    ensures { OnOk result (row.new ≡ row.old ++ spec.said_by (option_map (λ t. tree_of t.now) term.entry)) }
{
    match term {
        Some(term) => append_said_at(row, term),
        None => Ok(()),
    }
}

/// Appends the same for a term.
fn append_said_at(row: &mut Page, term: &Term) -> Result<(), NoMemory>
    ensures { OnOk result (row.new ≡ row.old ++ spec.said_at (focus (tree_of term.now))) }
{
    match split(term) {
        Split::Redex {
            redex: Term::Print(part),
            ..
        } => append_integer(row, part),
        Split::Redex {
            redex: Term::Call(device, part),
            ..
        } => {
            row.add_number(u64::from(*device))?;
            row.add(b"(")?;
            append_integer(row, part)?;
            row.add(b")")
        }
        _ => Ok(()),
    }
}

/// Appends an integer, if a term is one.
fn append_integer(row: &mut Page, part: &Term) -> Result<(), NoMemory>
    ensures { OnOk result (row.new ≡ row.old ++ spec.integer_words (tree_of part.now)) }
{
    match part {
        Term::Held(Value::Int(n)) => row.add_integer(*n),
        _ => Ok(()),
    }
}

/// Appends the value of a location, if one is given.
fn append_touched(
    alloc: Global,
    row: &mut Page,
    names: &[Vec<u8>],
    state: &StrongState,
    touched: Option<Loc>,
) -> Result<(), NoMemory>
    ensures { OnOk result (row.new ≡ row.old ++ spec.touched_words (spelling_of names.now) (state_of state.now) (option_map (λ l. l.0) touched)) }
{
    let Some(location) = touched else {
        return Ok(());
    };
    let held = held_text(alloc, names, state.stored(location))?;
    row.add(b"@")?;
    row.add_number(u64::from(location.0))?;
    row.add(b" = ")?;
    row.add(&held)
}

/// Appends the row of a try whose note is this entry.
#[tactic(auto, unfolding(crate::specs::WeakOrder::taken_back_row))]
pub(crate) fn append_try(page: &mut Page, entry: u64, t: &Try) -> Result<(), NoMemory>
    ensures { OnOk result (page.new ≡ page.old ++ spec.taken_back_row entry t.now) }
{
    page.add(b"      ")?;
    page.add_column(6, entry)?;
    page.add_column(9, t.certificate.number)?;
    page.add(b"  was tried, and taken back behind step ")?;
    page.add_number(t.certificate.steps)?;
    page.add(b"\n")
}
