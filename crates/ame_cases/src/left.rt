//! The state that a run left, field by field.

use crate::fault::Fault;
use crate::field::Field;
use crate::told::{CaseReport, line};
use ame_app::RunResult;
use ame_journal::{Entry, EntryKind};
use ame_store::Store;
use ame_term::Loc;
use ame_value::Val;
use std::alloc::{AllocError, Global};

/// Returns what a run left of a field.
pub fn left(
    alloc: Global,
    report: &CaseReport,
    run: &RunResult,
    field: Field,
    is_alone: bool,
) -> Result<String, Fault> {
    match field {
        Field::Journal => journal(alloc, report, is_alone),
        Field::Output => output(alloc, run.output()),
        Field::Turns => turns(alloc, run),
        Field::Unwound => line(alloc, unwound(run)),
        _ => cells(alloc, run.store()),
    }
}

/// Returns the entries from which a run went on, and those that it added, a line each.
fn journal(alloc: Global, report: &CaseReport, is_alone: bool) -> Result<String, Fault> {
    let mut text = String::new(alloc);
    write_entries(&mut text, report.base(), is_alone)?;
    write_entries(&mut text, report.journal(), is_alone)?;
    Ok(text)
}

/// Writes lines of a journal. With several workers any seat may have made an entry, so each is written with seat 0.
fn write_entries(text: &mut String, entries: &[Entry], is_alone: bool) -> Result<(), AllocError> {
    for entry in entries {
        let seat = if is_alone { entry.seat } else { 0 };
        write_entry(text, entry, seat)?;
    }
    Ok(())
}

/// Writes a line of a journal.
fn write_entry(text: &mut String, entry: &Entry, seat: u32) -> Result<(), AllocError> {
    let kind = kind_word(entry.kind);
    write!(text, "{kind} {seat} {} {}", entry.number, entry.steps)?;
    for location in entry.fresh.as_slice() {
        write!(text, " {}", location.0)?;
    }
    if let Some(answer) = entry.answer {
        write!(text, " = {answer}")?;
    }
    text.push_str("\n")
}

fn kind_word(kind: EntryKind) -> &'static str {
    match kind {
        EntryKind::Ran => "ran",
        EntryKind::Free => "free",
        EntryKind::Stuck => "stuck",
        EntryKind::Cut => "cut",
        EntryKind::Tall => "tall",
    }
}

/// Returns what was printed, a line each.
fn output(alloc: Global, output: &[i64]) -> Result<String, Fault> {
    let mut text = String::new(alloc);
    for integer in output {
        writeln!(text, "{integer}")?;
    }
    Ok(text)
}

/// Returns the number of turns, and how often a seat was in another's way, if one was.
fn turns(alloc: Global, run: &RunResult) -> Result<String, Fault> {
    let turns = run.turns();
    let (conflicts, invalids) = match run.ended() {
        Some(ended) => (ended.counters().conflicts, ended.counters().invalids),
        None => (0, 0),
    };
    if conflicts == 0 && invalids == 0 {
        return line(alloc, u64::from(turns));
    }
    Ok(format!(in alloc; "{turns} with {conflicts} conflicts and {invalids} invalid reads\n")?)
}

/// Returns the number of values that were put back. A weak run puts none back.
fn unwound(run: &RunResult) -> u64 {
    match run.ended() {
        Some(ended) => u64::from(ended.counters().unwound),
        None => 0,
    }
}

/// Returns each live cell, a line each.
fn cells(alloc: Global, store: &Store<Val>) -> Result<String, Fault> {
    let mut text = String::new(alloc);
    for location in 0..store.len() {
        let cell = store.cell(Loc(location));
        if cell.live {
            write!(text, "{location} ")?;
            write_value(&mut text, &cell.value)?;
        }
    }
    Ok(text)
}

/// Writes a value in the form of a case, with a line feed.
fn write_value(text: &mut String, value: &Val) -> Result<(), AllocError> {
    match value {
        Val::Unit => writeln!(text, "unit"),
        Val::Bool(is_so) => writeln!(text, "{is_so}"),
        Val::Int(integer) => writeln!(text, "{integer}"),
        Val::Loc(location) => writeln!(text, "@{}", location.0),
        Val::Clo(_) => writeln!(text, "function"),
        Val::Pair(_) => writeln!(text, "pair"),
    }
}
