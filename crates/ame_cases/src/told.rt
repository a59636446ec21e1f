//! The content of a report, field by field, in the form of a case's lines. Only this file reads reports and their statuses.

use crate::agrees::agrees;
use crate::case::Case;
use crate::device::Boxed;
use crate::fault::Fault;
use crate::field::Field;
use crate::left::left;
use crate::picks::picks;
use crate::replay::replayed;
use ame_app::{Extra, Ran, Report, RunResult};
use ame_code::Code;
use ame_device::Device;
use ame_io::MemSink;
use ame_journal::{Certificate, Journal, JournalFault};
use ame_strong::StrongState;
use ame_term::copy_term;
use std::alloc::Global;

/// Names the report of a call.
pub type CaseReport = Report<MemSink, Boxed>;

/// Returns what a call gave of a field, with one worker or with several.
pub fn told(
    alloc: Global,
    case: &Case,
    report: &CaseReport,
    field: Field,
    is_alone: bool,
) -> Result<String, Fault> {
    match field {
        Field::Status => line(alloc, u64::from(report.status.number())),
        Field::Lines => Ok(String::from_utf8_lossy(alloc, report.sink.written())?),
        Field::Written => written(alloc, report.sink.written()),
        Field::Run => begun(alloc, report),
        Field::Resumed => resumed(alloc, &report.run),
        Field::Heard => heard(alloc, &report.devices),
        Field::Picks => picks(alloc, &report.run),
        Field::Certificates => certificates(alloc, report.blocked()),
        Field::Replay => replay(alloc, case, report),
        Field::Agrees => word(
            alloc,
            if does_agree(alloc, report)? {
                "yes"
            } else {
                "no"
            },
        ),
        Field::Names | Field::Types => match &report.run {
            Some(run) => sizes(alloc, &run.code, field),
            None => word(alloc, "none"),
        },
        Field::Journal | Field::Output | Field::Turns | Field::Unwound | Field::Cells => {
            match &report.run {
                Some(run) => left(alloc, report, &run.left, field, is_alone),
                None => word(alloc, "none"),
            }
        }
    }
}

/// Returns a number on a line.
pub fn line(alloc: Global, number: u64) -> Result<String, Fault> {
    Ok(format!(in alloc; "{number}\n")?)
}

/// Returns a word on a line.
fn word(alloc: Global, word: &str) -> Result<String, Fault> {
    Ok(format!(in alloc; "{word}\n")?)
}

/// Returns what was written, and a line feed.
fn written(alloc: Global, bytes: &[u8]) -> Result<String, Fault> {
    let mut text = String::from_utf8_lossy(alloc, bytes)?;
    text.push_str("\n")?;
    Ok(text)
}

/// Returns whether a run was begun.
fn begun(alloc: Global, report: &CaseReport) -> Result<String, Fault> {
    match &report.run {
        Some(_) => word(alloc, "some"),
        None => word(alloc, "none"),
    }
}

/// Returns the number of entries from which a run went on, if it did.
fn resumed(alloc: Global, run: &Option<Ran>) -> Result<String, Fault> {
    match run {
        Some(
            Ran {
                left: RunResult::Engine(_, Extra::Resumed(entries)),
                ..
            },
        ) => line(alloc, *entries),
        _ => word(alloc, "none"),
    }
}

/// Returns the calls that each device answered, a line each.
fn heard(alloc: Global, devices: &[Boxed]) -> Result<String, Fault> {
    let mut text = String::new(alloc);
    for (number, device) in devices.iter().enumerate() {
        write!(text, "{number}:")?;
        for call in device.heard().unwrap_or(&[]) {
            write!(text, " {}={}", call.argument, call.answer)?;
        }
        text.push_str("\n")?;
    }
    Ok(text)
}

/// Returns the number, steps and new locations of each blocked member, a line each.
fn certificates(alloc: Global, blocked: &[Certificate]) -> Result<String, Fault> {
    let mut text = String::new(alloc);
    for certificate in blocked {
        write!(text, "{} {}", certificate.number, certificate.steps)?;
        for location in certificate.fresh.as_slice() {
            write!(text, " {}", location.0)?;
        }
        text.push_str("\n")?;
    }
    Ok(text)
}

/// Returns the number of names, or of types of locations, in a program.
fn sizes(alloc: Global, code: &Code, field: Field) -> Result<String, Fault> {
    let accepted = code.accepted();
    let count = match field {
        Field::Names => accepted.program.names.len(),
        _ => accepted.ref_tys.len(),
    };
    Ok(format!(in alloc; "{count}\n")?)
}

/// Returns the result of the strong semantics by the certificate, or by the journal of the run.
fn replay(alloc: Global, case: &Case, report: &CaseReport) -> Result<String, Fault> {
    let Some(run) = &report.run else {
        return word(alloc, "none");
    };
    let program = copy_term(alloc, &run.code.accepted().program.term)?;
    let state = match &case.certificate {
        None => replayed(alloc, program, report.base(), report.journal())?,
        Some(lines) => match journal(alloc, lines.as_str())? {
            Some(journal) => replayed(alloc, program, &[], journal.entries())?,
            None => return word(alloc, "no journal"),
        },
    };
    match state {
        Some(state) => come_to(alloc, &state),
        None => word(alloc, "none"),
    }
}

/// Returns whether a run was begun, and left the state to which its journal leads.
fn does_agree(alloc: Global, report: &CaseReport) -> Result<bool, Fault> {
    match &report.run {
        Some(run) => agrees(alloc, report, run),
        None => Ok(false),
    }
}

/// Returns the journal that lines spell.
fn journal(alloc: Global, lines: &str) -> Result<Option<Journal>, Fault> {
    if lines.len() > 67_108_864 {
        return Ok(None);
    }
    match Journal::from_text(alloc, lines.as_bytes()) {
        Ok(journal) => Ok(Some(journal)),
        Err(JournalFault::BadLine(_)) => Ok(None),
        Err(JournalFault::NoMemory) => Err(Fault::NoMemory),
    }
}

/// Returns the number of members that are left, and what was printed.
fn come_to(alloc: Global, state: &StrongState) -> Result<String, Fault> {
    let output = integers(alloc, state.output())?;
    Ok(format!(in alloc; "members {}\noutput{output}\n", state.pool_len())?)
}

/// Returns integers, each after a space.
pub fn integers(alloc: Global, integers: &[i64]) -> Result<String, Fault> {
    let mut text = String::new(alloc);
    for integer in integers {
        write!(text, " {integer}")?;
    }
    Ok(text)
}
