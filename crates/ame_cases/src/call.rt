//! The call of a case.

use crate::case::Case;
use crate::device::Boxed;
use crate::fault::Fault;
use crate::told::CaseReport;
use ame_app::{Alone, run_alone_over, run_words};
use ame_io::{MemSink, MemSource};
use ame_worker::Gate;
use std::alloc::{AllocError, Global};
use std::sync::Wait;
use std::thread::Threads;

/// Returns the words of a case, with a number of workers if one is given.
fn words_of(alloc: Global, case: &Case, workers: Option<&str>) -> Result<Vec<String>, AllocError> {
    let mut words = Vec::new(alloc);
    for word in &case.words {
        words.push(String::from_str(alloc, word.as_str())?)?;
    }
    if let Some(workers) = workers {
        words.push(String::from_str(alloc, "--workers")?)?;
        words.push(String::from_str(alloc, workers)?)?;
    }
    Ok(words)
}

/// Returns the source and the sink of a case.
fn ends_of(alloc: Global, case: &Case) -> Result<(MemSource, MemSink), Fault> {
    let ends = &case.ends;
    let text = Vec::from_slice(alloc, &case.text)?;
    let reads = Vec::from_slice(alloc, &ends.failing_reads)?;
    let writes = Vec::from_slice(alloc, &ends.failing_writes)?;
    let source = MemSource::new(text, ends.read_chunk.max(1), reads);
    match MemSink::new(alloc, ends.room, ends.write_chunk.max(1), writes) {
        Ok(sink) => Ok((source, sink)),
        Err(_) => Err(Fault::NoMemory),
    }
}

/// Returns the report of a case, with a number of workers if one is given.
pub fn report_of<R, G>(
    rt: &R,
    case: &Case,
    workers: Option<&str>,
    boxes: Vec<Boxed>,
    gate: &G,
) -> Result<CaseReport, Fault>
where
    R: Threads + Wait + Sync + AllocGlobal,
    G: Gate + Sync,
{
    let alloc = rt.alloc();
    let words = words_of(alloc, case, workers)?;
    let (mut source, sink) = ends_of(alloc, case)?;
    if boxes.len() > 16 {
        return Err(Fault::Line(case.line, "there are at most 16 devices"));
    }
    Ok(run_words(rt, alloc, &words, &mut source, sink, boxes, gate))
}

/// Returns the report of a command that one thread does, with the text of a case and no devices.
pub fn report_alone(alloc: Global, case: &Case, command: Alone) -> Result<CaseReport, Fault> {
    let (_, sink) = ends_of(alloc, case)?;
    if !command.is_in_range() {
        return Err(Fault::Line(case.line, "a number is out of its range"));
    }
    let boxes: Vec<Boxed> = Vec::new(alloc);
    Ok(run_alone_over(alloc, command, &case.text, sink, boxes))
}
