//! A run, and what is shown of it.

ghost use Rattle.std.specs.Prelude.{◌≤◌, vec_len};
ghost use Rattle.ame_lex.specs.Bytes.{max_text};

use crate::explain::{explain, place_of};
use crate::kept_source::KeptSource;
use crate::late::Late;
use crate::origin::Origin;
use crate::view_request::{View, ViewRequest};
use crate::views::page_of;
use ame_app::{Report, StandardDevice, run_process};
use ame_io::{Sink, Source, StdSink, StdSource, WriteFault, read_all, write_all};
use ame_term::NoMemory;
use std::alloc::Global;
use std::fs;
use std::io::{self, Eprint};
use std::rt::Files;
use std::sync::Wait;
use std::thread::Threads;

/// Runs what the words ask for, and writes the view that they ask for. A view comes before the verdict line, which goes to standard error
/// if the view is an input of another call. If no run was begun, the verdict line comes first, and then why. The result is the status of
/// the process.
pub fn show<R, S, W>(
    rt: &R,
    words: Vec<String>,
    source: KeptSource<S>,
    asked: ViewRequest,
    origin: Origin<'_>,
    writer: W,
) -> u8
where
    R: AllocGlobal + Threads + Wait + Sync + Eprint + Files,
    S: Source + Drop,
    W: io::Write + Send + Drop,
{
    if asked.view == View::Why {
        return show_run(rt, words, source, origin, writer);
    }
    let alloc = rt.alloc();
    let mut source = source;
    let report = run_process(rt, alloc, Ok(words), &mut source, StdSink::new(io::sink()));
    let begun = report.run.is_some();
    let page = told(alloc, asked.view, &report, source.bytes(), origin);
    let verdict = report.status.line();
    let number = report.into_number();
    let Ok(page) = page else {
        return write(writer, b"no memory\n", 9);
    };
    if let Some(file) = &asked.same {
        return compare(rt, file.as_str(), &page, writer);
    }
    let number = write(writer, &page, number);
    if begun && asked.view.is_input() {
        let _ = rt.eprint(verdict.as_str());
    }
    number
}

/// Writes what `ame` writes, and then why. If a text is refused at a place, the first line has that place too.
fn show_run<R, S, W>(
    rt: &R,
    words: Vec<String>,
    source: KeptSource<S>,
    origin: Origin<'_>,
    writer: W,
) -> u8
where
    R: AllocGlobal + Threads + Wait + Sync,
    S: Source + Drop,
    W: io::Write + Send + Drop,
{
    let alloc = rt.alloc();
    let mut source = source;
    let sink = Late::new(alloc, StdSink::new(writer));
    let mut report = run_process(rt, alloc, Ok(words), &mut source, sink);
    let page = explain(alloc, &report, source.bytes(), origin);
    let is_placed = place_of(&report.status).is_some();
    let shown = end_run(&mut report.sink, page, is_placed);
    let number = report.into_number();
    match shown {
        Ok(()) => number,
        Err(_) => 7,
    }
}

/// Writes the verdict line, unless what is explained begins with it, and then that.
fn end_run<K: Sink>(
    sink: &mut Late<K>,
    page: Result<Vec<u8>, NoMemory>,
    is_placed: bool,
) -> Result<(), WriteFault> {
    let Ok(page) = page else {
        return sink.release();
    };
    if is_placed {
        return sink.pass(&page);
    }
    sink.release()?;
    let _ = sink.pass(&page);
    Ok(())
}

/// Returns what is written of a run.
fn told<K>(
    alloc: Global,
    view: View,
    report: &Report<K, StandardDevice>,
    input: &[u8],
    origin: Origin<'_>,
) -> Result<Vec<u8>, NoMemory>
    requires small { vec_len report.now.text ≤ max_text }
{
    let verdict = report.status.line();
    let Some(run) = &report.run else {
        let why = explain(alloc, report, input, origin)?;
        if place_of(&report.status).is_some() {
            return Ok(why);
        }
        let mut page = Vec::from_slice(alloc, verdict.as_str().as_bytes())?;
        page.extend_from_slice(&why)?;
        return Ok(page);
    };
    let mut page = page_of(alloc, view, report, run, origin.name)?;
    if !view.is_input() {
        page.extend_from_slice(verdict.as_str().as_bytes())?;
    }
    Ok(page)
}

/// Writes whether a file has exactly these bytes, and returns 0 if it has.
fn compare<R, W>(rt: &R, file: &str, page: &[u8], writer: W) -> u8
where
    R: AllocGlobal + Files,
    W: io::Write + Drop,
{
    match fs::open(rt, file) {
        Ok(file) => match read_all(rt.alloc(), &mut StdSource::new(file)) {
            Ok(bytes) if bytes.as_slice() == page => write(writer, b"same\n", 0),
            _ => write(writer, b"differs\n", 1),
        },
        Err(_) => write(writer, b"differs\n", 1),
    }
}

/// Writes bytes, and returns the status: this number, unless the sink fails.
pub fn write<W: io::Write + Drop>(writer: W, bytes: &[u8], number: u8) -> u8 {
    match write_all(&mut StdSink::new(writer), bytes) {
        Ok(()) => number,
        Err(_) => 7,
    }
}
