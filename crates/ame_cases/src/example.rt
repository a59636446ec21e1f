//! An example that is run as `ame` runs it.

use ame_app::run_process;
use ame_io::{StdSink, StdSource};
use std::alloc::AllocError;
use std::rt::Files;
use std::sync::Wait;
use std::thread::Threads;
use std::{fs, io};

/// Returns the words with which an example is run. The turns are few, so that a loop without an end stops soon.
fn words<R: AllocGlobal>(rt: &R, workers: u32) -> Result<Vec<String>, AllocError> {
    let mut words = Vec::new(rt.alloc());
    for word in ["run", "--turns", "10000", "--workers"] {
        words.push(String::from_str(rt.alloc(), word)?)?;
    }
    words.push(format!(in rt.alloc(); "{workers}")?)?;
    Ok(words)
}

/// Prints the name of a file, the lines of the run of its text, and the status of the process.
pub fn run_example<R>(rt: &R, file: &str, workers: u32) -> io::Result<()>
where
    R: Files + Print + AllocGlobal + Threads + Wait + Sync,
{
    println!(rt; "{file}:")?;
    let mut source = StdSource::new(fs::open(rt, file)?);
    let sink = StdSink::new(io::writer(rt));
    let report = run_process(rt, rt.alloc(), Ok(words(rt, workers)?), &mut source, sink);
    println!(rt; "status {}", report.into_number())
}
