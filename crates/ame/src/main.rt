//! The program: its words are a command, standard input is the text of a program, standard output its lines.
#![tactic(auto)]

use ame_io::{StdSink, StdSource};
use ame_one_run::{exit_of, process_words, run_process};
use std::io;
use std::process::ExitCode;

fn main(rt: HostRuntime) -> ExitCode {
    let (mut source, sink) = (StdSource::new(rt.reader()), StdSink::new(io::writer(&rt)));
    let report = run_process(&rt, rt.alloc(), process_words(&rt), &mut source, sink);
    exit_of(report)
}
