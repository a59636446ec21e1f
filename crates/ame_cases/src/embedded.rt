//! A text of the program's own, run with a source, a sink, a device and a gate of its own.

use crate::own_ends::{Doubler, Page, Text, Watch};
use ame_app::run_words;
use ame_device::Device;
use std::io::{self, Print};
use std::sync::Wait;
use std::thread::Threads;

const PROGRAM: &[u8] = b"(do (async (print 1)) (unprotected (print (call 0 21))))";

/// Runs the text, prints the lines that came to its sink, each after a bar, and the status.
pub fn run_embedded<R>(rt: &R) -> io::Result<()>
where
    R: AllocGlobal + Print + Threads + Wait + Sync,
{
    let alloc = rt.alloc();
    let mut source = Text { left: PROGRAM };
    let page = Page::new(alloc);
    let mut devices: Vec<Box<dyn Device + Send>> = Vec::new(alloc);
    devices.push(Box::new(alloc, Doubler)?)?;
    let words = Vec::new(alloc);
    let report = run_words(rt, alloc, &words, &mut source, page, devices, &Watch);
    for line in report.sink.bytes.as_slice().split(|b| *b == b'\n') {
        println!(rt; "| {}", String::from_utf8_lossy(alloc, line)?)?;
    }
    println!(rt; "status {}", report.status.number())
}
