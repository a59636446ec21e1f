//! The verdict of `ame` on a program, and its reasons; or a view of its run.
#![tactic(auto)]

mod course;
mod events;
mod explain;
mod given;
mod help;
mod kept_source;
mod late;
mod origin;
mod picture;
mod run;
mod view_request;
mod views;
mod weak;

use crate::given::Unopened;
use crate::help::told_alone;
use crate::kept_source::KeptSource;
use crate::origin::Origin;
use crate::run::{show, write};
use crate::view_request::{asked_of, calls_of, file_of};
use ame_app::{exit_with, process_words};
use ame_io::StdSource;
use std::fs;
use std::io::{self, Eprint, Input};
use std::process::ExitCode;
use std::rt::Files;
use std::sync::Wait;
use std::thread::Threads;

/// Does what the words of one call ask for, and returns the status of the process.
fn call<R>(rt: &R, words: Vec<String>) -> u8
where
    R: AllocGlobal + Threads + Wait + Sync + Files + Input + Print + Eprint,
{
    let mut words = words;
    if let Some(page) = told_alone(&words) {
        return write(io::writer(rt), page, 0);
    }
    let asked = asked_of(&mut words);
    match file_of(&mut words) {
        None => {
            let source = KeptSource::new(rt.alloc(), StdSource::new(rt.reader()));
            let origin = Origin::standard();
            show(rt, words, source, asked, origin, io::writer(rt))
        }
        Some(name) => match fs::open(rt, name.as_str()) {
            Ok(file) => {
                let source = KeptSource::new(rt.alloc(), StdSource::new(file));
                let origin = Origin::file(name.as_str());
                show(rt, words, source, asked, origin, io::writer(rt))
            }
            Err(error) => {
                let source = KeptSource::new(rt.alloc(), Unopened::new());
                let fault = format!(in rt.alloc(); "{error}");
                let origin = Origin::unreadable(name.as_str(), &fault);
                show(rt, words, source, asked, origin, io::writer(rt))
            }
        },
    }
}

fn main(rt: HostRuntime) -> ExitCode {
    let Ok(words) = process_words(&rt) else {
        return exit_with(3);
    };
    let Ok(calls) = calls_of(rt.alloc(), words) else {
        return exit_with(9);
    };
    let mut number = 0;
    for words in calls {
        number = call(&rt, words);
    }
    exit_with(number)
}
