//! Runs the cases of the files and the folders that are named, and reports of each whether all came as it must. An example that is named is
//! run, and its output is printed.
#![tactic(auto)]

mod agrees;
mod alone;
mod call;
mod case;
mod device;
mod dropped;
mod embedded;
mod ends;
mod example;
mod failing;
mod fault;
mod field;
mod files;
mod held;
mod item;
mod judge;
mod left;
mod own_ends;
mod picks;
mod replay;
mod tally;
mod text;
mod told;

use crate::alone::commands_are_as_words;
use crate::case::{Case, cases_of};
use crate::dropped::devices_are_dropped_once;
use crate::embedded::run_embedded;
use crate::example::run_example;
use crate::fault::Fault;
use crate::files::{files_of, text_of};
use crate::held::{two_are_inside, two_are_inside_once_led};
use crate::judge::is_as_told;
use crate::tally::Tally;
use std::env::{self, Env};
use std::process::ExitCode;
use std::rt::Files;
use std::sync::Wait;
use std::thread::Threads;

/// Runs a case, and prints how it came out.
fn run_case<R>(rt: &R, file: &str, case: &Case) -> Result<bool, Fault>
where
    R: Print + AllocGlobal + Threads + Wait + Sync,
{
    let is_right = is_as_told(rt, case)?;
    let outcome = if !is_right {
        "differs"
    } else if case.is_replayed() {
        "ok, replayed"
    } else {
        "ok"
    };
    println!(rt; "{file}: {}: {outcome}", case.name)?;
    Ok(is_right)
}

/// Runs the cases of a file.
fn run_file<R>(rt: &R, file: &str) -> Result<Tally, Fault>
where
    R: Files + Print + AllocGlobal + Threads + Wait + Sync,
{
    let mut tally = Tally::new();
    let text = text_of(rt, file)?;
    for case in &cases_of(rt.alloc(), text.as_str())? {
        tally.add(Tally::of(run_case(rt, file, case)?));
    }
    Ok(tally)
}

/// Reports what is wrong with a file or a folder.
fn tell<R: Print>(rt: &R, name: &str, fault: Fault) -> Result<Tally, Fault> {
    match fault {
        Fault::Line(line, why) => println!(rt; "{name}:{line}: {why}")?,
        Fault::Ends => println!(rt; "{name}: can't be read")?,
        Fault::NoMemory => println!(rt; "{name}: there is too little memory")?,
    }
    Ok(Tally::of(false))
}

/// Runs the cases of a file, or of the files in a folder.
fn run_files<R>(rt: &R, name: &str) -> Result<Tally, Fault>
where
    R: Files + Print + AllocGlobal + Threads + Wait + Sync + Clone + Drop,
{
    let files = match files_of(rt, name) {
        Ok(files) => files,
        Err(fault) => return tell(rt, name, fault),
    };
    let mut tally = Tally::new();
    for file in &files {
        tally.add(match run_file(rt, file.as_str()) {
            Ok(tally) => tally,
            Err(fault) => tell(rt, file.as_str(), fault)?,
        });
    }
    Ok(tally)
}

/// Prints how a check came out that is no file.
fn run_check<R: Print>(rt: &R, name: &str, is_right: bool) -> Result<Tally, Fault> {
    let outcome = if is_right { "ok" } else { "differs" };
    println!(rt; "{name}: {outcome}")?;
    Ok(Tally::of(is_right))
}

/// Does what a word asks for. A number sets the number of workers for the examples after it.
fn run_word<R>(rt: &R, word: &str, workers: &mut u32) -> Result<Tally, Fault>
where
    R: Files + Print + AllocGlobal + Threads + Wait + Sync + Clone + Drop,
{
    if let Ok(number) = word.parse::<u32>() {
        *workers = number;
        return Ok(Tally::new());
    }
    if word.ends_with(".ame") {
        run_example(rt, word, *workers)?;
        return Ok(Tally::new());
    }
    match word {
        "held" => run_check(rt, word, two_are_inside(rt)?),
        "led" => run_check(rt, word, two_are_inside_once_led(rt)?),
        "alone" => run_check(rt, word, commands_are_as_words(rt)?),
        "dropped" => run_check(rt, word, devices_are_dropped_once(rt)?),
        "embedded" => {
            run_embedded(rt)?;
            Ok(Tally::new())
        }
        _ => run_files(rt, word),
    }
}

fn run<R>(rt: &R) -> Result<Tally, Fault>
where
    R: Files + Env + Print + AllocGlobal + Threads + Wait + Sync + Clone + Drop,
{
    let (mut tally, mut workers) = (Tally::new(), 1);
    for word in env::args(rt)?.skip(1) {
        tally.add(run_word(rt, word.as_str(), &mut workers)?);
    }
    Ok(tally)
}

fn main(rt: HostRuntime) -> Result<ExitCode, Fault> {
    let tally = run(&rt)?;
    println!(rt; "{} cases are ok, {} are not", tally.right, tally.wrong)?;
    if tally.wrong == 0 {
        Ok(ExitCode::SUCCESS)
    } else {
        Ok(ExitCode::FAILURE)
    }
}
