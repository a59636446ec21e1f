//! A process: its words, and its devices.

ghost use Rattle.std.specs.Prelude.{◌≡◌, ◌≤◌, [], IfOk, IfErr, IfSome, Some, None, map, string_bytes, vec_len};
ghost use Rattle.ame_device.specs.Calls.{all_told};
ghost use Rattle.ame_shell.specs.Ends.{ends_of};
ghost use Rattle.ame_app.specs.Calls.{what_is_given, call_of};
ghost use Rattle.ame_app.specs.Answered.{IsPromised};
ghost use Rattle.ame_app.specs.Headline.{IsToldAlone};
ghost use Rattle.ame_app.specs.Reported.{reported};
ghost use Rattle.ame_app.specs.declared.parts.ReportPart.{ReportPart};
ghost use Rattle.ame_app.specs.Standard.{told_by, two_new, with_new, ComeBack, CountAndAddIfAble};
ghost use Rattle.ame_app.specs.Verdict.{unread};

use crate::call::run_words_over;
use crate::fault::WordsFault;
use crate::refusal::{Refusal, turn_away};
use crate::report::Report;
use crate::standard::StandardDevice;
use crate::status::Status;
use ame_cli::spells_one_command;
use ame_device::{Adder, Counter};
use ame_io::{READ_LIMIT, Sink, Source};
use ame_worker::NoGate;
use std::alloc::{Alloc, AllocError, Global};
use std::env::{self, Env};
use std::io::ErrorKind;
use std::sync::Wait;
use std::thread::Threads;

/// Returns the words after the program's name. A word that isn't text is an error.
pub fn process_words<R: Env + Alloc<A = Global>>(rt: &R) -> Result<Vec<String>, WordsFault> {
    let args = match env::args(rt) {
        Ok(args) => args,
        Err(error) if error.kind() == ErrorKind::OutOfMemory => return Err(WordsFault::NoMemory),
        Err(_) => return Err(WordsFault::NotText),
    };
    match args.skip(1).collect(rt.alloc()) {
        Ok(words) => Ok(words),
        Err(_) => Err(WordsFault::NoMemory),
    }
}

/// Does what the words of a process ask for. Device 0 counts its calls, and device 1 adds up what it is called with.
pub fn run_process<R, S, K>(
    rt: &R,
    alloc: Global,
    words: Result<Vec<String>, WordsFault>,
    source: &mut S,
    sink: K,
) -> Report<K, StandardDevice>
where
    R: Threads + Wait + Sync,
    S: Source,
    K: Sink + Send + Drop,
    ensures answered { IfOk words (λ ws. IsPromised (call_of (map string_bytes ws.items)
        (what_is_given S.left S.faults source.old) (what_is_given S.left S.faults source.new) 2)
        (reported result) (with_new (vec_len result.devices) (K.written sink) (K.faults sink))
        (ends_of K.written K.faults told_by result.sink result.devices.items)) }
    ensures two { IfSome result.run (λ _. vec_len result.devices ≡ 2) }
    ensures devices { IfOk words (λ _. ComeBack (vec_len result.devices) (reported result)) }
    ensures kinds { IfSome (reported result).run (λ run. CountAndAddIfAble run result.devices.items) }
    ensures unread { IfErr words (λ fault. (result.command ≡ None) × IsToldAlone [] ReportPart.Nothing (unread fault) (reported result)
        (ends_of K.written K.faults told_by sink [])
        (ends_of K.written K.faults told_by result.sink result.devices.items)) }
    ensures small { vec_len result.text ≤ READ_LIMIT }
{
    spells_one_command();
    let words = match words {
        Ok(words) => words,
        Err(fault) => {
            let refusal = Refusal {
                command: None,
                told: unread(fault),
                text: Vec::new(alloc),
            };
            return turn_away(refusal, sink, Vec::new(alloc));
        }
    };
    match standard_devices(alloc) {
        Ok(devices) => run_words_over(rt, alloc, &words, source, sink, devices, &NoGate),
        Err(_) => {
            let refusal = Refusal {
                command: None,
                told: Status::NoMemory,
                text: Vec::new(alloc),
            };
            turn_away(refusal, sink, Vec::new(alloc))
        }
    }
}

/// Makes the two devices of a process.
pub fn standard_devices(alloc: Global) -> Result<Vec<StandardDevice>, AllocError>
    ensures { IfOk result (λ devices. all_told told_by devices.items ≡ two_new) }
{
    let mut devices = Vec::new(alloc);
    devices.push(StandardDevice::Counter(Counter::new(alloc)))?;
    devices.push(StandardDevice::Adder(Adder::new(alloc)))?;
    Ok(devices)
}

/// Returns the status of a call whose words can't be read.
fn unread(fault: WordsFault) -> Status
    ensures { result ≡ unread fault }
{
    match fault {
        WordsFault::NotText => Status::Usage,
        WordsFault::NoMemory => Status::NoMemory,
    }
}
