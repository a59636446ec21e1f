//! The top call: from words and a program's bytes to its lines.

ghost use Rattle.std.specs.Prelude.{◌≡◌, ◌≤◌, IfSome, None, Some, [], length, map, string_bytes, vec_len};
ghost use Rattle.std.specs.Arc.{arc_value};
ghost use Rattle.ame_types.specs.Limits.{max_devices};
ghost use Rattle.ame_cli.specs.Ranges.{IsInRange};
ghost use Rattle.ame_shell.specs.Ends.{ends_of};
ghost use Rattle.ame_app.specs.Answered.{IsPromised};
ghost use Rattle.ame_app.specs.Calls.{Call, what_is_given, call_of};
ghost use Rattle.ame_app.specs.Headline.{Headline, IsToldAlone};
ghost use Rattle.ame_app.specs.RunResult.{end_in};
ghost use Rattle.ame_app.specs.Reported.{reported};
ghost use Rattle.ame_app.specs.Jobs.{IsJobOf, IsOpened, IsLeft};
ghost use Rattle.ame_app.specs.declared.parts.ReportPart.{ReportPart};
ghost use Rattle.ame_app.specs.declared.status.Status.{Status};

use crate::answer::{conclude, leave, leave_unbegun, opened};
use crate::asked::{Asked, asked_by_words};
use crate::refusal::turn_away;
use crate::report::Report;
use crate::verbs::make;
use ame_cli::spells_one_command;
use ame_device::Device;
use ame_engine::Engine;
use ame_eval::Fragment;
use ame_io::{Sink, Source};
use ame_shell::Io;
use ame_worker::Gate;
use std::alloc::Global;
use std::sync::Wait;
use std::thread::Threads;

/// Carries out the command that the words spell. A run is made by as many workers as they say, and prints its integers, a line each.
/// The verdict line follows. Each worker passes the gate after each of its turns. The report has the sink and the devices, with what
/// was written and called.
pub fn run_words_over<R, S, K, D, G>(
    rt: &R,
    alloc: Global,
    words: &[String],
    source: &mut S,
    sink: K,
    devices: Vec<D>,
    gate: &G,
) -> Report<K, D>
where
    R: Threads + Wait + Sync,
    S: Source,
    K: Sink + Send + Drop,
    D: Device + Send,
    G: Gate + Sync,
    requires few { vec_len devices ≤ max_devices }
    ensures answered { IsPromised (call_of (map string_bytes words.now)
        (what_is_given S.left S.faults source.old) (what_is_given S.left S.faults source.new) (vec_len devices)) (reported result)
        (ends_of K.written K.faults D.device_told sink devices.items)
        (ends_of K.written K.faults D.device_told result.sink result.devices.items) }
{
    spells_one_command();
    match asked_by_words(alloc, words, source, devices.len() as u32) {
        Ok(asked) => answer(rt, alloc, asked, Io::new(sink, devices), gate),
        Err(refusal) => turn_away(refusal, sink, devices),
    }
}

/// Calls `run_words_over` with boxed devices.
pub fn run_words<R, S, K, G>(
    rt: &R,
    alloc: Global,
    words: &[String],
    source: &mut S,
    sink: K,
    devices: Vec<Box<dyn Device + Send>>,
    gate: &G,
) -> Report<K, Box<dyn Device + Send>>
where
    R: Threads + Wait + Sync,
    S: Source,
    K: Sink + Send + Drop,
    G: Gate + Sync,
    requires few { vec_len devices ≤ max_devices }
    ensures answered { IsPromised (call_of (map string_bytes words.now)
        (what_is_given S.left S.faults source.old) (what_is_given S.left S.faults source.new) (vec_len devices)) (reported result)
        (ends_of K.written K.faults device_told sink devices.items)
        (ends_of K.written K.faults device_told result.sink result.devices.items) }
{
    run_words_over(rt, alloc, words, source, sink, devices, gate)
}

/// Answers without a run where possible; otherwise runs.
fn answer<R, K, D, G>(rt: &R, alloc: Global, asked: Asked, io: Io<K, D>, gate: &G) -> Report<K, D>
where
    R: Threads + Wait + Sync,
    K: Sink + Send + Drop,
    D: Device + Send,
    G: Gate + Sync,
    requires ranges { IsInRange asked.job.command }
    requires devices { (arc_value asked.job.code).accepted.devices ≡ length io.ends.told }
    ensures text { result.text ≡ asked.text }
    ensures ran { IfSome (reported result).run (λ run. (call : Call)
        → IsJobOf call asked.text.items (arc_value asked.job.code) asked.job.command asked.job.front
        → Headline call (reported result) run (end_in run.left) io.ends
        (ends_of K.written K.faults D.device_told result.sink result.devices.items)) }
    ensures turned_away { (reported result).run ≡ None → IsLeft asked.job.command asked.job.front (arc_value asked.job.code) (reported result) io.ends
        (ends_of K.written K.faults D.device_told result.sink result.devices.items) }
{
    match opened(alloc, &asked.job) {
        Ok(engine) => run(rt, alloc, asked, engine, io, gate),
        Err(settled) => leave(asked, settled, io),
    }
}

/// Makes a run, from the engine if there is one, and reports how it ended.
fn run<R, K, D, G>(
    rt: &R,
    alloc: Global,
    asked: Asked,
    engine: Option<Engine<Fragment>>,
    io: Io<K, D>,
    gate: &G,
) -> Report<K, D>
where
    R: Threads + Wait + Sync,
    K: Sink + Send + Drop,
    D: Device + Send,
    G: Gate + Sync,
    requires ranges { IsInRange asked.job.command }
    requires devices { (arc_value asked.job.code).accepted.devices ≡ length io.ends.told }
    requires opened { IfSome engine (IsOpened asked.job.command asked.job.front (arc_value asked.job.code)) }
    ensures text { result.text ≡ asked.text }
    ensures command { result.command ≡ Some asked.job.command }
    ensures ran { IfSome (reported result).run (λ run. (call : Call)
        → IsJobOf call asked.text.items (arc_value asked.job.code) asked.job.command asked.job.front
        → Headline call (reported result) run (end_in run.left) io.ends
        (ends_of K.written K.faults D.device_told result.sink result.devices.items)) }
    ensures turned_away { (reported result).run ≡ None → IsToldAlone [] ReportPart.Nothing Status.NoMemory (reported result) io.ends
        (ends_of K.written K.faults D.device_told result.sink result.devices.items) }
{
    match make(rt, alloc, &asked.job, engine, io, gate) {
        Ok(made) => conclude(asked, made),
        Err(io) => leave_unbegun(asked, io),
    }
}
