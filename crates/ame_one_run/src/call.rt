//! The top call, with what it promises by the rules alone.

ghost use Rattle.std.specs.Prelude.{◌≤◌, [], IfSome, map, string_bytes, vec_len};
ghost use Rattle.ame_io.specs.Reads.{IsReadWhole};
ghost use Rattle.ame_types.specs.Limits.{max_devices};
ghost use Rattle.ame_cli.specs.declared.command.Command.{Command};
ghost use Rattle.ame_cli.specs.Grammar.{SpellsCommand};
ghost use Rattle.ame_shell.specs.Ends.{ends_of};
ghost use Rattle.ame_app.specs.Answered.{IsPromised};
ghost use Rattle.ame_app.specs.Calls.{what_is_given, call_of};
ghost use Rattle.ame_app.specs.Reported.{reported};
ghost use Rattle.ame_one_run.specs.OneRun.{AskForRun, IsOneRun};
ghost use Rattle.ame_one_run.specs.Commands.{BeginsAnew, IsRunOf};

use crate::theorems::{each_run, one_run};
use ame_app::{Report, run_words_over};
use ame_device::Device;
use ame_io::{Sink, Source};
use ame_worker::Gate;
use std::alloc::Global;
use std::sync::Wait;
use std::thread::Threads;

/// Runs the program of the source, or does what another command asks for, as `run_words_over` of `ame_app` does.
pub fn run_by_the_rules<R, S, K, D, G>(
    rt: &R,
    alloc: Global,
    words: &[String],
    source: &mut S,
    sink: K,
    devices: Vec<D>,
    gate: &G,
) -> Report<K, D>
where
    R: Threads + Wait + Sync,
    S: Source,
    K: Sink + Send + Drop,
    D: Device + Send,
    G: Gate + Sync,
    requires few { vec_len devices ≤ max_devices }
    ensures one_run { AskForRun (map string_bytes words.now) → IfSome result.run (λ _.
        IsReadWhole (S.left source.old) (S.left source.new) result.text.items × IsOneRun result.text.items (vec_len devices) []
        (ends_of K.written K.faults D.device_told sink devices.items) (ends_of K.written K.faults D.device_told result.sink result.devices.items)) }
    ensures each_run { (command : Command) → SpellsCommand (map string_bytes words.now) command → BeginsAnew command → IfSome (reported result).run (λ run.
        IsRunOf command (call_of (map string_bytes words.now)
        (what_is_given S.left S.faults source.old) (what_is_given S.left S.faults source.new) (vec_len devices))
        (reported result) run
        (ends_of K.written K.faults D.device_told sink devices.items)
        (ends_of K.written K.faults D.device_told result.sink result.devices.items)) }
    ensures answered { IsPromised (call_of (map string_bytes words.now)
        (what_is_given S.left S.faults source.old) (what_is_given S.left S.faults source.new) (vec_len devices)) (reported result)
        (ends_of K.written K.faults D.device_told sink devices.items)
        (ends_of K.written K.faults D.device_told result.sink result.devices.items) }
{
    one_run();
    each_run();
    run_words_over(rt, alloc, words, source, sink, devices, gate)
}
