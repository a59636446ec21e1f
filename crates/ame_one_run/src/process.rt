//! A process, with what it promises by the rules alone.

ghost use Rattle.std.specs.Prelude.{◌≡◌, ◌≤◌, [], IfOk, IfErr, IfSome, None, map, string_bytes, vec_len};
ghost use Rattle.ame_io.specs.Reads.{IsReadWhole};
ghost use Rattle.ame_cli.specs.declared.command.Command.{Command};
ghost use Rattle.ame_cli.specs.Grammar.{SpellsCommand};
ghost use Rattle.ame_shell.specs.Ends.{ends_of};
ghost use Rattle.ame_app.specs.declared.parts.ReportPart.{ReportPart};
ghost use Rattle.ame_app.specs.Answered.{IsPromised};
ghost use Rattle.ame_app.specs.Calls.{what_is_given, call_of};
ghost use Rattle.ame_app.specs.Headline.{IsToldAlone};
ghost use Rattle.ame_app.specs.Reported.{reported};
ghost use Rattle.ame_app.specs.Standard.{told_by, with_new, ComeBack, CountAndAddIfAble};
ghost use Rattle.ame_app.specs.Verdict.{unread};
ghost use Rattle.ame_one_run.specs.OneRun.{AskForRun, IsOneRun};
ghost use Rattle.ame_one_run.specs.Commands.{BeginsAnew, IsRunOf};

use crate::theorems::{each_run, one_run};
use ame_app::{Report, StandardDevice, WordsFault};
use ame_io::{READ_LIMIT, Sink, Source};
use std::alloc::Global;
use std::sync::Wait;
use std::thread::Threads;

/// Does what the words of a process ask for, as `run_process` of `ame_app` does: device 0 counts its calls, and device 1 adds up its
/// arguments.
pub fn run_process<R, S, K>(
    rt: &R,
    alloc: Global,
    words: Result<Vec<String>, WordsFault>,
    source: &mut S,
    sink: K,
) -> Report<K, StandardDevice>
where
    R: Threads + Wait + Sync,
    S: Source,
    K: Sink + Send + Drop,
    ensures one_run { IfOk words (λ ws. AskForRun (map string_bytes ws.items) → IfSome result.run (λ _.
        IsReadWhole (S.left source.old) (S.left source.new) result.text.items × IsOneRun result.text.items 2 []
        (with_new (vec_len result.devices) (K.written sink) (K.faults sink))
        (ends_of K.written K.faults told_by result.sink result.devices.items))) }
    ensures each_run { IfOk words (λ ws. (command : Command) → SpellsCommand (map string_bytes ws.items) command → BeginsAnew command
        → IfSome (reported result).run (λ run. IsRunOf command (call_of (map string_bytes ws.items)
        (what_is_given S.left S.faults source.old) (what_is_given S.left S.faults source.new) 2) (reported result) run
        (with_new (vec_len result.devices) (K.written sink) (K.faults sink))
        (ends_of K.written K.faults told_by result.sink result.devices.items))) }
    ensures answered { IfOk words (λ ws. IsPromised (call_of (map string_bytes ws.items)
        (what_is_given S.left S.faults source.old) (what_is_given S.left S.faults source.new) 2)
        (reported result) (with_new (vec_len result.devices) (K.written sink) (K.faults sink))
        (ends_of K.written K.faults told_by result.sink result.devices.items)) }
    ensures two { IfSome result.run (λ _. vec_len result.devices ≡ 2) }
    ensures devices { IfOk words (λ _. ComeBack (vec_len result.devices) (reported result)) }
    ensures kinds { IfSome (reported result).run (λ run. CountAndAddIfAble run result.devices.items) }
    ensures unread { IfErr words (λ fault. (result.command ≡ None) × IsToldAlone [] ReportPart.Nothing (unread fault) (reported result)
        (ends_of K.written K.faults told_by sink [])
        (ends_of K.written K.faults told_by result.sink result.devices.items)) }
    ensures small { vec_len result.text ≤ READ_LIMIT }
{
    one_run();
    each_run();
    ame_app::run_process(rt, alloc, words, source, sink)
}
