//! Writes how a call ended.

ghost use Rattle.std.specs.Prelude.{◌++◌};
ghost use Rattle.ame_app.specs.Jobs.{Speaks, SpeaksAfter, SpeaksBehind};
ghost use Rattle.ame_app.specs.Verbs.{written_behind};
ghost use Rattle.ame_app.specs.Verdict.{verdict};

use crate::run_result::RunResult;
use crate::status::Status;
use crate::verbs::write_behind;
use ame_cli::Command;
use ame_engine::Stop;
use ame_io::{Sink, write_all, write_line};

/// Writes some bytes and the verdict line of a status. Returns that status, or `WriteFault` if the sink fails.
pub(crate) fn speak_behind<K: Sink>(sink: &mut K, ahead: &[u8], told: Status) -> Status
    ensures { Speaks told (ahead.now ++ verdict told) result (K.written sink.old) (K.faults sink.old) (K.written sink.new) (K.faults sink.new) }
{
    let Ok(()) = write_all(sink, ahead) else {
        return Status::WriteFault;
    };
    match write_line(sink, &told.line()) {
        Ok(()) => told,
        Err(_) => Status::WriteFault,
    }
}

/// Writes the verdict line of a run, and then what its command writes after it.
fn speak_of<K: Sink>(sink: &mut K, told: Status, command: &Command, left: &RunResult) -> Status
    ensures { Speaks told (verdict told ++ written_behind command.now left.now told) result
        (K.written sink.old) (K.faults sink.old) (K.written sink.new) (K.faults sink.new) }
{
    let Ok(()) = write_line(sink, &told.line()) else {
        return Status::WriteFault;
    };
    match write_behind(sink, command, left, &told) {
        Ok(()) => told,
        Err(_) => Status::WriteFault,
    }
}

/// Writes these two after the lines of a run that an engine made. Writes nothing if the sink failed at those lines.
fn speak_on<K: Sink>(
    sink: &mut K,
    stopped: Option<Stop>,
    told: Status,
    command: &Command,
    left: &RunResult,
) -> Status
    ensures { SpeaksBehind stopped told (verdict told ++ written_behind command.now left.now told) result
        (K.written sink.old) (K.faults sink.old) (K.written sink.new) (K.faults sink.new) }
{
    match stopped {
        Some(Stop::WriteFault) => Status::WriteFault,
        _ => speak_of(sink, told, command, left),
    }
}

/// Writes the lines of a weak run, then its verdict line, and then what its command writes after it.
fn speak_weakly<K: Sink>(
    sink: &mut K,
    ahead: &[u8],
    told: Status,
    command: &Command,
    left: &RunResult,
) -> Status
    ensures { Speaks told (ahead.now ++ (verdict told ++ written_behind command.now left.now told)) result
        (K.written sink.old) (K.faults sink.old) (K.written sink.new) (K.faults sink.new) }
{
    let Ok(()) = write_all(sink, ahead) else {
        return Status::WriteFault;
    };
    speak_of(sink, told, command, left)
}

/// Writes how a run ended. The bytes `ahead` are the lines of a weak run; an engine's lines were written as it ran.
pub(crate) fn speak_after<K: Sink>(
    sink: &mut K,
    ahead: &[u8],
    told: Status,
    command: &Command,
    left: &RunResult,
) -> Status
    ensures { SpeaksAfter left.now ahead.now told (verdict told ++ written_behind command.now left.now told) result
        (K.written sink.old) (K.faults sink.old) (K.written sink.new) (K.faults sink.new) }
{
    match left {
        RunResult::Engine(ended, _) => speak_on(sink, ended.stopped(), told, command, left),
        RunResult::Weak(_) => speak_weakly(sink, ahead, told, command, left),
    }
}
