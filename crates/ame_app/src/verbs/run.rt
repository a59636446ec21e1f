//! `run`: a source that is the text of a program.

ghost use Rattle.std.specs.Prelude.{◌≡◌, IfOk, IfErr, length};
ghost use Rattle.std.specs.Arc.{arc_value};
ghost use Rattle.ame_cli.specs.Ranges.{AreInRange};
ghost use Rattle.ame_app.specs.Jobs.{IsOverWith};
ghost use Rattle.ame_app.specs.RunResult.{end_in};
ghost use Rattle.ame_app.specs.Verbs.Run.{TakesAll, HasNothing};

use crate::limits::limits_of;
use crate::parts::Front;
use crate::run_result::{Extra, RunResult};
use crate::verbs::{CommandInput, FinishedRun};
use ame_cli::Options;
use ame_code::Code;
use ame_device::Device;
use ame_eval::Fragment;
use ame_io::Sink;
use ame_shell::Io;
use ame_team::run_by_workers;
use ame_worker::Gate;
use std::alloc::Global;
use std::sync::{Arc, Wait};
use std::thread::Threads;

/// Takes all bytes as the text.
pub(crate) fn take(bytes: Vec<u8>) -> CommandInput
    ensures takes { TakesAll bytes.items result.front result.text.items }
    ensures same { result.text ≡ bytes }
{
    CommandInput {
        front: Front::Nothing,
        text: bytes,
    }
}

/// Runs code by as many workers as the options say.
pub(crate) fn run<R, K, D, G>(
    rt: &R,
    alloc: Global,
    code: &Arc<Code>,
    options: Options,
    io: Io<K, D>,
    gate: &G,
) -> Result<FinishedRun<K, D>, Io<K, D>>
where
    R: Threads + Wait + Sync,
    K: Sink + Send + Drop,
    D: Device + Send,
    G: Gate + Sync,
    requires ranges { AreInRange options }
    requires devices { (arc_value code.now).accepted.devices ≡ length io.ends.told }
    ensures over { IfOk result (λ made. IsOverWith options (arc_value code.now) io.ends (end_in made.left) made.io.ends) }
    ensures own { IfOk result (λ made. HasNothing made.left) }
    ensures back { IfErr result (λ back. back ≡ io) }
{
    let Ok(code) = Arc::try_clone(code) else {
        return Err(io);
    };
    let limits = limits_of(options);
    match run_by_workers::<Fragment, K, D, G, R>(rt, alloc, code, limits, io, gate) {
        Ok(left) => Ok(FinishedRun {
            left: RunResult::Engine(left.ended, Extra::Nothing),
            ahead: Vec::new(alloc),
            io: left.io,
        }),
        Err(back) => Err(back),
    }
}
