//! `sim`: a run on one thread, under a chooser.

ghost use Rattle.std.specs.Prelude.{◌≡◌, ◌≤◌, ◌<◌, All, IfOk, IfErr, OnOk, OnErr, true, false, [], length, vec_len};
ghost use Rattle.std.specs.Arc.{arc_value};
ghost use Rattle.std.specs.Io.KnownBytes.{Appends};
ghost use Rattle.ame_cli.specs.Ranges.{AreInRange};
ghost use Rattle.ame_io.specs.Counts.{HasRisen};
ghost use Rattle.ame_io.specs.Writes.{AppendsFront};
ghost use Rattle.ame_app.specs.Verbs.Sim.{IsPicked, mades_in, seats_picked, schedule_behind};
ghost use Rattle.ame_app.specs.declared.run_result.RunResult.{RunResult as Ending};
ghost use Rattle.ame_app.specs.RunResult.{end_in};
ghost use Rattle.ame_app.specs.Headline.{limits_of};
ghost use Rattle.ame_app.specs.Jobs.{IsOverWith};
ghost use Rattle.ame_sim.specs.Picks.{picks_of};
ghost use Rattle.ame_sim.specs.Questions.{seats_of};
ghost use Rattle.ame_sim.specs.Schedule.{schedule_line, signs};

use crate::limits::limits_of;
use crate::lists::Mades;
use crate::run_result::{Extra, RunResult};
use crate::status::Status;
use crate::verbs::FinishedRun;
use ame_cli::Options;
use ame_code::Code;
use ame_device::Device;
use ame_eval::Fragment;
use ame_io::{Sink, WriteFault, write_all};
use ame_shell::Io;
use ame_sim::{Chooser, Picked, Played, run_by_chooser, sign_of};
use arrayvec::ArrayVec;
use std::alloc::Global;
use std::sync::Arc;

/// The number of signs that are written at a time.
const PIECE: usize = 64;

/// Runs code on one thread, by as many seats as the options have workers.
pub(crate) fn run<K, D, H>(
    alloc: Global,
    code: &Arc<Code>,
    options: Options,
    io: Io<K, D>,
    chooser: &mut H,
) -> Result<FinishedRun<K, D>, Io<K, D>>
where
    K: Sink + Drop,
    D: Device,
    H: Chooser,
    requires ranges { AreInRange options }
    requires devices { (arc_value code.now).accepted.devices ≡ length io.ends.told }
    ensures over { IfOk result (λ made. IsOverWith options (arc_value code.now) io.ends (end_in made.left) made.io.ends) }
    ensures own { IfOk result (λ made. IsPicked (H.strategy chooser.old) (arc_value code.now) (limits_of options) io.ends made.left) }
    ensures back { IfErr result (λ back. back ≡ io) }
{
    let Ok(code) = Arc::try_clone(code) else {
        return Err(io);
    };
    let limits = limits_of(options);
    match run_by_chooser::<Fragment, K, D, H>(alloc, code, limits, io, chooser) {
        Ok(played) => {
            let Played { left, mades } = played;
            Ok(FinishedRun {
                left: RunResult::Engine(left.ended, Extra::Picked(Mades::of_run(mades))),
                ahead: Vec::new(alloc),
                io: left.io,
            })
        }
        Err(back) => Err(back),
    }
}

/// Returns whether a schedule stands after the verdict line of a status.
fn has_schedule(told: &Status) -> bool
    ensures stands { result ≡ true → (left : Ending) → schedule_behind left told.now ≡ schedule_line (seats_picked left) }
    ensures none { result ≡ false → (left : Ending) → schedule_behind left told.now ≡ [] }
{
    !matches!(told, Status::NoMemory | Status::WriteFault)
}

/// Returns the picks of a run, if it has any.
fn picks_in(left: &RunResult) -> &[Picked]
    ensures value { result.now ≡ picks_of (mades_in left.now) }
    ensures low { All (λ pick. pick.seat < 32) result.now }
{
    match left {
        RunResult::Engine(_, Extra::Picked(mades)) => mades.picks(),
        RunResult::Engine(_, Extra::Nothing | Extra::Resumed(_)) | RunResult::Weak(_) => &[],
    }
}

/// Writes the schedule of a run after its verdict line. Takes no memory.
pub(crate) fn write_behind<K: Sink>(
    sink: &mut K,
    left: &RunResult,
    told: &Status,
) -> Result<(), WriteFault>
    ensures whole { OnOk result (Appends (K.written sink.old) (K.written sink.new) (schedule_behind left.now told.now)) }
    ensures stayed { OnOk result (K.faults sink.new ≡ K.faults sink.old) }
    ensures front { OnErr result (AppendsFront (K.written sink.old) (K.written sink.new) (schedule_behind left.now told.now)) }
    ensures risen { OnErr result (HasRisen (K.faults sink.old) (K.faults sink.new)) }
{
    if !has_schedule(told) {
        return Ok(());
    }
    write_schedule(sink, picks_in(left))
}

/// Writes the line of a schedule.
fn write_schedule<K: Sink>(sink: &mut K, picks: &[Picked]) -> Result<(), WriteFault>
    requires seats { All (λ pick. pick.seat < 32) picks.now }
    ensures whole { OnOk result (Appends (K.written sink.old) (K.written sink.new) (schedule_line (seats_of picks.now))) }
    ensures stayed { OnOk result (K.faults sink.new ≡ K.faults sink.old) }
    ensures front { OnErr result (AppendsFront (K.written sink.old) (K.written sink.new) (schedule_line (seats_of picks.now))) }
    ensures risen { OnErr result (HasRisen (K.faults sink.old) (K.faults sink.new)) }
{
    write_all(sink, b"schedule ")?;
    write_signs(sink, picks)?;
    write_all(sink, b"\n")
}

/// Writes a sign for each pick, some at a time.
fn write_signs<K: Sink>(sink: &mut K, picks: &[Picked]) -> Result<(), WriteFault>
    requires seats { All (λ pick. pick.seat < 32) picks.now }
    ensures whole { OnOk result (Appends (K.written sink.old) (K.written sink.new) (signs (seats_of picks.now))) }
    ensures stayed { OnOk result (K.faults sink.new ≡ K.faults sink.old) }
    ensures front { OnErr result (AppendsFront (K.written sink.old) (K.written sink.new) (signs (seats_of picks.now))) }
    ensures risen { OnErr result (HasRisen (K.faults sink.old) (K.faults sink.new)) }
{
    let mut gone = 0;
    'pieces: while gone < picks.len() {
        let next = picks.len().min(gone + PIECE);
        let piece = signs_of(&picks[gone..next]);
        write_all(sink, piece.as_slice())?;
        gone = next;
    }
    Ok(())
}

/// Returns the signs of at most 64 picks.
fn signs_of(picks: &[Picked]) -> ArrayVec<u8, PIECE>
    requires seats { All (λ pick. pick.seat < 32) picks.now }
    requires few { length picks.now ≤ PIECE }
    ensures { result.items ≡ signs (seats_of picks.now) }
{
    let mut signs = ArrayVec::new();
    for pick in picks {
        signs.push(sign_of(u32::from(pick.seat)));
    }
    signs
}
