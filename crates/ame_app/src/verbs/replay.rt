//! `replay`: a source that is a schedule, and the text of the program that it is for.

ghost use Rattle.std.specs.Prelude.{◌≡◌, ◌≤◌, ◌⊎◌, IfOk, IfErr, length, vec_len};
ghost use Rattle.std.specs.Arc.{arc_value};
ghost use Rattle.ame_cli.specs.Ranges.{AreInRange};
ghost use Rattle.ame_app.specs.Headline.{limits_of};
ghost use Rattle.ame_app.specs.Jobs.{IsOverWith};
ghost use Rattle.ame_app.specs.RunResult.{end_in};
ghost use Rattle.ame_app.specs.Verbs.Replay.{TakesScheduled, HasNoSchedule, IsPickedAsListed};
ghost use Rattle.ame_app.specs.declared.status.Status.{Status as Told};

use crate::lists::Picks;
use crate::parts::Front;
use crate::status::Status;
use crate::verbs::{CommandInput, FinishedRun, sim};
use ame_cli::Options;
use ame_code::Code;
use ame_device::Device;
use ame_io::Sink;
use ame_shell::Io;
use ame_sim::{Listed, ScheduleFault, read_schedule};
use std::alloc::Global;
use std::sync::Arc;

/// Splits the bytes into the picks of a schedule and the text after it.
pub(crate) fn take(alloc: Global, bytes: &[u8]) -> Result<CommandInput, Status>
    ensures takes { IfOk result (λ taken. TakesScheduled bytes.now taken.front taken.text.items) }
    ensures small { IfOk result (λ taken. vec_len taken.text ≤ length bytes.now) }
    ensures declines { IfErr result (λ told. HasNoSchedule bytes.now told ⊎ (told ≡ Told.NoMemory)) }
{
    match read_schedule(alloc, bytes) {
        Ok(scheduled) => match Vec::from_slice(alloc, scheduled.program) {
            Ok(text) => Ok(CommandInput {
                front: Front::Schedule(Picks::from_vec(scheduled.picks)),
                text,
            }),
            Err(_) => Err(Status::NoMemory),
        },
        Err(ScheduleFault::BadSchedule) => Err(Status::BadSchedule),
        Err(ScheduleFault::NoMemory) => Err(Status::NoMemory),
    }
}

/// Runs code on one thread, with the picks of the schedule before its text. Begins nothing if there is no schedule.
pub(crate) fn run<K, D>(
    alloc: Global,
    code: &Arc<Code>,
    options: Options,
    front: &Front,
    io: Io<K, D>,
) -> Result<FinishedRun<K, D>, Io<K, D>>
where
    K: Sink + Drop,
    D: Device,
    requires ranges { AreInRange options }
    requires devices { (arc_value code.now).accepted.devices ≡ length io.ends.told }
    ensures over { IfOk result (λ made. IsOverWith options (arc_value code.now) io.ends (end_in made.left) made.io.ends) }
    ensures own { IfOk result (λ made. IsPickedAsListed front.now (arc_value code.now) (limits_of options) io.ends made.left) }
    ensures back { IfErr result (λ back. back ≡ io) }
{
    let Front::Schedule(picks) = front else {
        return Err(io);
    };
    let Ok(seats) = Vec::from_slice(alloc, picks.as_slice()) else {
        return Err(io);
    };
    let mut chooser = Listed::new(seats);
    sim::run(alloc, code, options, io, &mut chooser)
}
