//! A seat visits a member that is inside `unprotected`.

ghost use Rattle.std.specs.Prelude.{◌≡◌, ◌≤◌, ◌+◌, ◌<◌, ◌^◌, ℕ, Some, Ok, OnErr, true, false, length, vec_len};
ghost use Rattle.ame_machine.specs.declared.wants.Wants.{Wants};
ghost use Rattle.ame_shell.specs.Ready.{IsReady};
ghost use Rattle.ame_protocol.specs.declared.types.Attempt.{Attempt};
ghost use Rattle.ame_protocol.specs.declared.types.Task.{Task};
ghost use Rattle.ame_engine.specs.Visiting.{IsVisiting, HasComeHome, HasBeenRefused};
ghost use Rattle.ame_engine.specs.declared.answer.Freed.{Freed};
ghost use Rattle.ame_protocol.specs.Engine.Parts.{task_at};
ghost use Rattle.ame_shell.specs.Work.{CanUndo, HasTurn};
ghost use Rattle.ame_shell.specs.Asked.{LacksWhereDue};
ghost use Rattle.ame_shell.specs.Outcomes.{is_home, IsDone};

use crate::events::give_up;
use crate::io::Io;
use crate::work::Outcome;
use ame_device::Device;
use ame_engine::{Engine, Freed};
use ame_io::Sink;
use ame_machine::Runner;
use ame_term::NoMemory;

/// Shows that a list's length is the number of its items.
fn has_its_length<D>(devices: &Vec<D>)
    ensures { vec_len devices.now ≡ length devices.now.items }
{
    let _items = devices.as_slice();
}

/// Ends the visit of a seat, with the devices of its run.
fn visit<M: Runner, K: Sink, D: Device>(
    engine: &mut Engine<M>,
    seat: u32,
    machine: M,
    io: &mut Io<K, D>,
) -> Result<Freed, NoMemory>
where
    M::Code: Drop,
    requires turn { HasTurn M.meaning engine.old seat machine }
    requires visits { IsVisiting (M.meaning.stage engine.old.code machine) }
    requires steps { (M.meaning.stage engine.old.code machine).steps + 1 < 2 ^ 64 }
    requires devices { (M.meaning.signature engine.old.code).devices ≤ length io.old.ends.told }
    ensures home { (attempt : Attempt) → task_at engine.old.tasks seat ≡ Task.Free attempt → result ≡ Ok Freed.Home
        → HasComeHome M.meaning seat attempt.tried.number (M.meaning.stage engine.old.code machine) io.old.ends.told io.new.ends.told engine.old engine.new }
    ensures refused { (attempt : Attempt) (k : ℕ) → task_at engine.old.tasks seat ≡ Task.Free attempt → result ≡ Ok (Freed.DeviceFault k)
        → HasBeenRefused M.meaning seat attempt.tried.number k (M.meaning.stage engine.old.code machine) io.old.ends.told io.new.ends.told engine.old engine.new }
    ensures err { OnErr result (engine.new ≡ engine.old) }
    ensures quiet { OnErr result (io.new.ends.told ≡ io.old.ends.told) }
    ensures alone { io.new.ends ≡ record io.old.ends { told = io.new.ends.told } }
{
    let devices = &mut io.devices;
    has_its_length(devices);
    engine.free(seat, machine, devices)
}

/// Visits the member of a seat that is inside: it makes the step that it wants, if it wants one, and goes home.
pub(crate) fn free_on<M: Runner, K: Sink, D: Device>(
    engine: &mut Engine<M>,
    seat: u32,
    machine: M,
    io: &mut Io<K, D>,
) -> Outcome
where
    M::Code: Drop,
    requires turn { HasTurn M.meaning engine.old seat machine }
    requires inside { (M.meaning.stage engine.old.code machine).inside ≡ true }
    requires ready { IsReady engine.old.limits.slice (M.meaning.stage engine.old.code machine) }
    requires short { (M.meaning.stage engine.old.code machine).want ≡ Some Wants.Tall → ⊥ }
    requires steps { (M.meaning.stage engine.old.code machine).steps + 1 < 2 ^ 64 }
    requires devices { (M.meaning.signature engine.old.code).devices ≤ length io.old.ends.told }
    ensures home { is_home result ≡ true → task_at engine.new.tasks seat ≡ Task.Idle }
    ensures back { is_home result ≡ false → CanUndo engine.new seat }
    ensures done { IsDone M.meaning seat (Some (M.meaning.stage engine.old.code machine)) engine.old engine.new
        io.old.ends.told io.new.ends.told result }
    ensures due { LacksWhereDue engine.old seat (Some (M.meaning.stage engine.old.code machine)) result }
    ensures alone { io.new.ends ≡ record io.old.ends { told = io.new.ends.told } }
{
    engine.stands();
    match visit(engine, seat, machine, io) {
        Ok(Freed::Home) => Outcome::CameHome,
        Ok(Freed::DeviceFault(device)) => Outcome::DeviceFailed(device),
        Err(_) => give_up(engine),
    }
}
