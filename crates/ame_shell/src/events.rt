//! Events of any seat, whatever it has in flight: it begins, undoes, or gives up.

ghost use Rattle.std.specs.Prelude.{◌≡◌, ◌<◌, List, Option, None};
ghost use Rattle.ame_device.specs.declared.told.Told.{Told};
ghost use Rattle.ame_machine.specs.MachineView.{MachineView};
ghost use Rattle.ame_protocol.specs.Engine.Parts.{task_at};
ghost use Rattle.ame_protocol.specs.declared.types.Task.{Task};
ghost use Rattle.ame_protocol.specs.declared.stop.Stop.{Stop};
ghost use Rattle.ame_protocol.specs.Event.Event.{Event};
ghost use Rattle.ame_engine.specs.Makes.{Makes};
ghost use Rattle.ame_engine.specs.Stops.{stopped_by};
ghost use Rattle.ame_shell.specs.declared.work.Outcome.{Outcome};
ghost use Rattle.ame_shell.specs.declared.work.Work.TheVariants as spec;
ghost use Rattle.ame_shell.specs.Work.{CanUndo, Fits};
ghost use Rattle.ame_shell.specs.Asked.{IsToUndo, LacksWhereDue};
ghost use Rattle.ame_shell.specs.Outcomes.{IsDone};

use crate::work::{Outcome, Work};
use ame_engine::{Begin, Engine, Stop, Undone};
use ame_machine::Runner;

/// Keeps the stop for lack of memory. The seat's work in flight stays.
pub(crate) fn give_up<M: Runner>(engine: &mut Engine<M>) -> Outcome
where
    M::Code: Drop,
    ensures engine { engine.new ≡ stopped_by Stop.NoMemory engine.old }
    ensures halts { engine.old.stop ≡ None → Makes M.meaning (Event.Halt Stop.NoMemory) engine.old engine.new }
    ensures outcome { result ≡ Outcome.Lacked }
{
    engine.stop(Stop::NoMemory);
    Outcome::Lacked
}

/// Begins a member on an idle seat, if one may begin.
pub(crate) fn begin_on<M: Runner>(engine: &mut Engine<M>, seat: u32, work: &mut Work<M>) -> Outcome
where
    M::Code: Drop,
    requires seat { seat < engine.old.limits.seats }
    requires idle { task_at engine.old.tasks seat ≡ Task.Idle }
    requires none { work.old ≡ spec.Idle }
    ensures fits { Fits M.meaning engine.new seat work.new }
    ensures done { (told : List Told) → IsDone M.meaning seat None engine.old engine.new told told result }
    ensures due { LacksWhereDue engine.old seat None result }
{
    match engine.begin(seat) {
        Ok(Begin::Begun(machine)) => {
            *work = Work::Running(machine);
            Outcome::Began
        }
        Ok(Begin::Idle) => Outcome::Waited,
        Ok(Begin::Stopped) => Outcome::Stopped,
        Err(_) => give_up(engine),
    }
}

/// Undoes an entry of a seat, or sends its member home.
pub(crate) fn undo_on<M: Runner>(engine: &mut Engine<M>, seat: u32, work: &mut Work<M>) -> Outcome
where
    M::Code: Drop,
    requires can { CanUndo engine.old seat }
    requires undoes { IsToUndo engine.old seat }
    ensures fits { Fits M.meaning engine.new seat work.new }
    ensures done { (hand : Option MachineView) (told : List Told) → IsDone M.meaning seat hand engine.old engine.new told told result }
    ensures due { (hand : Option MachineView) → LacksWhereDue engine.old seat hand result }
{
    match engine.undo_one(seat) {
        Undone::More => {
            *work = Work::Undoing;
            Outcome::Undid
        }
        Undone::Home => {
            *work = Work::Idle;
            Outcome::WentHome
        }
    }
}
