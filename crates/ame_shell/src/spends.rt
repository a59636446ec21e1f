//! A seat that undoes, once the turns are used up.

ghost use Rattle.std.specs.Prelude.{◌≡◌, List, None};
ghost use Rattle.ame_device.specs.declared.told.Told.{Told};
ghost use Rattle.ame_shell.specs.Asked.{HasNoTurnsLeft, LacksWhereDue};
ghost use Rattle.ame_shell.specs.Work.{CanUndo};
ghost use Rattle.ame_shell.specs.Outcomes.{IsDone};

use crate::events::give_up;
use crate::work::{Outcome, Work};
use ame_engine::Engine;
use ame_machine::Runner;

/// Names no machine, for a seat that has none in flight.
fn no_machine<M>(_work: &Work<M>) -> Option<&M>
    ensures { result ≡ None }
{
    None
}

/// Keeps that the turns are used up, for a seat that undoes.
pub(crate) fn spend_undoing<M: Runner>(engine: &mut Engine<M>, seat: u32, work: &Work<M>) -> Outcome
where
    M::Code: Drop,
    requires can { CanUndo engine.old seat }
    requires spent { HasNoTurnsLeft engine.old }
    ensures can { CanUndo engine.new seat }
    ensures done { (told : List Told) → IsDone M.meaning seat None engine.old engine.new told told result }
    ensures due { LacksWhereDue engine.old seat None result }
{
    engine.stands();
    match engine.spend(seat, no_machine(work)) {
        Ok(()) => Outcome::Spent,
        Err(_) => give_up(engine),
    }
}
