//! Theorems: promises of this crate that nothing above it cites, each the statement of a lemma.

ghost use Rattle.std.specs.Prelude.{◌≡◌, ℕ, false};
ghost use Rattle.ame_machine.specs.MachineView.{MachineView};
ghost use Rattle.ame_machine.specs.Sound.{CanRun};
ghost use Rattle.ame_protocol.specs.Engine.Parts.{Parts};
ghost use Rattle.ame_protocol.specs.Engine.Simulates.{Simulates};
ghost use Rattle.ame_engine.specs.AtWork.{IsOnSeat};

/// Says that a machine can run if it stands on a seat's run of protected code.
pub fn machines_on_their_seats_can_run()
    ensures { (parts : Parts) (seat : ℕ) (s : MachineView) → Simulates parts → IsOnSeat parts seat s → s.inside ≡ false → CanRun s }
{}
