//! Theorems on runs by picks that are made again.

ghost use Rattle.std.specs.Prelude.{◌≡◌, ℕ, List, Option};
ghost use Rattle.ame_machine.specs.MachineView.{MachineView};
ghost use Rattle.ame_protocol.specs.Engine.Parts.{Parts};
ghost use Rattle.ame_engine.specs.Ending.{End};
ghost use Rattle.ame_engine.specs.Makes.{state_of};
ghost use Rattle.ame_shell.specs.Shell.{Opening, ShellView};
ghost use Rattle.ame_sim.specs.declared.made.Made.{Made};
ghost use Rattle.ame_sim.specs.Drawn.{drawn};
ghost use Rattle.ame_sim.specs.Listed.{picked_as_listed};
ghost use Rattle.ame_sim.specs.Picks.{picks_of};
ghost use Rattle.ame_sim.specs.Questions.{seats_of};
ghost use Rattle.ame_sim.specs.Prepared.{IsPreparedHand};
ghost use Rattle.ame_repeats.specs.Answers.{AreAnsweredAlike};
ghost use Rattle.ame_repeats.specs.Played.{AreUnfailed, IsUnfailed, IsUnfailedPick, AreOfOneProgram, AreOfTheSameSeats, ArePicksOf, EndsAlike};

use ame_machine::Runner;

/// Says that the state determines a prepared machine: its place, its counts and its want.
pub fn prepared_machines_are_one()
    ensures { (parts : Parts) (seat : ℕ) (hand other : Option MachineView) → IsPreparedHand parts seat hand → IsPreparedHand parts seat other → hand ≡ other }
{}

/// Says that picks of one seat from one state are the same pick and lead to one state, if devices answer alike. The state is all that
/// events change: journal, memory, tasks, pool, output, turns, tries, counters, stop and certificates.
pub fn turns_repeat<M: Runner>()
where
    M::Code: Drop,
    ensures { (made again : Made) (old new other next : ShellView M.Code M.Value M) → IsUnfailedPick M.meaning made old new
        → IsUnfailedPick M.meaning again other next → again.seat ≡ made.seat → state_of M.meaning old.core ≡ state_of M.meaning other.core
        → AreAnsweredAlike new.core.entries next.core.entries → (again ≡ made) × (state_of M.meaning new.core ≡ state_of M.meaning next.core) }
{}

/// Says that picks of the same seats from one state are the same picks and lead to one state, if devices answer alike.
pub fn picks_repeat<M: Runner>()
where
    M::Code: Drop,
    ensures { (mades others : List Made) (first last other end : ShellView M.Code M.Value M) → AreUnfailed M.meaning mades first last
        → AreUnfailed M.meaning others other end → AreOfTheSameSeats mades others → state_of M.meaning first.core ≡ state_of M.meaning other.core
        → AreAnsweredAlike last.core.entries end.core.entries → (others ≡ mades) × (state_of M.meaning last.core ≡ state_of M.meaning end.core) }
{}

/// Says that a replay repeats its run. Take two runs of one program with the same limits and picks of the same seats, whose devices
/// answer alike and that no fault from outside stopped. Each pick did the same, and the ends are alike.
pub fn replays_repeat<M: Runner>()
where
    M::Code: Drop,
    ensures { (opening other : Opening M.Code) (mades others : List Made) (end last : End M.Value) → IsUnfailed M.meaning opening mades end
        → IsUnfailed M.meaning other others last → AreOfOneProgram M.meaning opening other → AreOfTheSameSeats mades others
        → AreAnsweredAlike end.entries last.entries → (others ≡ mades) × EndsAlike end last }
{}

/// Says the same of two runs whose picks are those of one seed, or of one list of seats.
pub fn chosen_runs_repeat<M: Runner>()
where
    M::Code: Drop,
    ensures seed { (seed : ℕ) (opening other : Opening M.Code) (mades others : List Made) (end last : End M.Value) → IsUnfailed M.meaning opening mades end
        → IsUnfailed M.meaning other others last → AreOfOneProgram M.meaning opening other → ArePicksOf (drawn seed) opening.limits.seats mades
        → ArePicksOf (drawn seed) other.limits.seats others → AreAnsweredAlike end.entries last.entries → (others ≡ mades) × EndsAlike end last }
    ensures list { (seats : List ℕ) (opening other : Opening M.Code) (mades others : List Made) (end last : End M.Value) → IsUnfailed M.meaning opening mades end
        → IsUnfailed M.meaning other others last → AreOfOneProgram M.meaning opening other → ArePicksOf (picked_as_listed seats) opening.limits.seats mades
        → ArePicksOf (picked_as_listed seats) other.limits.seats others → AreAnsweredAlike end.entries last.entries → (others ≡ mades) × EndsAlike end last }
{}

/// Says the same of a run whose picks are those of the list of the seats that the other run picked.
pub fn schedules_repeat<M: Runner>()
where
    M::Code: Drop,
    ensures { (opening other : Opening M.Code) (mades others : List Made) (end last : End M.Value) → IsUnfailed M.meaning opening mades end
        → IsUnfailed M.meaning other others last → AreOfOneProgram M.meaning opening other
        → ArePicksOf (picked_as_listed (seats_of (picks_of mades))) other.limits.seats others → AreAnsweredAlike end.entries last.entries
        → (others ≡ mades) × EndsAlike end last }
{}
