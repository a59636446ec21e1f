//! The reads of a seat are checked, its row is committed, or a place of its run is noted.

ghost use Rattle.std.specs.Prelude.{◌≡◌, ◌⊎◌, List, Some, true, false};
ghost use Rattle.ame_device.specs.declared.told.Told.{Told};
ghost use Rattle.ame_machine.specs.declared.wants.Wants.{Wants};
ghost use Rattle.ame_protocol.specs.declared.types.Task.{Task};
ghost use Rattle.ame_protocol.specs.Engine.Parts.{task_at};
ghost use Rattle.ame_shell.specs.declared.work.Outcome.{Outcome};
ghost use Rattle.ame_shell.specs.Work.{CanUndo, HasTurn, IsAtWork};
ghost use Rattle.ame_shell.specs.Asked.{waits_for_check, HasNoTurnsLeft, LacksWhereDue};
ghost use Rattle.ame_shell.specs.Outcomes.{is_back, is_home, IsDone};

use crate::events::give_up;
use crate::work::Outcome;
use ame_engine::{Checked, Engine, Noted};
use ame_machine::Runner;

/// Checks the reads of a seat. Its machine then counts its steps from there on. Otherwise the seat turns back.
pub(crate) fn check_on<M: Runner>(engine: &mut Engine<M>, seat: u32, machine: &mut M) -> Outcome
where
    M::Code: Drop,
    requires turn { HasTurn M.meaning engine.old seat machine.old }
    requires outside { (M.meaning.stage engine.old.code machine.old).inside ≡ false }
    requires waits { waits_for_check (M.meaning.stage engine.old.code machine.old).want ≡ true }
    requires full { (M.meaning.stage engine.old.code machine.old).since ≡ engine.old.limits.slice }
    ensures at { is_back result ≡ false → IsAtWork M.meaning engine.new seat machine.new }
    ensures back { is_back result ≡ true → CanUndo engine.new seat }
    ensures done { (told : List Told) → IsDone M.meaning seat (Some (M.meaning.stage engine.old.code machine.old)) engine.old engine.new told told result }
    ensures due { LacksWhereDue engine.old seat (Some (M.meaning.stage engine.old.code machine.old)) result }
{
    match engine.check(seat, machine) {
        Checked::Valid => {
            engine.stands();
            machine.checked();
            Outcome::Checked
        }
        Checked::Invalid(bad) => Outcome::FoundInvalid(bad),
    }
}

/// Commits the row of a seat whose member ended or came to `unprotected`, as `outcome` says. Otherwise the seat turns back.
pub(crate) fn commit_on<M: Runner>(
    engine: &mut Engine<M>,
    seat: u32,
    machine: M,
    outcome: Outcome,
) -> Outcome
where
    M::Code: Drop,
    requires turn { HasTurn M.meaning engine.old seat machine }
    requires outside { (M.meaning.stage engine.old.code machine).inside ≡ false }
    requires told { ((outcome ≡ Outcome.Ended) × ((M.meaning.stage engine.old.code machine).want ≡ Some Wants.Done))
        ⊎ ((outcome ≡ Outcome.Left) × ((M.meaning.stage engine.old.code machine).want ≡ Some Wants.Leave)) }
    ensures home { is_home result ≡ true → task_at engine.new.tasks seat ≡ Task.Idle }
    ensures back { is_home result ≡ false → CanUndo engine.new seat }
    ensures done { (told : List Told) → IsDone M.meaning seat (Some (M.meaning.stage engine.old.code machine)) engine.old engine.new told told result }
    ensures due { LacksWhereDue engine.old seat (Some (M.meaning.stage engine.old.code machine)) result }
{
    match engine.commit(seat, machine) {
        Ok(Noted::Noted) => outcome,
        Ok(Noted::Invalid(bad)) => Outcome::Refused(bad),
        Err(_) => give_up(engine),
    }
}

/// Notes that the member of a seat came to a condition that is false. Otherwise the seat turns back.
pub(crate) fn block_on<M: Runner>(engine: &mut Engine<M>, seat: u32, machine: &M) -> Outcome
where
    M::Code: Drop,
    requires turn { HasTurn M.meaning engine.old seat machine.now }
    requires outside { (M.meaning.stage engine.old.code machine.now).inside ≡ false }
    requires told { (M.meaning.stage engine.old.code machine.now).want ≡ Some Wants.Block }
    ensures at { is_back result ≡ false → IsAtWork M.meaning engine.new seat machine.now }
    ensures back { is_back result ≡ true → CanUndo engine.new seat }
    ensures done { (told : List Told) → IsDone M.meaning seat (Some (M.meaning.stage engine.old.code machine.now)) engine.old engine.new told told result }
    ensures due { LacksWhereDue engine.old seat (Some (M.meaning.stage engine.old.code machine.now)) result }
{
    match engine.block(seat, machine) {
        Ok(Noted::Noted) => Outcome::Noted,
        Ok(Noted::Invalid(bad)) => Outcome::NotNoted(bad),
        Err(_) => give_up(engine),
    }
}

/// Notes that the member of a seat came to a value nested too deeply. Otherwise the seat turns back.
pub(crate) fn tall_on<M: Runner>(engine: &mut Engine<M>, seat: u32, machine: &M) -> Outcome
where
    M::Code: Drop,
    requires turn { HasTurn M.meaning engine.old seat machine.now }
    requires told { (M.meaning.stage engine.old.code machine.now).want ≡ Some Wants.Tall }
    ensures at { is_back result ≡ false → IsAtWork M.meaning engine.new seat machine.now }
    ensures back { is_back result ≡ true → CanUndo engine.new seat }
    ensures done { (told : List Told) → IsDone M.meaning seat (Some (M.meaning.stage engine.old.code machine.now)) engine.old engine.new told told result }
    ensures due { LacksWhereDue engine.old seat (Some (M.meaning.stage engine.old.code machine.now)) result }
{
    engine.stands();
    match engine.tall(seat, machine) {
        Ok(Noted::Noted) => Outcome::GrewTall,
        Ok(Noted::Invalid(bad)) => Outcome::NotTall(bad),
        Err(_) => give_up(engine),
    }
}

/// Keeps that the turns are used up, and notes the place at which a seat's machine is cut off, if its reads are valid.
pub(crate) fn spend_running<M: Runner>(engine: &mut Engine<M>, seat: u32, machine: &M) -> Outcome
where
    M::Code: Drop,
    requires at { IsAtWork M.meaning engine.old seat machine.now }
    requires spent { HasNoTurnsLeft engine.old }
    ensures at { is_back result ≡ false → IsAtWork M.meaning engine.new seat machine.now }
    ensures back { is_back result ≡ true → CanUndo engine.new seat }
    ensures done { (told : List Told) → IsDone M.meaning seat (Some (M.meaning.stage engine.old.code machine.now)) engine.old engine.new told told result }
    ensures due { LacksWhereDue engine.old seat (Some (M.meaning.stage engine.old.code machine.now)) result }
{
    engine.stands();
    match engine.spend(seat, Some(machine)) {
        Ok(()) => Outcome::Spent,
        Err(_) => give_up(engine),
    }
}
