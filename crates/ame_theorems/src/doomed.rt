//! Theorems on attempts that leave no entry.

ghost use Rattle.std.specs.Prelude.{◌≡◌, ◌++◌, [], ℕ, List, Some, true, false};
ghost use Rattle.ame_term.specs.State.{State};
ghost use Rattle.ame_term.specs.Maps.{at};
ghost use Rattle.ame_journal.specs.Replayed.{Replayed, is_at_unprotected};
ghost use Rattle.ame_journal.specs.Replay.{replay};
ghost use Rattle.ame_journal.specs.Totals.{without_notes};
ghost use Rattle.ame_journal.specs.UnderWay.{UnderWay};
ghost use Rattle.ame_machine.specs.Run.Local.{LocalState};
ghost use Rattle.ame_machine.specs.Run.AgreesWith.{IsAfterRun};
ghost use Rattle.ame_protocol.specs.declared.types.Attempt.{Attempt};
ghost use Rattle.ame_protocol.specs.declared.types.Task.{Task};
ghost use Rattle.ame_protocol.specs.Row.SeatRun.{HasUsed};
ghost use Rattle.ame_protocol.specs.Engine.Parts.{whole_journal, task_at, run_in};
ghost use Rattle.ame_protocol.specs.Event.EngineState.{EngineState as Runtime};
ghost use Rattle.ame_protocol.specs.Event.Event.{Event};
ghost use Rattle.ame_protocol.specs.Event.After.{after};
ghost use Rattle.ame_protocol.specs.Event.May.{May, ReadsAreValid};
ghost use Rattle.ame_protocol.specs.Event.Sound.{Sound};
ghost use Rattle.ame_protocol.specs.Event.Runs.{Follows, entries_along, entries_told};
ghost use Rattle.ame_engine.specs.AtWork.{IsOn};
ghost use Rattle.ame_engine.specs.Makes.{state_of};
ghost use Rattle.ame_theorems.specs.Doomed.{IsDoomed, seat_of};
ghost use Rattle.ame_theorems.specs.Shows.{ShowsTheSame};

use ame_engine::Engine;
use ame_machine::Runner;

/// Says that an event that adds no entry to the journal shows nothing: output, numbers, terms of members and committed
/// values are as before. An event that adds a note shows nothing either, and neither does a run of such events.
pub fn events_without_entries_show_nothing()
    ensures event { (e : Event) (s : Runtime) → May e s → Sound s → entries_told e ≡ [] → ShowsTheSame s.parts (after e s).parts }
    ensures note { (e : Event) (s : Runtime) → May e s → Sound s → without_notes (entries_told e) ≡ [] → ShowsTheSame s.parts (after e s).parts }
    ensures run { (es : List Event) (s end : Runtime) → Follows s es end → Sound s → without_notes (entries_along es) ≡ []
        → ShowsTheSame s.parts end.parts }
{}

/// Says that no event of a seat with a doomed attempt adds an entry, and so each of them shows nothing.
pub fn doomed_attempts_show_nothing()
    ensures { (e : Event) (s : Runtime) (seat : ℕ) → IsDoomed s seat → seat_of e ≡ Some seat → May e s → Sound s
        → (entries_told e ≡ []) × ShowsTheSame s.parts (after e s).parts }
{}

/// Says that an attempt with valid reads is a fragment under way in the state to which the journal leads: the member becomes
/// active there and makes as many steps. Its term is then the attempt's, and the attempt's writes, prints and new members are
/// those of the steps. A member that stands at `unprotected` already has made no step.
pub fn valid_rows_are_fragments()
    ensures under_way { (s : Runtime) (r : Replayed) (seat : ℕ) (attempt : Attempt) (n : ℕ) (p : LocalState) → Sound s
        → replay s.parts.program (whole_journal s.parts) ≡ Some r → task_at s.parts.tasks seat ≡ Task.Running attempt
        → HasUsed (run_in s.parts seat attempt.tried.number) n p → ReadsAreValid s seat → is_at_unprotected attempt.tried.number r.state ≡ false
        → (t : State) × UnderWay r.state attempt.tried.number n p.fresh t × IsAfterRun r.state attempt.tried.number p t
        × (at t.members attempt.tried.number ≡ Some p.term) }
    ensures at_unprotected { (s : Runtime) (r : Replayed) (seat : ℕ) (attempt : Attempt) (n : ℕ) (p : LocalState) → Sound s
        → replay s.parts.program (whole_journal s.parts) ≡ Some r → task_at s.parts.tasks seat ≡ Task.Running attempt
        → HasUsed (run_in s.parts seat attempt.tried.number) n p → is_at_unprotected attempt.tried.number r.state ≡ true
        → (n ≡ 0) × (at r.state.members attempt.tried.number ≡ Some p.term) }
{}

/// Says the same of the machine that runs such a row: it has made the steps of the fragment under way, and stands for the
/// term of the active member.
pub fn machines_on_valid_rows_are_under_way<M: Runner>(engine: &Engine<M>)
where
    M::Code: Drop,
    ensures { (seat : ℕ) (m : M) (attempt : Attempt) (r : Replayed) → IsOn M.meaning engine.now seat m
        → task_at engine.now.tasks seat ≡ Task.Running attempt → ReadsAreValid (state_of M.meaning engine.now) seat
        → replay (M.meaning.program engine.now.code) (engine.now.base ++ engine.now.entries) ≡ Some r
        → is_at_unprotected attempt.tried.number r.state ≡ false
        → (t : State) × UnderWay r.state attempt.tried.number (M.meaning.stage engine.now.code m).steps (M.meaning.stage engine.now.code m).fresh t
        × (at t.members attempt.tried.number ≡ Some (M.meaning.stage engine.now.code m).term) }
{
    engine.stands();
}
