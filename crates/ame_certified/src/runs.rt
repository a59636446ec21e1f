//! The judge's answers to the journals of an engine's runs.

ghost use Rattle.std.specs.Prelude.{◌++◌, ◌≤◌, ℤ, List};
ghost use Rattle.ame_term.specs.Tree.{Tree};
ghost use Rattle.ame_term.specs.Signature.{Signature};
ghost use Rattle.ame_machine.specs.Sound.{IsAccepted};
ghost use Rattle.ame_check.specs.Judge.{LeadsTo, Judges};
ghost use Rattle.ame_check.specs.declared.judging.Judged.{Judged};
ghost use Rattle.ame_protocol.specs.declared.types.Limits.{Limits};
ghost use Rattle.ame_protocol.specs.Engine.Parts.{whole_journal};
ghost use Rattle.ame_protocol.specs.Event.EngineState.{EngineState, started_state};
ghost use Rattle.ame_protocol.specs.Event.Event.{Event};
ghost use Rattle.ame_protocol.specs.Event.Runs.{Follows, entries_along};
ghost use Rattle.ame_protocol.specs.Event.Sound.{Sound};
ghost use Rattle.ame_certified.specs.Low.{IsLowJournal};
ghost use Rattle.ame_shell.specs.Low.{GoLow};
ghost use Rattle.ame_certified.specs.RoundTrip.{IsRoundTrip, IsNeverInvalid};

/// Says that events add no entry that passes a tall form, if none of their steps is at one.
pub fn engine_runs_stay_low()
    ensures stay { (s end : EngineState) (events : List Event) → Sound s → Follows s events end → GoLow s events
        → IsLowJournal s.parts.program (whole_journal s.parts) → IsLowJournal s.parts.program (whole_journal s.parts ++ entries_along events) }
    ensures started { (program : Tree) (signature : Signature) (limits : Limits) (end : EngineState) (events : List Event) → IsAccepted signature program → 1 ≤ limits.slice
        → Follows (started_state program signature limits) events end → GoLow (started_state program signature limits) events
        → IsLowJournal program (entries_along events) }
{}

/// Says that `judge` finds the journal of such a run valid with the run's output, or too long.
pub fn runs_are_judged_valid()
    ensures { (s end : EngineState) (events : List Event) (judged : Judged) → Sound s → Follows s events end → GoLow s events
        → IsLowJournal s.parts.program (whole_journal s.parts) → Judges s.parts.program (whole_journal s.parts ++ entries_along events) judged
        → IsRoundTrip end.parts.output judged }
{}

/// Says that `judge` never finds the journal of a run invalid, and that it finds the run's output if it finds it valid.
pub fn runs_are_never_invalid()
    ensures { (s end : EngineState) (events : List Event) (judged : Judged) → Sound s → Follows s events end
        → Judges s.parts.program (whole_journal s.parts ++ entries_along events) judged → IsNeverInvalid end.parts.output judged }
{}

/// Says the same of a run that goes on from a journal that `judge` finds valid.
pub fn judged_certificates_go_on()
    ensures { (s end : EngineState) (events : List Event) (output : List ℤ) (judged : Judged) → LeadsTo s.parts.program (whole_journal s.parts) output → Sound s
        → Follows s events end → GoLow s events → Judges s.parts.program (whole_journal s.parts ++ entries_along events) judged → IsRoundTrip end.parts.output judged }
{}
