//! The judge's answers to the journals of runs that are over.

ghost use Rattle.std.specs.Prelude.{◌≡◌, ◌≤◌, ◌++◌, ℤ, false, List, All};
ghost use Rattle.ame_term.specs.Tree.{Tree, Val};
ghost use Rattle.ame_term.specs.Signature.{Signature};
ghost use Rattle.ame_journal.specs.declared.entry.Entry.{Entry};
ghost use Rattle.ame_journal.specs.Totals.{is_note, without_notes};
ghost use Rattle.ame_machine.specs.Sound.{IsAccepted};
ghost use Rattle.ame_check.specs.Judge.{LeadsTo, Judges};
ghost use Rattle.ame_check.specs.declared.judging.Judged.{Judged};
ghost use Rattle.ame_protocol.specs.declared.types.Limits.{Limits};
ghost use Rattle.ame_engine.specs.Ending.{End};
ghost use Rattle.ame_shell.specs.Ran.{IsRanBy};
ghost use Rattle.ame_certified.specs.Low.{IsLowJournal};
ghost use Rattle.ame_certified.specs.RoundTrip.{IsRoundTrip};

use ame_machine::Runner;

/// Says that `judge` finds the journal of an engine's run valid with the run's output, or too long, if the types accept the program, and
/// its base has no notes and passes no tall form. The base of a run that begins anew is empty.
pub fn ended_runs_are_judged_valid<M: Runner>()
    ensures low { (program : Tree) (signature : Signature) (limits : Limits) (base : List Entry) (value : M.Value → Val) (end : End M.Value)
        → IsRanBy program signature limits base value end → IsAccepted signature program → 1 ≤ limits.slice → All (λ entry. is_note entry.kind ≡ false) base
        → IsLowJournal program base → IsLowJournal program (base ++ end.entries) }
    ensures judged { (program : Tree) (signature : Signature) (limits : Limits) (base : List Entry) (value : M.Value → Val) (end : End M.Value) (judged : Judged)
        → IsRanBy program signature limits base value end → IsAccepted signature program → 1 ≤ limits.slice → All (λ entry. is_note entry.kind ≡ false) base
        → IsLowJournal program base → Judges program (base ++ end.entries) judged → IsRoundTrip end.output judged }
{}

/// Says that the entries without notes of a journal that `judge` finds valid pass no tall form.
pub fn bases_stay_low()
    ensures { (program : Tree) (entries : List Entry) (output : List ℤ) → LeadsTo program entries output → IsLowJournal program (without_notes entries) }
{}
