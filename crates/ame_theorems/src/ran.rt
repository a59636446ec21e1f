//! Theorems on the events of a run that is over.

ghost use Rattle.std.specs.Prelude.{◌≡◌, ◌≤◌, false, List, All, Some};
ghost use Rattle.ame_term.specs.Tree.{Val, Tree};
ghost use Rattle.ame_term.specs.Signature.{Signature};
ghost use Rattle.ame_journal.specs.declared.entry.Entry.{Entry};
ghost use Rattle.ame_journal.specs.Totals.{is_note};
ghost use Rattle.ame_machine.specs.Sound.{IsAccepted};
ghost use Rattle.ame_protocol.specs.declared.stop.Stop.{Stop};
ghost use Rattle.ame_protocol.specs.declared.types.Limits.{Limits};
ghost use Rattle.ame_engine.specs.Ending.{End};
ghost use Rattle.ame_shell.specs.Ends.{Ends};
ghost use Rattle.ame_shell.specs.Over.{IsOverSince};
ghost use Rattle.ame_theorems.specs.Backs.{TurnsBackSeldom};
ghost use Rattle.ame_theorems.specs.Kinds.{CountsByKind};
ghost use Rattle.ame_theorems.specs.Stopped.{IsStoppedBy};

use ame_machine::Runner;

/// Says that the counters of a run that is over count its entries by their kinds. The visits are the `Free` entries, and one more if the
/// run stopped at a device's fault. Each commit, each false condition and each value nested too deeply left an entry, unless it was
/// refused because a read wasn't valid.
pub fn counters_tell_entries<M: Runner>()
    ensures { (since : List Entry) (program : Tree) (signature : Signature) (limits : Limits) (value : M.Value → Val) (before after : Ends) (end : End M.Value)
        → (over : IsOverSince since program signature limits value before end after) → CountsByKind over.ran.events end.entries end.counters end.stop }
{}

/// Says that the first stop that is kept decides: it is the stop that the run reports, and after the event that kept it seats only undo
/// their unfinished work.
pub fn first_stops_decide<M: Runner>()
    ensures { (since : List Entry) (program : Tree) (signature : Signature) (limits : Limits) (value : M.Value → Val) (before after : Ends) (end : End M.Value)
        → (over : IsOverSince since program signature limits value before end after) (why : Stop) → end.stop ≡ Some why → IsStoppedBy why over.ran.events }
{}

/// Says that between two entries of one member of a run that is over, this member turns back at most eight times, if the types accept the
/// program, and the base has no notes.
pub fn members_turn_back_seldom<M: Runner>()
    ensures { (since : List Entry) (program : Tree) (signature : Signature) (limits : Limits) (value : M.Value → Val) (before after : Ends) (end : End M.Value)
        → (over : IsOverSince since program signature limits value before end after) → IsAccepted signature program → 1 ≤ limits.slice
        → All (λ entry. is_note entry.kind ≡ false) since → TurnsBackSeldom over.ran.events }
{}
