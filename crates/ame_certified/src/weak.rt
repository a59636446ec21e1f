//! The judge's answers to the journals of weak runs.

ghost use Rattle.std.specs.Prelude.{◌≡◌, List, [], ◌∷◌, ◌++◌, None};
ghost use Rattle.ame_term.specs.Tree.{Tree};
ghost use Rattle.ame_term.specs.Signature.{Signature};
ghost use Rattle.ame_term.specs.declared.semantics.Label.{Label};
ghost use Rattle.ame_journal.specs.declared.entry.Entry.{Entry};
ghost use Rattle.ame_machine.specs.Sound.{IsAccepted};
ghost use Rattle.ame_check.specs.Judge.{Judges};
ghost use Rattle.ame_check.specs.declared.judging.Judged.{Judged};
ghost use Rattle.ame_weak.specs.Weak.{Weak, IsWeakRun, weak_start};
ghost use Rattle.ame_weak.specs.Bounds.{AreWithinBounds};
ghost use Rattle.ame_weak.specs.Straight.{outset, straight};
ghost use Rattle.ame_weak.specs.Tries.{AreTried, straight_with};
ghost use Rattle.ame_weak.specs.declared.tries.Try.{Try};
ghost use Rattle.ame_runner.specs.Within.{AreTriedWithin};
ghost use Rattle.ame_certified.specs.Low.{IsLowJournal};
ghost use Rattle.ame_certified.specs.RoundTrip.{IsRoundTrip};
ghost use Rattle.ame_certified.specs.WeakTries.{IsTallNote};

/// Says that no entry of the journal of a weak run within the bounds passes a tall form. Nor does any note of an attempt within the bounds,
/// or the note of a member that grows too tall.
pub fn weak_journals_stay_low()
    ensures alone { (signature : Signature) (program : Tree) (labels : List Label) (w : Weak) → IsAccepted signature program → IsWeakRun program labels w
        → AreWithinBounds (weak_start program) labels → IsLowJournal program (straight labels) }
    ensures tries { (signature : Signature) (program : Tree) (labels : List Label) (tries : List Try) (w : Weak) → IsAccepted signature program
        → IsWeakRun program labels w → AreWithinBounds (weak_start program) labels → AreTried program labels tries → AreTriedWithin program labels tries
        → IsLowJournal program (straight_with 0 tries outset labels) }
    ensures noted { (signature : Signature) (program : Tree) (labels : List Label) (tries : List Try) (w : Weak) (entry : Entry) → IsAccepted signature program
        → IsWeakRun program labels w → AreWithinBounds (weak_start program) labels → AreTried program labels tries → AreTriedWithin program labels tries
        → w.state.active ≡ None → IsTallNote w entry → IsLowJournal program (straight_with 0 tries outset labels ++ entry ∷ []) }
{}

/// Says that `judge` finds such a journal valid with the run's output, or too long, if nothing is active at the run's end.
pub fn weak_journals_are_judged_valid()
    ensures alone { (signature : Signature) (program : Tree) (labels : List Label) (w : Weak) (judged : Judged) → IsAccepted signature program
        → IsWeakRun program labels w → w.state.active ≡ None → AreWithinBounds (weak_start program) labels → Judges program (straight labels) judged
        → IsRoundTrip w.state.output judged }
    ensures tries { (signature : Signature) (program : Tree) (labels : List Label) (tries : List Try) (w : Weak) (judged : Judged) → IsAccepted signature program
        → IsWeakRun program labels w → w.state.active ≡ None → AreWithinBounds (weak_start program) labels → AreTried program labels tries
        → AreTriedWithin program labels tries → Judges program (straight_with 0 tries outset labels) judged → IsRoundTrip w.state.output judged }
    ensures noted { (signature : Signature) (program : Tree) (labels : List Label) (tries : List Try) (w : Weak) (entry : Entry) (judged : Judged)
        → IsAccepted signature program → IsWeakRun program labels w → AreWithinBounds (weak_start program) labels → AreTried program labels tries
        → AreTriedWithin program labels tries → w.state.active ≡ None → IsTallNote w entry
        → Judges program (straight_with 0 tries outset labels ++ entry ∷ []) judged → IsRoundTrip w.state.output judged }
{}
