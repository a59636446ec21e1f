//! Theorems: promises of this crate that nothing above it cites, each the statement of a lemma.

ghost use Rattle.std.specs.Prelude.{◌≡◌, ◌↔◌, ℕ, true, List, length, map, Some, None};
ghost use Rattle.ame_term.specs.Frame.{Side};
ghost use Rattle.ame_term.specs.Tree.{Tree};
ghost use Rattle.ame_term.specs.View.{tree_of};
ghost use Rattle.ame_term.specs.declared.semantics.Label.{Label};
ghost use Rattle.ame_journal.specs.Replayed.{Replayed, is_tall};
ghost use Rattle.ame_journal.specs.Replay.{replay};
ghost use Rattle.ame_journal.specs.Calls.{device_calls};
ghost use Rattle.ame_journal.specs.Totals.{without_notes};
ghost use Rattle.ame_laws.specs.Typed.StoreTyping.{StoreTyping};
ghost use Rattle.ame_laws.specs.Typed.Listed.{signature_of};
ghost use Rattle.ame_laws.specs.Typed.TypedState.{IsTyped};
ghost use Rattle.ame_weak.specs.Weak.{Weak, IsWeakRun, holding_none, weak_start, weak_after, weak_run, weak_calls};
ghost use Rattle.ame_weak.specs.WeakRules.{WeakRule, WeakBegins, WeakRuns};
ghost use Rattle.ame_weak.specs.Bounds.{AreWithinBounds, is_growing_tall};
ghost use Rattle.ame_weak.specs.Low.{IsLow};
ghost use Rattle.ame_weak.specs.Straight.{straight, outset};
ghost use Rattle.ame_weak.specs.Tries.{AreTried, AreTriesInOrder, notes_of, note_for, straight_with};
ghost use Rattle.ame_weak.specs.declared.tries.Try.{Try};

use ame_term::Accepted;

/// Says that a label leads from one weak state to another exactly if a weak rule has it.
pub fn weak_labels_follow_the_rules()
    ensures { (w v : Weak) (label : Label) → (weak_after w label ≡ Some v) ↔ WeakRule w label v }
{}

/// Says that `weak_start` is the weak state in which a program begins, and that `weak_run` leads to the same state as
/// labels, each by a weak rule.
pub fn weak_runs_follow_the_rules()
    ensures begins { (program : Tree) (w : Weak) → (w ≡ weak_start program) ↔ WeakBegins program w }
    ensures runs { (w : Weak) (labels : List Label) (v : Weak) → (weak_run w labels ≡ Some v) ↔ WeakRuns w labels v }
{}

/// Says that a weak run of an accepted program looks strong. If nothing is active at its end, the journal of its
/// labels leads to the same state, with the same store, members, output and next number.
pub fn weak_runs_straighten(accepted: &Accepted)
    ensures { (labels : List Label) (w : Weak) → IsWeakRun (tree_of accepted.now.program.term) labels w → w.state.active ≡ None →
        (r : Replayed) × (replay (tree_of accepted.now.program.term) (straight labels) ≡ Some r) × (w ≡ holding_none r.state) }
{}

/// Says that the journal of a weak run makes the calls of devices that the run makes, in the same order and with
/// the same answers.
pub fn weak_calls_are_told(accepted: &Accepted)
    ensures { (device : ℕ) (labels : List Label) (w : Weak) → IsWeakRun (tree_of accepted.now.program.term) labels w →
        device_calls device (tree_of accepted.now.program.term) (straight labels)
        ≡ weak_calls device (weak_start (tree_of accepted.now.program.term)) labels }
{}

/// Says that a journal with the notes of attempts leads to the same state, if each attempt holds at its
/// place.
pub fn tries_straighten(accepted: &Accepted)
    ensures { (labels : List Label) (tries : List Try) (w : Weak) → AreTried (tree_of accepted.now.program.term) labels tries
        → IsWeakRun (tree_of accepted.now.program.term) labels w → w.state.active ≡ None
        → (r : Replayed) × (replay (tree_of accepted.now.program.term) (straight_with 0 tries outset labels) ≡ Some r) × (w ≡ holding_none r.state) }
{}

/// Says that a journal with such notes makes the same calls.
pub fn calls_are_told_with(accepted: &Accepted)
    ensures { (device : ℕ) (labels : List Label) (tries : List Try) (w : Weak) → AreTried (tree_of accepted.now.program.term) labels tries
        → IsWeakRun (tree_of accepted.now.program.term) labels w
        → device_calls device (tree_of accepted.now.program.term) (straight_with 0 tries outset labels)
        ≡ weak_calls device (weak_start (tree_of accepted.now.program.term)) labels }
{}

/// Says that the notes of a journal are those of the attempts, in their order, if attempts are in order and none is
/// after the last label; and that without its notes it is the journal of the labels.
pub fn notes_are_of_the_tries()
    ensures notes { (labels : List Label) (tries : List Try) → AreTriesInOrder 0 (length labels) tries
        → notes_of (straight_with 0 tries outset labels) ≡ map note_for tries }
    ensures others { (labels : List Label) (tries : List Try) → without_notes (straight_with 0 tries outset labels) ≡ straight labels }
{}

/// Says that the strong state in the weak state to which labels of an accepted program lead is typed.
pub fn weak_runs_are_typed(accepted: &Accepted)
    ensures { (labels : List Label) (w : Weak) → IsWeakRun (tree_of accepted.now.program.term) labels w
        → (cells : StoreTyping) × IsTyped (signature_of accepted.now) cells w.state }
{}

/// Says that within the bounds no value of a run of an accepted program is more than 1,000 high, so that a value that
/// would be higher would be 1,001 high.
pub fn values_stay_low(accepted: &Accepted)
    ensures stay { (labels : List Label) (w : Weak) → IsWeakRun (tree_of accepted.now.program.term) labels w
        → AreWithinBounds (weak_start (tree_of accepted.now.program.term)) labels → IsLow w }
    ensures active { (w : Weak) (i : ℕ) → IsLow w → w.state.active ≡ Some i → is_growing_tall w None ≡ true → is_tall Side.Protected i w.state ≡ true }
    ensures resting { (w : Weak) (i : ℕ) → IsLow w → is_growing_tall w (Some i) ≡ true → is_tall Side.Unprotected i w.state ≡ true }
{}
