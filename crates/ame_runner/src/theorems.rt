//! Theorems: promises of this crate about what its calls answer, each the statement of a lemma.

ghost use Rattle.std.specs.Prelude.{◌≡◌, ℕ, ◌+◌, ◌*◌, ◌≤◌, List, length, None};
ghost use Rattle.ame_term.specs.Tree.{Tree};
ghost use Rattle.ame_term.specs.View.{tree_of};
ghost use Rattle.ame_term.specs.declared.semantics.Label.{Label};
ghost use Rattle.ame_journal.specs.Totals.{total_steps};
ghost use Rattle.ame_weak.specs.Weak.{Weak, IsWeakRun};
ghost use Rattle.ame_weak.specs.Straight.{outset};
ghost use Rattle.ame_weak.specs.Tries.{HoldsIn, AreTried, AreTriesInOrder, straight_with};
ghost use Rattle.ame_weak.specs.declared.tries.Try.{Try};
ghost use Rattle.ame_runner.specs.Apart.{AreNotedApart};
ghost use Rattle.ame_runner.specs.Notes.{AreSpaced};
ghost use Rattle.ame_runner.specs.Run.{turns_of_tries};
ghost use Rattle.ame_runner.specs.Trial.{IsTriedOut, IsTryOf};
ghost use Rattle.ame_runner.specs.declared.trial.TriedOut.{TriedOut};

use ame_term::Accepted;

/// States that a fragment that was tried on a copy of a weak state with nothing active can be run there: its steps can
/// be made, and if it failed, they come to a condition that is false. The program is accepted.
pub fn tried_fragments_hold(accepted: &Accepted)
    ensures { (labels : List Label) (w : Weak) (i first turns : ℕ) (tried : TriedOut) (t : Try) → IsWeakRun (tree_of accepted.now.program.term) labels w
        → w.state.active ≡ None → IsTriedOut w i first turns tried → IsTryOf i tried t → HoldsIn w t }
{}

/// States that a run's labels and the steps and activations of its tries are together at most three times the steps and
/// entries of its journal, with the notes of the tries. The run ends with nothing active.
pub fn turns_are_told()
    ensures { (program : Tree) (labels : List Label) (tries : List Try) (w : Weak) → IsWeakRun program labels w → w.state.active ≡ None
        → AreTriesInOrder 0 (length labels) tries → length labels + turns_of_tries tries ≤ 3 * total_steps (straight_with 0 tries outset labels) }
{}

/// States that between two notes of one member that came to a false condition, the journal of a weak run has a fragment
/// that left or ended, or a location that unprotected code made.
pub fn notes_stand_apart()
    ensures { (program : Tree) (labels : List Label) (tries : List Try) (w : Weak) → IsWeakRun program labels w → AreTriesInOrder 0 (length labels) tries
        → AreTried program labels tries → AreSpaced labels tries → AreNotedApart (straight_with 0 tries outset labels) }
{}
