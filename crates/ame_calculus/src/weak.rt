//! The weak runtime shows what the strong one shows.

ghost use Rattle.std.specs.Prelude.{◌≡◌, ◌↔◌, ℕ, ℤ, List, None};
ghost use Rattle.ame_term.specs.Tree.{Tree};
ghost use Rattle.ame_term.specs.State.{State, start, IsRun};
ghost use Rattle.ame_term.specs.View.{tree_of};
ghost use Rattle.ame_term.specs.declared.semantics.Label.{Label};
ghost use Rattle.ame_journal.specs.Calls.{calls_along};
ghost use Rattle.ame_weak.specs.Weak.{Weak, IsWeakRun, holding_none, with_held_released, weak_start, weak_calls};

use ame_term::Accepted;

/// Says that each strong run that ends with nothing active is a weak run, by the same labels, to the same state with nothing
/// held, and makes the same calls of each device. So it is of any strong run, if all that is held takes effect. The program need
/// not be typed.
pub fn strong_runs_are_weak()
    ensures runs { (program : Tree) (labels : List Label) (s : State) → IsRun program labels s → s.active ≡ None
        → IsWeakRun program labels (holding_none s) }
    ensures calls { (program : Tree) (labels : List Label) (s : State) (device : ℕ) → IsRun program labels s → s.active ≡ None
        → weak_calls device (weak_start program) labels ≡ calls_along device (start program) labels }
    ensures under_way { (program : Tree) (labels : List Label) (s : State) → IsRun program labels s
        → (w : Weak) × IsWeakRun program labels w × ((with_held_released w).state ≡ s) }
{}

/// Says that weak runs of an accepted program reach the same states at rest as its strong runs, with the same calls of each
/// device, and that no weak run holds anything back there.
pub fn weak_runs_show_what_strong_runs_show(accepted: &Accepted)
    ensures shows { (s : State) (calls : ℕ → List (ℤ × ℤ)) → s.active ≡ None
        → ((labels : List Label) × IsRun (tree_of accepted.now.program.term) labels s
        × ((device : ℕ) → calls_along device (start (tree_of accepted.now.program.term)) labels ≡ calls device))
        ↔ ((labels : List Label) × IsWeakRun (tree_of accepted.now.program.term) labels (holding_none s)
        × ((device : ℕ) → weak_calls device (weak_start (tree_of accepted.now.program.term)) labels ≡ calls device)) }
    ensures rests { (labels : List Label) (w : Weak) → IsWeakRun (tree_of accepted.now.program.term) labels w → w.state.active ≡ None
        → w ≡ holding_none w.state }
{}
