//! Blocked is dead.

ghost use Rattle.std.specs.Prelude.{◌≡◌, ◌≤◌, ℕ, List, [], ◌∷◌, length, true, Some, None};
ghost use Rattle.ame_term.specs.State.{State, IsRun, after, run};
ghost use Rattle.ame_term.specs.View.{tree_of};
ghost use Rattle.ame_term.specs.declared.semantics.Label.{Label};
ghost use Rattle.ame_term.specs.declared.semantics.StepKind.{StepKind};
ghost use Rattle.ame_journal.specs.declared.entry.Entry.{Entry};
ghost use Rattle.ame_journal.specs.Replayed.{Replayed};
ghost use Rattle.ame_journal.specs.Replay.{fails_after, replay, replay_from};
ghost use Rattle.ame_journal.specs.Totals.{without_notes};
ghost use Rattle.ame_calculus.specs.Blocked.{IsWitness, IsBlockedState};

use ame_term::Accepted;

/// Says that no run goes on from a blocked state to another state at rest, so no member will make a condition true. Each label
/// from there belongs to one member, which makes at most the steps of its witness, and can neither leave nor end. Only notes can
/// follow in a certificate. A `stuck` note that is possible is a witness.
pub fn blocked_is_dead(accepted: &Accepted)
    ensures dead { (labels more : List Label) (s t : State) (label : Label) → IsRun (tree_of accepted.now.program.term) labels s → IsBlockedState s
        → run s (label ∷ more) ≡ Some t → (i : ℕ) × (label ≡ Label.Activate i) × (t.active ≡ Some i)
        × (after t Label.Leave ≡ None) × (after t Label.End ≡ None) }
    ensures few { (labels more : List Label) (s t : State) (i : ℕ) (kinds : List StepKind) → IsRun (tree_of accepted.now.program.term) labels s
        → IsBlockedState s → IsWitness s i kinds → run s (Label.Activate i ∷ more) ≡ Some t → length more ≤ length kinds }
    ensures notes { (s : State) (i n : ℕ) (fresh : List ℕ) → fails_after s i n fresh ≡ true
        → (kinds : List StepKind) × IsWitness s i kinds × (length kinds ≡ n) }
    ensures rests { (labels more : List Label) (s t : State) → IsRun (tree_of accepted.now.program.term) labels s → IsBlockedState s
        → run s more ≡ Some t → t.active ≡ None → (more ≡ []) × (t ≡ s) }
    ensures certificates { (entries more : List Entry) (r t : Replayed) → replay (tree_of accepted.now.program.term) entries ≡ Some r
        → IsBlockedState r.state → replay_from r more ≡ Some t → (t ≡ r) × (without_notes more ≡ []) }
{}
