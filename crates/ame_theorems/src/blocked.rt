//! The theorem on runs that ended blocked.

ghost use Rattle.std.specs.Prelude.{◌≡◌, [], List, Some, None};
ghost use Rattle.ame_term.specs.Signature.{Signature};
ghost use Rattle.ame_term.specs.State.{State, run};
ghost use Rattle.ame_term.specs.Tree.{Val};
ghost use Rattle.ame_term.specs.View.{tree_of};
ghost use Rattle.ame_term.specs.declared.semantics.Label.{Label};
ghost use Rattle.ame_journal.specs.Replay.{replay_from};
ghost use Rattle.ame_journal.specs.Replayed.{Replayed};
ghost use Rattle.ame_journal.specs.Totals.{without_notes};
ghost use Rattle.ame_journal.specs.declared.entry.Entry.{Entry};
ghost use Rattle.ame_protocol.specs.declared.stop.Stop.{Stop};
ghost use Rattle.ame_protocol.specs.declared.types.Limits.{Limits};
ghost use Rattle.ame_engine.specs.Ending.{End, IsEnd};

use ame_machine::Runner;
use ame_term::Accepted;

/// Says that a run that ended with `blocked` is final: by the rules, no run goes on from the state that it left to another state at rest. In a
/// certificate that goes on from there, only notes can follow.
pub fn blocked_ends_are_final<M: Runner>(accepted: &Accepted)
    ensures rests { (signature : Signature) (limits : Limits) (value : M.Value → Val) (end : End M.Value)
        → (over : IsEnd (tree_of accepted.now.program.term) signature limits value end) → end.stop ≡ Some Stop.Blocked
        → (more : List Label) (t : State) → run over.r.state more ≡ Some t → t.active ≡ None → (more ≡ []) × (t ≡ over.r.state) }
    ensures certificates { (signature : Signature) (limits : Limits) (value : M.Value → Val) (end : End M.Value)
        → (over : IsEnd (tree_of accepted.now.program.term) signature limits value end) → end.stop ≡ Some Stop.Blocked
        → (more : List Entry) (t : Replayed) → replay_from over.r more ≡ Some t → (t ≡ over.r) × (without_notes more ≡ []) }
{}
