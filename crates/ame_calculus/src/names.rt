//! The names of locations don't matter.

ghost use Rattle.std.specs.Prelude.{◌≡◌, ℕ, List, Some, map};
ghost use Rattle.ame_term.specs.Context.{AtValue, AtRedex, focus, fill};
ghost use Rattle.ame_term.specs.Frame.{Side};
ghost use Rattle.ame_term.specs.State.{State, IsRun, run};
ghost use Rattle.ame_term.specs.Substitute.{substitute};
ghost use Rattle.ame_term.specs.Tree.{Val, Tree};
ghost use Rattle.ame_term.specs.View.{tree_of};
ghost use Rattle.ame_term.specs.declared.semantics.Label.{Label};
ghost use Rattle.ame_laws.specs.Orderly.{IsOrderly};
ghost use Rattle.ame_journal.specs.declared.entry.Entry.{Entry};
ghost use Rattle.ame_journal.specs.Calls.{device_calls};
ghost use Rattle.ame_journal.specs.Replayed.{Replayed};
ghost use Rattle.ame_journal.specs.Replay.{replay};
ghost use Rattle.ame_calculus.specs.Renamed.{AreInverse, IsRenamed, renamed, renamed_value, renamed_label, renamed_entry};

use ame_term::Accepted;

/// Says that labels lead from a renamed state to a renamed state, if the locations that they make are renamed too. So they do
/// back again, since a renaming is undone. A renamed term has its redex at the same place, and values go in for its names alike.
pub fn renamed_labels_run()
    ensures value { (f : ℕ → ℕ) (t : Tree) (v : Val) → focus t ≡ AtValue v → focus (renamed f t) ≡ AtValue (renamed_value f v) }
    ensures redex { (f : ℕ → ℕ) (t r : Tree) (side : Side) → focus t ≡ AtRedex side r
        → focus (renamed f t) ≡ AtRedex side (renamed f r) }
    ensures filled { (f : ℕ → ℕ) (t u : Tree) → fill (renamed f t) (renamed f u) ≡ renamed f (fill t u) }
    ensures substituted { (f : ℕ → ℕ) (t : Tree) (x : ℕ) (v : Val)
        → substitute (renamed f t) x (renamed_value f v) ≡ renamed f (substitute t x v) }
    ensures back { (f g : ℕ → ℕ) (s t : State) → AreInverse f g → IsRenamed f s t → AreInverse g f × IsRenamed g t s }
    ensures run { (f g : ℕ → ℕ) (labels : List Label) (s t u : State) → AreInverse f g → IsOrderly s → IsOrderly t → IsRenamed f s t
        → run s labels ≡ Some u → (v : State) × (run t (map (renamed_label f) labels) ≡ Some v) × IsRenamed f u v }
{}

/// Says that a certificate replays to the renamed state, with the same lines and calls, if its locations are renamed in the program
/// and in each entry.
pub fn renamed_certificates_replay()
    ensures replays { (f g : ℕ → ℕ) (program : Tree) (entries : List Entry) (r : Replayed) → AreInverse f g → replay program entries ≡ Some r
        → (t : Replayed) × (replay (renamed f program) (map (renamed_entry f) entries) ≡ Some t) × IsRenamed f r.state t.state × (t.inside ≡ r.inside) }
    ensures calls { (f g : ℕ → ℕ) (program : Tree) (entries : List Entry) (r : Replayed) (device : ℕ) → AreInverse f g
        → replay program entries ≡ Some r
        → device_calls device (renamed f program) (map (renamed_entry f) entries) ≡ device_calls device program entries }
{}

/// Says that an accepted program has no locations to rename: each certificate of it stays one, with the same lines and
/// calls, if its entries name other locations.
pub fn names_of_locations_do_not_matter(accepted: &Accepted)
    ensures program { (f : ℕ → ℕ) → renamed f (tree_of accepted.now.program.term) ≡ tree_of accepted.now.program.term }
    ensures certificate { (f g : ℕ → ℕ) (entries : List Entry) (r : Replayed) → AreInverse f g
        → replay (tree_of accepted.now.program.term) entries ≡ Some r
        → (t : Replayed) × (replay (tree_of accepted.now.program.term) (map (renamed_entry f) entries) ≡ Some t) × IsRenamed f r.state t.state
        × (t.inside ≡ r.inside) }
    ensures calls { (f g : ℕ → ℕ) (entries : List Entry) (r : Replayed) (device : ℕ) → AreInverse f g
        → replay (tree_of accepted.now.program.term) entries ≡ Some r
        → device_calls device (tree_of accepted.now.program.term) (map (renamed_entry f) entries)
        ≡ device_calls device (tree_of accepted.now.program.term) entries }
{}

/// Says that a run of an accepted program is one but for the names of locations. Two runs by labels that are the same but for
/// the locations that they make end in states that are the same but for the names of locations.
pub fn runs_are_one_but_for_names(accepted: &Accepted)
    ensures { (labels others : List Label) (s t : State) → IsRun (tree_of accepted.now.program.term) labels s
        → IsRun (tree_of accepted.now.program.term) others t → map (renamed_label (λ l. 0)) labels ≡ map (renamed_label (λ l. 0)) others
        → (f : ℕ → ℕ) × (g : ℕ → ℕ) × AreInverse f g × IsRenamed f s t }
{}
