//! Theorems on journals and strong runs.

ghost use Rattle.std.specs.Prelude.{◌≡◌, ◌++◌, ◌↔◌, ℕ, List, Some, None, IsSome, take};
ghost use Rattle.ame_term.specs.Tree.{Tree};
ghost use Rattle.ame_term.specs.State.{State, start, IsRun};
ghost use Rattle.ame_term.specs.declared.semantics.Label.{Label};
ghost use Rattle.ame_journal.specs.declared.entry.Entry.{Entry};
ghost use Rattle.ame_journal.specs.Calls.{calls_along, device_calls};
ghost use Rattle.ame_journal.specs.Labels.{UnfoldsAll};
ghost use Rattle.ame_journal.specs.Replayed.{Replayed, begun_at};
ghost use Rattle.ame_journal.specs.Replay.{replay, replay_from};
ghost use Rattle.ame_weak.specs.Straight.{straight};

/// Says that each strong run that ends with nothing active has a journal, which unfolds into exactly the labels of the run,
/// leads to its state and makes its calls. So strong runs of a program reach exactly those states at rest to which its
/// journals lead.
pub fn runs_have_journals()
    ensures journal { (program : Tree) (labels : List Label) (s : State) → IsRun program labels s → s.active ≡ None
        → (r : Replayed) × UnfoldsAll (begun_at program) (straight labels) labels r × (r.state ≡ s) }
    ensures calls { (program : Tree) (labels : List Label) (s : State) (device : ℕ) → IsRun program labels s → s.active ≡ None
        → device_calls device program (straight labels) ≡ calls_along device (start program) labels }
    ensures run { (program : Tree) (entries : List Entry) (labels : List Label) (r : Replayed) → UnfoldsAll (begun_at program) entries labels r
        → IsRun program labels r.state × (r.state.active ≡ None) }
    ensures states { (program : Tree) (s : State) → ((labels : List Label) × IsRun program labels s × (s.active ≡ None))
        ↔ ((entries : List Entry) × (r : Replayed) × (replay program entries ≡ Some r) × (r.state ≡ s)) }
{}

/// Says that entries that can be replayed from the state of a journal make a longer journal with it, which leads to their
/// state. Its labels are those of the journal, then theirs.
pub fn journals_compose()
    ensures replayed { (program : Tree) (entries more : List Entry) (r t : Replayed) → replay program entries ≡ Some r
        → replay_from r more ≡ Some t → replay program (entries ++ more) ≡ Some t }
    ensures unfolded { (r s t : Replayed) (entries more : List Entry) (labels others : List Label) → UnfoldsAll r entries labels s
        → UnfoldsAll s more others t → UnfoldsAll r (entries ++ more) (labels ++ others) t }
{}

/// Says that each prefix of a journal is a journal, and that the other entries can be replayed from its state. The labels of
/// the journal are those of the prefix, then those of the other entries.
pub fn prefixes_replay()
    ensures replayed { (program : Tree) (entries more : List Entry) (t : Replayed) → replay program (entries ++ more) ≡ Some t
        → (r : Replayed) × (replay program entries ≡ Some r) × (replay_from r more ≡ Some t) }
    ensures unfolded { (r t : Replayed) (entries more : List Entry) (labels : List Label) → UnfoldsAll r (entries ++ more) labels t
        → (s : Replayed) × (first : List Label) × (rest : List Label) × UnfoldsAll r entries first s × UnfoldsAll s more rest t × (labels ≡ first ++ rest) }
    ensures cut { (program : Tree) (entries : List Entry) (t : Replayed) (n : ℕ) → replay program entries ≡ Some t
        → IsSome (replay program (take n entries)) }
{}
