//! Theorems: promises of this crate that nothing above it cites, each the statement of a lemma.

ghost use Rattle.std.specs.Prelude.{◌≡◌, List, Some, true, ℕ};
ghost use Rattle.ame_term.specs.Tree.{Tree};
ghost use Rattle.ame_term.specs.State.{IsRun, start};
ghost use Rattle.ame_term.specs.declared.semantics.Label.{Label};
ghost use Rattle.ame_journal.specs.declared.entry.Entry.{Entry};
ghost use Rattle.ame_journal.specs.Replayed.{Replayed, begun_at};
ghost use Rattle.ame_journal.specs.Labels.{UnfoldsAll};
ghost use Rattle.ame_journal.specs.Replay.{replay, replay_entry};
ghost use Rattle.ame_journal.specs.Totals.{is_note, without_notes};
ghost use Rattle.ame_journal.specs.Calls.{calls_along, device_calls};
ghost use Rattle.ame_term.specs.View.{tree_of};
ghost use Rattle.ame_laws.specs.Typed.StoreTyping.{StoreTyping};
ghost use Rattle.ame_laws.specs.Typed.Listed.{signature_of};
ghost use Rattle.ame_laws.specs.Typed.TypedState.{IsTyped};
ghost use Rattle.ame_journal.specs.Text.{IsText, IsFirstBadLine};

use ame_term::Accepted;

/// States that a journal that can be replayed stands for one strong run: its entries unfold into labels,
/// each legal in its state, and the run ends in the replayed state.
pub fn journal_is_one_run()
    ensures { (program : Tree) (entries : List Entry) (r : Replayed) → replay program entries ≡ Some r →
        (labels : List Label) × UnfoldsAll (begun_at program) entries labels r × IsRun program labels r.state }
{}

/// States that a journal whose entries unfold into labels can be replayed, and ends in the same state.
pub fn unfolded_is_replayed()
    ensures { (program : Tree) (entries : List Entry) (labels : List Label) (r : Replayed) →
        UnfoldsAll (begun_at program) entries labels r → replay program entries ≡ Some r }
{}

/// Entries unfold in one way.
pub fn labels_are_one()
    ensures { (r : Replayed) (entries : List Entry) (labels more : List Label) (t u : Replayed) →
        UnfoldsAll r entries labels t → UnfoldsAll r entries more u → (labels ≡ more) × (t ≡ u) }
{}

/// States that a note changes nothing, and that a journal leads to the same state without its notes.
pub fn notes_change_nothing()
    ensures entry { (r : Replayed) (entry : Entry) (t : Replayed) → is_note entry.kind ≡ true → replay_entry r entry ≡ Some t → t ≡ r }
    ensures left_out { (program : Tree) (entries : List Entry) (r : Replayed) → replay program entries ≡ Some r →
        replay program (without_notes entries) ≡ Some r }
{}

/// States that the calls of a device that a journal makes are those of its labels.
pub fn calls_are_of_the_labels()
    ensures { (device : ℕ) (program : Tree) (entries : List Entry) (labels : List Label) (r : Replayed) →
        UnfoldsAll (begun_at program) entries labels r → device_calls device program entries ≡ calls_along device (start program) labels }
{}

/// States that the replayed states of an accepted program are typed.
pub fn accepted_replayed_is_typed(accepted: &Accepted)
    ensures { (entries : List Entry) (r : Replayed) → replay (tree_of accepted.now.program.term) entries ≡ Some r →
        (cells : StoreTyping) × IsTyped (signature_of accepted.now) cells r.state }
{}

/// States that a text spells one journal at most.
pub fn text_is_of_one_journal()
    ensures { (text : List ℕ) (entries others : List Entry) → IsText text entries → IsText text others → entries ≡ others }
{}

/// States that a text has at most one first bad line.
pub fn first_bad_line_is_one()
    ensures { (text : List ℕ) (m n : ℕ) → IsFirstBadLine text m → IsFirstBadLine text n → m ≡ n }
{}
