//! Independent entries commute.

ghost use Rattle.std.specs.Prelude.{◌≡◌, ◌∷◌, ◌++◌, ℕ, List, Some, false};
ghost use Rattle.ame_term.specs.Tree.{Tree};
ghost use Rattle.ame_journal.specs.declared.entry.Entry.{Entry};
ghost use Rattle.ame_journal.specs.Calls.{device_calls};
ghost use Rattle.ame_journal.specs.Replayed.{Replayed, is_inside};
ghost use Rattle.ame_journal.specs.Replay.{replay, replay_entry};
ghost use Rattle.ame_journal.specs.Totals.{is_note};
ghost use Rattle.ame_machine.specs.Run.Local.{LocalState};
ghost use Rattle.ame_calculus.specs.Independent.{IsOfRun, MaySwap};

/// Says that each entry of a certificate that is no note is a run of its member, which took and set what it says.
pub fn entries_are_runs()
    ensures { (program : Tree) (front : List Entry) (entry : Entry) (r s : Replayed) → replay program front ≡ Some r
        → replay_entry r entry ≡ Some s → is_note entry.kind ≡ false → (p : LocalState) × IsOfRun r entry p }
{}

/// Says that two neighbours of a certificate that don't depend on each other can be swapped. Both orders lead to the same
/// state, with the same members inside, and so does the rest of the certificate. They make the same calls of each device. The
/// program need not be typed.
pub fn independent_entries_commute()
    ensures neighbours { (program : Tree) (front : List Entry) (a b : Entry) (r s t : Replayed) → replay program front ≡ Some r → MaySwap r a b
        → replay_entry r a ≡ Some s → replay_entry s b ≡ Some t → (u : Replayed) × (v : Replayed) × (replay_entry r b ≡ Some u)
        × (replay_entry u a ≡ Some v) × (v.state ≡ t.state) × ((i : ℕ) → is_inside v i ≡ is_inside t i) }
    ensures certificates { (program : Tree) (front behind : List Entry) (a b : Entry) (r t : Replayed) → replay program front ≡ Some r
        → MaySwap r a b → replay program (front ++ a ∷ b ∷ behind) ≡ Some t
        → (v : Replayed) × (replay program (front ++ b ∷ a ∷ behind) ≡ Some v) × (v.state ≡ t.state) }
    ensures calls { (program : Tree) (front behind : List Entry) (a b : Entry) (r t : Replayed) (device : ℕ) → replay program front ≡ Some r
        → MaySwap r a b → replay program (front ++ a ∷ b ∷ behind) ≡ Some t
        → device_calls device program (front ++ b ∷ a ∷ behind) ≡ device_calls device program (front ++ a ∷ b ∷ behind) }
{}
