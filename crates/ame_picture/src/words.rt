//! The looks of marks, and the words of their titles.

ghost use Rattle.std.specs.Prelude.{◌≡◌, MatchOption, codes};
ghost use Rattle.ame_journal.specs.Kinds.{kind_word};
ghost use Rattle.ame_drawing.specs.Lanes.{kind_shown};

use ame_drawing::{ArrowKind, Did, Entered, Fate, SpanEnd};
use ame_journal::EntryKind;

/// Returns how the box of an attempt looks.
pub(crate) fn fate_class(fate: Fate) -> &'static str
    ensures { result.now ≡ codes "ran" → kind_shown fate ≡ Some EntryKind.Ran }
{
    match fate {
        Fate::UnderWay => "begun",
        Fate::Ended | Fate::Left => "ran",
        Fate::Visited => "free",
        Fate::RolledBack => "rolled",
        Fate::Stuck => "stuck",
        Fate::Failed | Fate::Tall | Fate::Cut => "crossed",
    }
}

/// Returns what became of an attempt.
pub(crate) fn fate_words(fate: Fate) -> &'static str {
    match fate {
        Fate::UnderWay => "the run was over before it was",
        Fate::Ended => "committed, and the task ended",
        Fate::Left => "committed, and the task entered unprotected code",
        Fate::Visited => "ran unprotected code",
        Fate::Failed => "a device failed",
        Fate::RolledBack => "rolled back",
        Fate::Stuck => "rolled back: condition false",
        Fate::Tall => "rolled back: value nested too deeply",
        Fate::Cut => "cut off: the turns are used up",
    }
}

/// Returns the sort of an attempt: the kind of the entry that it made, or `try`.
pub(crate) fn attempt_sort(entry: Option<Entered>) -> &'static [u8]
    ensures { MatchOption entry (result.now ≡ codes "try") (λ entry. result.now ≡ kind_word entry.kind) }
{
    match entry {
        None => b"try",
        Some(entry) => entry.kind.word(),
    }
}

/// Returns how an entry of a kind looks.
pub(crate) fn kind_class(kind: EntryKind) -> &'static str
    ensures { result.now ≡ codes "ran" → kind ≡ EntryKind.Ran }
{
    match kind {
        EntryKind::Ran => "ran",
        EntryKind::Free => "free",
        EntryKind::Stuck => "stuck",
        EntryKind::Cut | EntryKind::Tall => "crossed",
    }
}

/// Returns what an entry of a kind says of its fragment.
pub(crate) fn kind_words(kind: EntryKind) -> &'static str {
    match kind {
        EntryKind::Ran => "ran",
        EntryKind::Free => "ran unprotected code",
        EntryKind::Stuck => "rolled back: condition false",
        EntryKind::Cut => "cut off, and taken back",
        EntryKind::Tall => "rolled back: value nested too deeply",
    }
}

/// Returns how a span looks.
pub(crate) fn outcome_class(outcome: SpanEnd) -> &'static str
    ensures { result.now ≡ codes "ran" → outcome ≡ SpanEnd.Committed }
{
    match outcome {
        SpanEnd::Owned => "begun",
        SpanEnd::Committed => "ran",
        SpanEnd::Undone => "rolled",
    }
}

/// Returns what became of what was written.
pub(crate) fn outcome_words(outcome: SpanEnd) -> &'static str {
    match outcome {
        SpanEnd::Owned => "the run was over before it was",
        SpanEnd::Committed => "committed",
        SpanEnd::Undone => "undone",
    }
}

/// Returns how an arrow looks.
pub(crate) fn arrow_class(kind: ArrowKind) -> &'static str {
    match kind {
        ArrowKind::Starts => "start",
        ArrowKind::Wakes => "wake",
        ArrowKind::GoesOn => "on",
        ArrowKind::InTheWay => "way",
    }
}

/// Returns the sign of what a pick did, if it has one.
pub(crate) fn sign_word(did: Did) -> Option<&'static str> {
    match did {
        Did::Read => Some("r"),
        Did::Wrote => Some("w"),
        Did::Allocated => Some("+"),
        Did::Met(_) | Did::FoundInvalid => Some("x"),
        Did::Noted => Some("?"),
        Did::GrewTall | Did::DeviceFailed(_) => Some("!"),
        Did::Undid => Some("u"),
        Did::CameHome => Some("o"),
        Did::Idled => Some("-"),
        _ => None,
    }
}

/// Returns how that sign looks.
pub(crate) fn sign_class(did: Did) -> &'static str {
    match did {
        Did::Met(_) | Did::FoundInvalid => "back",
        Did::Idled => "idle",
        _ => "sign",
    }
}
