//! The judge's answer to a journal that replays.

ghost use Rattle.std.specs.Prelude.{◌≡◌, List, Some};
ghost use Rattle.ame_term.specs.Tree.{Tree};
ghost use Rattle.ame_journal.specs.declared.entry.Entry.{Entry};
ghost use Rattle.ame_journal.specs.Replayed.{Replayed};
ghost use Rattle.ame_journal.specs.Replay.{replay};
ghost use Rattle.ame_check.specs.Judge.{Judges};
ghost use Rattle.ame_check.specs.declared.judging.Judged.{Judged};
ghost use Rattle.ame_certified.specs.Low.{IsLowJournal};
ghost use Rattle.ame_certified.specs.RoundTrip.{IsRoundTrip, IsNeverInvalid};

/// Says that `judge` finds a journal valid with the output of its replay, or too long, if it replays and no entry passes a tall form.
pub fn journals_are_judged_valid()
    ensures { (program : Tree) (entries : List Entry) (r : Replayed) (judged : Judged) → replay program entries ≡ Some r
        → IsLowJournal program entries → Judges program entries judged → IsRoundTrip r.state.output judged }
{}

/// Says that `judge` finds no journal invalid that replays.
pub fn journals_are_never_invalid()
    ensures { (program : Tree) (entries : List Entry) (r : Replayed) (judged : Judged) → replay program entries ≡ Some r
        → Judges program entries judged → IsNeverInvalid r.state.output judged }
{}
