//! Theorems: promises of this crate that nothing above it cites, each the statement of a lemma.

ghost use Rattle.std.specs.Prelude.{List};
ghost use Rattle.ame_term.specs.Tree.{Tree};
ghost use Rattle.ame_journal.specs.declared.entry.Entry.{Entry};
ghost use Rattle.ame_check.specs.Judge.{Judges, AreAlike};
ghost use Rattle.ame_check.specs.declared.judging.Judged.{Judged};

/// Says that a journal is judged in one way: the conditions of the four answers exclude each other, and each of them holds at one place alone.
/// An invalid one may have several reasons.
pub fn journals_are_judged_in_one_way()
    ensures { (program : Tree) (entries : List Entry) (one other : Judged)
        → Judges program entries one → Judges program entries other → AreAlike one other }
{}
