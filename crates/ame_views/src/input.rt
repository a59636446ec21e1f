//! A run as one text: its journal, the line `program`, and the program's text.

ghost use Rattle.std.specs.Prelude.{◌≡◌, ◌++◌, ◌∷◌, [], ◌↔◌, ℕ, List, All, IfOk, OnOk, IsTrue, MatchOption};
ghost use Rattle.ame_journal.specs.declared.entry.Entry.{Entry};
ghost use Rattle.ame_journal.specs.JournalView.{IsFit};
ghost use Rattle.ame_views.specs.Input.{IsCertificateInput};

use ame_journal::{Entry, EntryKind, Journal};
use ame_page::Page;
use ame_term::{Copied, NoMemory};
use std::alloc::Global;

/// Returns the journal's text, the line `program`, and the program's text.
pub fn input_of(alloc: Global, journal: &Journal, program: &[u8]) -> Result<Vec<u8>, NoMemory>
    ensures { IfOk result (λ input. IsCertificateInput input.items journal.now.entries program.now) }
{
    let mut input = Page::from_bytes(journal.to_text(alloc)?);
    input.add(b"program\n")?;
    input.add(program)?;
    Ok(input.into_bytes())
}

/// States that an input has one journal and one program.
pub fn input_is_of_one_run()
    ensures { (input program other : List ℕ) (entries others : List Entry) → IsCertificateInput input entries program → IsCertificateInput input others other
        → (entries ≡ others) × (program ≡ other) }
{}

/// Returns a journal of these entries, if each may stand in one.
pub fn journal_of(alloc: Global, entries: &[Entry]) -> Result<Option<Journal>, NoMemory>
    ensures { IfOk result (λ made. MatchOption made (¬ All IsFit entries.now) (λ journal. journal.entries ≡ entries.now)) }
{
    let mut journal = Journal::new(alloc);
    for entry in entries {
        if !is_fit(entry) {
            return Ok(None);
        }
        add(alloc, &mut journal, entry)?;
    }
    Ok(Some(journal))
}

/// Returns whether an entry may stand in a journal.
fn is_fit(entry: &Entry) -> bool
    ensures { IsTrue result ↔ IsFit entry.now }
{
    match entry.kind {
        EntryKind::Free => entry.seat < 32,
        EntryKind::Ran | EntryKind::Stuck | EntryKind::Cut | EntryKind::Tall => {
            entry.seat < 32 && entry.answer.is_none()
        }
    }
}

/// Appends a copy of an entry.
fn add(alloc: Global, journal: &mut Journal, entry: &Entry) -> Result<(), NoMemory>
    requires { IsFit entry.now }
    ensures { OnOk result (journal.new.entries ≡ journal.old.entries ++ entry.now ∷ []) }
{
    let entry = entry.copy(alloc)?;
    journal.room()?;
    journal.push(entry);
    Ok(())
}
