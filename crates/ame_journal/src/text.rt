//! The text of a journal.

ghost use Rattle.std.specs.Prelude.{◌≡◌, ◌==◌, ◌++◌, ◌<◌, ◌≤◌, ◌^◌, [], ◌∷◌, IfOk, IfErr, MatchOption, OnOk, length};
ghost use Rattle.std.specs.List.{position_or_len};
ghost use Rattle.ame_journal.specs.JournalView.{IsFit};
ghost use Rattle.ame_journal.specs.Text.{IsText, Explains};
ghost use Rattle.ame_journal.specs.Lines.{Lacks, IsCut, ReadsLine, ReadsNoLine};

use crate::entry::Entry;
use crate::fault::JournalFault;
use crate::journal::Journal;
use crate::line::entry_of;
use crate::spelling::write_line;
use ame_term::NoMemory;
use std::alloc::Global;

impl Journal {
    /// Returns the text: a line for each entry. Its cost is linear in its length.
    pub fn to_text(&self, alloc: Global) -> Result<Vec<u8>, NoMemory>
        ensures { IfOk result (λ text. IsText text.items self.now.entries) }
    {
        let mut text = Vec::new(alloc);
        let entries = self.entries();
        for entry in entries {
            write_line(&mut text, entry)?;
        }
        Ok(text)
    }

    /// Reads the journal that a text spells. Its cost is linear in the text's length.
    pub fn from_text(alloc: Global, text: &[u8]) -> Result<Journal, JournalFault>
        requires small { length text.now < 2 ^ 32 }
        ensures ok { IfOk result (λ journal. IsText text.now journal.entries) }
        ensures err { IfErr result (Explains text.now) }
    {
        let mut journal = Journal::new(alloc);
        let mut rest = text;
        while !rest.is_empty() {
            match next_entry(alloc, rest) {
                Err(NoMemory) => return Err(JournalFault::NoMemory),
                Ok(None) => return Err(JournalFault::BadLine(journal.entries().len() as u32 + 1)),
                Ok(Some((entry, behind))) => {
                    if add(&mut journal, entry).is_err() {
                        return Err(JournalFault::NoMemory);
                    }
                    rest = behind;
                }
            }
        }
        Ok(journal)
    }
}

/// Adds an entry, in a place made for it.
fn add(journal: &mut Journal, entry: Entry) -> Result<(), NoMemory>
    requires { IsFit entry }
    ensures { OnOk result (journal.new.entries ≡ journal.old.entries ++ entry ∷ []) }
{
    journal.room()?;
    journal.push(entry);
    Ok(())
}

/// Returns the bytes before the first line feed, and those after it.
fn first_line(text: &[u8]) -> Option<(&[u8], &[u8])>
    ensures { MatchOption result (Lacks 10 text.now) (λ cut. IsCut text.now cut.0.now cut.1.now) }
{
    let (line, rest) = text.split_at(line_len(text));
    match rest {
        [_, behind @ ..] => Some((line, behind)),
        [] => None,
    }
}

/// Counts the bytes before the first line feed.
fn line_len(text: &[u8]) -> usize
    ensures value { result ≡ position_or_len (λ b. b == 10) text.now }
    ensures within { result ≤ length text.now }
{
    text.iter().take_while(|b| **b != b'\n').count()
}

/// Reads the entry that the first line spells, and returns it with the text after that line.
fn next_entry(alloc: Global, text: &[u8]) -> Result<Option<(Entry, &[u8])>, NoMemory>
    ensures { IfOk result (λ read. MatchOption read (ReadsNoLine text.now) (λ r. ReadsLine text.now r.0 r.1.now)) }
{
    let Some((line, behind)) = first_line(text) else {
        return Ok(None);
    };
    match entry_of(alloc, line)? {
        None => Ok(None),
        Some(entry) => Ok(Some((entry, behind))),
    }
}
