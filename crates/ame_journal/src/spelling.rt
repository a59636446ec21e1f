//! Writing one line of a journal's text.

ghost use Rattle.std.specs.Prelude.{◌≡◌, ◌++◌, ◌<◌, ◌^◌, All, FitsSigned, IfSome, OnOk, decimal, map};
ghost use Rattle.std.specs.Int.{w64};
ghost use Rattle.std.specs.List.{flat_map};
ghost use Rattle.ame_journal.specs.JournalView.{IsFit};
ghost use Rattle.ame_journal.specs.Text.{entry_line, IsSpellable};
ghost use Rattle.ame_journal.specs.Lines.{part_of, answer_text};

use crate::entry::Entry;
use ame_term::{Loc, NoMemory};
use itoa::Buffer;

/// Appends the line of an entry.
pub fn write_line(text: &mut Vec<u8>, entry: &Entry) -> Result<(), NoMemory>
    requires { IsFit entry.now }
    ensures written { OnOk result (text.new.items ≡ text.old.items ++ entry_line entry.now) }
    ensures spellable { OnOk result (IsSpellable entry.now) }
{
    write(text, entry.kind.word())?;
    write_number(text, u64::from(entry.seat))?;
    write_number(text, entry.number)?;
    write_number(text, entry.steps)?;
    write_fresh(text, entry.fresh.as_slice())?;
    write_answer(text, entry.answer)?;
    write(text, b"\n")
}

fn write(text: &mut Vec<u8>, bytes: &[u8]) -> Result<(), NoMemory>
    ensures { OnOk result (text.new.items ≡ text.old.items ++ bytes.now) }
{
    text.extend_from_slice(bytes)?;
    Ok(())
}

/// Appends a space and a number.
fn write_number(text: &mut Vec<u8>, number: u64) -> Result<(), NoMemory>
    ensures written { OnOk result (text.new.items ≡ text.old.items ++ part_of (decimal number)) }
    ensures range { number < 2 ^ 64 }
{
    let mut buffer = Buffer::new();
    write(text, b" ")?;
    write(text, buffer.format(number).as_bytes())
}

/// Appends each location, after a space.
fn write_fresh(text: &mut Vec<u8>, fresh: &[Loc]) -> Result<(), NoMemory>
    ensures written { OnOk result (text.new.items ≡ text.old.items ++ flat_map (λ l. part_of (decimal l)) (map (λ l. l.0) fresh.now)) }
    ensures range { OnOk result (All (λ l. l < 2 ^ 32) (map (λ l. l.0) fresh.now)) }
{
    for location in fresh {
        write_number(text, u64::from(location.0))?;
    }
    Ok(())
}

/// Appends an equals sign and the answer, if there is one.
fn write_answer(text: &mut Vec<u8>, answer: Option<i64>) -> Result<(), NoMemory>
    ensures written { OnOk result (text.new.items ≡ text.old.items ++ answer_text answer) }
    ensures range { IfSome answer (FitsSigned w64) }
{
    match answer {
        None => Ok(()),
        Some(answer) => {
            let mut buffer = Buffer::new();
            write(text, b" = ")?;
            write(text, buffer.format(answer).as_bytes())
        }
    }
}
