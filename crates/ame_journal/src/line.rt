//! Reading one line of a journal's text.

ghost use Rattle.std.specs.Prelude.{◌≡◌, map, IfOk};
ghost use Rattle.ame_journal.specs.Text.{answer_words, words_of, IsSpellable};
ghost use Rattle.ame_journal.specs.Words as spec;
ghost use Rattle.ame_journal.specs.Words.{ReadsWord};
ghost use Rattle.ame_journal.specs.Lines.{TakesHead, TakesLocations, IsAnswer};

use crate::entry::{Entry, EntryKind};
use crate::words::Words;
use ame_term::{Loc, Locs, NoMemory, push};
use std::alloc::Global;

/// The parts that each line has.
#[derive(Drop)]
struct Head {
    kind: EntryKind,
    seat: u32,
    number: u64,
    steps: u64,
}

fn take_head(words: &mut Words) -> Option<Head>
    ensures { TakesHead words.old result words.new }
{
    Some(Head {
        kind: words.kind()?,
        seat: words.seat()?,
        number: words.number()?,
        steps: words.number()?,
    })
}

/// Reads the locations that follow, as many as there are.
fn take_fresh(alloc: Global, words: &mut Words) -> Result<Vec<Loc>, NoMemory>
    ensures { IfOk result (λ fresh. TakesLocations words.old (map (λ l. l.0) fresh.items) words.new) }
{
    let mut fresh = Vec::new(alloc);
    while let Some(location) = words.location() {
        push(&mut fresh, location)?;
    }
    Ok(fresh)
}

/// Reads what follows the locations: nothing, or for `free` an equals sign and the answer.
fn answer_of(kind: EntryKind, words: &mut Words) -> Option<Option<i64>>
    ensures { ReadsWord answer_words (IsAnswer kind) words.old result }
{
    if words.is_empty() {
        return Some(None);
    }
    if !matches!(kind, EntryKind::Free) {
        return None;
    }
    words.equals_sign()?;
    let answer = words.answer()?;
    if words.is_empty() {
        Some(Some(answer))
    } else {
        None
    }
}

/// Reads the entry that a line spells, without its line feed.
pub fn entry_of(alloc: Global, line: &[u8]) -> Result<Option<Entry>, NoMemory>
    ensures { IfOk result (ReadsWord words_of IsSpellable (spec.line_words line.now)) }
{
    let mut words = Words::new(line);
    let Some(head) = take_head(&mut words) else {
        return Ok(None);
    };
    let fresh = take_fresh(alloc, &mut words)?;
    match answer_of(head.kind, &mut words) {
        None => Ok(None),
        Some(answer) => Ok(Some(Entry {
            kind: head.kind,
            seat: head.seat,
            number: head.number,
            steps: head.steps,
            fresh: Locs::from_vec(fresh),
            answer,
        })),
    }
}
