//! The words of a line.

ghost use Rattle.std.specs.Prelude.{◌≡◌, ◌==◌, ◌<◌, ◌^◌, [], ◌∷◌, ⊤, FitsSigned, IsTrue, MatchOption, decimal, drop, codes, ◌↔◌, ◌≤◌, length};
ghost use Rattle.std.specs.Int.{w64};
ghost use Rattle.std.specs.Fmt.{signed_decimal};
ghost use Rattle.ame_journal.specs.Kinds.{kind_word};
ghost use Rattle.ame_journal.specs.Words as spec;
ghost use Rattle.ame_journal.specs.Words.{ReadsWord, TakesFront, BeginsWith, rest_words};

use crate::entry::EntryKind;
use crate::numbers::{number, signed_number};
use ame_term::Loc;
use std::marker::Model;

/// Returns the kind that a word stands for.
pub fn kind_of(word: &[u8]) -> Option<EntryKind>
    ensures { ReadsWord kind_word (λ _. ⊤) word.now result }
{
    match word {
        b"ran" => Some(EntryKind::Ran),
        b"free" => Some(EntryKind::Free),
        b"stuck" => Some(EntryKind::Stuck),
        b"cut" => Some(EntryKind::Cut),
        b"tall" => Some(EntryKind::Tall),
        _ => None,
    }
}

/// The words of a line that are still to be read.
#[derive(Drop)]
pub struct Words<'a> {
    rest: Option<&'a [u8]>,
}

impl<'a> Model for Words<'a> {
    ghost use Rattle.std.specs.Prelude.{List, ℕ};

    ghost Value = { List (List ℕ) };

    ghost use Rattle.ame_journal.specs.Cursor.{words_left};

    ghost view = { words_left };
}

impl<'a> Words<'a> {
    pub fn new(line: &'a [u8]) -> Words<'a>
        ensures { result ≡ spec.line_words line.now }
    {
        Words { rest: Some(line) }
    }

    pub fn is_empty(&self) -> bool
        ensures { IsTrue result ↔ (self.now ≡ []) }
    {
        self.rest.is_none()
    }

    /// Returns the first word.
    fn first(&self) -> Option<&'a [u8]>
        ensures { MatchOption result (self.now ≡ []) (λ word. BeginsWith self.now word.now) }
    {
        Some(cut(self.rest?).0)
    }

    /// Skips the first word.
    fn advance(&mut self)
        ensures { self.new ≡ drop 1 self.old }
    {
        if let Some(rest) = self.rest {
            self.rest = cut(rest).1;
        }
    }

    pub fn kind(&mut self) -> Option<EntryKind>
        ensures { TakesFront kind_word (λ _. ⊤) self.old result self.new }
    {
        let kind = kind_of(self.first()?)?;
        self.advance();
        Some(kind)
    }

    pub fn number(&mut self) -> Option<u64>
        ensures { TakesFront decimal (λ n. n < 2 ^ 64) self.old result self.new }
    {
        let number = number(self.first()?)?;
        self.advance();
        Some(number)
    }

    pub fn seat(&mut self) -> Option<u32>
        ensures { TakesFront decimal (λ n. n < 32) self.old result self.new }
    {
        let seat = number(self.first()?)?;
        if seat >= 32 {
            return None;
        }
        self.advance();
        Some(seat as u32)
    }

    pub fn location(&mut self) -> Option<Loc>
        ensures { TakesFront (λ l. decimal l.0) (λ l. l.0 < 2 ^ 32) self.old result self.new }
    {
        let location = number(self.first()?)?;
        if location > u32::MAX as u64 {
            return None;
        }
        self.advance();
        Some(Loc(location as u32))
    }

    pub fn equals_sign(&mut self) -> Option<()>
        ensures { TakesFront (λ _. codes "=") (λ _. ⊤) self.old result self.new }
    {
        if self.first()? != b"=".as_slice() {
            return None;
        }
        self.advance();
        Some(())
    }

    pub fn answer(&mut self) -> Option<i64>
        ensures { TakesFront signed_decimal (FitsSigned w64) self.old result self.new }
    {
        let answer = signed_number(self.first()?)?;
        self.advance();
        Some(answer)
    }
}

/// Counts the bytes before the first space.
fn word_len(line: &[u8]) -> usize
    ensures value { result ≡ spec.word_len line.now }
    ensures within { result ≤ length line.now }
{
    line.iter().take_while(|b| **b != b' ').count()
}

/// Returns the first word, and the bytes after the space that follows it.
fn cut(line: &[u8]) -> (&[u8], Option<&[u8]>)
    ensures { spec.line_words line.now ≡ result.0.now ∷ rest_words result.1 }
{
    let (word, rest) = line.split_at(word_len(line));
    match rest {
        [_, rest @ ..] => (word, Some(rest)),
        [] => (word, None),
    }
}
