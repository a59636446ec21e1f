//! The first piece of a text.

ghost use Rattle.std.specs.Prelude.{◌≡◌, ◌+◌, ◌^◌, ◌<◌, length, drop, slice_index};
ghost use Rattle.ame_lex.specs.Reading as spec;

use crate::classes::{Class, class_of};
use crate::numbers::number;
use crate::runs::{is_digit, line_len, word_len};
use crate::tokens::Kind;

#[derive(Clone, Copy, Debug, PartialEq, Eq)]
pub enum Piece {
    /// A blank or a comment, with its number of bytes.
    Space(usize),
    /// A token, with its number of bytes.
    Found(Kind, usize),
    /// A bad byte, with the number of bytes before it.
    Bad(usize),
    /// A number that doesn't fit.
    Long,
}

/// Returns the first piece of a text, given its first byte and the bytes after it.
#[tactic(auto, unfolding(crate::specs::Reading::first_piece, crate::specs::Bytes::class_of))]
pub fn first_piece(text: &[u8]) -> Piece
    requires { 0 < length text.now }
    ensures value { result ≡ spec.first_piece (slice_index text.now 0) (drop 1 text.now) }
    ensures within { spec.FitsIn (length text.now) result }
{
    let first = text[0];
    let rest = text.split_at(1).1;
    if first.is_ascii_alphabetic() {
        return Piece::Found(Kind::Word, 1 + word_len(rest));
    }
    match class_of(first) {
        Class::Blank => Piece::Space(1),
        Class::Semicolon => Piece::Space(1 + line_len(rest)),
        Class::Opening => Piece::Found(Kind::Open, 1),
        Class::Closing => Piece::Found(Kind::Close, 1),
        Class::Letter => Piece::Found(Kind::Word, 1 + word_len(rest)),
        Class::Digit => number(false, text),
        Class::Minus if rest.first().is_some_and(|b| is_digit(*b)) => number(true, rest),
        Class::Minus | Class::Operator => Piece::Found(Kind::Symbol(first), 1),
        Class::Underscore | Class::Other => Piece::Bad(0),
    }
}
