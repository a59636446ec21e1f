//! The meaning of a token for the reading.

ghost use Rattle.std.specs.Prelude.{◌≡◌};
ghost use Rattle.ame_parse.specs.Input as spec;

use crate::words::{Word, word_of};
use ame_lex::Kind;

/// The next token.
#[derive(Clone, Copy)]
pub enum Ahead {
    Opening,
    Closing,
    Number(i64),
    Symbol(u8),
    Reserved(Word),
    /// A word that isn't reserved.
    Name,
    End,
}

/// Classifies a token by its kind and its spelling.
pub fn ahead_of(kind: Kind, spelling: &[u8]) -> Ahead
    ensures { result ≡ spec.ahead_of kind spelling.now }
{
    match kind {
        Kind::Open => Ahead::Opening,
        Kind::Close => Ahead::Closing,
        Kind::Number(value) => Ahead::Number(value),
        Kind::Symbol(symbol) => Ahead::Symbol(symbol),
        Kind::Word => match word_of(spelling) {
            Some(word) => Ahead::Reserved(word),
            None => Ahead::Name,
        },
    }
}
