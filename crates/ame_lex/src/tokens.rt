//! Tokens, and the errors of a text that has none.

ghost use Rattle.std.specs.Prelude.{◌≡◌};
ghost use Rattle.ame_lex.specs.declared.tokens.LexFault.TheVariants.{NoMemory};

use std::alloc::AllocFailed;

/// The kind of a token. Its spelling is the bytes of the text that it takes.
#[derive(Clone, Copy, Debug, PartialEq, Eq)]
pub enum Kind {
    Open,
    Close,
    /// A letter and the letters, digits and underscores that follow it.
    Word,
    /// A decimal number with its value.
    Number(i64),
    /// One of `+`, `-`, `*`, `<` and `=`.
    Symbol(u8),
}

/// The bytes of the text from `start` up to `end`, and what they are.
#[derive(Clone, Copy, Debug, PartialEq, Eq)]
pub struct Token {
    pub start: u32,
    pub end: u32,
    pub kind: Kind,
}

/// Why a text has no tokens, with the place in bytes.
#[derive(Clone, Copy, Debug, PartialEq, Eq)]
pub enum LexFault {
    /// The byte begins no token, or it is a letter or an underscore right after a number.
    BadByte(u32),
    /// The number that begins here doesn't fit 64 bits.
    LongNumber(u32),
    NoMemory,
}

impl<T: Drop> From<AllocFailed<T>> for LexFault {
    ghost from_gives = { λ _ e. e ≡ NoMemory };

    fn from(_failed: AllocFailed<T>) -> LexFault {
        LexFault::NoMemory
    }
}
