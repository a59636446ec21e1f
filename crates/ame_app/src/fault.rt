//! Reasons why a text is no program, or why words can't be read.

use ame_lex::LexFault;
use ame_parse::ParseFault;

/// The reason why a text is no program, with its place: an offset in bytes.
#[derive(Clone, Copy, PartialEq, Eq, Debug)]
pub enum TextFault {
    /// Its bytes are no tokens.
    Lexical(LexFault),
    /// Its tokens are no program.
    Syntactic(ParseFault),
}

/// The reason why the words of a process can't be read.
#[derive(Clone, Copy, PartialEq, Eq, Debug)]
pub enum WordsFault {
    /// One of them isn't text.
    NotText,
    NoMemory,
}
