//! The classes of bytes outside comments.

ghost use Rattle.std.specs.Prelude.{◌≡◌};
ghost use Rattle.ame_lex.specs.Bytes as spec;

#[derive(Clone, Copy, Debug, PartialEq, Eq)]
pub enum Class {
    Blank,
    /// It begins a comment.
    Semicolon,
    Opening,
    Closing,
    Letter,
    Digit,
    Underscore,
    /// A symbol, or the sign of a number.
    Minus,
    Operator,
    Other,
}

#[tactic(auto, unfolding(crate::specs::Bytes::class_of))]
pub fn class_of(b: u8) -> Class
    ensures { result ≡ spec.class_of b }
{
    match b {
        b' ' | b'\t' | b'\r' | b'\n' => Class::Blank,
        b';' => Class::Semicolon,
        b'(' => Class::Opening,
        b')' => Class::Closing,
        b'a'..=b'z' | b'A'..=b'Z' => Class::Letter,
        b'0'..=b'9' => Class::Digit,
        b'_' => Class::Underscore,
        b'-' => Class::Minus,
        b'+' | b'*' | b'<' | b'=' => Class::Operator,
        _ => Class::Other,
    }
}
