//! Numbers that a text begins with.

ghost use Rattle.std.specs.Prelude.{◌≡◌, ◌+◌, ◌-◌, ◌^◌, ◌<◌, min, SomeIff, FitsSigned, length, if◌then◌else◌, true};
ghost use Rattle.std.specs.Int.{w64};
ghost use Rattle.ame_lex.specs.Bytes as bytes;
ghost use Rattle.ame_lex.specs.Reading as spec;

use crate::pieces::Piece;
use crate::runs::{digits_len, is_word_byte};
use crate::tokens::Kind;

/// Returns the value of decimal digits, or the greatest `u64` if it doesn't fit.
fn decimal(digits: &[u8]) -> u64
    ensures { result ≡ min (bytes.decimal digits.now) (2 ^ 64 - 1) }
{
    let mut value: u64 = 0;
    for digit in digits {
        value = value
            .saturating_mul(10)
            .saturating_add(u64::from(digit.saturating_sub(b'0')));
    }
    value
}

/// Returns the value of digits after their sign, if it fits.
fn value_of(is_negative: bool, digits: &[u8]) -> Option<i64>
    ensures { SomeIff result (FitsSigned w64 (spec.value_of is_negative digits.now)) (spec.value_of is_negative digits.now) }
{
    if is_negative {
        0i64.checked_sub_unsigned(decimal(digits))
    } else {
        0i64.checked_add_unsigned(decimal(digits))
    }
}

/// Returns the number whose digits the text begins with, after its sign.
#[tactic(auto, unfolding(crate::specs::Reading::number))]
pub fn number(is_negative: bool, text: &[u8]) -> Piece
    requires { bytes.begins bytes.is_digit text.now ≡ true }
    ensures value { result ≡ spec.number is_negative text.now }
    ensures within { spec.FitsIn ((if is_negative then 1 else 0) + length text.now) result }
{
    let count = digits_len(text);
    let (digits, rest) = text.split_at(count);
    let len = usize::from(is_negative) + count;
    match value_of(is_negative, digits) {
        None => Piece::Long,
        Some(_) if rest.first().is_some_and(|b| is_word_byte(*b)) => Piece::Bad(len),
        Some(value) => Piece::Found(Kind::Number(value), len),
    }
}
