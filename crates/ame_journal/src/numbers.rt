//! Numbers in decimal, without leading zeros.

ghost use Rattle.std.specs.Prelude.{◌≡◌, ℤ, ◌-◌, ◌<◌, ◌^◌, min, FitsSigned, decimal};
ghost use Rattle.std.specs.Int.{w64};
ghost use Rattle.std.specs.Fmt.{signed_decimal};
ghost use Rattle.ame_journal.specs.Words as spec;
ghost use Rattle.ame_journal.specs.Words.{ReadsWord};

use itoa::Buffer;

/// Returns the value of decimal digits, or the greatest `u64` if it doesn't fit.
fn value_of(digits: &[u8]) -> u64
    ensures { result ≡ min (spec.digits_number digits.now) (2 ^ 64 - 1) }
{
    let mut value: u64 = 0;
    for digit in digits {
        value = value
            .saturating_mul(10)
            .saturating_add(u64::from(digit.saturating_sub(b'0')));
    }
    value
}

/// Returns the number that a word spells.
pub fn number(word: &[u8]) -> Option<u64>
    ensures { ReadsWord decimal (λ n. n < 2 ^ 64) word.now result }
{
    let value = value_of(word);
    let mut buffer = Buffer::new();
    if buffer.format(value).as_bytes() == word {
        Some(value)
    } else {
        None
    }
}

/// Returns the value of digits after a sign or none, if it fits.
fn signed_value(word: &[u8]) -> Option<i64>
    ensures { (z : ℤ) → FitsSigned w64 z → word.now ≡ signed_decimal z → result ≡ Some z }
{
    match word.strip_prefix(b"-") {
        Some(digits) => 0i64.checked_sub_unsigned(value_of(digits)),
        None => 0i64.checked_add_unsigned(value_of(word)),
    }
}

/// Returns the number that a word spells, which may be negative.
pub fn signed_number(word: &[u8]) -> Option<i64>
    ensures { ReadsWord signed_decimal (FitsSigned w64) word.now result }
{
    let value = signed_value(word)?;
    let mut buffer = Buffer::new();
    let spelled = buffer.format(value).as_bytes();
    if spelled == word { Some(value) } else { None }
}
