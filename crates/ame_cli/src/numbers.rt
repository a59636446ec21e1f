//! Number words.
ghost use Rattle.std.specs.Prelude.{◌≡◌};
ghost use Rattle.std.specs.List.{list_all};
ghost use Rattle.std.specs.Char.{is_ascii_digit};
ghost use Rattle.ame_cli.specs.Numbers as spec;

use crate::bounds::Bounds;
use crate::limits::DIGIT_LIMIT;

/// Returns whether all bytes are decimal digits.
fn all_digits(bytes: &[u8]) -> bool
    ensures { result ≡ list_all is_ascii_digit bytes.now }
{
    bytes.iter().all(|b| b.is_ascii_digit())
}

/// Returns whether a word is one to ten decimal digits.
fn is_number(word: &str) -> bool
    ensures { result ≡ spec.is_number word.now }
{
    1 <= word.len() && word.len() <= DIGIT_LIMIT && all_digits(word.as_bytes())
}

/// Returns the value of a number word, if it has one in the bounds.
pub(crate) fn number_within(word: &str, bounds: Bounds) -> Option<u32>
    ensures { result ≡ spec.number_within bounds word.now }
{
    if !is_number(word) {
        return None;
    }
    match word.parse::<u32>() {
        Ok(value) if bounds.least <= value && value <= bounds.most => Some(value),
        _ => None,
    }
}
