//! Faults of the bytes of a text.

ghost use Rattle.std.specs.Prelude.{ℕ, IfOk};
ghost use Rattle.ame_lex.specs.Faults.{IsFaultAt};
ghost use Rattle.ame_why.specs.Placed.{IsExplained};

use crate::placed::explained;
use ame_lex::LexFault;
use ame_term::NoMemory;
use std::alloc::Global;

/// Returns why a text has no tokens.
pub fn explain_bytes(alloc: Global, text: &[u8], fault: LexFault) -> Result<Vec<u8>, NoMemory>
    ensures { IfOk result (λ page. (place : ℕ) → IsFaultAt fault place → IsExplained text.now place page.items) }
{
    match fault {
        LexFault::BadByte(place) => {
            let place = place as usize;
            explained(alloc, text, place, bad_byte(text, place))
        }
        LexFault::LongNumber(place) => explained(
            alloc,
            text,
            place as usize,
            b"number out of range: integers go from -9223372036854775808 to 9223372036854775807\n",
        ),
        LexFault::NoMemory => Err(NoMemory),
    }
}

/// Returns what is wrong with a byte.
fn bad_byte(text: &[u8], place: usize) -> &'static [u8] {
    let is_behind_digit = place > 0
        && text
            .get(place - 1)
            .is_some_and(|b| matches!(*b, b'0'..=b'9'));
    match text.get(place) {
        Some(b'a'..=b'z' | b'A'..=b'Z') => {
            b"letter directly after a number: put a space between them\n"
        }
        Some(b'_') if is_behind_digit => b"`_` directly after a number\n",
        Some(b'_') => b"`_` before a word: a word begins with a letter\n",
        Some(128..=255) => b"non-ASCII letter: allowed only in comments\n",
        _ => b"unexpected byte\n",
    }
}
