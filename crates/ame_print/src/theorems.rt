//! Facts about canonical text.

ghost use Rattle.std.specs.Prelude.{◌≡◌, List, Ok, ℕ};
ghost use Rattle.ame_parse.specs.Text.{Source, reading};
ghost use Rattle.ame_print.specs.Again.{ReadsAs, source_text};

use ame_lex::{grammar_is_reading, tokens_lie_within};
use ame_parse::spelled_is_read;

/// States that the canonical text of a program that was read is read as the same names and the same term.
pub fn printed_is_read()
    ensures { (text : List ℕ) (source : Source) → reading text ≡ Ok source → ReadsAs (source_text source) source }
{
    grammar_is_reading();
    tokens_lie_within();
    spelled_is_read();
}
