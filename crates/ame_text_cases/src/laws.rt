//! Facts about the generated program and its text. Each is a fact for proofs, and does nothing.

ghost use Rattle.std.specs.Prelude.{◌≡◌, ◌≤◌, ℕ, List, Ok, length};
ghost use Rattle.ame_gen.specs.Template.{program_text};
ghost use Rattle.ame_gen.specs.declared.text.TheConstants.{SIZE_LIMIT};
ghost use Rattle.ame_lex.specs.Bytes.{max_text};
ghost use Rattle.ame_parse.specs.Text.{Source, reading};
ghost use Rattle.ame_print.specs.Again.{ReadsAs, source_text};
ghost use Rattle.ame_term.specs.Tree.{Typ};
ghost use Rattle.ame_term.specs.Typing.{typing};
ghost use Rattle.ame_text_cases.specs.SameTokens.{HaveSameTokens};
ghost use Rattle.ame_text_cases.specs.Workload.{workload, workload_term};

use ame_gen::{length_is_linear, transfers_are_valid};
use ame_laws::table_gives_what_is_had;
use ame_lex::grammar_is_reading;
use ame_parse::spelled_is_read;

/// Says that the program is Unit under protected, on any number of devices and wherever its nodes stand.
pub fn workload_is_typed()
    ensures { (seed size devices : ℕ) (places : List ℕ) → typing devices places (workload_term seed size) ≡ Ok Typ.Unit }
{
    transfers_are_valid();
    table_gives_what_is_had();
}

/// Says that the text has the tokens of the program's canonical text.
pub fn text_has_canonical_tokens()
    ensures { (seed size : ℕ) → 1 ≤ size → size ≤ SIZE_LIMIT → HaveSameTokens (program_text seed size) (source_text (workload seed size)) }
{
    transfers_are_valid();
    grammar_is_reading();
}

/// Says that the text is read as the program, and so is the canonical text.
pub fn text_is_read()
    ensures text { (seed size : ℕ) → 1 ≤ size → size ≤ SIZE_LIMIT → ReadsAs (program_text seed size) (workload seed size) }
    ensures canonical { (seed size : ℕ) → 1 ≤ size → size ≤ SIZE_LIMIT → ReadsAs (source_text (workload seed size)) (workload seed size) }
{
    transfers_are_valid();
    spelled_is_read();
}

/// Says that the text is short enough to be read, and what is read of it is Unit under protected, on any number of devices.
pub fn text_is_accepted()
    ensures short { (seed size : ℕ) → size ≤ SIZE_LIMIT → length (program_text seed size) ≤ max_text }
    ensures accepted { (seed size devices : ℕ) → 1 ≤ size → size ≤ SIZE_LIMIT
        → (source : Source) × (reading (program_text seed size) ≡ Ok source) × (typing devices source.places source.tree ≡ Ok Typ.Unit) }
{
    length_is_linear();
    workload_is_typed();
    text_is_read();
}
