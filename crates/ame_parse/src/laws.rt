//! Facts about the grammar of programs.

ghost use Rattle.std.specs.Prelude.{◌≡◌, ◌↔◌, ◌++◌, ℕ, List, length, map, Ok, Err};
ghost use Rattle.ame_lex.specs.declared.tokens.LexFault.{LexFault};
ghost use Rattle.ame_lex.specs.Reading.{tokens_of};
ghost use Rattle.ame_parse.specs.declared.fault.ParseFault.{ParseFault};
ghost use Rattle.ame_parse.specs.Expected.{Faults};
ghost use Rattle.ame_parse.specs.Fault.{place_of, at_place, lexeme_of, first_lexeme, HasSeenTokens};
ghost use Rattle.ame_parse.specs.Grammar.{Spells};
ghost use Rattle.ame_parse.specs.Input.{Seen, place_in};
ghost use Rattle.ame_parse.specs.Text.{reading, Source, ReadingFault};

use ame_lex::{grammar_is_reading, tokens_lie_within};

/// States that a text spells exactly the program that is read of it.
pub fn spelled_is_read()
    ensures { (text : List ℕ) (source : Source) → Spells text source ↔ (reading text ≡ Ok source) }
{
    grammar_is_reading();
}

/// States that a text spells at most one program.
pub fn one_program()
    ensures { (text : List ℕ) (one other : Source) → Spells text one → Spells text other → one ≡ other }
{
    spelled_is_read();
}

/// States that a fault of the bytes comes before all others.
#[tactic(auto, unfolding(crate::specs::Text::reading))]
pub fn bytes_come_first()
    ensures { (text : List ℕ) (fault : LexFault) → tokens_of text ≡ Err fault → reading text ≡ Err (ReadingFault.Lexical fault) }
{}

/// States that the fault that is read of a text's tokens is the one that the table of expected pieces gives it.
pub fn fault_is_expected()
    ensures { (text : List ℕ) (fault : ParseFault) → Faults text fault ↔ (reading text ≡ Err (ReadingFault.Syntactic fault)) }
{
    grammar_is_reading();
}

/// States that a fault stands at a token of the text or at its end, and is the first: each text whose tokens are spelled alike up to that
/// one, and with it, wherever they stand, has the same fault at that token, so none of them is a program.
pub fn fault_is_first()
    ensures stands { (text : List ℕ) (all : List Seen) (fault : ParseFault) → HasSeenTokens text all → reading text ≡ Err (ReadingFault.Syntactic fault)
        → (before from : List Seen) × (all ≡ before ++ from) × (place_of fault ≡ place_in (length text) from) }
    ensures stays { (text other : List ℕ) (before from others rest : List Seen) (fault : ParseFault)
        → HasSeenTokens text (before ++ from) → reading text ≡ Err (ReadingFault.Syntactic fault) → place_of fault ≡ place_in (length text) from
        → HasSeenTokens other (others ++ rest) → map lexeme_of others ≡ map lexeme_of before → first_lexeme rest ≡ first_lexeme from
        → reading other ≡ Err (ReadingFault.Syntactic (at_place (place_in (length other) rest) fault)) }
{
    tokens_lie_within();
}
