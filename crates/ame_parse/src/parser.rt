//! The program of a whole list of tokens.

ghost use Rattle.std.specs.Prelude.{◌≡◌, ◌≤◌, length, Ok, Err};
ghost use Rattle.ame_lex.specs.Bytes.{max_text};
ghost use Rattle.ame_lex.specs.Reading.{tokens_of};
ghost use Rattle.ame_parse.specs.Input.{Reads};
ghost use Rattle.ame_parse.specs.Reading as spec;
ghost use Rattle.ame_parse.specs.Text.{AnswersProgram};
ghost use Rattle.ame_term.specs.View.{tree_of};

use crate::fault::ParseFault;
use crate::grammar::boxed_term;
use crate::reader::Reader;
use ame_lex::{Token, tokens_lie_within};
use ame_term::{Program, Term};
use std::alloc::Global;

/// The most parentheses that may be open.
const MAX_OPEN: usize = 200;

/// Reads the program of a text's tokens, in time linear in the tokens but for look-ups of names.
pub fn parse(alloc: Global, text: &[u8], tokens: &[Token]) -> Result<Program, ParseFault>
    requires of_text { tokens_of text.now ≡ Ok tokens.now }
    requires small { length text.now ≤ max_text }

    // The program is the one that is read of the text, and a fault is the first one of the text.
    ensures exact { AnswersProgram text.now result }
{
    tokens_lie_within();
    let mut reader = Reader::new(alloc, text, tokens);
    match program(alloc, &mut reader) {
        Ok(term) => {
            let (names, places) = reader.into_lists(alloc)?;
            Ok(Program {
                names,
                places,
                term: Box::into_inner(term),
            })
        }
        Err(fault) => Err(fault),
    }
}

/// Reads a term, and nothing after it.
#[tactic(auto, unfolding(crate::specs::Reading::program))]
fn program(alloc: Global, reader: &mut Reader<'_>) -> Result<Box<Term>, ParseFault>
    ensures { Reads (λ b. tree_of b.value) (spec.program reader.old) result reader.new }
{
    let term = boxed_term(alloc, reader, MAX_OPEN)?;
    reader.finish()?;
    Ok(term)
}
