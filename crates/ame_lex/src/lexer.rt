//! The tokens of a whole text.

ghost use Rattle.std.specs.Prelude.{◌≡◌, ◌≤◌, ◌^◌, length, All, IfOk, Ok, Err, ℕ};
ghost use Rattle.ame_lex.specs.Bytes.{max_text};
ghost use Rattle.ame_lex.specs.Grammar.{Lexes};
ghost use Rattle.ame_lex.specs.Reading.{tokens_of, AnswersTokens};
ghost use Rattle.ame_lex.specs.Tokens.{IsWithin, InOrder, IsSpelled};

use crate::pieces::{Piece, first_piece};
use crate::tokens::{LexFault, Token};
use std::alloc::Global;

/// Returns the tokens of the text in order, or its first fault.
fn scan(alloc: Global, text: &[u8]) -> Result<Vec<Token>, LexFault>
    requires { length text.now ≤ max_text }
    ensures { AnswersTokens (λ v. v.items) result (tokens_of text.now) }
{
    let mut tokens = Vec::new(alloc);
    let mut rest = text;
    while !rest.is_empty() {
        if rest[0] == b' ' {
            rest = rest.split_at(1).1;
            continue;
        }
        let at = text.len() - rest.len();
        match first_piece(rest) {
            Piece::Space(len) => rest = rest.split_at(len).1,
            Piece::Found(kind, len) => {
                let token = Token {
                    start: at as u32,
                    end: (at + len) as u32,
                    kind,
                };
                tokens.push(token)?;
                rest = rest.split_at(len).1;
            }
            Piece::Bad(offset) => return Err(LexFault::BadByte((at + offset) as u32)),
            Piece::Long => return Err(LexFault::LongNumber(at as u32)),
        }
    }
    Ok(tokens)
}

/// Returns the tokens of a text in order, in time linear in the text.
pub fn lex(alloc: Global, text: &[u8]) -> Result<Vec<Token>, LexFault>
    requires { length text.now ≤ max_text }

    // The answer is what the text is by the grammar: its tokens, or its first fault and the place of it.
    ensures exact { AnswersTokens (λ v. v.items) result (tokens_of text.now) }
    ensures tokens { IfOk result (λ v. Lexes 0 text.now (Ok v.items)) }
    ensures bad_byte { (place : ℕ) → result ≡ Err (LexFault.BadByte place) → Lexes 0 text.now (Err (LexFault.BadByte place)) }
    ensures long_number { (place : ℕ) → result ≡ Err (LexFault.LongNumber place) → Lexes 0 text.now (Err (LexFault.LongNumber place)) }

    // The tokens stand in the text, one after another.
    ensures within { IfOk result (λ v. All (IsWithin text.now) v.items) }
    ensures spelled { IfOk result (λ v. All (IsSpelled text.now) v.items) }
    ensures in_order { IfOk result (λ v. InOrder 0 v.items (length text.now)) }
{
    scan(alloc, text)
}
