//! The token at a place of a text, and the forms that are open there.

ghost use Rattle.std.specs.Prelude.{◌≡◌, ◌==◌, ◌≤◌, All, IfOk, IfSome, OnOk, length};
ghost use Rattle.std.specs.List.{find};
ghost use Rattle.ame_lex.specs.Bytes.{max_text};
ghost use Rattle.ame_lex.specs.Reading as reading;
ghost use Rattle.ame_lex.specs.Tokens.{IsWithin};
ghost use Rattle.ame_why.specs.Open.{tokens_or_none};
ghost use Rattle.ame_why.specs.Open as spec;

use ame_lex::{Kind, LexFault, Token, lex};
use ame_term::NoMemory;
use std::alloc::Global;

/// Returns the tokens of a text, or none if the text has an error.
pub fn tokens_of(alloc: Global, text: &[u8]) -> Result<Vec<Token>, NoMemory>
    requires { length text.now ≤ max_text }
    ensures tokens { IfOk result (λ tokens. tokens.items ≡ tokens_or_none (reading.tokens_of text.now)) }
    ensures within { IfOk result (λ tokens. All (IsWithin text.now) tokens.items) }
{
    match lex(alloc, text) {
        Ok(tokens) => Ok(tokens),
        Err(LexFault::NoMemory) => Err(NoMemory),
        Err(LexFault::BadByte(_) | LexFault::LongNumber(_)) => Ok(Vec::new(alloc)),
    }
}

/// Returns the first token that begins at a place.
pub(crate) fn token_at(text: &[u8], tokens: &[Token], place: u32) -> Option<Token>
    requires { All (IsWithin text.now) tokens.now }
    ensures told { result ≡ find (λ token. token.start == place) tokens.now }
    ensures within { IfSome result (IsWithin text.now) }
{
    for token in tokens {
        if token.start == place {
            return Some(*token);
        }
    }
    None
}

/// Returns the places of the parentheses that are open before a place, the innermost last.
pub(crate) fn open_before(alloc: Global, tokens: &[Token], place: u32) -> Result<Vec<u32>, NoMemory>
    ensures { IfOk result (λ places. places.items ≡ spec.open_before place tokens.now) }
{
    let mut places = Vec::new(alloc);
    for token in tokens {
        if token.start < place {
            note(&mut places, token)?;
        }
    }
    Ok(places)
}

/// Notes a parenthesis that opens or closes.
fn note(places: &mut Vec<u32>, token: &Token) -> Result<(), NoMemory>
    ensures { OnOk result (places.new.items ≡ spec.open_after places.old.items token.now.start token.now.kind) }
{
    match token.kind {
        Kind::Open => places.push(token.start)?,
        Kind::Close => {
            let _ = places.pop();
        }
        Kind::Word | Kind::Number(_) | Kind::Symbol(_) => {}
    }
    Ok(())
}
