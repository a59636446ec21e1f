//! The part of a form that stands at a place.

ghost use Rattle.std.specs.Prelude.{◌≡◌, ◌<◌, ◌≤◌, ◌^◌, All, IfSome, length, slice_get};
ghost use Rattle.std.specs.List.{prefix_len, take_while};
ghost use Rattle.ame_lex.specs.Tokens.{IsWithin};
ghost use Rattle.ame_why.specs.Binders as spec;
ghost use Rattle.ame_why.specs.Binders.{is_up_to};

use ame_lex::{Kind, Token};

/// The progress through a form: how many of its parts have begun, its word among them, and how many parentheses are open in the last one.
#[derive(Clone, Copy)]
struct FormProgress {
    begun: usize,
    depth: usize,
}

/// Returns the tokens from the first one on that begins after a place.
pub(crate) fn tokens_behind<'a>(tokens: &'a [Token], place: u32) -> &'a [Token]
    ensures { result.now ≡ spec.tokens_behind place tokens.now }
{
    tokens.split_at(count_up_to(tokens, place)).1
}

/// Returns the tokens up to the first one that begins after a place.
fn tokens_up_to<'a>(tokens: &'a [Token], place: u32) -> &'a [Token]
    ensures { result.now ≡ take_while (is_up_to place) tokens.now }
{
    tokens.split_at(count_up_to(tokens, place)).0
}

/// Returns how many tokens stand before the first one that begins after a place.
fn count_up_to(tokens: &[Token], place: u32) -> usize
    ensures value { result ≡ prefix_len (is_up_to place) tokens.now }
    ensures within { result ≤ length tokens.now }
{
    tokens
        .iter()
        .take_while(|token| token.start <= place)
        .count()
}

/// Returns the token after a parenthesis with this number, counted from 0. The first one is the word of the form.
pub(crate) fn token_behind(text: &[u8], tokens: &[Token], form: u32, number: usize) -> Option<Token>
    requires { All (IsWithin text.now) tokens.now }
    ensures told { result ≡ slice_get (spec.tokens_behind form tokens.now) number }
    ensures within { IfSome result (IsWithin text.now) }
{
    tokens_behind(tokens, form).get(number).copied()
}

/// Returns the number of the part in which a place is, counted from 1 after the form's word.
pub(crate) fn part_number(tokens: &[Token], form: u32, place: u32) -> usize
    ensures { result ≡ spec.part_at form place tokens.now }
{
    let inside = tokens_up_to(tokens_behind(tokens, form), place);
    let mut parts = FormProgress { begun: 0, depth: 0 };
    for token in inside {
        parts = parts_after(parts, token);
    }
    parts.begun.saturating_sub(1)
}

/// Returns what was gone through with one more token.
fn parts_after(parts: FormProgress, token: &Token) -> FormProgress
    requires begun { parts.begun < 2 ^ 63 }
    requires depth { parts.depth < 2 ^ 63 }
    ensures { result ≡ spec.parts_after parts token.now }
{
    FormProgress {
        begun: if parts.depth == 0 {
            parts.begun + 1
        } else {
            parts.begun
        },
        depth: depth_after(parts.depth, token.kind),
    }
}

/// Returns how many parentheses are open after a token.
fn depth_after(depth: usize, kind: Kind) -> usize
    requires { depth < 2 ^ 63 }
    ensures { result ≡ spec.depth_after depth kind }
{
    match kind {
        Kind::Open => depth + 1,
        Kind::Close => depth.saturating_sub(1),
        Kind::Word | Kind::Number(_) | Kind::Symbol(_) => depth,
    }
}
