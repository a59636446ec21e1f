//! The binder of a name in an error of types.

ghost use Rattle.std.specs.Prelude.{◌≡◌, ◌++◌, [], All, IfOk, IfSome, if◌then◌else◌, option_to_list};
ghost use Rattle.std.specs.List.{find};
ghost use Rattle.ame_lex.specs.Tokens.{IsWithin, spelled};
ghost use Rattle.ame_why.specs.Binders as spec;
ghost use Rattle.ame_why.specs.Binders.{spells};

use crate::parts::{part_number, token_behind};
use crate::spans::{open_before, token_at};
use ame_lex::Token;
use ame_term::NoMemory;
use ame_types::rule;
use std::alloc::Global;

/// Which form binds a name.
#[derive(Clone, Copy)]
enum Binder {
    Let,
    Function,
    Recursive,
    Nothing,
}

/// Returns the token that binds the name of the function or location of a broken rule; none if it is no name, or the rule is about neither.
pub(crate) fn binder_at(
    alloc: Global,
    text: &[u8],
    tokens: &[Token],
    number: u8,
    place: u32,
) -> Result<Option<Token>, NoMemory>
    requires { All (IsWithin text.now) tokens.now }
    ensures { IfOk result (λ binder. binder ≡ spec.binder_at text.now tokens.now number place) }
{
    let Some(name) = told_name(text, tokens, number, place) else {
        return Ok(None);
    };
    let places = open_before(alloc, tokens, name.start)?;
    Ok(binder_of(text, tokens, &places, name))
}

/// Returns the token that may be the name of a function or of a location, if a rule is broken there.
fn told_name(text: &[u8], tokens: &[Token], number: u8, place: u32) -> Option<Token>
    requires { All (IsWithin text.now) tokens.now }
    ensures told { result ≡ spec.told_name text.now tokens.now number place }
    ensures within { IfSome result (IsWithin text.now) }
{
    match number {
        rule::WRONG_EFFECT => called_name(text, tokens, place),
        rule::WRONG_SORT => token_behind(text, tokens, place, 1),
        rule::NO_REFERENCE => token_at(text, tokens, place),
        _ => None,
    }
}

/// Returns the name of the function, if the form that opens there is a call.
fn called_name(text: &[u8], tokens: &[Token], place: u32) -> Option<Token>
    requires { All (IsWithin text.now) tokens.now }
    ensures told { result ≡ spec.called_name text.now tokens.now place }
    ensures within { IfSome result (IsWithin text.now) }
{
    if word_at(text, tokens, place) == b"app".as_slice() {
        token_behind(text, tokens, place, 1)
    } else {
        None
    }
}

/// Returns the token that binds a name which stands in these open parentheses, the innermost last.
fn binder_of(text: &[u8], tokens: &[Token], places: &[u32], name: Token) -> Option<Token>
    requires within { All (IsWithin text.now) tokens.now }
    requires name { IsWithin text.now name }
    ensures { result ≡ find (spells text.now name) (spec.bound_within text.now tokens.now name.start places.now) }
{
    let mut left = places.len();
    while left > 0 {
        left -= 1;
        match binder_in(text, tokens, places[left], name) {
            Some(binder) => return Some(binder),
            None => {}
        }
    }
    None
}

/// Returns the token that binds a name in a form, if the form does.
fn binder_in(text: &[u8], tokens: &[Token], form: u32, name: Token) -> Option<Token>
    requires within { All (IsWithin text.now) tokens.now }
    requires name { IsWithin text.now name }
    ensures { result ≡ find (spells text.now name) (spec.bound_in text.now tokens.now name.start form) }
{
    let part = part_number(tokens, form, name.start);
    match binding_of(word_at(text, tokens, form)) {
        Binder::Let => same_if(text, part == 3, token_behind(text, tokens, form, 1), name),
        Binder::Function => same_if(text, part == 3, token_behind(text, tokens, form, 3), name),
        Binder::Recursive => first_same(
            text,
            part == 5,
            token_behind(text, tokens, form, 4),
            token_behind(text, tokens, form, 2),
            name,
        ),
        Binder::Nothing => None,
    }
}

/// Returns which form a word begins, as far as it binds names.
fn binding_of(word: &[u8]) -> Binder
    ensures { result ≡ spec.binding_of word.now }
{
    if word == b"let".as_slice() {
        Binder::Let
    } else if word == b"fn".as_slice() {
        Binder::Function
    } else if word == b"rec".as_slice() {
        Binder::Recursive
    } else {
        Binder::Nothing
    }
}

/// Returns the first of two tokens that spells a name, if they are bound there.
fn first_same(
    text: &[u8],
    is_bound: bool,
    first: Option<Token>,
    second: Option<Token>,
    name: Token,
) -> Option<Token>
    requires first { IfSome first (IsWithin text.now) }
    requires second { IfSome second (IsWithin text.now) }
    requires name { IsWithin text.now name }
    ensures { result ≡ find (spells text.now name) (if is_bound then option_to_list first ++ option_to_list second else []) }
{
    if !is_bound {
        return None;
    }
    match same_name(text, first, name) {
        Some(binder) => Some(binder),
        None => same_name(text, second, name),
    }
}

/// Returns a token, if it is bound there and spells a name.
fn same_if(text: &[u8], is_bound: bool, token: Option<Token>, name: Token) -> Option<Token>
    requires within { IfSome token (IsWithin text.now) }
    requires name { IsWithin text.now name }
    ensures { result ≡ find (spells text.now name) (if is_bound then option_to_list token else []) }
{
    if is_bound {
        same_name(text, token, name)
    } else {
        None
    }
}

/// Returns a token, if it spells a name.
fn same_name(text: &[u8], token: Option<Token>, name: Token) -> Option<Token>
    requires within { IfSome token (IsWithin text.now) }
    requires name { IsWithin text.now name }
    ensures { result ≡ find (spells text.now name) (option_to_list token) }
{
    match token {
        Some(token) if spelled(text, token) == spelled(text, name) => Some(token),
        _ => None,
    }
}

/// Returns the word of the form that opens at a place.
pub(crate) fn word_at<'a>(text: &'a [u8], tokens: &[Token], form: u32) -> &'a [u8]
    requires { All (IsWithin text.now) tokens.now }
    ensures { result.now ≡ spec.word_at text.now form tokens.now }
{
    match token_behind(text, tokens, form, 0) {
        Some(token) => spelled(text, token),
        None => &[],
    }
}

/// Returns the bytes of a token.
fn spelled(text: &[u8], token: Token) -> &[u8]
    requires { IsWithin text.now token }
    ensures { result.now ≡ spelled text.now token }
{
    &text[token.start as usize..token.end as usize]
}
