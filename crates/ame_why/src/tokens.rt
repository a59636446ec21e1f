//! Faults of the tokens of a text.

ghost use Rattle.std.specs.Prelude.{◌≡◌, ◌≢◌, ◌≤◌, All, IfOk, IfSome, length};
ghost use Rattle.ame_lex.specs.Bytes.{max_text};
ghost use Rattle.ame_lex.specs.Tokens.{IsWithin};
ghost use Rattle.ame_parse.specs.Fault.{place_of};
ghost use Rattle.ame_why.specs.Placed.{IsExplained};

use crate::placed::explained;
use crate::spans::{open_before, token_at, tokens_of};
use ame_lex::{Kind, Token};
use ame_page::Page;
use ame_parse::{ParseFault, Want};
use ame_term::NoMemory;
use std::alloc::Global;

/// The most bytes of a token that are shown.
const SHOWN: usize = 40;

/// Returns why tokens are no program.
pub fn explain_tokens(alloc: Global, text: &[u8], fault: ParseFault) -> Result<Vec<u8>, NoMemory>
    requires small { length text.now ≤ max_text }
    ensures { IfOk result (λ page. IsExplained text.now (place_of fault) page.items) }
{
    match fault {
        ParseFault::Expected(place, want) => unexpected(alloc, text, place, want),
        ParseFault::UnknownName(place) => unknown(alloc, text, place),
        ParseFault::TooNested(place) => explained(
            alloc,
            text,
            place as usize,
            b"too many open parentheses: the limit is 200\n",
        ),
        ParseFault::Trailing(place) => explained(
            alloc,
            text,
            place as usize,
            b"text after the end of the program: a program is one term; to run several in order, write `(do ..)`\n",
        ),
        ParseFault::NoMemory => Err(NoMemory),
    }
}

/// Returns what was expected, what was found, and which form isn't closed.
fn unexpected(alloc: Global, text: &[u8], place: u32, want: Want) -> Result<Vec<u8>, NoMemory>
    requires small { length text.now ≤ max_text }
    ensures { IfOk result (λ page. IsExplained text.now place page.items) }
{
    let tokens = tokens_of(alloc, text)?;
    let found = token_at(text, &tokens, place);
    let mut message = Page::new(alloc);
    message.add(b"expected ")?;
    message.add(wanted(want))?;
    message.add(b", found ")?;
    append_found(&mut message, text, found)?;
    message.add(hint(want, found))?;
    if found.is_none() || want == Want::Closing {
        append_open(alloc, &mut message, text, &tokens, place)?;
    }
    explained(alloc, text, place as usize, message.as_slice())
}

/// Returns the name that nothing binds.
fn unknown(alloc: Global, text: &[u8], place: u32) -> Result<Vec<u8>, NoMemory>
    requires small { length text.now ≤ max_text }
    ensures { IfOk result (λ page. IsExplained text.now place page.items) }
{
    let tokens = tokens_of(alloc, text)?;
    let mut message = Page::new(alloc);
    message.add(b"unbound name ")?;
    append_found(&mut message, text, token_at(text, &tokens, place))?;
    explained(alloc, text, place as usize, message.as_slice())
}

/// Returns what must stand somewhere, in words.
fn wanted(want: Want) -> &'static [u8] {
    match want {
        Want::Term => b"a term",
        Want::Form => b"the word or the symbol of a form",
        Want::Name => b"a name",
        Want::Ty => b"a type",
        Want::Effect => b"an effect, which is `p`, `u` or `a`",
        Want::Sort => b"a sort, which is `p` or `u`",
        Want::Device => b"the number of a device, 0 to 255",
        Want::Opening => b"the `(` of a parameter",
        Want::Closing => b"`)`",
    }
}

/// Returns what often is meant.
fn hint(want: Want, found: Option<Token>) -> &'static [u8] {
    match (want, found.map(|token| token.kind)) {
        (Want::Form, Some(Kind::Word)) => b"a call is written `(app f x)`\n",
        (Want::Form, Some(Kind::Number(_))) => {
            b"a `-` directly before a digit belongs to the number: write `(- 1 2)`\n"
        }
        (Want::Name, Some(Kind::Word)) => b"reserved word\n",
        (Want::Term, Some(Kind::Word)) => b"reserved word: a form begins with `(`\n",
        (Want::Term, Some(Kind::Close)) => b"missing argument\n",
        _ => b"",
    }
}

/// Appends the token that was found, or that the text ends.
fn append_found(message: &mut Page, text: &[u8], found: Option<Token>) -> Result<(), NoMemory>
    requires { IfSome found (IsWithin text.now) }
{
    let Some(token) = found else {
        return message.add(b"the end of the text\n");
    };
    let spelled = &text[token.start as usize..token.end as usize];
    message.add(b"`")?;
    if spelled.len() <= SHOWN {
        message.add(spelled)?;
    } else {
        message.add(spelled.split_at(SHOWN).0)?;
        message.add(b"..")?;
    }
    message.add(b"`\n")
}

/// Appends the place of the innermost parenthesis that is open before a place.
fn append_open(
    alloc: Global,
    message: &mut Page,
    text: &[u8],
    tokens: &[Token],
    place: u32,
) -> Result<(), NoMemory> {
    let places = open_before(alloc, tokens, place)?;
    let Some(at) = places.last() else {
        return Ok(());
    };
    let page = explained(alloc, text, *at as usize, b"")?;
    message.add(b"opened here:\n")?;
    message.add(&page)
}
