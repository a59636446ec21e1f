//! The beginnings of forms before their parts: words, operators, names, sorts and effects.

ghost use Rattle.std.specs.Prelude.{◌≡◌, OnOk};
ghost use Rattle.ame_print.specs.Layout.{open_token, word};
ghost use Rattle.ame_print.specs.Printer.{with_token, with_tokens, spelling_of};
ghost use Rattle.ame_print.specs.Tokens.{sort_token, effect_token, op_token, unary_tokens, binary_token, truth_token, name_token, location_token};

use crate::token_page::TokenPage;
use ame_term::{Binary, Effect, Loc, Name, NoMemory, Op, Sort, Unary};

pub fn sort(page: &mut TokenPage, sort: Sort) -> Result<(), NoMemory>
    ensures { OnOk result (page.new ≡ with_token page.old (sort_token sort)) }
{
    match sort {
        Sort::Protected => page.word(b"p"),
        Sort::Unprotected => page.word(b"u"),
    }
}

pub fn effect(page: &mut TokenPage, effect: Effect) -> Result<(), NoMemory>
    ensures { OnOk result (page.new ≡ with_token page.old (effect_token effect)) }
{
    match effect {
        Effect::Protected => page.word(b"p"),
        Effect::Unprotected => page.word(b"u"),
        Effect::Either => page.word(b"a"),
    }
}

/// Prints the parenthesis and the word of a function form, and its effect.
pub fn begin_function(page: &mut TokenPage, head: &[u8], under: Effect) -> Result<(), NoMemory>
    ensures { OnOk result (page.new ≡ with_token (with_token (with_token page.old open_token) (word head.now)) (effect_token under)) }
{
    page.begin(head)?;
    effect(page, under)
}

pub fn op(page: &mut TokenPage, op: Op) -> Result<(), NoMemory>
    ensures { OnOk result (page.new ≡ with_token page.old (op_token op)) }
{
    page.symbol(op.symbol())
}

/// Prints the parenthesis and the word of a form with one part, and the sort or the number before the part.
pub fn begin_one(page: &mut TokenPage, op: Unary) -> Result<(), NoMemory>
    ensures { OnOk result (page.new ≡ with_tokens (with_token page.old open_token) (unary_tokens op)) }
{
    match op {
        Unary::Not => page.begin(b"not"),
        Unary::Ref(which, _) => {
            page.begin(b"ref")?;
            sort(page, which)
        }
        Unary::Get => page.begin(b"get"),
        Unary::Peek => page.begin(b"peek"),
        Unary::Block => page.begin(b"blockUntil"),
        Unary::Print => page.begin(b"print"),
        Unary::Call(device) => {
            page.begin(b"call")?;
            page.number(i64::from(device))
        }
        Unary::First => page.begin(b"fst"),
        Unary::Second => page.begin(b"snd"),
    }
}

/// Prints the parenthesis and the word or the symbol of a form with two parts.
pub fn begin_two(page: &mut TokenPage, which: Binary) -> Result<(), NoMemory>
    ensures { OnOk result (page.new ≡ with_token (with_token page.old open_token) (binary_token which)) }
{
    match which {
        Binary::App => page.begin(b"app"),
        Binary::Bin(symbol) => {
            page.open()?;
            op(page, symbol)
        }
        Binary::Set => page.begin(b"set"),
        Binary::Pair => page.begin(b"pair"),
    }
}

pub fn truth(page: &mut TokenPage, truth: bool) -> Result<(), NoMemory>
    ensures { OnOk result (page.new ≡ with_token page.old (truth_token truth)) }
{
    if truth {
        page.word(b"true")
    } else {
        page.word(b"false")
    }
}

/// Prints a name by its spelling, if it has one.
pub fn name(page: &mut TokenPage, names: &[Vec<u8>], x: Name) -> Result<(), NoMemory>
    ensures { OnOk result (page.new ≡ with_token page.old (name_token (spelling_of names.now) x.0)) }
{
    match names.get(x.0 as usize) {
        Some(name) => page.word(name.as_slice()),
        None => page.numbered(b'?', x.0),
    }
}

pub fn location(page: &mut TokenPage, l: Loc) -> Result<(), NoMemory>
    ensures { OnOk result (page.new ≡ with_token page.old (location_token l.0)) }
{
    page.numbered(b'@', l.0)
}
