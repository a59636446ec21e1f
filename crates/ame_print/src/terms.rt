//! Values and terms.

ghost use Rattle.std.specs.Prelude.{◌≡◌, ◌∷◌, ◌++◌, OnOk, codes};
ghost use Rattle.ame_term.specs.View.{val_of, tree_of, trees_of, function_head};
ghost use Rattle.ame_term.specs.Tree.{Tree};
ghost use Rattle.ame_print.specs.Layout.{word};
ghost use Rattle.ame_print.specs.Printer.{with_tokens, spelling_of};
ghost use Rattle.ame_print.specs.Tokens.{form, value_tokens, term_tokens, row_tokens, function_tokens, param_tokens, name_token, unary_tokens, binary_token, is_unit_tree};

use crate::heads::{begin_function, begin_one, begin_two, location, name, truth};
use crate::token_page::TokenPage;
use crate::types::ty;
use ame_term::{Binary, Function, Name, NoMemory, Term, Unary, Value};

/// Returns whether a term is the value unit.
fn is_unit(term: &Term) -> bool
    ensures { result ≡ is_unit_tree (tree_of term.now) }
{
    matches!(term, Term::Held(Value::Unit))
}

/// Prints a value.
#[cycle(print)]
#[tactic(auto, using(crate::proofs::PrinterLemmas::append), unfolding(crate::specs::Tokens::value_tokens))]
fn held(page: &mut TokenPage, names: &[Vec<u8>], value: &Value) -> Result<(), NoMemory>
    ensures { OnOk result (page.new ≡ with_tokens page.old (value_tokens (spelling_of names.now) (val_of value.now))) }
{
    match value {
        Value::Unit => page.word(b"unit"),
        Value::Bool(b) => truth(page, *b),
        Value::Int(n) => page.number(*n),
        Value::Loc(l) => location(page, *l),
        Value::Fun(f) => function(page, names, f),
        Value::Pair(first, second) => {
            page.begin(b"pair")?;
            held(page, names, first)?;
            held(page, names, second)?;
            page.close()
        }
    }
}

/// Prints the parameter of a function, with its type.
#[tactic(auto, using(crate::proofs::PrinterLemmas::append))]
fn param(page: &mut TokenPage, names: &[Vec<u8>], f: &Function) -> Result<(), NoMemory>
    ensures { OnOk result (page.new ≡ with_tokens page.old (param_tokens (spelling_of names.now) (function_head f.now))) }
{
    page.open()?;
    name(page, names, f.param)?;
    ty(page, &f.param_ty)?;
    page.close()
}

/// Prints a function as its form.
#[cycle(print)]
#[tactic(auto, using(crate::proofs::PrinterLemmas::append))]
fn function(page: &mut TokenPage, names: &[Vec<u8>], f: &Function) -> Result<(), NoMemory>
    ensures { OnOk result (page.new
        ≡ with_tokens page.old (function_tokens (spelling_of names.now) (function_head f.now) (term_tokens (spelling_of names.now) (tree_of f.now.body)))) }
{
    match &f.own {
        None => {
            begin_function(page, b"fn", f.effect)?;
            param(page, names, f)?;
        }
        Some(own) => {
            begin_function(page, b"rec", f.effect)?;
            name(page, names, own.name)?;
            param(page, names, f)?;
            ty(page, &own.result)?;
        }
    }
    term(page, names, &f.body)?;
    page.close()
}

/// Prints a form with one part.
#[cycle(print)]
#[tactic(auto, using(crate::proofs::PrinterLemmas::append))]
fn one(page: &mut TokenPage, names: &[Vec<u8>], op: Unary, part: &Term) -> Result<(), NoMemory>
    ensures { OnOk result (page.new ≡ with_tokens page.old (form (unary_tokens op ++ term_tokens (spelling_of names.now) (tree_of part.now)))) }
{
    begin_one(page, op)?;
    term(page, names, part)?;
    page.close()
}

/// Prints a form with two parts.
#[cycle(print)]
#[tactic(auto, using(crate::proofs::PrinterLemmas::append))]
fn two(
    page: &mut TokenPage,
    names: &[Vec<u8>],
    op: Binary,
    first: &Term,
    second: &Term,
) -> Result<(), NoMemory>
    ensures { OnOk result (page.new ≡ with_tokens page.old (form (binary_token op
        ∷ term_tokens (spelling_of names.now) (tree_of first.now) ++ term_tokens (spelling_of names.now) (tree_of second.now)))) }
{
    begin_two(page, op)?;
    term(page, names, first)?;
    term(page, names, second)?;
    page.close()
}

/// Prints a form that is its word and a term.
#[cycle(print)]
#[tactic(auto, using(crate::proofs::PrinterLemmas::append))]
fn alone(page: &mut TokenPage, names: &[Vec<u8>], head: &[u8], part: &Term) -> Result<(), NoMemory>
    ensures { OnOk result (page.new ≡ with_tokens page.old (form (word head.now ∷ term_tokens (spelling_of names.now) (tree_of part.now)))) }
{
    page.begin(head)?;
    term(page, names, part)?;
    page.close()
}

/// Prints a `let` form.
#[cycle(print)]
#[tactic(auto, using(crate::proofs::PrinterLemmas::append))]
fn binding(
    page: &mut TokenPage,
    names: &[Vec<u8>],
    x: Name,
    bound: &Term,
    body: &Term,
) -> Result<(), NoMemory>
    ensures { OnOk result (page.new ≡ with_tokens page.old (form (word (codes "let") ∷ name_token (spelling_of names.now) x.0
        ∷ term_tokens (spelling_of names.now) (tree_of bound.now) ++ term_tokens (spelling_of names.now) (tree_of body.now)))) }
{
    page.begin(b"let")?;
    name(page, names, x)?;
    term(page, names, bound)?;
    term(page, names, body)?;
    page.close()
}

/// Prints an `if` form.
#[cycle(print)]
#[tactic(auto, using(crate::proofs::PrinterLemmas::append))]
fn choice(
    page: &mut TokenPage,
    names: &[Vec<u8>],
    test: &Term,
    yes: &Term,
    no: &Term,
) -> Result<(), NoMemory>
    ensures { OnOk result (page.new ≡ with_tokens page.old (form (word (codes "if") ∷ term_tokens (spelling_of names.now) (tree_of test.now)
        ++ term_tokens (spelling_of names.now) (tree_of yes.now) ++ term_tokens (spelling_of names.now) (tree_of no.now)))) }
{
    page.begin(b"if")?;
    term(page, names, test)?;
    term(page, names, yes)?;
    term(page, names, no)?;
    page.close()
}

/// Prints an `unprotected` form, as `yield` if its part is unit.
#[cycle(print)]
#[tactic(auto, using(crate::proofs::PrinterLemmas::append), unfolding(crate::specs::Tokens::term_tokens))]
fn unprotected(page: &mut TokenPage, names: &[Vec<u8>], part: &Term) -> Result<(), NoMemory>
    ensures { OnOk result (page.new ≡ with_tokens page.old (term_tokens (spelling_of names.now) (Tree.Unprotected (tree_of part.now)))) }
{
    if is_unit(part) {
        page.word(b"yield")
    } else {
        alone(page, names, b"unprotected", part)
    }
}

/// Prints a `do` form.
#[cycle(print)]
#[tactic(auto, using(crate::proofs::PrinterLemmas::append))]
fn sequence(page: &mut TokenPage, names: &[Vec<u8>], parts: &[Term]) -> Result<(), NoMemory>
    ensures { OnOk result (page.new ≡ with_tokens page.old (form (word (codes "do") ∷ row_tokens (spelling_of names.now) (trees_of parts.now)))) }
{
    page.begin(b"do")?;
    row(page, names, parts)?;
    page.close()
}

/// Prints the parts of a `do` form.
#[cycle(print)]
#[tactic(auto, using(crate::proofs::PrinterLemmas::append), unfolding(crate::specs::Tokens::row_tokens))]
fn row(page: &mut TokenPage, names: &[Vec<u8>], parts: &[Term]) -> Result<(), NoMemory>
    ensures { OnOk result (page.new ≡ with_tokens page.old (row_tokens (spelling_of names.now) (trees_of parts.now))) }
{
    for part in parts {
        term(page, names, part)?;
    }
    Ok(())
}

/// Prints a term.
#[cycle(print)]
#[tactic(auto, using(crate::proofs::PrinterLemmas::append, crate::proofs::Sizes::tree_of_do), unfolding(crate::specs::Tokens::term_tokens))]
pub fn term(page: &mut TokenPage, names: &[Vec<u8>], shown: &Term) -> Result<(), NoMemory>
    ensures { OnOk result (page.new ≡ with_tokens page.old (term_tokens (spelling_of names.now) (tree_of shown.now))) }
{
    match shown {
        Term::Held(value) => held(page, names, value),
        Term::Var(x) => name(page, names, *x),
        Term::Fun(f) => function(page, names, f),
        Term::App(f, a) => two(page, names, Binary::App, f, a),
        Term::Let(x, bound, body) => binding(page, names, *x, bound, body),
        Term::Do(parts) => sequence(page, names, parts),
        Term::If(test, yes, no) => choice(page, names, test, yes, no),
        Term::Bin(op, left, right) => two(page, names, Binary::Bin(*op), left, right),
        Term::Not(part) => one(page, names, Unary::Not, part),
        Term::Ref(sort, number, part) => one(page, names, Unary::Ref(*sort, *number), part),
        Term::Get(part) => one(page, names, Unary::Get, part),
        Term::Peek(part) => one(page, names, Unary::Peek, part),
        Term::Set(cell, content) => two(page, names, Binary::Set, cell, content),
        Term::Async(body) => alone(page, names, b"async", body),
        Term::Block(part) => one(page, names, Unary::Block, part),
        Term::Unprotected(part) => unprotected(page, names, part),
        Term::Print(part) => one(page, names, Unary::Print, part),
        Term::Call(device, part) => one(page, names, Unary::Call(*device), part),
        Term::Pair(first, second) => two(page, names, Binary::Pair, first, second),
        Term::First(part) => one(page, names, Unary::First, part),
        Term::Second(part) => one(page, names, Unary::Second, part),
    }
}
