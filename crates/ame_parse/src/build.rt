//! Terms over their parts.

ghost use Rattle.std.specs.Prelude.{◌≡◌, map, IfOk};
ghost use Rattle.ame_term.specs.Tree as tree;
ghost use Rattle.ame_term.specs.View.{tree_of};
ghost use Rattle.ame_parse.specs.Forms as spec;

use ame_term::{Binary, Term, Unary, Value};
use std::alloc::{AllocError, Global};

pub fn one(op: Unary, part: Box<Term>) -> Term
    ensures { tree_of result ≡ tree.Tree.One op (tree_of part.value) }
{
    match op {
        Unary::Not => Term::Not(part),
        Unary::Ref(sort, number) => Term::Ref(sort, number, part),
        Unary::Get => Term::Get(part),
        Unary::Peek => Term::Peek(part),
        Unary::Block => Term::Block(part),
        Unary::Print => Term::Print(part),
        Unary::Call(device) => Term::Call(device, part),
        Unary::First => Term::First(part),
        Unary::Second => Term::Second(part),
    }
}

pub fn two(op: Binary, first: Box<Term>, second: Box<Term>) -> Term
    ensures { tree_of result ≡ tree.Tree.Two op (tree_of first.value) (tree_of second.value) }
{
    match op {
        Binary::App => Term::App(first, second),
        Binary::Bin(op) => Term::Bin(op, first, second),
        Binary::Set => Term::Set(first, second),
        Binary::Pair => Term::Pair(first, second),
    }
}

pub fn sequence(parts: Vec<Term>) -> Term
    ensures { tree_of result ≡ tree.Tree.Do (spec.row (map tree_of parts.items)) }
{
    Term::Do(parts)
}

/// Returns `unprotected unit`.
pub fn yielding(alloc: Global) -> Result<Term, AllocError>
    ensures { IfOk result (λ t. tree_of t ≡ tree.Tree.Unprotected tree.unit_tree) }
{
    let unit = Box::new(alloc, Term::Held(Value::Unit))?;
    Ok(Term::Unprotected(unit))
}
