//! Terms and forms, by recursive descent.

ghost use Rattle.std.specs.Prelude.{◌≡◌, map};
ghost use Rattle.ame_term.specs.Tree.{Tree};
ghost use Rattle.ame_term.specs.View.{tree_of};
ghost use Rattle.ame_parse.specs.Input.{Reads};
ghost use Rattle.ame_parse.specs.Reading as spec;
ghost use Rattle.ame_parse.specs.Types as types;

use crate::ahead::Ahead;
use crate::build;
use crate::fault::{ParseFault, Want};
use crate::forms::{Opener, opener_of};
use crate::letters::{device, effect, numbered_sort};
use crate::reader::Reader;
use crate::ty::{param, ty};
use crate::words::Word;
use ame_term::{Binary, Function, Name, Own, Term, Unary, Value};
use std::alloc::Global;

/// Reads a name that is bound.
#[tactic(auto, unfolding(crate::specs::Reading::variable))]
fn variable(alloc: Global, reader: &mut Reader<'_>) -> Result<Term, ParseFault>
    ensures { Reads tree_of (spec.variable reader.old) result reader.new }
{
    let place = reader.place();
    let name = reader.name(alloc)?;
    if reader.binds(name) {
        Ok(Term::Var(name))
    } else {
        Err(ParseFault::UnknownName(place))
    }
}

/// Reads `yield`, which is two nodes at its place.
#[tactic(auto, unfolding(crate::specs::Reading::yielding))]
fn yielding(alloc: Global, reader: &mut Reader<'_>) -> Result<Term, ParseFault>
    ensures { Reads tree_of (spec.yielding reader.old) result reader.new }
{
    reader.mark()?;
    reader.advance();
    let whole = build::yielding(alloc)?;
    Ok(whole)
}

#[tactic(auto, unfolding(crate::specs::Reading::constant))]
fn constant(alloc: Global, reader: &mut Reader<'_>, word: Word) -> Result<Term, ParseFault>
    ensures { Reads tree_of (spec.constant word reader.old) result reader.new }
{
    match word {
        Word::Unit => {
            reader.advance();
            Ok(Term::Held(Value::Unit))
        }
        Word::True => {
            reader.advance();
            Ok(Term::Held(Value::Bool(true)))
        }
        Word::False => {
            reader.advance();
            Ok(Term::Held(Value::Bool(false)))
        }
        Word::Yield => yielding(alloc, reader),
        _ => Err(reader.expected(Want::Term)),
    }
}

/// Reads a term of one token, which is the next one.
fn atom(alloc: Global, reader: &mut Reader<'_>, next: Ahead) -> Result<Term, ParseFault>
    ensures { Reads tree_of (spec.atom_by next reader.old) result reader.new }
{
    match next {
        Ahead::Number(value) => {
            reader.advance();
            Ok(Term::Held(Value::Int(value)))
        }
        Ahead::Reserved(word) => constant(alloc, reader, word),
        Ahead::Name => variable(alloc, reader),
        _ => Err(reader.expected(Want::Term)),
    }
}

/// Reads a term into a box, since a box is dropped by one call if a later step fails.
#[cycle(grammar)]
pub fn boxed_term(
    alloc: Global,
    reader: &mut Reader<'_>,
    depth: usize,
) -> Result<Box<Term>, ParseFault>
    ensures { Reads (λ b. tree_of b.value) (spec.term depth reader.old) result reader.new }
{
    let part = term(alloc, reader, depth)?;
    let part = Box::new(alloc, part)?;
    Ok(part)
}

/// Reads a term in which a name is bound, and the closing parenthesis.
#[cycle(grammar)]
#[tactic(auto, unfolding(crate::specs::Reading::scoped))]
fn scoped(
    alloc: Global,
    reader: &mut Reader<'_>,
    depth: usize,
    name: Name,
) -> Result<Box<Term>, ParseFault>
    ensures { Reads (λ b. tree_of b.value) (spec.scoped (spec.term depth) name.0 reader.old) result reader.new }
{
    reader.bind(name)?;
    let part = boxed_term(alloc, reader, depth)?;
    reader.closing()?;
    reader.unbind();
    Ok(part)
}

#[cycle(grammar)]
#[tactic(auto, unfolding(crate::specs::Reading::alone))]
fn one(alloc: Global, reader: &mut Reader<'_>, depth: usize, op: Unary) -> Result<Term, ParseFault>
    ensures { Reads tree_of (spec.alone (spec.term depth) (Tree.One op) reader.old) result reader.new }
{
    let part = boxed_term(alloc, reader, depth)?;
    reader.closing()?;
    Ok(build::one(op, part))
}

#[cycle(grammar)]
#[tactic(auto, unfolding(crate::specs::Reading::reference))]
fn reference(alloc: Global, reader: &mut Reader<'_>, depth: usize) -> Result<Term, ParseFault>
    ensures { Reads tree_of (spec.reference (spec.term depth) reader.old) result reader.new }
{
    let (sort, number) = numbered_sort(reader)?;
    one(alloc, reader, depth, Unary::Ref(sort, number))
}

#[cycle(grammar)]
#[tactic(auto, unfolding(crate::specs::Reading::call))]
fn call(alloc: Global, reader: &mut Reader<'_>, depth: usize) -> Result<Term, ParseFault>
    ensures { Reads tree_of (spec.call (spec.term depth) reader.old) result reader.new }
{
    let device = device(reader)?;
    one(alloc, reader, depth, Unary::Call(device))
}

#[cycle(grammar)]
#[tactic(auto, unfolding(crate::specs::Reading::alone))]
fn spawning(alloc: Global, reader: &mut Reader<'_>, depth: usize) -> Result<Term, ParseFault>
    ensures { Reads tree_of (spec.alone (spec.term depth) Tree.Async reader.old) result reader.new }
{
    let body = boxed_term(alloc, reader, depth)?;
    reader.closing()?;
    Ok(Term::Async(body))
}

#[cycle(grammar)]
#[tactic(auto, unfolding(crate::specs::Reading::alone))]
fn unprotected(alloc: Global, reader: &mut Reader<'_>, depth: usize) -> Result<Term, ParseFault>
    ensures { Reads tree_of (spec.alone (spec.term depth) Tree.Unprotected reader.old) result reader.new }
{
    let part = boxed_term(alloc, reader, depth)?;
    reader.closing()?;
    Ok(Term::Unprotected(part))
}

#[cycle(grammar)]
#[tactic(auto, unfolding(crate::specs::Reading::two))]
fn two(alloc: Global, reader: &mut Reader<'_>, depth: usize, op: Binary) -> Result<Term, ParseFault>
    ensures { Reads tree_of (spec.two (spec.term depth) op reader.old) result reader.new }
{
    let first = boxed_term(alloc, reader, depth)?;
    let second = boxed_term(alloc, reader, depth)?;
    reader.closing()?;
    Ok(build::two(op, first, second))
}

#[cycle(grammar)]
#[tactic(auto, unfolding(crate::specs::Reading::choice))]
fn choice(alloc: Global, reader: &mut Reader<'_>, depth: usize) -> Result<Term, ParseFault>
    ensures { Reads tree_of (spec.choice (spec.term depth) reader.old) result reader.new }
{
    let test = boxed_term(alloc, reader, depth)?;
    let then_part = boxed_term(alloc, reader, depth)?;
    let else_part = boxed_term(alloc, reader, depth)?;
    reader.closing()?;
    Ok(Term::If(test, then_part, else_part))
}

#[cycle(grammar)]
#[tactic(auto, unfolding(crate::specs::Reading::binding, crate::specs::Reading::scoped))]
fn binding(alloc: Global, reader: &mut Reader<'_>, depth: usize) -> Result<Term, ParseFault>
    ensures { Reads tree_of (spec.binding (spec.term depth) reader.old) result reader.new }
{
    let name = reader.name(alloc)?;
    let bound = boxed_term(alloc, reader, depth)?;
    let body = scoped(alloc, reader, depth, name)?;
    Ok(Term::Let(name, bound, body))
}

/// Reads the parts up to the closing parenthesis, after those that were read.
#[cycle(grammar)]
fn more(
    alloc: Global,
    reader: &mut Reader<'_>,
    depth: usize,
    mut parts: Vec<Term>,
) -> Result<Vec<Term>, ParseFault>
    ensures { Reads (λ v. map tree_of v.items) (spec.more (spec.term depth) (map tree_of parts.items) reader.old) result reader.new }
{
    for _turn in 0..reader.left() {
        if reader.sees_closing() {
            return Ok(parts);
        }
        let part = term(alloc, reader, depth)?;
        parts.push(part)?;
    }
    Err(reader.expected(Want::Term))
}

#[cycle(grammar)]
#[tactic(auto, unfolding(crate::specs::Reading::first_two))]
fn first_two(alloc: Global, reader: &mut Reader<'_>, depth: usize) -> Result<Vec<Term>, ParseFault>
    ensures { Reads (λ v. map tree_of v.items) (spec.first_two (spec.term depth) reader.old) result reader.new }
{
    let mut parts = Vec::new(alloc);
    let first = term(alloc, reader, depth)?;
    parts.push(first)?;
    let second = term(alloc, reader, depth)?;
    parts.push(second)?;
    Ok(parts)
}

#[cycle(grammar)]
#[tactic(auto, unfolding(crate::specs::Reading::sequence))]
fn sequence(alloc: Global, reader: &mut Reader<'_>, depth: usize) -> Result<Term, ParseFault>
    ensures { Reads tree_of (spec.sequence (spec.term depth) reader.old) result reader.new }
{
    let parts = first_two(alloc, reader, depth)?;
    let parts = more(alloc, reader, depth, parts)?;
    reader.closing()?;
    Ok(build::sequence(parts))
}

#[cycle(grammar)]
#[tactic(auto, unfolding(crate::specs::Reading::function, crate::specs::Reading::scoped))]
fn function(alloc: Global, reader: &mut Reader<'_>, depth: usize) -> Result<Term, ParseFault>
    ensures { Reads tree_of (spec.function (spec.term depth) (types.param depth) reader.old) result reader.new }
{
    let effect = effect(reader)?;
    let (name, param_ty) = param(alloc, reader, depth)?;
    let body = scoped(alloc, reader, depth, name)?;
    let function = Function {
        effect,
        own: None,
        param: name,
        param_ty,
        body: Box::into_inner(body),
    };
    let function = Box::new(alloc, function)?;
    Ok(Term::Fun(function))
}

#[cycle(grammar)]
#[tactic(auto, unfolding(crate::specs::Reading::recursive, crate::specs::Reading::scoped))]
fn recursive(alloc: Global, reader: &mut Reader<'_>, depth: usize) -> Result<Term, ParseFault>
    ensures { Reads tree_of (spec.recursive (spec.term depth) (types.param depth) (types.ty depth) reader.old) result reader.new }
{
    let effect = effect(reader)?;
    let own = reader.name(alloc)?;
    let (name, param_ty) = param(alloc, reader, depth)?;
    let result_ty = ty(alloc, reader, depth)?;
    reader.bind(own)?;
    let body = scoped(alloc, reader, depth, name)?;
    reader.unbind();
    let own = Own {
        name: own,
        result: result_ty,
    };
    let function = Function {
        effect,
        own: Some(own),
        param: name,
        param_ty,
        body: Box::into_inner(body),
    };
    let function = Box::new(alloc, function)?;
    Ok(Term::Fun(function))
}

/// Reads the rest of a form after its opening parenthesis.
#[cycle(grammar)]
#[tactic(auto, unfolding(crate::specs::Reading::compound))]
fn compound(alloc: Global, reader: &mut Reader<'_>, depth: usize) -> Result<Term, ParseFault>
    ensures { Reads tree_of (spec.compound (spec.term depth) (types.param depth) (types.ty depth) reader.old) result reader.new }
{
    let Some(opener) = opener_of(reader.ahead()) else {
        return Err(reader.expected(Want::Form));
    };
    reader.advance();
    match opener {
        Opener::One(op) => one(alloc, reader, depth, op),
        Opener::Ref => reference(alloc, reader, depth),
        Opener::Call => call(alloc, reader, depth),
        Opener::Two(op) => two(alloc, reader, depth, op),
        Opener::Async => spawning(alloc, reader, depth),
        Opener::Unprotected => unprotected(alloc, reader, depth),
        Opener::If => choice(alloc, reader, depth),
        Opener::Let => binding(alloc, reader, depth),
        Opener::Do => sequence(alloc, reader, depth),
        Opener::Fn => function(alloc, reader, depth),
        Opener::Rec => recursive(alloc, reader, depth),
    }
}

/// Reads a form. At most `depth` parentheses may be open in it.
#[cycle(grammar)]
fn nested(alloc: Global, reader: &mut Reader<'_>, depth: usize) -> Result<Term, ParseFault>
    ensures { Reads tree_of (spec.nested depth reader.old) result reader.new }
{
    if depth == 0 {
        return Err(ParseFault::TooNested(reader.place()));
    }
    reader.advance();
    compound(alloc, reader, depth - 1)
}

/// Reads a term. At most `depth` parentheses may be open in it.
#[cycle(grammar)]
#[tactic(auto, unfolding(crate::specs::Reading::term, crate::specs::Reading::atom))]
fn term(alloc: Global, reader: &mut Reader<'_>, depth: usize) -> Result<Term, ParseFault>
    ensures { Reads tree_of (spec.term depth reader.old) result reader.new }
{
    reader.mark()?;
    match reader.ahead() {
        Ahead::Opening => nested(alloc, reader, depth),
        next => atom(alloc, reader, next),
    }
}
