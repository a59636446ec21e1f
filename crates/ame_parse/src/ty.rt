//! Types, by recursive descent.

ghost use Rattle.ame_term.specs.View.{typ_of};
ghost use Rattle.ame_parse.specs.Input.{Reads};
ghost use Rattle.ame_parse.specs.Types as spec;

use crate::ahead::Ahead;
use crate::fault::{ParseFault, Want};
use crate::letters::{effect, sort};
use crate::reader::Reader;
use crate::words::Word;
use ame_term::{Name, Ty};
use std::alloc::Global;

/// Reads a type into a box, since a box is dropped by one call if a later step fails.
#[cycle(types)]
fn boxed_ty(alloc: Global, reader: &mut Reader<'_>, depth: usize) -> Result<Box<Ty>, ParseFault>
    ensures { Reads (λ b. typ_of b.value) (spec.ty depth reader.old) result reader.new }
{
    let part = ty(alloc, reader, depth)?;
    let part = Box::new(alloc, part)?;
    Ok(part)
}

#[cycle(types)]
#[tactic(auto, unfolding(crate::specs::Types::reference))]
fn reference(alloc: Global, reader: &mut Reader<'_>, depth: usize) -> Result<Ty, ParseFault>
    ensures { Reads typ_of (spec.reference (spec.ty depth) reader.old) result reader.new }
{
    let sort = sort(reader)?;
    let content = boxed_ty(alloc, reader, depth)?;
    reader.closing()?;
    Ok(Ty::Ref(sort, content))
}

#[cycle(types)]
#[tactic(auto, unfolding(crate::specs::Types::function))]
fn function(alloc: Global, reader: &mut Reader<'_>, depth: usize) -> Result<Ty, ParseFault>
    ensures { Reads typ_of (spec.function (spec.ty depth) reader.old) result reader.new }
{
    let effect = effect(reader)?;
    let param = boxed_ty(alloc, reader, depth)?;
    let gives = boxed_ty(alloc, reader, depth)?;
    reader.closing()?;
    Ok(Ty::Fun(effect, param, gives))
}

#[cycle(types)]
#[tactic(auto, unfolding(crate::specs::Types::pair))]
fn pair(alloc: Global, reader: &mut Reader<'_>, depth: usize) -> Result<Ty, ParseFault>
    ensures { Reads typ_of (spec.pair (spec.ty depth) reader.old) result reader.new }
{
    let first = boxed_ty(alloc, reader, depth)?;
    let second = boxed_ty(alloc, reader, depth)?;
    reader.closing()?;
    Ok(Ty::Pair(first, second))
}

/// Reads the rest of a type after its opening parenthesis.
#[cycle(types)]
#[tactic(auto, unfolding(crate::specs::Types::compound))]
fn compound(alloc: Global, reader: &mut Reader<'_>, depth: usize) -> Result<Ty, ParseFault>
    ensures { Reads typ_of (spec.compound (spec.ty depth) reader.old) result reader.new }
{
    match reader.ahead() {
        Ahead::Reserved(Word::RefType) => {
            reader.advance();
            reference(alloc, reader, depth)
        }
        Ahead::Reserved(Word::FunType) => {
            reader.advance();
            function(alloc, reader, depth)
        }
        Ahead::Reserved(Word::PairType) => {
            reader.advance();
            pair(alloc, reader, depth)
        }
        _ => Err(reader.expected(Want::Ty)),
    }
}

/// Reads a type with parentheses. At most `depth` may be open in it.
#[cycle(types)]
fn nested(alloc: Global, reader: &mut Reader<'_>, depth: usize) -> Result<Ty, ParseFault>
    ensures { Reads typ_of (spec.nested depth reader.old) result reader.new }
{
    if depth == 0 {
        return Err(ParseFault::TooNested(reader.place()));
    }
    reader.advance();
    compound(alloc, reader, depth - 1)
}

/// Reads a type. At most `depth` parentheses may be open in it.
#[cycle(types)]
#[tactic(auto, unfolding(crate::specs::Types::ty))]
pub fn ty(alloc: Global, reader: &mut Reader<'_>, depth: usize) -> Result<Ty, ParseFault>
    ensures { Reads typ_of (spec.ty depth reader.old) result reader.new }
{
    match reader.ahead() {
        Ahead::Opening => nested(alloc, reader, depth),
        Ahead::Reserved(Word::UnitType) => {
            reader.advance();
            Ok(Ty::Unit)
        }
        Ahead::Reserved(Word::BoolType) => {
            reader.advance();
            Ok(Ty::Bool)
        }
        Ahead::Reserved(Word::IntType) => {
            reader.advance();
            Ok(Ty::Int)
        }
        _ => Err(reader.expected(Want::Ty)),
    }
}

/// Reads a parameter. At most `depth` parentheses may be open in it.
#[tactic(auto, unfolding(crate::specs::Types::param))]
pub fn param(alloc: Global, reader: &mut Reader<'_>, depth: usize) -> Result<(Name, Ty), ParseFault>
    ensures { Reads (λ p. (p.0.0, typ_of p.1)) (spec.param depth reader.old) result reader.new }
{
    reader.opening(depth)?;
    let name = reader.name(alloc)?;
    let ty = ty(alloc, reader, depth.saturating_sub(1))?;
    reader.closing()?;
    Ok((name, ty))
}
