//! Types whose parts are shared.

use ame_term::{Effect, Sort};

/// A type whose parts are shared. One that has parts has a number in a table of types.
#[derive(Clone, Copy)]
pub enum SharedType<'t> {
    Unit,
    Bool,
    Int,
    Ref(usize, Sort, &'t SharedType<'t>),
    Fun(usize, Effect, &'t SharedType<'t>, &'t SharedType<'t>),
    Pair(usize, &'t SharedType<'t>, &'t SharedType<'t>),
}

/// The mark that sets the types of a table apart.
#[derive(Clone, Copy, PartialEq, Eq, Hash)]
pub enum Mark {
    Unit,
    Bool,
    Int,
    Numbered(usize),
}

/// The code that a reference or a function belongs to.
#[derive(Clone, Copy, PartialEq, Eq, Hash)]
pub enum Zone {
    Protected,
    Unprotected,
    Either,
}

/// A type with parts, by the marks of these.
#[derive(Clone, Copy, PartialEq, Eq, Hash)]
pub enum Key {
    Ref(Zone, Mark),
    Fun(Zone, Mark, Mark),
    Pair(Mark, Mark),
}

impl SharedType<'_> {
    ghost use Rattle.std.specs.Prelude.{◌≡◌};
    ghost use Rattle.ame_types.specs.Shared.{mark_of};

    pub fn mark(&self) -> Mark
        ensures { result ≡ mark_of self.now }
    {
        match self {
            SharedType::Unit => Mark::Unit,
            SharedType::Bool => Mark::Bool,
            SharedType::Int => Mark::Int,
            SharedType::Ref(number, _, _)
            | SharedType::Fun(number, _, _, _)
            | SharedType::Pair(number, _, _) => { Mark::Numbered(*number) }
        }
    }
}
