//! The names in scope.

ghost use Rattle.std.specs.Prelude.{◌≡◌, IsTrue, Some};
ghost use Rattle.ame_term.specs.SourceTerm.{is_name_of};

use crate::shared_type::SharedType;
use crate::table::Types;
use ame_term::Name;

/// The names in scope with their types: a chain of bindings, the innermost first.
#[derive(Clone, Copy)]
pub enum TypeScope<'a, 't> {
    Empty,
    Bound(&'a TypeScope<'a, 't>, Name, SharedType<'t>),
    /// The type of a part that was checked before, which is wanted after this one. It binds no name.
    Beside(&'a TypeScope<'a, 't>, SharedType<'t>),
}

impl<'a, 't> TypeScope<'a, 't> {
    ghost use Rattle.ame_types.specs.Shared.{shared_type, IsListed};
    ghost use Rattle.ame_types.specs.Scope.{scope_of, names_of, AreListed};

    /// Returns the type of a name in scope, which the table has. Takes time by the number of links within its own.
    pub fn ty(&self, types: &Types<'t>, name: Name) -> SharedType<'t>
        requires bound { IsTrue (is_name_of (names_of self.now) name.0) }
        requires listed { AreListed types.now.keys.keys self.now }
        ensures ty { scope_of self.now name.0 ≡ Some (shared_type result) }
        ensures listed { IsListed types.now.keys.keys result }
    {
        match self {
            TypeScope::Empty => unreachable!(),
            TypeScope::Bound(outer, bound, ty) => {
                if *bound == name {
                    *ty
                } else {
                    outer.ty(types, name)
                }
            }
            TypeScope::Beside(outer, _) => outer.ty(types, name),
        }
    }
}
