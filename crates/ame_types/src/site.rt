//! The forms that rules are applied to, and their parts.

use crate::shared_type::SharedType;
use crate::type_scope::TypeScope;
use ame_term::Effect;

/// The names in scope at a form, and the effect under which it stands.
#[derive(Clone, Copy)]
pub struct Site<'a, 't> {
    pub scope: &'a TypeScope<'a, 't>,
    pub effect: Effect,
}

impl<'a, 't> Site<'a, 't> {
    ghost use Rattle.std.specs.Prelude.{◌≡◌};

    /// Returns the site with these names in scope.
    #[inline]
    pub fn within<'b>(self, scope: &'b TypeScope<'b, 't>) -> Site<'b, 't>
        ensures scope { result.scope.now ≡ scope.now }
        ensures effect { result.effect ≡ self.entry.effect }
    {
        Site {
            scope,
            effect: self.effect,
        }
    }

    /// Returns the site under another effect.
    #[inline]
    pub fn under(self, effect: Effect) -> Site<'a, 't>
        ensures scope { result.scope.now ≡ self.entry.scope.now }
        ensures effect { result.effect ≡ effect }
    {
        Site {
            scope: self.scope,
            effect,
        }
    }
}

/// The place of a form in the text, and the effect under which it stands.
#[derive(Clone, Copy)]
pub struct FormSite {
    pub place: u32,
    pub effect: Effect,
}

/// The place of a part of a form, and the type that was found for it.
#[derive(Clone, Copy)]
pub struct PartSite<'t> {
    pub place: u32,
    pub found: SharedType<'t>,
}

/// The parts of a function's type.
#[derive(Clone, Copy)]
pub struct Callee<'t> {
    pub effect: Effect,
    pub param: SharedType<'t>,
    pub answer: SharedType<'t>,
}
