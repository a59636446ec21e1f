//! The keys of types with parts.

ghost use Rattle.std.specs.Prelude.{◌≡◌};
ghost use Rattle.ame_types.specs.Shared as spec;

use crate::shared_type::{Key, SharedType, Zone};
use ame_term::{Effect, Sort};

pub fn ref_key(sort: Sort, content: &SharedType<'_>) -> Key
    ensures { result ≡ spec.ref_key sort content.now }
{
    match sort {
        Sort::Protected => Key::Ref(Zone::Protected, content.mark()),
        Sort::Unprotected => Key::Ref(Zone::Unprotected, content.mark()),
    }
}

pub fn fun_key(effect: Effect, param: &SharedType<'_>, answer: &SharedType<'_>) -> Key
    ensures { result ≡ spec.fun_key effect param.now answer.now }
{
    match effect {
        Effect::Protected => Key::Fun(Zone::Protected, param.mark(), answer.mark()),
        Effect::Unprotected => Key::Fun(Zone::Unprotected, param.mark(), answer.mark()),
        Effect::Either => Key::Fun(Zone::Either, param.mark(), answer.mark()),
    }
}

pub fn pair_key(first: &SharedType<'_>, second: &SharedType<'_>) -> Key
    ensures { result ≡ spec.pair_key first.now second.now }
{
    Key::Pair(first.mark(), second.mark())
}
