//! Forms with one part.

ghost use Rattle.std.specs.Prelude.{◌≡◌, ℕ, ◌++◌, true, Ok, length, map, IfOk, IfErr, OnOk};
ghost use Rattle.ame_term.specs.Shown.{TypeOutcome};
ghost use Rattle.ame_term.specs.Typing.{unary_row};
ghost use Rattle.ame_types.specs.Shared.{shared_type, IsListed, Lengthens};
ghost use Rattle.ame_types.specs.Fault.{AnswersType, IsFaultOf};
ghost use Rattle.ame_types.specs.Unary.{stands_under, ref_room, HasRefRoom, filled};

use crate::expect::{expect, first_of, known, peeked, read, second_of, under};
use crate::fault::CheckFail;
use crate::rule;
use crate::shared_type::SharedType;
use crate::site::{FormSite, PartSite};
use crate::table::Types;
use ame_term::{Effect, NoMemory, Unary, push};
use std::alloc::Global;

/// Tests what a form with one part needs whatever its part is.
pub fn stand<'t>(
    alloc: Global,
    devices: u32,
    op: Unary,
    form: FormSite,
) -> Result<(), CheckFail<'t>>
    ensures ok { OnOk result (stands_under devices op form.effect ≡ true) }
    ensures err { IfErr result (λ e. (part_at : ℕ) (part : TypeOutcome) → IsFaultOf (unary_row devices op form.place part_at form.effect part) e) }
{
    match op {
        Unary::Peek => under(alloc, rule::WRONG_EFFECT, form, Effect::Unprotected),
        Unary::Block => under(alloc, rule::MISPLACED_BLOCK, form, Effect::Protected),
        Unary::Call(device) => {
            under(alloc, rule::WRONG_EFFECT, form, Effect::Unprotected)?;
            known(alloc, devices, u32::from(device), form.place)
        }
        _ => Ok(()),
    }
}

/// Returns the type of a form with this part.
pub fn unary_ty<'t>(
    types: &mut Types<'t>,
    op: Unary,
    form: FormSite,
    part: &PartSite<'t>,
) -> Result<SharedType<'t>, CheckFail<'t>>
    requires { IsListed types.old.keys.keys part.now.found }
    ensures ty { (devices : ℕ) → stands_under devices op form.effect ≡ true → AnswersType (unary_row devices op form.place part.now.place form.effect (Ok (shared_type part.now.found))) result }
    ensures stays { Lengthens types.old.keys.keys types.new.keys.keys }
    ensures listed { IfOk result (λ t. IsListed types.new.keys.keys t) }
{
    let mismatch = rule::TYPE_MISMATCH;
    match op {
        Unary::Not => expect(types, mismatch, part, &SharedType::Bool, SharedType::Bool),
        Unary::Ref(sort, _) => Ok(types.reference(sort, part.found)?),
        Unary::Get => read(types, form, part),
        Unary::Peek => peeked(types, form.place, part),
        Unary::Block => expect(types, mismatch, part, &SharedType::Bool, SharedType::Unit),
        Unary::Print => expect(types, mismatch, part, &SharedType::Int, SharedType::Unit),
        Unary::Call(_) => expect(types, mismatch, part, &SharedType::Int, SharedType::Int),
        Unary::First => first_of(types, part),
        Unary::Second => second_of(types, part),
    }
}

/// Makes room at the end for the type that a `ref` form stores, and returns the number of the end. Other
/// forms store none.
pub fn reserve(tys: &mut Vec<SharedType<'_>>, op: Unary) -> Result<usize, NoMemory>
    ensures number { IfOk result (λ n. n ≡ length (map shared_type tys.old.items)) }
    ensures room { IfOk result (λ n. map shared_type tys.new.items ≡ map shared_type tys.old.items ++ ref_room op) }
{
    let number = tys.len();
    match op {
        Unary::Ref(_, _) => {
            push(tys, SharedType::Unit)?;
            Ok(number)
        }
        _ => Ok(number),
    }
}

/// Puts the type of the part in the room of a `ref` form.
#[tactic(auto, using(crate::proofs::UnaryLemmas::lists))]
pub fn fill<'t>(tys: &mut Vec<SharedType<'t>>, op: Unary, number: usize, part: SharedType<'t>)
    requires { HasRefRoom op (map shared_type tys.old.items) number }
    ensures { map shared_type tys.new.items ≡ filled op (map shared_type tys.old.items) number (shared_type part.entry) }
{
    if let Unary::Ref(_, _) = op {
        tys[number] = part;
    }
}
