//! The tests of the rules, on types that were found.

ghost use Rattle.std.specs.Prelude.{◌≡◌, ℕ, List, Ok, Err, nat_lt, IfOk};
ghost use Rattle.ame_term.specs.View.{typ_of, val_of};
ghost use Rattle.ame_term.specs.Shown.{Shown as Seen, wrong_effect, wrong_sort, no_device};
ghost use Rattle.ame_term.specs.Typing.{same_type, same_effect, need, breaks, want, fits, touches, op_type, read_row, peeked_row, first_of as first_of_pair, second_of as second_of_pair, typed_value, no_cells};
ghost use Rattle.ame_term.specs.Tree.{Typ};
ghost use Rattle.ame_term.specs.SourceTerm.{IsConstant};
ghost use Rattle.ame_types.specs.declared.shared_type.Key.{Key};
ghost use Rattle.ame_types.specs.Shared.{shared_type, IsListed};
ghost use Rattle.ame_types.specs.Fault.{AnswersType, PassesTest, IsFaultOf, mismatch, shared_fault};

use crate::fault::{CheckFail, SharedFault, SharedShown};
use crate::rule;
use crate::shared_type::SharedType;
use crate::site::{Callee, FormSite, PartSite};
use crate::table::Types;
use ame_term::{Effect, Op, ScalarTy, Sort, Value, boxed};
use std::alloc::Global;

/// Stops a check at a fault.
fn stop(alloc: Global, fault: SharedFault<'_>) -> CheckFail<'_>
    ensures { IsFaultOf (Err (shared_fault fault.entry)) result }
{
    match boxed(alloc, fault) {
        Ok(fault) => CheckFail::Fault(fault),
        Err(_no_memory) => CheckFail::NoMemory,
    }
}

/// Stops at a part that has another type than the wanted one.
fn mismatched<'t>(
    alloc: Global,
    rule: u8,
    part: &PartSite<'t>,
    wanted: &SharedType<'t>,
) -> CheckFail<'t>
    ensures { IsFaultOf (mismatch rule part.now.place (shared_type part.now.found) (shared_type wanted.now)) result }
{
    stop(
        alloc,
        SharedFault {
            rule,
            place: part.place,
            found: SharedShown::Ty(part.found),
            wanted: SharedShown::Ty(*wanted),
        },
    )
}

/// Stops at a part whose type has no use there.
pub fn unfit<'t>(alloc: Global, rule: u8, part: &PartSite<'t>) -> CheckFail<'t>
    ensures { IsFaultOf (breaks rule part.now.place (Seen.Ty (shared_type part.now.found)) Seen.Nothing) result }
{
    stop(
        alloc,
        SharedFault {
            rule,
            place: part.place,
            found: SharedShown::Ty(part.found),
            wanted: SharedShown::Nothing,
        },
    )
}

/// Returns the type that a form has, if its part has the wanted type.
pub fn expect<'t>(
    types: &Types<'t>,
    rule: u8,
    part: &PartSite<'t>,
    wanted: &SharedType<'t>,
    then: SharedType<'t>,
) -> Result<SharedType<'t>, CheckFail<'t>>
    requires found { IsListed types.now.keys.keys part.now.found }
    requires wanted { IsListed types.now.keys.keys wanted.now }
    requires then { IsListed types.now.keys.keys then }
    ensures ty { AnswersType (need (same_type (shared_type part.now.found) (shared_type wanted.now)) (mismatch rule part.now.place (shared_type part.now.found) (shared_type wanted.now)) (Ok (shared_type then.entry))) result }
    ensures listed { IfOk result (λ t. IsListed types.now.keys.keys t) }
{
    if types.same(&part.found, wanted) {
        Ok(then)
    } else {
        Err(mismatched(types.alloc, rule, part, wanted))
    }
}

/// Tests that a part has the wanted type.
pub fn require<'t>(
    types: &Types<'t>,
    rule: u8,
    part: &PartSite<'t>,
    wanted: &SharedType<'t>,
) -> Result<(), CheckFail<'t>>
    requires found { IsListed types.now.keys.keys part.now.found }
    requires wanted { IsListed types.now.keys.keys wanted.now }
    ensures { PassesTest (same_type (shared_type part.now.found) (shared_type wanted.now)) (mismatch rule part.now.place (shared_type part.now.found) (shared_type wanted.now)) result }
{
    if types.same(&part.found, wanted) {
        Ok(())
    } else {
        Err(mismatched(types.alloc, rule, part, wanted))
    }
}

/// Tests that the form stands under the wanted effect.
pub fn under<'t>(
    alloc: Global,
    rule: u8,
    form: FormSite,
    wanted: Effect,
) -> Result<(), CheckFail<'t>>
    ensures { PassesTest (same_effect form.effect wanted) (breaks rule form.place (Seen.Effect form.effect) (Seen.Effect wanted)) result }
{
    if form.effect == wanted {
        Ok(())
    } else {
        Err(stop(
            alloc,
            SharedFault {
                rule,
                place: form.place,
                found: SharedShown::Effect(form.effect),
                wanted: SharedShown::Effect(wanted),
            },
        ))
    }
}

/// Tests that there is a device of this number.
pub fn known<'t>(alloc: Global, devices: u32, device: u32, at: u32) -> Result<(), CheckFail<'t>>
    ensures { PassesTest (nat_lt device devices) (breaks no_device at (Seen.Device device) (Seen.Device devices)) result }
{
    if device < devices {
        Ok(())
    } else {
        Err(stop(
            alloc,
            SharedFault {
                rule: rule::NO_DEVICE,
                place: at,
                found: SharedShown::Device(device),
                wanted: SharedShown::Device(devices),
            },
        ))
    }
}

/// Returns the wanted type, if the part has it.
pub fn agree<'t>(
    types: &Types<'t>,
    part: &PartSite<'t>,
    wanted: SharedType<'t>,
) -> Result<SharedType<'t>, CheckFail<'t>>
    requires found { IsListed types.now.keys.keys part.now.found }
    requires wanted { IsListed types.now.keys.keys wanted }
    ensures ty { AnswersType (want part.now.place (shared_type part.now.found) (shared_type wanted.entry) (Ok (shared_type wanted.entry))) result }
    ensures listed { IfOk result (λ t. IsListed types.now.keys.keys t) }
{
    expect(types, rule::TYPE_MISMATCH, part, &wanted, wanted)
}

/// Returns whether a reference of a sort may be read and written under an effect.
fn may_touch(sort: Sort, q: Effect) -> bool
    ensures { result ≡ touches sort q }
{
    match sort {
        Sort::Protected => q == Effect::Protected,
        Sort::Unprotected => q == Effect::Unprotected,
    }
}

/// Tests that a function of an effect may be called by the form.
fn callable<'t>(alloc: Global, form: FormSite, effect: Effect) -> Result<(), CheckFail<'t>>
    ensures { PassesTest (fits effect form.effect) (breaks wrong_effect form.place (Seen.Effect effect) (Seen.Effect form.effect)) result }
{
    if effect == Effect::Either || effect == form.effect {
        Ok(())
    } else {
        Err(stop(
            alloc,
            SharedFault {
                rule: rule::WRONG_EFFECT,
                place: form.place,
                found: SharedShown::Effect(effect),
                wanted: SharedShown::Effect(form.effect),
            },
        ))
    }
}

/// Tests that a reference of a sort may be read and written by the form.
fn touchable<'t>(alloc: Global, form: FormSite, sort: Sort) -> Result<(), CheckFail<'t>>
    ensures { PassesTest (touches sort form.effect) (breaks wrong_sort form.place (Seen.Sort sort) (Seen.Effect form.effect)) result }
{
    if may_touch(sort, form.effect) {
        Ok(())
    } else {
        Err(stop(
            alloc,
            SharedFault {
                rule: rule::WRONG_SORT,
                place: form.place,
                found: SharedShown::Sort(sort),
                wanted: SharedShown::Effect(form.effect),
            },
        ))
    }
}

/// Returns the type of a call of a function of the effect with the argument.
pub fn applied<'t>(
    types: &Types<'t>,
    form: FormSite,
    argument: &PartSite<'t>,
    callee: Callee<'t>,
) -> Result<SharedType<'t>, CheckFail<'t>>
    requires found { IsListed types.now.keys.keys argument.now.found }
    requires param { IsListed types.now.keys.keys callee.param }
    requires answer { IsListed types.now.keys.keys callee.answer }
    ensures ty { AnswersType (want argument.now.place (shared_type argument.now.found) (shared_type callee.entry.param) (need (fits callee.entry.effect form.effect) (breaks wrong_effect form.place (Seen.Effect callee.entry.effect) (Seen.Effect form.effect)) (Ok (shared_type callee.entry.answer)))) result }
    ensures listed { IfOk result (λ t. IsListed types.now.keys.keys t) }
{
    require(types, rule::TYPE_MISMATCH, argument, &callee.param)?;
    callable(types.alloc, form, callee.effect)?;
    Ok(callee.answer)
}

/// Returns the type of what is read through a value of the part's type.
pub fn read<'t>(
    types: &Types<'t>,
    form: FormSite,
    part: &PartSite<'t>,
) -> Result<SharedType<'t>, CheckFail<'t>>
    requires { IsListed types.now.keys.keys part.now.found }
    ensures ty { AnswersType (read_row form.place part.now.place form.effect (shared_type part.now.found)) result }
    ensures listed { IfOk result (λ t. IsListed types.now.keys.keys t) }
{
    match part.found {
        SharedType::Ref(_, sort, content) => {
            touchable(types.alloc, form, sort)?;
            Ok(*content)
        }
        _ => Err(unfit(types.alloc, rule::NO_REFERENCE, part)),
    }
}

/// Returns the type of what is peeked at through a value of the part's type.
pub fn peeked<'t>(
    types: &Types<'t>,
    at: u32,
    part: &PartSite<'t>,
) -> Result<SharedType<'t>, CheckFail<'t>>
    requires { IsListed types.now.keys.keys part.now.found }
    ensures ty { AnswersType (peeked_row at part.now.place (shared_type part.now.found)) result }
    ensures listed { IfOk result (λ t. IsListed types.now.keys.keys t) }
{
    match part.found {
        SharedType::Ref(_, Sort::Protected, content) => Ok(*content),
        SharedType::Ref(_, sort, _) => Err(stop(
            types.alloc,
            SharedFault {
                rule: rule::WRONG_SORT,
                place: at,
                found: SharedShown::Sort(sort),
                wanted: SharedShown::Sort(Sort::Protected),
            },
        )),
        _ => Err(unfit(types.alloc, rule::NO_REFERENCE, part)),
    }
}

/// Returns the type of a write of the content through a reference of the sort.
pub fn written<'t>(
    types: &Types<'t>,
    form: FormSite,
    content: &PartSite<'t>,
    sort: Sort,
    wanted: &SharedType<'t>,
) -> Result<SharedType<'t>, CheckFail<'t>>
    requires found { IsListed types.now.keys.keys content.now.found }
    requires wanted { IsListed types.now.keys.keys wanted.now }
    ensures ty { AnswersType (want content.now.place (shared_type content.now.found) (shared_type wanted.now) (need (touches sort form.effect) (breaks wrong_sort form.place (Seen.Sort sort) (Seen.Effect form.effect)) (Ok Typ.Unit))) result }
    ensures listed { IfOk result (λ t. IsListed types.now.keys.keys t) }
{
    require(types, rule::TYPE_MISMATCH, content, wanted)?;
    touchable(types.alloc, form, sort)?;
    Ok(SharedType::Unit)
}

/// Returns the type of the first part of a pair.
pub fn first_of<'t>(types: &Types<'t>, part: &PartSite<'t>) -> Result<SharedType<'t>, CheckFail<'t>>
    requires { IsListed types.now.keys.keys part.now.found }
    ensures ty { AnswersType (first_of_pair part.now.place (shared_type part.now.found)) result }
    ensures listed { IfOk result (λ t. IsListed types.now.keys.keys t) }
{
    match part.found {
        SharedType::Pair(_, first, _) => Ok(*first),
        _ => Err(unfit(types.alloc, rule::NO_PAIR, part)),
    }
}

/// Returns the type of the second part of a pair.
pub fn second_of<'t>(
    types: &Types<'t>,
    part: &PartSite<'t>,
) -> Result<SharedType<'t>, CheckFail<'t>>
    requires { IsListed types.now.keys.keys part.now.found }
    ensures ty { AnswersType (second_of_pair part.now.place (shared_type part.now.found)) result }
    ensures listed { IfOk result (λ t. IsListed types.now.keys.keys t) }
{
    match part.found {
        SharedType::Pair(_, _, second) => Ok(*second),
        _ => Err(unfit(types.alloc, rule::NO_PAIR, part)),
    }
}

/// Returns the type that an operator gives.
pub fn op_ty<'t>(op: Op) -> SharedType<'t>
    ensures ty { shared_type result ≡ op_type op }
    ensures listed { (keys : List Key) → IsListed keys result }
{
    match op.gives() {
        ScalarTy::Bool => SharedType::Bool,
        ScalarTy::Int => SharedType::Int,
    }
}

/// Returns the type of a constant.
#[tactic(auto, unfolding(ame_term::specs::Typing::typed_value))]
pub fn constant<'t>(value: &Value) -> SharedType<'t>
    requires { IsConstant (val_of value.now) }
    ensures ty { (devices at : ℕ) → typed_value devices no_cells at (val_of value.now) ≡ Ok (shared_type result) }
    ensures listed { (keys : List Key) → IsListed keys result }
{
    match value {
        Value::Unit => SharedType::Unit,
        Value::Bool(_) => SharedType::Bool,
        Value::Int(_) => SharedType::Int,
        _ => unreachable!(),
    }
}
