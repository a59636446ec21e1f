//! Types built from shared ones.

ghost use Rattle.std.specs.Prelude.{◌≡◌, ◌+◌, ◌<◌, ◌≤◌, map, sum, IfOk, IfErr};
ghost use Rattle.ame_term.specs.View.{typ_of};
ghost use Rattle.ame_types.specs.declared.build.BuildFail.TheVariants as build_fail;
ghost use Rattle.ame_types.specs.declared.fault.TypesFail.TheVariants as fail;
ghost use Rattle.ame_types.specs.Fault.{shown_of, fault_of, shared_shown, shared_fault};
ghost use Rattle.ame_types.specs.Shared.{shared_type};
ghost use Rattle.ame_types.specs.Sizes.{max_type_nodes, type_nodes, shown_nodes};

use crate::fault::{SharedFault, SharedShown, Shown, TypeFault, TypesFail};
use crate::shared_type::SharedType;
use ame_term::{NoMemory, Ty, boxed, push};
use std::alloc::Global;

/// The most nodes that built types may have together.
const LARGEST: usize = 1 << 20;

/// Why types were not built.
#[derive(Clone, Copy)]
pub enum BuildFail {
    TooLarge,
    NoMemory,
}

impl From<NoMemory> for BuildFail {
    ghost from_gives = { λ _ e. e ≡ build_fail.NoMemory };

    fn from(_error: NoMemory) -> BuildFail {
        BuildFail::NoMemory
    }
}

impl From<BuildFail> for TypesFail {
    ghost use Rattle.ame_types.specs.Fault.{fail_of_build};

    ghost from_gives = { λ b e. e ≡ fail_of_build b };

    fn from(error: BuildFail) -> TypesFail {
        match error {
            BuildFail::TooLarge => TypesFail::TooLarge,
            BuildFail::NoMemory => TypesFail::NoMemory,
        }
    }
}

/// Builds a type, whose nodes are taken from those that are left.
#[cycle(build)]
fn build(ty: &SharedType<'_>, alloc: Global, left: &mut usize) -> Result<Ty, BuildFail>
    ensures ty { IfOk result (λ t. typ_of t ≡ shared_type ty.now) }
    ensures left { IfOk result (λ t. left.new + type_nodes (shared_type ty.now) ≡ left.old) }
    ensures large { IfErr result (λ e. e ≡ build_fail.TooLarge → left.old < type_nodes (shared_type ty.now)) }
{
    if *left == 0 {
        return Err(BuildFail::TooLarge);
    }
    *left -= 1;
    match ty {
        SharedType::Unit => Ok(Ty::Unit),
        SharedType::Bool => Ok(Ty::Bool),
        SharedType::Int => Ok(Ty::Int),
        SharedType::Ref(_, sort, content) => Ok(Ty::Ref(*sort, part(content, alloc, left)?)),
        SharedType::Fun(_, effect, param, answer) => {
            let param = part(param, alloc, left)?;
            Ok(Ty::Fun(*effect, param, part(answer, alloc, left)?))
        }
        SharedType::Pair(_, first, second) => {
            let first = part(first, alloc, left)?;
            Ok(Ty::Pair(first, part(second, alloc, left)?))
        }
    }
}

/// Builds a part of a type, as `build` does, in a box.
#[cycle(build)]
fn part(ty: &SharedType<'_>, alloc: Global, left: &mut usize) -> Result<Box<Ty>, BuildFail>
    ensures ty { IfOk result (λ b. typ_of b.value ≡ shared_type ty.now) }
    ensures left { IfOk result (λ b. left.new + type_nodes (shared_type ty.now) ≡ left.old) }
    ensures large { IfErr result (λ e. e ≡ build_fail.TooLarge → left.old < type_nodes (shared_type ty.now)) }
{
    let ty = build(ty, alloc, left)?;
    Ok(boxed(alloc, ty)?)
}

/// Builds types, which have at most `LARGEST` nodes together.
pub fn build_all(tys: &[SharedType<'_>], alloc: Global) -> Result<Vec<Ty>, BuildFail>
    ensures tys { IfOk result (λ all. map typ_of all.items ≡ map shared_type tys.now) }
    ensures small { IfOk result (λ all. sum (map type_nodes (map shared_type tys.now)) ≤ max_type_nodes) }
    ensures large { IfErr result (λ e. e ≡ build_fail.TooLarge → max_type_nodes < sum (map type_nodes (map shared_type tys.now))) }
{
    let mut left = LARGEST;
    let mut all = Vec::new(alloc);
    for ty in tys {
        let ty = build(ty, alloc, &mut left)?;
        push(&mut all, ty)?;
    }
    Ok(all)
}

/// Builds what a fault shows.
fn shown(shown: &SharedShown<'_>, alloc: Global, left: &mut usize) -> Result<Shown, BuildFail>
    ensures shown { IfOk result (λ s. shown_of s ≡ shared_shown shown.now) }
    ensures left { IfOk result (λ s. left.new + shown_nodes (shared_shown shown.now) ≡ left.old) }
    ensures large { IfErr result (λ e. e ≡ build_fail.TooLarge → left.old < shown_nodes (shared_shown shown.now)) }
{
    match shown {
        SharedShown::Nothing => Ok(Shown::Nothing),
        SharedShown::Ty(ty) => Ok(Shown::Ty(build(ty, alloc, left)?)),
        SharedShown::Effect(effect) => Ok(Shown::Effect(*effect)),
        SharedShown::Sort(sort) => Ok(Shown::Sort(*sort)),
        SharedShown::Device(device) => Ok(Shown::Device(*device)),
    }
}

/// Builds a fault, whose types have at most `LARGEST` nodes together.
pub fn build_fault(fault: &SharedFault<'_>, alloc: Global) -> Result<TypeFault, BuildFail>
    ensures fault { IfOk result (λ f. fault_of f ≡ shared_fault fault.now) }
    ensures small { IfOk result (λ f. shown_nodes (shared_fault fault.now).found + shown_nodes (shared_fault fault.now).wanted ≤ max_type_nodes) }
    ensures large { IfErr result (λ e. e ≡ build_fail.TooLarge
        → max_type_nodes < shown_nodes (shared_fault fault.now).found + shown_nodes (shared_fault fault.now).wanted) }
{
    let mut left = LARGEST;
    let found = shown(&fault.found, alloc, &mut left)?;
    let wanted = shown(&fault.wanted, alloc, &mut left)?;
    Ok(TypeFault {
        rule: fault.rule,
        place: fault.place,
        found,
        wanted,
    })
}
