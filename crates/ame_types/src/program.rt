//! The check of a program.

ghost use Rattle.std.specs.Prelude.{◌≡◌, ◌≤◌, [], map, Err, IfOk, IfErr, OnOk};
ghost use Rattle.ame_term.specs.View.{typ_of, tree_of};
ghost use Rattle.ame_term.specs.Typing.{typing, ref_types, Accepts};
ghost use Rattle.ame_types.specs.Limits.{max_devices};
ghost use Rattle.ame_types.specs.Fault.{IsFirstFault, IsFaultOf, shared_fault};
ghost use Rattle.ame_types.specs.Shared.{shared_type};
ghost use Rattle.ame_types.specs.Sizes.{answer_nodes, IsFailSized, IsSized};

use crate::build::{build_all, build_fault};
use crate::check_state::{CheckState, Checker};
use crate::expect::require;
use crate::fault::{CheckFail, SharedFault, TypesFail};
use crate::rule;
use crate::shared_type::SharedType;
use crate::site::{PartSite, Site};
use crate::table::Types;
use crate::type_scope::TypeScope;
use ame_term::{Accepted, Effect, Program, Ty};
use bumpalo::Bump;
use std::alloc::Global;

/// Accepts a program that is Unit under protected, with the types of the values that its `ref` forms
/// store, and answers the first fault of any other. It is one pass over the program, whose time grows with the nodes, with the depth of the
/// names in scope at each name, and with the size of the types that the text writes. A type that the pass makes
/// takes memory once, as in `(let b (pair a a) ..`. Those of an answer are built. If they have more
/// than 1,048,576 nodes together, the answer is `TooLarge`.
pub fn check(alloc: Global, program: Program, devices: u32) -> Result<Accepted, TypesFail>
    requires { devices ≤ max_devices }
    ensures program { IfOk result (λ a. a.program ≡ program) }
    ensures devices { IfOk result (λ a. a.devices ≡ devices) }
    ensures accepts { IfOk result (λ a. Accepts devices program.places.items (tree_of program.term) (map typ_of a.ref_tys.items)) }
    ensures fault { IfErr result (IsFirstFault (typing devices program.places.items (tree_of program.term))) }
    ensures size { IsSized (answer_nodes (typing devices program.places.items (tree_of program.term)) (ref_types devices program.places.items (tree_of program.term))) result }
{
    let ref_tys = ref_tys(alloc, &program, devices)?;
    Ok(Accepted::new(program, ref_tys, devices))
}

/// Returns the types of the values that a program's `ref` forms store, or its first fault.
fn ref_tys(alloc: Global, program: &Program, devices: u32) -> Result<Vec<Ty>, TypesFail>
    ensures accepts { IfOk result (λ tys. Accepts devices program.now.places.items (tree_of program.now.term) (map typ_of tys.items)) }
    ensures fault { IfErr result (IsFirstFault (typing devices program.now.places.items (tree_of program.now.term))) }
    ensures size { IsSized (answer_nodes (typing devices program.now.places.items (tree_of program.now.term)) (ref_types devices program.now.places.items (tree_of program.now.term))) result }
{
    let arena = Bump::new(alloc);
    let mut seen = CheckState {
        next: 0,
        ref_tys: Vec::new(alloc),
        types: Types::new(alloc, &arena),
    };
    match stored(&mut seen, program, devices) {
        Ok(()) => Ok(build_all(&seen.ref_tys, alloc)?),
        Err(CheckFail::Fault(fault)) => Err(shown(alloc, &fault)),
        Err(CheckFail::NoMemory) => Err(TypesFail::NoMemory),
    }
}

/// Checks a program from its first node on, and lists the types that its `ref` forms store.
fn stored<'t>(
    seen: &mut CheckState<'t>,
    program: &Program,
    devices: u32,
) -> Result<(), CheckFail<'t>>
    requires next { seen.old.next ≡ 0 }
    requires none { seen.old.ref_tys.items ≡ [] }
    ensures accepts { OnOk result (Accepts devices program.now.places.items (tree_of program.now.term) (map shared_type seen.new.ref_tys.items)) }
    ensures fault { IfErr result (IsFaultOf (typing devices program.now.places.items (tree_of program.now.term))) }
{
    let checker = Checker {
        devices,
        places: &program.places,
    };
    let place = checker.place(&*seen, &program.term);
    let site = Site {
        scope: &TypeScope::Empty,
        effect: Effect::Protected,
    };
    let found = checker.term(&mut *seen, site, &program.term)?;
    let whole = PartSite { place, found };
    require(&seen.types, rule::NOT_UNIT, &whole, &SharedType::Unit)?;
    Ok(())
}

/// Shows a fault.
fn shown(alloc: Global, fault: &SharedFault<'_>) -> TypesFail
    ensures fault { IsFirstFault (Err (shared_fault fault.now)) result }
    ensures size { IsFailSized (answer_nodes (Err (shared_fault fault.now)) []) result }
{
    match build_fault(fault, alloc) {
        Ok(fault) => TypesFail::Fault(fault),
        Err(error) => TypesFail::from(error),
    }
}
