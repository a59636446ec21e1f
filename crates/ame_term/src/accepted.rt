//! A program that the types accept.

ghost use Rattle.std.specs.Prelude.{◌≡◌, map};
ghost use Rattle.ame_term.specs.View.{tree_of, typ_of};
ghost use Rattle.ame_term.specs.Typing.{Accepts};

use crate::program::Program;
use crate::types::Ty;

/// A program, the types of the values that its `ref` forms store, in the order of the text, and a
/// number of devices. It keeps that the program is typed as Unit under protected with these.
#[derive(Drop)]
pub struct Accepted {
    pub program: Program,
    pub ref_tys: Vec<Ty>,
    pub devices: u32,
    pub ghost typed: { ∥ Accepts devices program.places.items (tree_of program.term) (map typ_of ref_tys.items) ∥₁ },
}

impl Accepted {
    /// Takes no memory.
    pub fn new(program: Program, ref_tys: Vec<Ty>, devices: u32) -> Accepted
        requires { Accepts devices program.places.items (tree_of program.term) (map typ_of ref_tys.items) }
        ensures program { result.program ≡ program }
        ensures ref_tys { result.ref_tys ≡ ref_tys }
        ensures devices { result.devices ≡ devices }
    {
        Accepted {
            program,
            ref_tys,
            devices,
        }
    }
}
