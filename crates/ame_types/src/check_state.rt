//! The state of a check.

ghost use Rattle.std.specs.Prelude.{◌≡◌, ◌+◌, ◌≤◌, length, slice_index};
ghost use Rattle.ame_term.specs.View.{tree_of};
ghost use Rattle.ame_term.specs.SourceTerm.{nodes};

use crate::shared_type::SharedType;
use crate::table::Types;
use ame_term::Term;

/// The data that holds for the whole of a program.
#[derive(Clone, Copy)]
pub struct Checker<'a> {
    pub devices: u32,
    pub places: &'a [u32],
}

/// The state of a check: the number of the next node in preorder, the types that were stored, and
/// the table of types.
#[derive(Drop)]
pub struct CheckState<'t> {
    pub next: usize,
    pub ref_tys: Vec<SharedType<'t>>,
    pub types: Types<'t>,
}

impl Checker<'_> {
    /// Returns the place of a term whose first node is the next one.
    #[tactic(auto, using(crate::proofs::Nodes::positive))]
    pub fn place(&self, seen: &CheckState<'_>, term: &Term) -> u32
        requires { seen.now.next + nodes (tree_of term.now) ≤ length self.now.places.now }
        ensures { result ≡ slice_index self.now.places.now seen.now.next }
    {
        self.places[seen.next]
    }
}
