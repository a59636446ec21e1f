//! A program as it was read.

ghost use Rattle.std.specs.Prelude.{◌≡◌, [], length};
ghost use Rattle.ame_term.specs.View.{tree_of};
ghost use Rattle.ame_term.specs.SourceTerm.{nodes, IsSourceTerm, IsBound};
ghost use Rattle.ame_term.specs.SourceProps.{IsSourceTerm-prop, IsBound-prop};
ghost use Rattle.ame_term.specs.Numbered.{IsNumbered, IsNumbered-prop};

use crate::term::Term;

/// A program: its names in the order of their first appearance, the place of each node of the term
/// in preorder, as offsets in bytes, and the term. It keeps that each node has a place, that the term
/// is as texts spell terms, that each name stands within a form that binds it, and that the `ref` forms have
/// their numbers in reading order, from 0 on.
#[derive(Drop)]
pub struct Program {
    pub names: Vec<Vec<u8>>,
    pub places: Vec<u32>,
    pub term: Term,
    pub ghost placed: { length places.items ≡ nodes (tree_of term) },
    pub ghost source: { IsSourceTerm (tree_of term) } by { IsSourceTerm-prop (tree_of term) },
    pub ghost bound: { IsBound [] (tree_of term) } by { IsBound-prop [] (tree_of term) },
    pub ghost numbered: { IsNumbered 0 (tree_of term) } by { IsNumbered-prop 0 (tree_of term) },
}
