//! The table of the types of a program.

ghost use Rattle.std.specs.Prelude.{◌≡◌, Some, slice_get, IfOk};
ghost use Rattle.ame_term.specs.Tree.{Typ};
ghost use Rattle.ame_term.specs.View.{typ_of};
ghost use Rattle.ame_term.specs.Typing.{same_type};
ghost use Rattle.ame_types.specs.Shared.{shared_type, IsListed, Lengthens};

use crate::keys::{fun_key, pair_key, ref_key};
use crate::shared_type::{Key, SharedType};
use ame_term::{Effect, NoMemory, Sort, Ty};
use bumpalo::Bump;
use indexmap::IndexSet;
use std::alloc::Global;

/// Each type with parts that a program has, once, by its number: the place of its key. The parts stay
/// in their place until all go at once.
#[derive(Drop)]
pub struct Types<'t> {
    pub alloc: Global,
    pub arena: &'t Bump,
    pub keys: IndexSet<Key>,
}

impl<'t> Types<'t> {
    pub fn new(alloc: Global, arena: &'t Bump) -> Types<'t> {
        Types {
            alloc,
            arena,
            keys: IndexSet::new(alloc),
        }
    }

    /// Returns the number of a key, which is new or has one.
    fn number(&mut self, key: Key) -> Result<usize, NoMemory>
        ensures stays { Lengthens self.old.keys.keys self.new.keys.keys }
        ensures listed { IfOk result (λ n. slice_get self.new.keys.keys n ≡ Some key) }
    {
        let (number, _) = self.keys.insert_full(key)?;
        Ok(number)
    }

    pub fn reference(
        &mut self,
        sort: Sort,
        content: SharedType<'t>,
    ) -> Result<SharedType<'t>, NoMemory>
        requires { IsListed self.old.keys.keys content }
        ensures stays { Lengthens self.old.keys.keys self.new.keys.keys }
        ensures ty { IfOk result (λ t. shared_type t ≡ Typ.Ref sort (shared_type content.entry)) }
        ensures listed { IfOk result (λ t. IsListed self.new.keys.keys t) }
    {
        let number = self.number(ref_key(sort, &content))?;
        let content = self.arena.try_alloc(content)?;
        Ok(SharedType::Ref(number, sort, content))
    }

    pub fn function(
        &mut self,
        effect: Effect,
        param: SharedType<'t>,
        answer: SharedType<'t>,
    ) -> Result<SharedType<'t>, NoMemory>
        requires param { IsListed self.old.keys.keys param }
        requires answer { IsListed self.old.keys.keys answer }
        ensures stays { Lengthens self.old.keys.keys self.new.keys.keys }
        ensures ty { IfOk result (λ t. shared_type t ≡ Typ.Fun effect (shared_type param.entry) (shared_type answer.entry)) }
        ensures listed { IfOk result (λ t. IsListed self.new.keys.keys t) }
    {
        let number = self.number(fun_key(effect, &param, &answer))?;
        let param = self.arena.try_alloc(param)?;
        let answer = self.arena.try_alloc(answer)?;
        Ok(SharedType::Fun(number, effect, param, answer))
    }

    pub fn pair(
        &mut self,
        first: SharedType<'t>,
        second: SharedType<'t>,
    ) -> Result<SharedType<'t>, NoMemory>
        requires first { IsListed self.old.keys.keys first }
        requires second { IsListed self.old.keys.keys second }
        ensures stays { Lengthens self.old.keys.keys self.new.keys.keys }
        ensures ty { IfOk result (λ t. shared_type t ≡ Typ.Pair (shared_type first.entry) (shared_type second.entry)) }
        ensures listed { IfOk result (λ t. IsListed self.new.keys.keys t) }
    {
        let number = self.number(pair_key(&first, &second))?;
        let first = self.arena.try_alloc(first)?;
        let second = self.arena.try_alloc(second)?;
        Ok(SharedType::Pair(number, first, second))
    }

    /// Makes the type that the text writes, in time by its size.
    pub fn written(&mut self, ty: &Ty) -> Result<SharedType<'t>, NoMemory>
        ensures stays { Lengthens self.old.keys.keys self.new.keys.keys }
        ensures ty { IfOk result (λ t. shared_type t ≡ typ_of ty.now) }
        ensures listed { IfOk result (λ t. IsListed self.new.keys.keys t) }
    {
        match ty {
            Ty::Unit => Ok(SharedType::Unit),
            Ty::Bool => Ok(SharedType::Bool),
            Ty::Int => Ok(SharedType::Int),
            Ty::Ref(sort, content) => {
                let content = self.written(content)?;
                self.reference(*sort, content)
            }
            Ty::Fun(effect, param, answer) => {
                let param = self.written(param)?;
                let answer = self.written(answer)?;
                self.function(*effect, param, answer)
            }
            Ty::Pair(first, second) => {
                let first = self.written(first)?;
                let second = self.written(second)?;
                self.pair(first, second)
            }
        }
    }

    /// Returns whether two types of the table are the same, by their numbers.
    pub fn same(&self, a: &SharedType<'t>, b: &SharedType<'t>) -> bool
        requires a { IsListed self.now.keys.keys a.now }
        requires b { IsListed self.now.keys.keys b.now }
        ensures { result ≡ same_type (shared_type a.now) (shared_type b.now) }
    {
        let _keys = self.keys.len();
        a.mark() == b.mark()
    }
}
