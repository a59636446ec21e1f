//! The checker: a function for each behaviour of forms.

ghost use Rattle.std.specs.Prelude.{◌≡◌};
ghost use Rattle.ame_term.specs.Tree.{Val, Tree};
ghost use Rattle.ame_term.specs.View.{val_of, tree_of, trees_of};
ghost use Rattle.ame_term.specs.declared.types.Binary.TheVariants as binary;
ghost use Rattle.ame_types.specs.Scope.{AreListed};
ghost use Rattle.ame_types.specs.Checks.{Checks, IsCheckable, KeepsListed, function_tree};

use crate::check_state::{CheckState, Checker};
use crate::expect::{agree, applied, constant, expect, op_ty, require, under, unfit, written};
use crate::fault::CheckFail;
use crate::rule;
use crate::shared_type::SharedType;
use crate::site::{Callee, FormSite, PartSite, Site};
use crate::type_scope::TypeScope;
use crate::unary::{fill, reserve, stand, unary_ty};
use ame_term::{Effect, Function, Name, Op, Own, Term, Unary, Value};

#[tactic(auto, unfolding(ame_term::specs::Typing::typed, ame_term::specs::Typing::ref_types_in, ame_term::specs::SourceTerm::nodes, ame_term::specs::SourceTerm::IsSourceTerm, ame_term::specs::SourceTerm::IsBound))]
impl Checker<'_> {
    #[cycle(checker)]
    #[tactic(auto, using(ame_term::proofs::TreesLemmas::tree_of_do), unfolding(ame_term::specs::SourceTerm::nodes))]
    pub fn term<'t>(
        &self,
        seen: &mut CheckState<'t>,
        site: Site<'_, 't>,
        term: &Term,
    ) -> Result<SharedType<'t>, CheckFail<'t>>
        requires source { IsCheckable self.now site.scope.now seen.old (tree_of term.now) }
        requires listed { AreListed seen.old.types.keys.keys site.scope.now }
        ensures ty { Checks self.now site.entry seen.old seen.new (tree_of term.now) result }
        ensures listed { KeepsListed site.entry.scope.now seen.new result }
    {
        match term {
            Term::Held(value) => self.held(seen, site, value),
            Term::Var(name) => self.name(seen, site, *name),
            Term::Fun(function) => self.function(seen, site, function),
            Term::App(function, argument) => self.app(seen, site, function, argument),
            Term::Let(name, bound, body) => self.binding(seen, site, *name, bound, body),
            Term::Do(parts) => self.sequence(seen, site, parts),
            Term::If(test, then, other) => self.choice(seen, site, test, then, other),
            Term::Bin(op, left, right) => self.operation(seen, site, *op, left, right),
            Term::Not(part) => self.one(seen, site, Unary::Not, part),
            Term::Ref(sort, number, part) => {
                self.one(seen, site, Unary::Ref(*sort, *number), part)
            }
            Term::Get(part) => self.one(seen, site, Unary::Get, part),
            Term::Peek(part) => self.one(seen, site, Unary::Peek, part),
            Term::Set(cell, content) => self.set(seen, site, cell, content),
            Term::Async(body) => self.spawn(seen, site, body),
            Term::Block(part) => self.one(seen, site, Unary::Block, part),
            Term::Unprotected(part) => self.unprotected(seen, site, part),
            Term::Print(part) => self.one(seen, site, Unary::Print, part),
            Term::Call(device, part) => self.one(seen, site, Unary::Call(*device), part),
            Term::Pair(first, second) => self.pair(seen, site, first, second),
            Term::First(part) => self.one(seen, site, Unary::First, part),
            Term::Second(part) => self.one(seen, site, Unary::Second, part),
        }
    }

    fn held<'t>(
        &self,
        seen: &mut CheckState<'t>,
        site: Site<'_, 't>,
        value: &Value,
    ) -> Result<SharedType<'t>, CheckFail<'t>>
        requires source { IsCheckable self.now site.scope.now seen.old (Tree.Held (val_of value.now)) }
        requires listed { AreListed seen.old.types.keys.keys site.scope.now }
        ensures ty { Checks self.now site.entry seen.old seen.new (Tree.Held (val_of value.now)) result }
        ensures listed { KeepsListed site.entry.scope.now seen.new result }
    {
        seen.next += 1;
        Ok(constant(value))
    }

    fn name<'t>(
        &self,
        seen: &mut CheckState<'t>,
        site: Site<'_, 't>,
        name: Name,
    ) -> Result<SharedType<'t>, CheckFail<'t>>
        requires source { IsCheckable self.now site.scope.now seen.old (Tree.Var name.0) }
        requires listed { AreListed seen.old.types.keys.keys site.scope.now }
        ensures ty { Checks self.now site.entry seen.old seen.new (Tree.Var name.0) result }
        ensures listed { KeepsListed site.entry.scope.now seen.new result }
    {
        seen.next += 1;
        Ok(site.scope.ty(&seen.types, name))
    }

    #[cycle(checker)]
    fn function<'t>(
        &self,
        seen: &mut CheckState<'t>,
        site: Site<'_, 't>,
        function: &Function,
    ) -> Result<SharedType<'t>, CheckFail<'t>>
        requires source { IsCheckable self.now site.scope.now seen.old (function_tree function.now) }
        requires listed { AreListed seen.old.types.keys.keys site.scope.now }
        ensures ty { Checks self.now site.entry seen.old seen.new (function_tree function.now) result }
        ensures listed { KeepsListed site.entry.scope.now seen.new result }
    {
        match &function.own {
            None => self.plain(seen, site, function),
            Some(own) => self.recursive(seen, site, function, own),
        }
    }

    #[cycle(checker)]
    fn plain<'t>(
        &self,
        seen: &mut CheckState<'t>,
        site: Site<'_, 't>,
        function: &Function,
    ) -> Result<SharedType<'t>, CheckFail<'t>>
        requires none { function.now.own ≡ None }
        requires source { IsCheckable self.now site.scope.now seen.old (function_tree function.now) }
        requires listed { AreListed seen.old.types.keys.keys site.scope.now }
        ensures ty { Checks self.now site.entry seen.old seen.new (function_tree function.now) result }
        ensures listed { KeepsListed site.entry.scope.now seen.new result }
    {
        seen.next += 1;
        let param = seen.types.written(&function.param_ty)?;
        let scope = TypeScope::Bound(&*site.scope, function.param, param);
        let inner = Site {
            scope: &scope,
            effect: function.effect,
        };
        let body = self.term(seen, inner, &function.body)?;
        let ty = seen.types.function(function.effect, param, body)?;
        Ok(ty)
    }

    #[cycle(checker)]
    fn recursive<'t>(
        &self,
        seen: &mut CheckState<'t>,
        site: Site<'_, 't>,
        function: &Function,
        own: &Own,
    ) -> Result<SharedType<'t>, CheckFail<'t>>
        requires own { function.now.own ≡ Some own.now }
        requires source { IsCheckable self.now site.scope.now seen.old (function_tree function.now) }
        requires listed { AreListed seen.old.types.keys.keys site.scope.now }
        ensures ty { Checks self.now site.entry seen.old seen.new (function_tree function.now) result }
        ensures listed { KeepsListed site.entry.scope.now seen.new result }
    {
        seen.next += 1;
        let place = self.place(seen, &function.body);
        let answer = seen.types.written(&own.result)?;
        let param = seen.types.written(&function.param_ty)?;
        let ty = seen.types.function(function.effect, param, answer)?;
        let wanted = TypeScope::Beside(&*site.scope, answer);
        let named = TypeScope::Bound(&wanted, own.name, ty);
        let scope = TypeScope::Bound(&named, function.param, param);
        let inner = Site {
            scope: &scope,
            effect: function.effect,
        };
        let found = self.term(seen, inner, &function.body)?;
        let body = PartSite { place, found };
        expect(&seen.types, rule::TYPE_MISMATCH, &body, &answer, ty)
    }

    #[cycle(checker)]
    fn app<'t>(
        &self,
        seen: &mut CheckState<'t>,
        site: Site<'_, 't>,
        function: &Term,
        argument: &Term,
    ) -> Result<SharedType<'t>, CheckFail<'t>>
        requires source { IsCheckable self.now site.scope.now seen.old (Tree.Two binary.App (tree_of function.now) (tree_of argument.now)) }
        requires listed { AreListed seen.old.types.keys.keys site.scope.now }
        ensures ty { Checks self.now site.entry seen.old seen.new (Tree.Two binary.App (tree_of function.now) (tree_of argument.now)) result }
        ensures listed { KeepsListed site.entry.scope.now seen.new result }
    {
        let form = FormSite {
            place: self.places[seen.next],
            effect: site.effect,
        };
        seen.next += 1;
        let place = self.place(seen, function);
        let callee = self.term(seen, site, function)?;
        match callee {
            SharedType::Fun(_, effect, param, answer) => {
                let place = self.place(seen, argument);
                let scope = TypeScope::Beside(&*site.scope, callee);
                let found = self.term(seen, site.within(&scope), argument)?;
                let callee = Callee {
                    effect,
                    param: *param,
                    answer: *answer,
                };
                applied(&seen.types, form, &PartSite { place, found }, callee)
            }
            found => Err(unfit(
                seen.types.alloc,
                rule::NO_FUNCTION,
                &PartSite { place, found },
            )),
        }
    }

    #[cycle(checker)]
    fn binding<'t>(
        &self,
        seen: &mut CheckState<'t>,
        site: Site<'_, 't>,
        name: Name,
        bound: &Term,
        body: &Term,
    ) -> Result<SharedType<'t>, CheckFail<'t>>
        requires source { IsCheckable self.now site.scope.now seen.old (Tree.Let name.0 (tree_of bound.now) (tree_of body.now)) }
        requires listed { AreListed seen.old.types.keys.keys site.scope.now }
        ensures ty { Checks self.now site.entry seen.old seen.new (Tree.Let name.0 (tree_of bound.now) (tree_of body.now)) result }
        ensures listed { KeepsListed site.entry.scope.now seen.new result }
    {
        seen.next += 1;
        let ty = self.term(seen, site, bound)?;
        let scope = TypeScope::Bound(&*site.scope, name, ty);
        let body = self.term(seen, site.within(&scope), body)?;
        Ok(body)
    }

    #[cycle(checker)]
    fn sequence<'t>(
        &self,
        seen: &mut CheckState<'t>,
        site: Site<'_, 't>,
        parts: &[Term],
    ) -> Result<SharedType<'t>, CheckFail<'t>>
        requires source { IsCheckable self.now site.scope.now seen.old (Tree.Do (trees_of parts.now)) }
        requires listed { AreListed seen.old.types.keys.keys site.scope.now }
        ensures ty { Checks self.now site.entry seen.old seen.new (Tree.Do (trees_of parts.now)) result }
        ensures listed { KeepsListed site.entry.scope.now seen.new result }
    {
        seen.next += 1;
        let mut rest = parts;
        while rest.len() > 1 {
            let part = &rest[0];
            let place = self.place(seen, part);
            let found = self.do_part(seen, site, part)?;
            let part = PartSite { place, found };
            require(&seen.types, rule::NOT_UNIT, &part, &SharedType::Unit)?;
            rest = rest.split_at(1).1;
        }
        let ty = self.term(seen, site, &rest[0])?;
        Ok(ty)
    }

    /// Returns the type of a part of a `do` form. That of a constant is known at once.
    #[cycle(checker)]
    fn do_part<'t>(
        &self,
        seen: &mut CheckState<'t>,
        site: Site<'_, 't>,
        part: &Term,
    ) -> Result<SharedType<'t>, CheckFail<'t>>
        requires source { IsCheckable self.now site.scope.now seen.old (tree_of part.now) }
        requires listed { AreListed seen.old.types.keys.keys site.scope.now }
        ensures ty { Checks self.now site.entry seen.old seen.new (tree_of part.now) result }
        ensures listed { KeepsListed site.entry.scope.now seen.new result }
    {
        match part {
            Term::Held(value) => self.held(seen, site, value),
            _ => self.term(seen, site, part),
        }
    }

    #[cycle(checker)]
    fn choice<'t>(
        &self,
        seen: &mut CheckState<'t>,
        site: Site<'_, 't>,
        test: &Term,
        then: &Term,
        other: &Term,
    ) -> Result<SharedType<'t>, CheckFail<'t>>
        requires source { IsCheckable self.now site.scope.now seen.old (Tree.If (tree_of test.now) (tree_of then.now) (tree_of other.now)) }
        requires listed { AreListed seen.old.types.keys.keys site.scope.now }
        ensures ty { Checks self.now site.entry seen.old seen.new (Tree.If (tree_of test.now) (tree_of then.now) (tree_of other.now)) result }
        ensures listed { KeepsListed site.entry.scope.now seen.new result }
    {
        seen.next += 1;
        let place = self.place(seen, test);
        let found = self.term(seen, site, test)?;
        let test = PartSite { place, found };
        require(&seen.types, rule::TYPE_MISMATCH, &test, &SharedType::Bool)?;
        let wanted = self.term(seen, site, then)?;
        let place = self.place(seen, other);
        let scope = TypeScope::Beside(&*site.scope, wanted);
        let found = self.term(seen, site.within(&scope), other)?;
        agree(&seen.types, &PartSite { place, found }, wanted)
    }

    #[cycle(checker)]
    fn operation<'t>(
        &self,
        seen: &mut CheckState<'t>,
        site: Site<'_, 't>,
        op: Op,
        left: &Term,
        right: &Term,
    ) -> Result<SharedType<'t>, CheckFail<'t>>
        requires source { IsCheckable self.now site.scope.now seen.old (Tree.Two (binary.Bin op) (tree_of left.now) (tree_of right.now)) }
        requires listed { AreListed seen.old.types.keys.keys site.scope.now }
        ensures ty { Checks self.now site.entry seen.old seen.new (Tree.Two (binary.Bin op) (tree_of left.now) (tree_of right.now)) result }
        ensures listed { KeepsListed site.entry.scope.now seen.new result }
    {
        seen.next += 1;
        let place = self.place(seen, left);
        let found = self.term(seen, site, left)?;
        let left = PartSite { place, found };
        require(&seen.types, rule::TYPE_MISMATCH, &left, &SharedType::Int)?;
        let place = self.place(seen, right);
        let found = self.term(seen, site, right)?;
        let right = PartSite { place, found };
        expect(
            &seen.types,
            rule::TYPE_MISMATCH,
            &right,
            &SharedType::Int,
            op_ty(op),
        )
    }

    #[cycle(checker)]
    fn one<'t>(
        &self,
        seen: &mut CheckState<'t>,
        site: Site<'_, 't>,
        op: Unary,
        part: &Term,
    ) -> Result<SharedType<'t>, CheckFail<'t>>
        requires source { IsCheckable self.now site.scope.now seen.old (Tree.One op (tree_of part.now)) }
        requires listed { AreListed seen.old.types.keys.keys site.scope.now }
        ensures ty { Checks self.now site.entry seen.old seen.new (Tree.One op (tree_of part.now)) result }
        ensures listed { KeepsListed site.entry.scope.now seen.new result }
    {
        let form = FormSite {
            place: self.places[seen.next],
            effect: site.effect,
        };
        stand(seen.types.alloc, self.devices, op, form)?;
        seen.next += 1;
        let room = reserve(&mut seen.ref_tys, op)?;
        let place = self.place(seen, part);
        let found = self.term(seen, site, part)?;
        fill(&mut seen.ref_tys, op, room, found);
        unary_ty(&mut seen.types, op, form, &PartSite { place, found })
    }

    #[cycle(checker)]
    fn set<'t>(
        &self,
        seen: &mut CheckState<'t>,
        site: Site<'_, 't>,
        cell: &Term,
        content: &Term,
    ) -> Result<SharedType<'t>, CheckFail<'t>>
        requires source { IsCheckable self.now site.scope.now seen.old (Tree.Two binary.Set (tree_of cell.now) (tree_of content.now)) }
        requires listed { AreListed seen.old.types.keys.keys site.scope.now }
        ensures ty { Checks self.now site.entry seen.old seen.new (Tree.Two binary.Set (tree_of cell.now) (tree_of content.now)) result }
        ensures listed { KeepsListed site.entry.scope.now seen.new result }
    {
        let form = FormSite {
            place: self.places[seen.next],
            effect: site.effect,
        };
        seen.next += 1;
        let place = self.place(seen, cell);
        let target = self.term(seen, site, cell)?;
        match target {
            SharedType::Ref(_, sort, wanted) => {
                let place = self.place(seen, content);
                let scope = TypeScope::Beside(&*site.scope, target);
                let found = self.term(seen, site.within(&scope), content)?;
                written(&seen.types, form, &PartSite { place, found }, sort, wanted)
            }
            found => Err(unfit(
                seen.types.alloc,
                rule::NO_REFERENCE,
                &PartSite { place, found },
            )),
        }
    }

    #[cycle(checker)]
    fn spawn<'t>(
        &self,
        seen: &mut CheckState<'t>,
        site: Site<'_, 't>,
        body: &Term,
    ) -> Result<SharedType<'t>, CheckFail<'t>>
        requires source { IsCheckable self.now site.scope.now seen.old (Tree.Async (tree_of body.now)) }
        requires listed { AreListed seen.old.types.keys.keys site.scope.now }
        ensures ty { Checks self.now site.entry seen.old seen.new (Tree.Async (tree_of body.now)) result }
        ensures listed { KeepsListed site.entry.scope.now seen.new result }
    {
        seen.next += 1;
        let place = self.place(seen, body);
        let found = self.term(seen, site.under(Effect::Protected), body)?;
        let body = PartSite { place, found };
        expect(
            &seen.types,
            rule::NOT_UNIT,
            &body,
            &SharedType::Unit,
            SharedType::Unit,
        )
    }

    #[cycle(checker)]
    fn unprotected<'t>(
        &self,
        seen: &mut CheckState<'t>,
        site: Site<'_, 't>,
        part: &Term,
    ) -> Result<SharedType<'t>, CheckFail<'t>>
        requires source { IsCheckable self.now site.scope.now seen.old (Tree.Unprotected (tree_of part.now)) }
        requires listed { AreListed seen.old.types.keys.keys site.scope.now }
        ensures ty { Checks self.now site.entry seen.old seen.new (Tree.Unprotected (tree_of part.now)) result }
        ensures listed { KeepsListed site.entry.scope.now seen.new result }
    {
        let form = FormSite {
            place: self.places[seen.next],
            effect: site.effect,
        };
        under(
            seen.types.alloc,
            rule::MISPLACED_UNPROTECTED,
            form,
            Effect::Protected,
        )?;
        seen.next += 1;
        let ty = self.term(seen, site.under(Effect::Unprotected), part)?;
        Ok(ty)
    }

    #[cycle(checker)]
    fn pair<'t>(
        &self,
        seen: &mut CheckState<'t>,
        site: Site<'_, 't>,
        first: &Term,
        second: &Term,
    ) -> Result<SharedType<'t>, CheckFail<'t>>
        requires source { IsCheckable self.now site.scope.now seen.old (Tree.Two binary.Pair (tree_of first.now) (tree_of second.now)) }
        requires listed { AreListed seen.old.types.keys.keys site.scope.now }
        ensures ty { Checks self.now site.entry seen.old seen.new (Tree.Two binary.Pair (tree_of first.now) (tree_of second.now)) result }
        ensures listed { KeepsListed site.entry.scope.now seen.new result }
    {
        seen.next += 1;
        let first = self.term(seen, site, first)?;
        let scope = TypeScope::Beside(&*site.scope, first);
        let second = self.term(seen, site.within(&scope), second)?;
        let ty = seen.types.pair(first, second)?;
        Ok(ty)
    }
}
