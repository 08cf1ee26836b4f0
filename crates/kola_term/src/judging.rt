//! The walk that types a term, with the limit on the size of types or without.

ghost use Rattle.std.specs.Prelude.{◌≡◌};
ghost use Rattle.kola_values.specs.Types.{TSet};
ghost use Rattle.kola_values.specs.Views.{type_tree};
ghost use Rattle.kola_term.specs.Terms.{FComp, FPair, FTimes, FC, FIf, FIterate, FIter, FJoin, FNest, FUnnest, PAt, PAnd, PInv, PCP, PEx};
ghost use Rattle.kola_term.specs.Judging.{under, kid};
ghost use Rattle.kola_term.specs.JudgeView.{sized_by, typed_by, checked_by};
ghost use Rattle.kola_term.specs.TermView.{const_tree, fun_tree, pred_tree};
ghost use Rattle.kola_term.specs.TypingAnswers.{IsTyping, IsCheck};

use crate::constant::Const;
use crate::inputs::{
    beside, first, inner_set, member, members_of_both, second, turned, twin, twin_member, twin_set,
    with_member,
};
use crate::judge::Judge;
use crate::term::{Fun, Pred};
use crate::typing::{TypeFault, TypeWhy};
use kola_values::Ty;

impl Judge<'_> {
    /// The output type of a function at an input type, or its first fault.
    #[cycle(typing)]
    pub(crate) fn fun(&self, f: &Fun, t: &Ty) -> Result<Ty, TypeFault>
        ensures { IsTyping result (typed_by self.now (fun_tree f.now) (type_tree t.now)) }
    {
        match f {
            Fun::Id => self.copied(t),
            Fun::Fst => self.part(first(t)),
            Fun::Snd => self.part(second(t)),
            Fun::Flat => self.part(inner_set(t)),
            Fun::Union | Fun::Isect | Fun::Minus => self.part(twin_set(t)),
            Fun::Attr(a) => self.attribute(a, t),
            Fun::Comp(f, g) => self.comp(f, g, t),
            Fun::Pair(f, g) => self.pair_of(f, g, t),
            Fun::Times(f, g) => self.times(f, g, t),
            Fun::K(c) => self.constant_output(c),
            Fun::C(f, c) => self.partial(f, c, t),
            Fun::If(p, f, g) => self.choice(p, f, g, t),
            Fun::Iterate(p, f) => self.iterate(p, f, t),
            Fun::Iter(p, f) => self.iter(p, f, t),
            Fun::Join(p, f) => self.join(p, f, t),
            Fun::Nest(f, g) => self.nest(f, g, t),
            Fun::Unnest(f, g) => self.unnest(f, g, t),
            Fun::Meta(name) => self.fun_variable(name, t),
        }
    }

    /// Whether a predicate is typed at an input type, or its first fault.
    #[cycle(typing)]
    pub(crate) fn pred(&self, p: &Pred, t: &Ty) -> Result<(), TypeFault>
        ensures { IsCheck result (checked_by self.now (pred_tree p.now) (type_tree t.now)) }
    {
        match p {
            Pred::Eq | Pred::Lt | Pred::Le => self.wanted(twin(t)),
            Pred::Member => self.wanted(twin_member(t)),
            Pred::At(p, f) => self.pred_at(p, f, t),
            Pred::And(p, q) => self.both(p, q, t),
            Pred::Or(p, q) => self.both(p, q, t),
            Pred::Not(p) => self.pred_under(1, p, t),
            Pred::Inv(p) => self.inverse(p, t),
            Pred::KP(_) => Ok(()),
            Pred::CP(p, c) => self.partial_pred(p, c, t),
            Pred::Ex(p) | Pred::Fa(p) => self.quantified(p, t),
            Pred::Meta(name) => self.pred_variable(name, t),
        }
    }

    #[cycle(typing)]
    fn comp(&self, f: &Fun, g: &Fun, t: &Ty) -> Result<Ty, TypeFault>
        ensures { IsTyping result (typed_by self.now (FComp (fun_tree f.now) (fun_tree g.now)) (type_tree t.now)) }
    {
        let between = self.fun_under(2, g, t)?;
        self.fun_under(1, f, &between)
    }

    #[cycle(typing)]
    fn pair_of(&self, f: &Fun, g: &Fun, t: &Ty) -> Result<Ty, TypeFault>
        ensures { IsTyping result (typed_by self.now (FPair (fun_tree f.now) (fun_tree g.now)) (type_tree t.now)) }
    {
        let u = self.fun_under(1, f, t)?;
        let v = self.fun_under(2, g, t)?;
        self.pair(u, v)
    }

    #[cycle(typing)]
    fn times(&self, f: &Fun, g: &Fun, t: &Ty) -> Result<Ty, TypeFault>
        ensures { IsTyping result (typed_by self.now (FTimes (fun_tree f.now) (fun_tree g.now)) (type_tree t.now)) }
    {
        let Ty::Pair(first, second) = t else {
            return Err(self.fault(TypeWhy::NotThisInput));
        };
        let u = self.fun_under(1, f, first.get())?;
        let v = self.fun_under(2, g, second.get())?;
        self.pair(u, v)
    }

    #[cycle(typing)]
    fn partial(&self, f: &Fun, c: &Const, t: &Ty) -> Result<Ty, TypeFault>
        ensures { IsTyping result (typed_by self.now (FC (fun_tree f.now) (const_tree c.now)) (type_tree t.now)) }
    {
        let first = self.const_under(2, c)?;
        let input = beside(self.alloc, first, t)?;
        self.fun_under(1, f, &input)
    }

    #[cycle(typing)]
    fn choice(&self, p: &Pred, f: &Fun, g: &Fun, t: &Ty) -> Result<Ty, TypeFault>
        ensures { IsTyping result
            (typed_by self.now (FIf (pred_tree p.now) (fun_tree f.now) (fun_tree g.now)) (type_tree t.now)) }
    {
        self.pred_under(1, p, t)?;
        let u = self.fun_under(2, f, t)?;
        let v = self.fun_under(3, g, t)?;
        if u.is(&v) {
            Ok(u)
        } else {
            Err(self.fault(TypeWhy::OutputsDiffer))
        }
    }

    /// The set of a function's outputs where a predicate holds, at this input of both.
    #[cycle(typing)]
    fn set_over(&self, p: &Pred, f: &Fun, input: &Ty) -> Result<Ty, TypeFault>
        ensures { IsTyping result (kid 1 (checked_by self.now (pred_tree p.now) (type_tree input.now)) (λ _.
            kid 2 (typed_by self.now (fun_tree f.now) (type_tree input.now)) (λ u. sized_by self.now (TSet u)))) }
    {
        self.pred_under(1, p, input)?;
        let u = self.fun_under(2, f, input)?;
        self.set(u)
    }

    #[cycle(typing)]
    fn iterate(&self, p: &Pred, f: &Fun, t: &Ty) -> Result<Ty, TypeFault>
        ensures { IsTyping result (typed_by self.now (FIterate (pred_tree p.now) (fun_tree f.now)) (type_tree t.now)) }
    {
        let Some(input) = member(t) else {
            return Err(self.fault(TypeWhy::NotThisInput));
        };
        self.set_over(p, f, input)
    }

    #[cycle(typing)]
    fn iter(&self, p: &Pred, f: &Fun, t: &Ty) -> Result<Ty, TypeFault>
        ensures { IsTyping result (typed_by self.now (FIter (pred_tree p.now) (fun_tree f.now)) (type_tree t.now)) }
    {
        let input = self.input(with_member(self.alloc, t)?)?;
        self.set_over(p, f, &input)
    }

    #[cycle(typing)]
    fn join(&self, p: &Pred, f: &Fun, t: &Ty) -> Result<Ty, TypeFault>
        ensures { IsTyping result (typed_by self.now (FJoin (pred_tree p.now) (fun_tree f.now)) (type_tree t.now)) }
    {
        let input = self.input(members_of_both(self.alloc, t)?)?;
        self.set_over(p, f, &input)
    }

    #[cycle(typing)]
    fn nest(&self, f: &Fun, g: &Fun, t: &Ty) -> Result<Ty, TypeFault>
        ensures { IsTyping result (typed_by self.now (FNest (fun_tree f.now) (fun_tree g.now)) (type_tree t.now)) }
    {
        let Ty::Pair(left, right) = t else {
            return Err(self.fault(TypeWhy::NotThisInput));
        };
        let Some(input) = member(left.get()) else {
            return Err(self.fault(TypeWhy::NotThisInput));
        };
        let Some(other) = member(right.get()) else {
            return Err(self.fault(TypeWhy::NotThisInput));
        };
        let u = self.fun_under(1, f, input)?;
        let v = self.fun_under(2, g, input)?;
        if u.is(other) {
            self.nested(u, v)
        } else {
            Err(self.fault(TypeWhy::OutputsDiffer))
        }
    }

    #[cycle(typing)]
    fn unnest(&self, f: &Fun, g: &Fun, t: &Ty) -> Result<Ty, TypeFault>
        ensures { IsTyping result (typed_by self.now (FUnnest (fun_tree f.now) (fun_tree g.now)) (type_tree t.now)) }
    {
        let Some(input) = member(t) else {
            return Err(self.fault(TypeWhy::NotThisInput));
        };
        let u = self.fun_under(1, f, input)?;
        let v = self.fun_under(2, g, input)?;
        self.unnested(u, v)
    }

    #[cycle(typing)]
    fn pred_at(&self, p: &Pred, f: &Fun, t: &Ty) -> Result<(), TypeFault>
        ensures { IsCheck result (checked_by self.now (PAt (pred_tree p.now) (fun_tree f.now)) (type_tree t.now)) }
    {
        let between = self.fun_under(2, f, t)?;
        self.pred_under(1, p, &between)
    }

    #[cycle(typing)]
    fn both(&self, p: &Pred, q: &Pred, t: &Ty) -> Result<(), TypeFault>
        ensures { IsCheck result (checked_by self.now (PAnd (pred_tree p.now) (pred_tree q.now)) (type_tree t.now)) }
    {
        self.pred_under(1, p, t)?;
        self.pred_under(2, q, t)
    }

    #[cycle(typing)]
    fn inverse(&self, p: &Pred, t: &Ty) -> Result<(), TypeFault>
        ensures { IsCheck result (checked_by self.now (PInv (pred_tree p.now)) (type_tree t.now)) }
    {
        let input = self.input(turned(self.alloc, t)?)?;
        self.pred_under(1, p, &input)
    }

    #[cycle(typing)]
    fn partial_pred(&self, p: &Pred, c: &Const, t: &Ty) -> Result<(), TypeFault>
        ensures { IsCheck result (checked_by self.now (PCP (pred_tree p.now) (const_tree c.now)) (type_tree t.now)) }
    {
        let constant = self.const_under(2, c)?;
        let input = beside(self.alloc, constant, t)?;
        self.pred_under(1, p, &input)
    }

    #[cycle(typing)]
    fn quantified(&self, p: &Pred, t: &Ty) -> Result<(), TypeFault>
        ensures { IsCheck result (checked_by self.now (PEx (pred_tree p.now)) (type_tree t.now)) }
    {
        let input = self.input(with_member(self.alloc, t)?)?;
        self.pred_under(1, p, &input)
    }

    /// The output type of the child with the number, or its first fault.
    #[cycle(typing)]
    fn fun_under(&self, child: u8, f: &Fun, t: &Ty) -> Result<Ty, TypeFault>
        ensures { IsTyping result (under child (typed_by self.now (fun_tree f.now) (type_tree t.now))) }
    {
        match self.fun(f, t) {
            Ok(u) => Ok(u),
            Err(TypeFault::At { path, why }) => {
                let path = path.prefixed(child)?;
                Err(TypeFault::At { path, why })
            }
            Err(TypeFault::Memory) => Err(TypeFault::Memory),
        }
    }

    /// Whether the child with the number is typed, or its first fault.
    #[cycle(typing)]
    fn pred_under(&self, child: u8, p: &Pred, t: &Ty) -> Result<(), TypeFault>
        ensures { IsCheck result (under child (checked_by self.now (pred_tree p.now) (type_tree t.now))) }
    {
        match self.pred(p, t) {
            Ok(()) => Ok(()),
            Err(TypeFault::At { path, why }) => {
                let path = path.prefixed(child)?;
                Err(TypeFault::At { path, why })
            }
            Err(TypeFault::Memory) => Err(TypeFault::Memory),
        }
    }
}
