//! Parts of the laws, made of what was made before. Each is handed the answers for its parts, so that no part is in
//! hand where memory is wanted.

ghost use Rattle.std.specs.Prelude.{◌≡◌, List, [], ◌∷◌, ◌++◌, map, IfOk, OnOk};
ghost use Rattle.kola_values.specs.Types.{TypeTree, TVar, TSet, TPair};
ghost use Rattle.kola_term.specs.Terms.{FId, FFst, FSnd, FFlat, FUnion, FIsect, FMinus, FComp, FPair, FTimes};
ghost use Rattle.kola_term.specs.Terms.{FK, FC, FIf};
ghost use Rattle.kola_term.specs.Terms.{FunTree, FIterate, FIter, FJoin, FNest, FUnnest, FMeta, ConstTree, CMeta};
ghost use Rattle.kola_term.specs.Terms.{PredTree, PEq, PLt, PLe, PMember, PAt, PAnd, POr, PNot, PInv};
ghost use Rattle.kola_term.specs.Terms.{PKP, PCP, PEx, PFa};
ghost use Rattle.kola_term.specs.Terms.{PMeta, TermF, TermP};
ghost use Rattle.kola_term.specs.Typing.{Context, MFun, MPred, MConst};
ghost use Rattle.kola_rule.specs.Rules.{RuleTree};
ghost use Rattle.kola_rule.specs.RuleViews.{rule_tree};
ghost use Rattle.kola_laws.specs.Making.{MakesType, MakesConst, MakesFun, MakesPred, MakesContext, MakesRule};

use kola_core::{Memory, Name, Names};
use kola_rule::Rule;
use kola_term::{Const, Fun, MetaCtx, MetaTy, Pred, Term};
use kola_values::{BoxedTy, Ty};
use std::alloc::Global;

pub type MadeType = Result<BoxedTy, Memory>;

pub type MadeConst = Result<Const, Memory>;

pub type MadeFun = Result<Box<Fun>, Memory>;

pub type MadePred = Result<Box<Pred>, Memory>;

pub type MadeContext = Result<MetaCtx, Memory>;

pub type MadeRule = Result<Rule, Memory>;

/// Makes parts of laws in memory of its own.
#[derive(Clone, Copy)]
pub struct Maker {
    pub alloc: Global,
}

/// The rule under these conditions.
fn with_conditions(rule: Rule, when: Names) -> Rule
    ensures { rule_tree result ≡ record (rule_tree rule) { when = when } }
{
    Rule {
        name: rule.name,
        vars: rule.vars,
        input: rule.input,
        when,
        left: rule.left,
        right: rule.right,
    }
}

/// Adds a rule at the end of others.
#[tactic(auto, unfolding(crate::specs::Making::MakesRule))]
pub fn add(rules: &mut Vec<Rule>, made: MadeRule) -> Result<(), Memory>
    ensures { (before done : List RuleTree) (r : RuleTree) → MakesRule made r →
        map rule_tree rules.old.items ≡ before ++ done →
        OnOk result (map rule_tree rules.new.items ≡ before ++ (done ++ r ∷ [])) }
{
    let rule = made?;
    rules.push(rule)?;
    Ok(())
}

#[tactic(auto, unfolding(crate::specs::Making::MakesType, crate::specs::Making::MakesConst, crate::specs::Making::MakesFun, crate::specs::Making::MakesPred, crate::specs::Making::MakesContext, crate::specs::Making::MakesRule))]
impl Maker {
    /// A type variable.
    pub fn ty(self, name: &str) -> MadeType
        ensures { MakesType result (TVar name.now) }
    {
        let name = Name::from_text(self.alloc, name)?;
        BoxedTy::new(self.alloc, Ty::Var(name))
    }

    /// The sets of a type.
    pub fn set(self, t: MadeType) -> MadeType
        ensures { (a : TypeTree) → MakesType t a → MakesType result (TSet a) }
    {
        let t = t?;
        BoxedTy::new(self.alloc, Ty::Set(t))
    }

    /// The pairs of two types.
    pub fn pair_type(self, t: MadeType, u: MadeType) -> MadeType
        ensures { (a b : TypeTree) → MakesType t a → MakesType u b → MakesType result (TPair a b) }
    {
        let t = t?;
        let u = u?;
        BoxedTy::new(self.alloc, Ty::Pair(t, u))
    }

    /// A constant variable.
    pub fn constant(self, name: &str) -> MadeConst
        ensures { MakesConst result (CMeta name.now) }
    {
        let name = Name::from_text(self.alloc, name)?;
        Ok(Const::Meta(name))
    }

    /// `id`.
    pub fn id(self) -> MadeFun
        ensures { MakesFun result FId }
    {
        let f = Box::new(self.alloc, Fun::Id)?;
        Ok(f)
    }

    /// `fst`.
    pub fn fst(self) -> MadeFun
        ensures { MakesFun result FFst }
    {
        let f = Box::new(self.alloc, Fun::Fst)?;
        Ok(f)
    }

    /// `snd`.
    pub fn snd(self) -> MadeFun
        ensures { MakesFun result FSnd }
    {
        let f = Box::new(self.alloc, Fun::Snd)?;
        Ok(f)
    }

    /// `flat`.
    pub fn flat(self) -> MadeFun
        ensures { MakesFun result FFlat }
    {
        let f = Box::new(self.alloc, Fun::Flat)?;
        Ok(f)
    }

    /// `union`.
    pub fn union(self) -> MadeFun
        ensures { MakesFun result FUnion }
    {
        let f = Box::new(self.alloc, Fun::Union)?;
        Ok(f)
    }

    /// `isect`.
    pub fn isect(self) -> MadeFun
        ensures { MakesFun result FIsect }
    {
        let f = Box::new(self.alloc, Fun::Isect)?;
        Ok(f)
    }

    /// `minus`.
    pub fn minus(self) -> MadeFun
        ensures { MakesFun result FMinus }
    {
        let f = Box::new(self.alloc, Fun::Minus)?;
        Ok(f)
    }

    /// A function variable.
    pub fn fun(self, name: &str) -> MadeFun
        ensures { MakesFun result (FMeta name.now) }
    {
        let name = Name::from_text(self.alloc, name)?;
        let f = Box::new(self.alloc, Fun::Meta(name))?;
        Ok(f)
    }

    /// `(f o g)`.
    pub fn comp(self, f: MadeFun, g: MadeFun) -> MadeFun
        ensures { (a b : FunTree) → MakesFun f a → MakesFun g b → MakesFun result (FComp a b) }
    {
        let f = f?;
        let g = g?;
        let made = Box::new(self.alloc, Fun::Comp(f, g))?;
        Ok(made)
    }

    /// `<f, g>`.
    pub fn pair(self, f: MadeFun, g: MadeFun) -> MadeFun
        ensures { (a b : FunTree) → MakesFun f a → MakesFun g b → MakesFun result (FPair a b) }
    {
        let f = f?;
        let g = g?;
        let made = Box::new(self.alloc, Fun::Pair(f, g))?;
        Ok(made)
    }

    /// `(f * g)`.
    pub fn times(self, f: MadeFun, g: MadeFun) -> MadeFun
        ensures { (a b : FunTree) → MakesFun f a → MakesFun g b → MakesFun result (FTimes a b) }
    {
        let f = f?;
        let g = g?;
        let made = Box::new(self.alloc, Fun::Times(f, g))?;
        Ok(made)
    }

    /// `nest(f, g)`.
    pub fn nest(self, f: MadeFun, g: MadeFun) -> MadeFun
        ensures { (a b : FunTree) → MakesFun f a → MakesFun g b → MakesFun result (FNest a b) }
    {
        let f = f?;
        let g = g?;
        let made = Box::new(self.alloc, Fun::Nest(f, g))?;
        Ok(made)
    }

    /// `unnest(f, g)`.
    pub fn unnest(self, f: MadeFun, g: MadeFun) -> MadeFun
        ensures { (a b : FunTree) → MakesFun f a → MakesFun g b → MakesFun result (FUnnest a b) }
    {
        let f = f?;
        let g = g?;
        let made = Box::new(self.alloc, Fun::Unnest(f, g))?;
        Ok(made)
    }

    /// `K(c)`.
    pub fn always(self, c: MadeConst) -> MadeFun
        ensures { (a : ConstTree) → MakesConst c a → MakesFun result (FK a) }
    {
        let c = c?;
        let made = Box::new(self.alloc, Fun::K(c))?;
        Ok(made)
    }

    /// `C(f, c)`.
    pub fn partial(self, f: MadeFun, c: MadeConst) -> MadeFun
        ensures { (a : FunTree) (b : ConstTree) → MakesFun f a → MakesConst c b → MakesFun result (FC a b) }
    {
        let f = f?;
        let c = c?;
        let made = Box::new(self.alloc, Fun::C(f, c))?;
        Ok(made)
    }

    /// `if(p, f, g)`.
    pub fn choice(self, p: MadePred, f: MadeFun, g: MadeFun) -> MadeFun
        ensures { (a : PredTree) (b c : FunTree) → MakesPred p a → MakesFun f b → MakesFun g c →
            MakesFun result (FIf a b c) }
    {
        let p = p?;
        let f = f?;
        let g = g?;
        let made = Box::new(self.alloc, Fun::If(p, f, g))?;
        Ok(made)
    }

    /// `iterate(p, f)`.
    pub fn iterate(self, p: MadePred, f: MadeFun) -> MadeFun
        ensures { (a : PredTree) (b : FunTree) → MakesPred p a → MakesFun f b → MakesFun result (FIterate a b) }
    {
        let p = p?;
        let f = f?;
        let made = Box::new(self.alloc, Fun::Iterate(p, f))?;
        Ok(made)
    }

    /// `iter(p, f)`.
    pub fn iter(self, p: MadePred, f: MadeFun) -> MadeFun
        ensures { (a : PredTree) (b : FunTree) → MakesPred p a → MakesFun f b → MakesFun result (FIter a b) }
    {
        let p = p?;
        let f = f?;
        let made = Box::new(self.alloc, Fun::Iter(p, f))?;
        Ok(made)
    }

    /// `join(p, f)`.
    pub fn join(self, p: MadePred, f: MadeFun) -> MadeFun
        ensures { (a : PredTree) (b : FunTree) → MakesPred p a → MakesFun f b → MakesFun result (FJoin a b) }
    {
        let p = p?;
        let f = f?;
        let made = Box::new(self.alloc, Fun::Join(p, f))?;
        Ok(made)
    }

    /// `eq`.
    pub fn eq(self) -> MadePred
        ensures { MakesPred result PEq }
    {
        let p = Box::new(self.alloc, Pred::Eq)?;
        Ok(p)
    }

    /// `lt`.
    pub fn lt(self) -> MadePred
        ensures { MakesPred result PLt }
    {
        let p = Box::new(self.alloc, Pred::Lt)?;
        Ok(p)
    }

    /// `le`.
    pub fn le(self) -> MadePred
        ensures { MakesPred result PLe }
    {
        let p = Box::new(self.alloc, Pred::Le)?;
        Ok(p)
    }

    /// `in`.
    pub fn member(self) -> MadePred
        ensures { MakesPred result PMember }
    {
        let p = Box::new(self.alloc, Pred::Member)?;
        Ok(p)
    }

    /// `KP(b)`.
    pub fn known(self, b: bool) -> MadePred
        ensures { MakesPred result (PKP b) }
    {
        let p = Box::new(self.alloc, Pred::KP(b))?;
        Ok(p)
    }

    /// A predicate variable.
    pub fn pred(self, name: &str) -> MadePred
        ensures { MakesPred result (PMeta name.now) }
    {
        let name = Name::from_text(self.alloc, name)?;
        let p = Box::new(self.alloc, Pred::Meta(name))?;
        Ok(p)
    }

    /// `(p @ f)`.
    pub fn at(self, p: MadePred, f: MadeFun) -> MadePred
        ensures { (a : PredTree) (b : FunTree) → MakesPred p a → MakesFun f b → MakesPred result (PAt a b) }
    {
        let p = p?;
        let f = f?;
        let made = Box::new(self.alloc, Pred::At(p, f))?;
        Ok(made)
    }

    /// `(p & q)`.
    pub fn and(self, p: MadePred, q: MadePred) -> MadePred
        ensures { (a b : PredTree) → MakesPred p a → MakesPred q b → MakesPred result (PAnd a b) }
    {
        let p = p?;
        let q = q?;
        let made = Box::new(self.alloc, Pred::And(p, q))?;
        Ok(made)
    }

    /// `(p | q)`.
    pub fn or(self, p: MadePred, q: MadePred) -> MadePred
        ensures { (a b : PredTree) → MakesPred p a → MakesPred q b → MakesPred result (POr a b) }
    {
        let p = p?;
        let q = q?;
        let made = Box::new(self.alloc, Pred::Or(p, q))?;
        Ok(made)
    }

    /// `~p`.
    pub fn not(self, p: MadePred) -> MadePred
        ensures { (a : PredTree) → MakesPred p a → MakesPred result (PNot a) }
    {
        let p = p?;
        let made = Box::new(self.alloc, Pred::Not(p))?;
        Ok(made)
    }

    /// `inv(p)`.
    pub fn inverse(self, p: MadePred) -> MadePred
        ensures { (a : PredTree) → MakesPred p a → MakesPred result (PInv a) }
    {
        let p = p?;
        let made = Box::new(self.alloc, Pred::Inv(p))?;
        Ok(made)
    }

    /// `ex(p)`.
    pub fn some(self, p: MadePred) -> MadePred
        ensures { (a : PredTree) → MakesPred p a → MakesPred result (PEx a) }
    {
        let p = p?;
        let made = Box::new(self.alloc, Pred::Ex(p))?;
        Ok(made)
    }

    /// `fa(p)`.
    pub fn each(self, p: MadePred) -> MadePred
        ensures { (a : PredTree) → MakesPred p a → MakesPred result (PFa a) }
    {
        let p = p?;
        let made = Box::new(self.alloc, Pred::Fa(p))?;
        Ok(made)
    }

    /// `CP(p, c)`.
    pub fn partial_pred(self, p: MadePred, c: MadeConst) -> MadePred
        ensures { (a : PredTree) (b : ConstTree) → MakesPred p a → MakesConst c b → MakesPred result (PCP a b) }
    {
        let p = p?;
        let c = c?;
        let made = Box::new(self.alloc, Pred::CP(p, c))?;
        Ok(made)
    }

    /// No variable.
    pub fn no_vars(self) -> MadeContext
        ensures { MakesContext result [] }
    {
        Ok(MetaCtx::new(self.alloc))
    }

    /// A variable for functions before others.
    pub fn fun_var(self, name: &str, t: MadeType, u: MadeType, rest: MadeContext) -> MadeContext
        ensures { (a b : TypeTree) (x : Context) → MakesType t a → MakesType u b → MakesContext rest x →
            MakesContext result ((name.now, MFun a b) ∷ x) }
    {
        let t = t?;
        let u = u?;
        let rest = rest?;
        let name = Name::from_text(self.alloc, name)?;
        rest.prefixed((name, MetaTy::Fun(t.into_inner(), u.into_inner())))
    }

    /// A variable for predicates before others.
    pub fn pred_var(self, name: &str, t: MadeType, rest: MadeContext) -> MadeContext
        ensures { (a : TypeTree) (x : Context) → MakesType t a → MakesContext rest x →
            MakesContext result ((name.now, MPred a) ∷ x) }
    {
        let t = t?;
        let rest = rest?;
        let name = Name::from_text(self.alloc, name)?;
        rest.prefixed((name, MetaTy::Pred(t.into_inner())))
    }

    /// A variable for constants before others.
    pub fn const_var(self, name: &str, t: MadeType, rest: MadeContext) -> MadeContext
        ensures { (a : TypeTree) (x : Context) → MakesType t a → MakesContext rest x →
            MakesContext result ((name.now, MConst a) ∷ x) }
    {
        let t = t?;
        let rest = rest?;
        let name = Name::from_text(self.alloc, name)?;
        rest.prefixed((name, MetaTy::Const(t.into_inner())))
    }

    /// The rule of a name, between two functions, without conditions.
    pub fn funs(
        self,
        name: &str,
        vars: MadeContext,
        input: MadeType,
        left: MadeFun,
        right: MadeFun,
    ) -> MadeRule
        ensures { (x : Context) (t : TypeTree) (a b : FunTree) → MakesContext vars x → MakesType input t →
            MakesFun left a → MakesFun right b → MakesRule result (record {
              name = name.now;
              vars = x;
              input = t;
              when = [];
              left = TermF a;
              right = TermF b;
            }) }
    {
        let left = left?;
        let right = right?;
        let input = input?;
        let vars = vars?;
        let name = Name::from_text(self.alloc, name)?;
        Ok(Rule {
            name,
            vars,
            input: input.into_inner(),
            when: Names::new(self.alloc),
            left: Term::F(Box::into_inner(left)),
            right: Term::F(Box::into_inner(right)),
        })
    }

    /// The rule of a name, between two predicates, without conditions.
    pub fn preds(
        self,
        name: &str,
        vars: MadeContext,
        input: MadeType,
        left: MadePred,
        right: MadePred,
    ) -> MadeRule
        ensures { (x : Context) (t : TypeTree) (a b : PredTree) → MakesContext vars x → MakesType input t →
            MakesPred left a → MakesPred right b → MakesRule result (record {
              name = name.now;
              vars = x;
              input = t;
              when = [];
              left = TermP a;
              right = TermP b;
            }) }
    {
        let left = left?;
        let right = right?;
        let input = input?;
        let vars = vars?;
        let name = Name::from_text(self.alloc, name)?;
        Ok(Rule {
            name,
            vars,
            input: input.into_inner(),
            when: Names::new(self.alloc),
            left: Term::P(Box::into_inner(left)),
            right: Term::P(Box::into_inner(right)),
        })
    }

    /// The list of one name.
    fn one_name(self, name: &str) -> Result<Names, Memory>
        ensures { IfOk result (λ ns. ns ≡ name.now ∷ []) }
    {
        let name = Name::from_text(self.alloc, name)?;
        let mut names = Names::new(self.alloc);
        names.push(name)?;
        Ok(names)
    }

    /// The rule under the condition that one of its function variables is injective.
    pub fn when_injective(self, name: &str, rule: MadeRule) -> MadeRule
        ensures { (r : RuleTree) → MakesRule rule r → MakesRule result (record r { when = name.now ∷ [] }) }
    {
        let rule = rule?;
        let when = self.one_name(name)?;
        Ok(with_conditions(rule, when))
    }
}
