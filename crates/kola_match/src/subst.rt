//! Substitutions that were found, and sides of rules under them.

ghost use Rattle.std.specs.Prelude.{◌≡◌, map, IfOk, option_and_then};
ghost use Rattle.std.specs.Option.{option_map};
ghost use Rattle.kola_values.specs.Databases.{look_up};
ghost use Rattle.kola_values.specs.Views.{type_entry};
ghost use Rattle.kola_schema.specs.SchemaViews.{type_at};
ghost use Rattle.kola_term.specs.ContextView.{context_of};
ghost use Rattle.kola_term.specs.TermView.{const_tree, fun_tree, pred_tree, term_tree};
ghost use Rattle.kola_match.specs.Substitutions.{inst, inst_const, inst_fun, inst_pred};
ghost use Rattle.kola_match.specs.Binds.{substitution_of};
ghost use Rattle.kola_match.specs.FoundViews.{binds_of};
ghost use Rattle.kola_match.specs.Giving.{given};
ghost use Rattle.kola_match.specs.NodeViews.{fun_at, pred_at, const_at};
ghost use Rattle.kola_match.specs.SubstViews.{bindings, found_binds, term_at};

use crate::found::Found;
use crate::given::{Bound, all_bound};
use kola_core::{Items, Memory, Name};
use kola_term::{Const, Fun, MetaCtx, Pred, Term};
use kola_values::Ty;
use std::alloc::Global;

/// The instance that a match has found: a type for each type variable of a rule, and for each variable its term and, for a
/// function or predicate, its input type.
#[derive(Drop)]
pub struct Subst {
    types: Items<(Name, Ty)>,
    bound: Items<Bound>,
}

impl Subst {
    /// What was found, as an instance gives it to the declared variables.
    pub(crate) fn of_found(alloc: Global, vars: &MetaCtx, found: Found) -> Result<Subst, Memory>
        ensures types { IfOk result (λ s. map type_entry s.types ≡ (binds_of found.entry).types) }
        ensures bound { IfOk result
            (λ s. bindings s ≡ given (substitution_of (binds_of found.entry)) (context_of vars.now)) }
    {
        let bound = all_bound(alloc, vars, &found)?;
        let Found {
            types,
            parts: _parts,
        } = found;
        let types = Items::from_vec(types);
        Ok(Subst { types, bound })
    }

    /// The term of a variable of the rule; `None` exactly where the rule declares no variable of the name.
    pub fn term_of(&self, var: &Name) -> Option<&Term>
        ensures { option_map term_at result ≡ option_map (λ b. b.0) (look_up var.now (bindings self.now)) }
    {
        for known in self.bound.as_slice() {
            if var.is(&known.name) {
                return Some(&known.term);
            }
        }
        None
    }

    /// The input type of a variable's term under the instance; `None` exactly where the rule declares no function or
    /// predicate variable of the name.
    pub fn input_of(&self, var: &Name) -> Option<&Ty>
        ensures { option_map type_at result ≡ option_and_then (λ b. b.1) (look_up var.now (bindings self.now)) }
    {
        for known in self.bound.as_slice() {
            if var.is(&known.name) {
                return known.input.as_ref();
            }
        }
        None
    }

    /// The type of a type variable.
    pub(crate) fn type_of(&self, var: &Name) -> Option<&Ty>
        ensures { option_map type_at result ≡ look_up var.now (found_binds self.now).types }
    {
        for (known, t) in self.types.as_slice() {
            if var.is(known) {
                return Some(t);
            }
        }
        None
    }

    /// The term of a function variable; `None` where the substitution has none.
    pub fn fun_of(&self, var: &Name) -> Option<&Fun>
        ensures { option_map fun_at result ≡ look_up var.now (found_binds self.now).funs }
    {
        for known in self.bound.as_slice() {
            if let Term::F(f) = &known.term {
                if var.is(&known.name) {
                    return Some(f);
                }
            }
        }
        None
    }

    /// The term of a predicate variable.
    fn pred_of(&self, var: &Name) -> Option<&Pred>
        ensures { option_map pred_at result ≡ look_up var.now (found_binds self.now).preds }
    {
        for known in self.bound.as_slice() {
            if let Term::P(p) = &known.term {
                if var.is(&known.name) {
                    return Some(p);
                }
            }
        }
        None
    }

    /// The term of a constant variable.
    fn const_of(&self, var: &Name) -> Option<&Const>
        ensures { option_map const_at result ≡ look_up var.now (found_binds self.now).consts }
    {
        for known in self.bound.as_slice() {
            if let Term::C(c) = &known.term {
                if var.is(&known.name) {
                    return Some(c);
                }
            }
        }
        None
    }
}

/// The constant under the substitution.
fn const_under(c: &Const, s: &Subst) -> Result<Const, Memory>
    ensures { IfOk result (λ r. const_tree r ≡ inst_const (substitution_of (found_binds s.now)) (const_tree c.now)) }
{
    let Const::Meta(name) = c else {
        return c.copy();
    };
    match s.const_of(name) {
        Some(found) => found.copy(),
        None => Ok(Const::Bool(true)),
    }
}

/// The function under the substitution.
#[cycle(instantiate)]
fn fun_under(alloc: Global, f: &Fun, s: &Subst) -> Result<Fun, Memory>
    ensures { IfOk result (λ r. fun_tree r ≡ inst_fun (substitution_of (found_binds s.now)) (fun_tree f.now)) }
{
    match f {
        Fun::Meta(name) => match s.fun_of(name) {
            Some(found) => found.copy(),
            None => Ok(Fun::Id),
        },
        Fun::Attr(name) => Ok(Fun::Attr(name.copy()?)),
        Fun::Id => Ok(Fun::Id),
        Fun::Fst => Ok(Fun::Fst),
        Fun::Snd => Ok(Fun::Snd),
        Fun::Flat => Ok(Fun::Flat),
        Fun::Union => Ok(Fun::Union),
        Fun::Isect => Ok(Fun::Isect),
        Fun::Minus => Ok(Fun::Minus),
        Fun::Comp(f, g) => Ok(Fun::Comp(boxed_fun(alloc, f, s)?, boxed_fun(alloc, g, s)?)),
        Fun::Pair(f, g) => Ok(Fun::Pair(boxed_fun(alloc, f, s)?, boxed_fun(alloc, g, s)?)),
        Fun::Times(f, g) => Ok(Fun::Times(boxed_fun(alloc, f, s)?, boxed_fun(alloc, g, s)?)),
        Fun::K(c) => Ok(Fun::K(const_under(c, s)?)),
        Fun::C(f, c) => Ok(Fun::C(boxed_fun(alloc, f, s)?, const_under(c, s)?)),
        Fun::If(p, f, g) => Ok(Fun::If(
            boxed_pred(alloc, p, s)?,
            boxed_fun(alloc, f, s)?,
            boxed_fun(alloc, g, s)?,
        )),
        Fun::Iterate(p, f) => Ok(Fun::Iterate(boxed_pred(alloc, p, s)?, boxed_fun(alloc, f, s)?)),
        Fun::Iter(p, f) => Ok(Fun::Iter(boxed_pred(alloc, p, s)?, boxed_fun(alloc, f, s)?)),
        Fun::Join(p, f) => Ok(Fun::Join(boxed_pred(alloc, p, s)?, boxed_fun(alloc, f, s)?)),
        Fun::Nest(f, g) => Ok(Fun::Nest(boxed_fun(alloc, f, s)?, boxed_fun(alloc, g, s)?)),
        Fun::Unnest(f, g) => Ok(Fun::Unnest(boxed_fun(alloc, f, s)?, boxed_fun(alloc, g, s)?)),
    }
}

/// The predicate under the substitution.
#[cycle(instantiate)]
fn pred_under(alloc: Global, p: &Pred, s: &Subst) -> Result<Pred, Memory>
    ensures { IfOk result (λ r. pred_tree r ≡ inst_pred (substitution_of (found_binds s.now)) (pred_tree p.now)) }
{
    match p {
        Pred::Meta(name) => match s.pred_of(name) {
            Some(found) => found.copy(),
            None => Ok(Pred::Eq),
        },
        Pred::KP(b) => Ok(Pred::KP(*b)),
        Pred::Eq => Ok(Pred::Eq),
        Pred::Lt => Ok(Pred::Lt),
        Pred::Le => Ok(Pred::Le),
        Pred::Member => Ok(Pred::Member),
        Pred::At(p, f) => Ok(Pred::At(boxed_pred(alloc, p, s)?, boxed_fun(alloc, f, s)?)),
        Pred::And(p, q) => Ok(Pred::And(boxed_pred(alloc, p, s)?, boxed_pred(alloc, q, s)?)),
        Pred::Or(p, q) => Ok(Pred::Or(boxed_pred(alloc, p, s)?, boxed_pred(alloc, q, s)?)),
        Pred::Not(p) => Ok(Pred::Not(boxed_pred(alloc, p, s)?)),
        Pred::Inv(p) => Ok(Pred::Inv(boxed_pred(alloc, p, s)?)),
        Pred::CP(p, c) => Ok(Pred::CP(boxed_pred(alloc, p, s)?, const_under(c, s)?)),
        Pred::Ex(p) => Ok(Pred::Ex(boxed_pred(alloc, p, s)?)),
        Pred::Fa(p) => Ok(Pred::Fa(boxed_pred(alloc, p, s)?)),
    }
}

#[cycle(instantiate)]
fn boxed_fun(alloc: Global, f: &Fun, s: &Subst) -> Result<Box<Fun>, Memory>
    ensures { IfOk result (λ b. fun_tree b.value ≡ inst_fun (substitution_of (found_binds s.now)) (fun_tree f.now)) }
{
    let made = fun_under(alloc, f, s)?;
    let boxed = Box::new(alloc, made)?;
    Ok(boxed)
}

#[cycle(instantiate)]
fn boxed_pred(alloc: Global, p: &Pred, s: &Subst) -> Result<Box<Pred>, Memory>
    ensures { IfOk result (λ b. pred_tree b.value ≡ inst_pred (substitution_of (found_binds s.now)) (pred_tree p.now)) }
{
    let made = pred_under(alloc, p, s)?;
    let boxed = Box::new(alloc, made)?;
    Ok(boxed)
}

/// A side of a rule under a substitution that was found. A variable of which the substitution has nothing becomes `id`,
/// `eq` or `true`, by its kind; for the variables of the rule that was matched it always has a term.
pub fn instantiate(alloc: Global, side: &Term, s: &Subst) -> Result<Term, Memory>
    ensures { IfOk result (λ r. term_tree r ≡ inst (substitution_of (found_binds s.now)) (term_tree side.now)) }
{
    match side {
        Term::F(f) => Ok(Term::F(fun_under(alloc, f, s)?)),
        Term::P(p) => Ok(Term::P(pred_under(alloc, p, s)?)),
        Term::C(c) => Ok(Term::C(const_under(c, s)?)),
    }
}
