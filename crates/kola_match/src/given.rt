//! What an instance gives for the declared variables of a rule, copied from what was found.

ghost use Rattle.std.specs.Prelude.{◌≡◌, map, IfOk};
ghost use Rattle.std.specs.Option.{option_map};
ghost use Rattle.kola_values.specs.Types.{of_type_fields};
ghost use Rattle.kola_values.specs.Views.{type_tree, type_entry};
ghost use Rattle.kola_term.specs.ContextView.{context_of, meta_tree};
ghost use Rattle.kola_term.specs.TermView.{const_tree, fun_tree, pred_tree, term_tree};
ghost use Rattle.kola_match.specs.Substitutions.{inst, sub_type, sub_types};
ghost use Rattle.kola_match.specs.Occurring.{variable};
ghost use Rattle.kola_match.specs.Binds.{substitution_of};
ghost use Rattle.kola_match.specs.FoundViews.{binds_of};
ghost use Rattle.kola_match.specs.Instances.{input_under, given_by};
ghost use Rattle.kola_match.specs.Giving.{given, given_entry};
ghost use Rattle.kola_match.specs.SubstViews.{bound_entry};

use crate::found::Found;
use kola_core::{Items, Memory, Name};
use kola_term::{Const, Fun, MetaCtx, MetaTy, Pred, Term};
use kola_values::{Fields, Ty};
use std::alloc::Global;

/// What a substitution has for a variable: its term, and the input type of a function or predicate.
#[derive(Drop)]
pub(crate) struct Bound {
    pub(crate) name: Name,
    pub(crate) term: Term,
    pub(crate) input: Option<Ty>,
}

/// The type under what was found. A type variable of which nothing was found becomes the type of one value.
#[cycle(type_under)]
fn type_under(alloc: Global, t: &Ty, found: &Found) -> Result<Ty, Memory>
    ensures { IfOk result
        (λ r. type_tree r ≡ sub_type (substitution_of (binds_of found.now)).types (type_tree t.now)) }
{
    match t {
        Ty::Var(name) => match found.type_of(name) {
            Some(known) => known.copy(),
            None => Ok(Ty::Unit),
        },
        Ty::Set(t) => Ty::set_of(alloc, type_under(alloc, t.get(), found)?),
        Ty::Pair(t, u) => Ty::pair_of(
            alloc,
            type_under(alloc, t.get(), found)?,
            type_under(alloc, u.get(), found)?,
        ),
        Ty::Struct(fields) => Ok(Ty::Struct(fields_under(alloc, fields.as_slice(), found)?)),
        _ => t.copy(),
    }
}

/// The same for the fields of a struct, in their order.
#[cycle(type_under)]
fn fields_under(alloc: Global, fields: &[(Name, Ty)], found: &Found) -> Result<Fields, Memory>
    ensures { IfOk result (λ r. of_type_fields r
        ≡ sub_types (substitution_of (binds_of found.now)).types (of_type_fields (map type_entry fields.now))) }
{
    let mut under = Fields::new(alloc);
    for (label, t) in fields {
        let label = label.copy()?;
        let t = type_under(alloc, t, found)?;
        under.push((label, t))?;
    }
    Ok(under)
}

/// The input type of a function or predicate variable under what was found; a constant variable has none.
fn input_under(alloc: Global, meta: &MetaTy, found: &Found) -> Result<Option<Ty>, Memory>
    ensures { IfOk result
        (λ o. option_map type_tree o ≡ input_under (substitution_of (binds_of found.now)) (meta_tree meta.now)) }
{
    match meta {
        MetaTy::Fun(t, _) | MetaTy::Pred(t) => Ok(Some(type_under(alloc, t, found)?)),
        MetaTy::Const(_) => Ok(None),
    }
}

fn fun_under(name: &Name, found: &Found) -> Result<Fun, Memory>
    ensures { IfOk result (λ f. fun_tree f ≡ (substitution_of (binds_of found.now)).funs name.now) }
{
    match found.fun_of(name) {
        Some(f) => f.copy(),
        None => Ok(Fun::Id),
    }
}

fn pred_under(name: &Name, found: &Found) -> Result<Pred, Memory>
    ensures { IfOk result (λ p. pred_tree p ≡ (substitution_of (binds_of found.now)).preds name.now) }
{
    match found.pred_of(name) {
        Some(p) => p.copy(),
        None => Ok(Pred::Eq),
    }
}

fn const_under(name: &Name, found: &Found) -> Result<Const, Memory>
    ensures { IfOk result (λ c. const_tree c ≡ (substitution_of (binds_of found.now)).consts name.now) }
{
    match found.const_of(name) {
        Some(c) => c.copy(),
        None => Ok(Const::Bool(true)),
    }
}

/// The term of a variable under what was found. A variable of which nothing was found becomes `id`, `eq` or `true`, by
/// its kind.
fn term_under(name: &Name, meta: &MetaTy, found: &Found) -> Result<Term, Memory>
    ensures { IfOk result (λ t. term_tree t
        ≡ inst (substitution_of (binds_of found.now)) (variable name.now (meta_tree meta.now))) }
{
    match meta {
        MetaTy::Fun(_, _) => Ok(Term::F(fun_under(name, found)?)),
        MetaTy::Pred(_) => Ok(Term::P(pred_under(name, found)?)),
        MetaTy::Const(_) => Ok(Term::C(const_under(name, found)?)),
    }
}

/// What an instance gives for a variable.
fn bound_variable(alloc: Global, name: &Name, meta: &MetaTy, found: &Found) -> Result<Bound, Memory>
    ensures { IfOk result (λ b. bound_entry b
        ≡ given_entry (substitution_of (binds_of found.now)) (name.now, meta_tree meta.now)) }
{
    let input = input_under(alloc, meta, found)?;
    let term = term_under(name, meta, found)?;
    let name = name.copy()?;
    Ok(Bound { name, term, input })
}

/// What an instance gives for each of the variables, in their order.
pub(crate) fn all_bound(
    alloc: Global,
    vars: &MetaCtx,
    found: &Found,
) -> Result<Items<Bound>, Memory>
    ensures { IfOk result (λ bs. map bound_entry bs
        ≡ given (substitution_of (binds_of found.now)) (context_of vars.now)) }
{
    let mut all = Items::new(alloc);
    for (name, meta) in vars.as_slice() {
        all.push(bound_variable(alloc, name, meta, found)?)?;
    }
    Ok(all)
}
