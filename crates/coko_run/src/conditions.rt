//! The conditions of a rule under an instance, without variables.

ghost use Rattle.std.specs.Prelude.{◌≡◌, ◌↔◌, [], true, Some, IfOk};
ghost use Rattle.kola_values.specs.Databases.{look_up};
ghost use Rattle.kola_values.specs.Views.{type_tree};
ghost use Rattle.kola_term.specs.ContextView.{context_of, meta_tree};
ghost use Rattle.kola_rule.specs.RuleViews.{rule_tree};
ghost use Rattle.kola_match.specs.Substitutions.{sub_type};
ghost use Rattle.kola_match.specs.Binds.{substitution_of};
ghost use Rattle.kola_match.specs.SubstViews.{found_binds};
ghost use Rattle.kola_injective.specs.Derived.{Derived};
ghost use Rattle.kola_proof.specs.Steps.{ShownAt, AllShown};

use kola_core::{Items, Memory, Name};
use kola_injective::infer_inj;
use kola_match::{Subst, instantiate_type};
use kola_rule::Rule;
use kola_schema::{Schema, entry_named};
use kola_term::MetaTy;
use kola_values::Ty;
use std::alloc::Global;

/// Whether the term that an instance gives the function variable is shown to be injective at its input type.
fn is_shown(
    alloc: Global,
    schema: &Schema,
    name: &Name,
    input: &Ty,
    s: &Subst,
) -> Result<bool, Memory>
    ensures { IfOk result (λ b. (b ≡ true) ↔ Derived schema.now [] []
        ((substitution_of (found_binds s.now)).funs name.now)
        (sub_type (substitution_of (found_binds s.now)).types (type_tree input.now))) }
{
    let Some(f) = s.fun_of(name) else {
        return Ok(true);
    };
    let input = instantiate_type(alloc, input, s)?;
    let none = Items::new(alloc);
    let given = Items::new(alloc);
    infer_inj(alloc, schema, &none, &given, f, &input)
}

/// The same where the variable is declared as a function.
fn is_shown_where_function(
    alloc: Global,
    schema: &Schema,
    name: &Name,
    meta: &MetaTy,
    s: &Subst,
) -> Result<bool, Memory>
    ensures { IfOk result (λ b. (b ≡ true) ↔ ShownAt schema.now [] []
        (substitution_of (found_binds s.now)) name.now (Some (meta_tree meta.now))) }
{
    match meta {
        MetaTy::Fun(input, _) => is_shown(alloc, schema, name, input, s),
        MetaTy::Pred(_) | MetaTy::Const(_) => Ok(true),
    }
}

/// The same of the variable of the name in a rule.
fn is_condition_shown(
    alloc: Global,
    schema: &Schema,
    rule: &Rule,
    name: &Name,
    s: &Subst,
) -> Result<bool, Memory>
    ensures { IfOk result (λ b. (b ≡ true) ↔ ShownAt schema.now [] []
        (substitution_of (found_binds s.now)) name.now (look_up name.now (context_of rule.now.vars))) }
{
    match entry_named(rule.vars.as_slice(), name) {
        Some(entry) => is_shown_where_function(alloc, schema, name, &entry.1, s),
        None => Ok(true),
    }
}

/// Whether each condition of a rule is shown for the terms of an instance, by the keys of the schema.
pub(crate) fn are_shown(
    alloc: Global,
    schema: &Schema,
    rule: &Rule,
    s: &Subst,
) -> Result<bool, Memory>
    ensures { IfOk result (λ b. (b ≡ true) ↔ AllShown schema.now [] [] (rule_tree rule.now)
        (substitution_of (found_binds s.now))) }
{
    for name in rule.when.as_slice() {
        if !is_condition_shown(alloc, schema, rule, name, s)? {
            return Ok(false);
        }
    }
    Ok(true)
}
