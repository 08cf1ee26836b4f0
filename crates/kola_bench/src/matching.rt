//! The laws, each matched at every place of a term.

ghost use Rattle.std.specs.Prelude.{◌≡◌, ℕ, false, List};
ghost use Rattle.kola_values.specs.Sets.{Each};
ghost use Rattle.kola_values.specs.Types.{TInt, TPair};
ghost use Rattle.kola_values.specs.Views.{type_tree};
ghost use Rattle.kola_term.specs.ContextView.{context_of};
ghost use Rattle.kola_term.specs.Places.{Typed};
ghost use Rattle.kola_term.specs.TermView.{fun_tree};
ghost use Rattle.kola_term.specs.Terms.{TermF};
ghost use Rattle.kola_term.specs.Typing.{MetaTree};
ghost use Rattle.kola_rule.specs.RuleViews.{rule_tree};
ghost use Rattle.kola_match.specs.Instances.{pattern_side};
ghost use Rattle.kola_match.specs.Occurring.{Occurs};
ghost use Rattle.kola_match.specs.RuleOk.{RuleOk};
ghost use Rattle.kola_bench.specs.Swaps.{IsSwap};

use kola_core::Memory;
use kola_match::{Tally, binds_all_variables, match_at, rule_ok};
use kola_rule::{Rule, RuleTable};
use kola_schema::Schema;
use kola_term::{Fun, MetaCtx, SubTerm};
use kola_values::Ty;
use std::alloc::Global;

/// Matches a rule at a function.
fn match_here(
    alloc: Global,
    schema: &Schema,
    ctx: &MetaCtx,
    rule: &Rule,
    f: &Fun,
    ty: &Ty,
    tally: &mut Tally,
) -> Result<(), Memory>
    requires ok { RuleOk schema.now (rule_tree rule.now) }
    requires occur { Each (λ (v : List ℕ × MetaTree). Occurs (pattern_side (rule_tree rule.now) false) v)
        (context_of rule.now.vars) }
    requires typed { Typed schema.now (context_of ctx.now) (TermF (fun_tree f.now)) (type_tree ty.now) }
{
    let _found = match_at(alloc, schema, ctx, rule, false, SubTerm::F(f), ty, tally)?;
    Ok(())
}

/// Matches a rule at every place of a function on pairs of numbers.
fn match_below(
    alloc: Global,
    schema: &Schema,
    ctx: &MetaCtx,
    rule: &Rule,
    f: &Fun,
    ty: &Ty,
    tally: &mut Tally,
) -> Result<(), Memory>
    requires ok { RuleOk schema.now (rule_tree rule.now) }
    requires occur { Each (λ (v : List ℕ × MetaTree). Occurs (pattern_side (rule_tree rule.now) false) v)
        (context_of rule.now.vars) }
    requires swap { IsSwap (fun_tree f.now) }
    requires pairs { type_tree ty.now ≡ TPair TInt TInt }
{
    match_here(alloc, schema, ctx, rule, f, ty, tally)?;
    match f {
        Fun::Comp(f, g) => {
            match_below(alloc, schema, ctx, rule, f, ty, tally)?;
            match_below(alloc, schema, ctx, rule, g, ty, tally)
        }
        Fun::Pair(f, g) => {
            match_here(alloc, schema, ctx, rule, f, ty, tally)?;
            match_here(alloc, schema, ctx, rule, g, ty, tally)
        }
        _ => Ok(()),
    }
}

/// Matches a rule's left side at every place of a function on pairs of numbers, where the rule is well typed and all
/// its variables stand on that side.
fn match_rule(
    alloc: Global,
    schema: &Schema,
    rule: &Rule,
    f: &Fun,
    ty: &Ty,
    tally: &mut Tally,
) -> Result<(), Memory>
    requires swap { IsSwap (fun_tree f.now) }
    requires pairs { type_tree ty.now ≡ TPair TInt TInt }
{
    if !rule_ok(alloc, schema, rule)? {
        return Ok(());
    }
    if !binds_all_variables(alloc, rule, false)? {
        return Ok(());
    }
    let ctx = MetaCtx::new(alloc);
    match_below(alloc, schema, &ctx, rule, f, ty, tally)
}

/// How often a rule of the table is matched at a place of a function on pairs of numbers.
pub(crate) fn match_all(
    alloc: Global,
    schema: &Schema,
    rules: &RuleTable,
    f: &Fun,
    ty: &Ty,
) -> Result<u64, Memory>
    requires swap { IsSwap (fun_tree f.now) }
    requires pairs { type_tree ty.now ≡ TPair TInt TInt }
{
    let mut tally = Tally::new();
    for n in 0..rules.len() {
        if let Some(rule) = rules.get(n) {
            match_rule(alloc, schema, rule, f, ty, &mut tally)?;
        }
    }
    Ok(tally.matches())
}
