//! The instances of a rule at a term.

ghost use Rattle.std.specs.Prelude.{◌≡◌, ◌↔◌, ◌+◌, ◌-◌, ◌^◌, ◌∷◌, [], ℕ, List, true, min, IfOk, IfSome};
ghost use Rattle.std.specs.Option.{option_map};
ghost use Rattle.kola_values.specs.Sets.{Each};
ghost use Rattle.kola_values.specs.Views.{type_tree};
ghost use Rattle.kola_term.specs.ContextView.{context_of};
ghost use Rattle.kola_term.specs.Parts.{sub_tree};
ghost use Rattle.kola_term.specs.TermView.{term_tree};
ghost use Rattle.kola_term.specs.Places.{Typed};
ghost use Rattle.kola_term.specs.Typing.{MetaTree};
ghost use Rattle.kola_rule.specs.RuleViews.{rule_tree};
ghost use Rattle.kola_match.specs.Occurring.{Occurs};
ghost use Rattle.kola_match.specs.RuleOk.{RuleOk};
ghost use Rattle.kola_match.specs.Binds.{substitution_of};
ghost use Rattle.kola_match.specs.Instances.{Decided, HasVariables, pattern_side, other_side};
ghost use Rattle.kola_match.specs.SubstViews.{bindings, found_binds};

use crate::declared::Side;
use crate::matched::instance_of;
use crate::subst::Subst;
use crate::well_typed::all_occur;
use kola_core::Memory;
use kola_rule::Rule;
use kola_schema::Schema;
use kola_term::{MetaCtx, SubTerm, Term};
use kola_values::Ty;
use std::alloc::Global;
use std::marker::Model;

/// How often `match_at` was asked, up to 18446744073709551615.
#[derive(Drop)]
pub struct Tally {
    matches: u64,
}

impl Model for Tally {
    ghost use Rattle.std.specs.Prelude.{ℕ};

    ghost Value = { ℕ };

    ghost view = { λ a. a.matches };
}

impl Tally {
    /// The tally of no match.
    pub fn new() -> Tally
        ensures { result ≡ 0 }
    {
        Tally { matches: 0 }
    }

    /// The number of matches that were asked for.
    pub fn matches(&self) -> u64
        ensures { result ≡ self.now }
    {
        self.matches
    }

    fn rise(&mut self)
        ensures { self.new ≡ min (self.old + 1) (2 ^ 64 - 1) }
    {
        self.matches = self.matches.saturating_add(1);
    }
}

/// The side that is matched: the left one, or the right one where the rule is reversed.
fn side_of<'a>(rule: &'a Rule, rev: bool) -> &'a Term
    ensures { term_tree result.now ≡ pattern_side (rule_tree rule.now) rev }
{
    if rev { &rule.right } else { &rule.left }
}

/// The same as a part of itself.
fn pattern_of<'a>(rule: &'a Rule, rev: bool) -> SubTerm<'a>
    ensures { sub_tree result ≡ pattern_side (rule_tree rule.now) rev }
{
    side_of(rule, rev).as_part()
}

/// The other side.
fn other_of<'a>(rule: &'a Rule, rev: bool) -> SubTerm<'a>
    ensures { sub_tree result ≡ other_side (rule_tree rule.now) rev }
{
    if rev {
        rule.left.as_part()
    } else {
        rule.right.as_part()
    }
}

/// Whether each variable of the rule stands on the side that is matched, as `match_at` asks; with `rev` that is the right one.
pub fn binds_all_variables(alloc: Global, rule: &Rule, rev: bool) -> Result<bool, Memory>
    ensures { IfOk result (λ b. (b ≡ true)
        ↔ Each (λ (v : List ℕ × MetaTree). Occurs (pattern_side (rule_tree rule.now) rev) v) (context_of rule.now.vars)) }
{
    let side = side_of(rule, rev);
    let all = all_occur(alloc, &rule.vars, side, side)?;
    Ok(all)
}

/// What an instance of the rule gives for its variables, where the side that is matched gives the term, at its type in
/// a context: the term of each, and the input type of a function or predicate; `None` exactly where there is no instance.
/// With `rev` the right side is matched. The tally rises by one, whatever is answered. Where a node of the term differs
/// from the side's it takes no memory.
pub fn match_at(
    alloc: Global,
    schema: &Schema,
    ctx: &MetaCtx,
    rule: &Rule,
    rev: bool,
    t: SubTerm,
    ty: &Ty,
    tally: &mut Tally,
) -> Result<Option<Subst>, Memory>
    requires ok { RuleOk schema.now (rule_tree rule.now) }
    requires occur { Each (λ (v : List ℕ × MetaTree). Occurs (pattern_side (rule_tree rule.now) rev) v)
        (context_of rule.now.vars) }
    requires typed { Typed schema.now (context_of ctx.now) (sub_tree t) (type_tree ty.now) }
    ensures tally { tally.new ≡ min (tally.old + 1) (2 ^ 64 - 1) }
    ensures found { IfOk result (λ o. Decided schema.now (context_of ctx.now) (context_of rule.now.vars)
        (type_tree rule.now.input)
        (type_tree ty.now) ((pattern_side (rule_tree rule.now) rev, sub_tree t.entry) ∷ [])
        (option_map found_binds o)) }
    ensures variables { IfOk result (λ o. IfSome o (λ s. HasVariables (context_of rule.now.vars)
        (substitution_of (found_binds s)) (bindings s))) }
{
    tally.rise();
    let side = Side {
        pattern: pattern_of(rule, rev),
        part: t,
    };
    let found = instance_of(alloc, schema, ctx, &rule.vars, &rule.input, side, None, ty)?;
    Ok(found)
}

/// What an instance of the rule gives for its variables, where the side that is matched gives the first term and the
/// other side the second, both at their type in a context: the term of each, and the input type of a function or
/// predicate; `None` exactly where no one instance gives both. With `rev` the right side is matched.
pub fn match_both(
    alloc: Global,
    schema: &Schema,
    ctx: &MetaCtx,
    rule: &Rule,
    rev: bool,
    t1: SubTerm,
    t2: SubTerm,
    ty: &Ty,
) -> Result<Option<Subst>, Memory>
    requires ok { RuleOk schema.now (rule_tree rule.now) }
    requires first { Typed schema.now (context_of ctx.now) (sub_tree t1) (type_tree ty.now) }
    requires second { Typed schema.now (context_of ctx.now) (sub_tree t2) (type_tree ty.now) }
    ensures found { IfOk result (λ o. Decided schema.now (context_of ctx.now) (context_of rule.now.vars)
        (type_tree rule.now.input)
        (type_tree ty.now)
        ((pattern_side (rule_tree rule.now) rev, sub_tree t1.entry) ∷ (
          other_side
              (rule_tree rule.now) rev,
          sub_tree t2.entry,
        ) ∷ [])
        (option_map found_binds o)) }
    ensures variables { IfOk result (λ o. IfSome o (λ s. HasVariables (context_of rule.now.vars)
        (substitution_of (found_binds s)) (bindings s))) }
{
    let first = Side {
        pattern: pattern_of(rule, rev),
        part: t1,
    };
    let second = Side {
        pattern: other_of(rule, rev),
        part: t2,
    };
    let found = instance_of(
        alloc,
        schema,
        ctx,
        &rule.vars,
        &rule.input,
        first,
        Some(second),
        ty,
    )?;
    Ok(found)
}
