//! An attempt to fire a rule at a place of the whole term.

ghost use Rattle.std.specs.Prelude.{◌≡◌, ◌↔◌, ℕ, Bool, List, [], ◌∷◌, Some, None, map, true, IfOk, IfSome, IfNone};
ghost use Rattle.std.specs.Option.{option_map};
ghost use Rattle.kola_values.specs.Types.{TUnit};
ghost use Rattle.kola_values.specs.Sets.{Each};
ghost use Rattle.kola_values.specs.Views.{type_tree};
ghost use Rattle.kola_term.specs.TermView.{term_tree};
ghost use Rattle.kola_term.specs.Parts.{sub_tree};
ghost use Rattle.kola_term.specs.Places.{sub_at, place, put_in};
ghost use Rattle.kola_rule.specs.RuleViews.{rule_tree};
ghost use Rattle.kola_match.specs.RuleOk.{RuleOk};
ghost use Rattle.kola_match.specs.Binds.{Binds, substitution_of};
ghost use Rattle.kola_match.specs.Substitutions.{inst};
ghost use Rattle.kola_match.specs.Instances.{pattern_side, other_side, Decided};
ghost use Rattle.kola_match.specs.SubstViews.{found_binds};
ghost use Rattle.coko_plan.specs.Variables.{Covers};
ghost use Rattle.kola_term.specs.Terms.{TermTree};
ghost use Rattle.kola_term.specs.Agreement.{SameKind};
ghost use Rattle.kola_proof.specs.Steps.{IsPlace, AllShown};
ghost use Rattle.coko_run.specs.Firing.{Hit, HitBy, IsInstance, FitsUnit};
ghost use Rattle.coko_run.specs.Fires.{MayFire, IsShooting};

use crate::conditions::are_shown;
use crate::fitting::fits_unit;
use crate::shape::has_form;
use kola_core::{Items, Memory, Path};
use kola_match::{Subst, Tally, instantiate, match_at};
use kola_rule::{Rule, RuleTable};
use kola_schema::Schema;
use kola_term::{PlaceFault, SubTerm, Term, input_at_part, replace_at};
use kola_values::Ty;
use std::alloc::{AllocError, Global};

/// What an attempt comes to.
#[derive(Drop)]
pub(crate) enum Shooting {
    /// The whole term with the other side in the place.
    Hit(Box<Term>),
    /// It would not fit.
    Size,
    /// The rule has no instance there whose conditions are shown.
    Miss,
}

/// The side that is matched.
fn pattern_of<'a>(rule: &'a Rule, rev: bool) -> &'a Term
    ensures { term_tree result.now ≡ pattern_side (rule_tree rule.now) rev }
{
    if rev { &rule.right } else { &rule.left }
}

/// The side that is put in.
fn other_of<'a>(rule: &'a Rule, rev: bool) -> &'a Term
    ensures { term_tree result.now ≡ other_side (rule_tree rule.now) rev }
{
    if rev { &rule.left } else { &rule.right }
}

/// The input type at the path; `None` where no function or predicate stands there.
fn input_at(alloc: Global, schema: &Schema, whole: &Term, path: &Path) -> Result<Option<Ty>, Memory>
    requires { FitsUnit schema.now (term_tree whole.now) }
    ensures some { IfOk result (λ o. IfSome o (λ t. place schema.now [] (term_tree whole.now) TUnit path.now
        ≡ Some (type_tree t))) }
    ensures none { IfOk result (λ o. IfNone o (IsPlace (sub_at (term_tree whole.now) path.now) → ⊥)) }
{
    let none = Items::new(alloc);
    match input_at_part(
        alloc,
        schema,
        &none,
        whole.as_part(),
        &Ty::Unit,
        path.as_slice(),
    ) {
        Ok(input) => Ok(Some(input)),
        Err(PlaceFault::NoSuchPath) | Err(PlaceFault::WrongKind) => Ok(None),
        Err(PlaceFault::Memory) => Err(AllocError),
    }
}

/// The other side of the rule under an instance.
fn side_of(alloc: Global, rule: &Rule, rev: bool, s: &Subst) -> Result<Box<Term>, Memory>
    ensures { IfOk result (λ r. term_tree r.value
        ≡ inst (substitution_of (found_binds s.now)) (other_side (rule_tree rule.now) rev)) }
{
    let side = instantiate(alloc, other_of(rule, rev), s)?;
    let side = Box::new(alloc, side)?;
    Ok(side)
}

/// The whole term with a new part at the path; `None` where none of its kind stands there.
fn exchanged(
    alloc: Global,
    whole: &Term,
    path: &Path,
    side: &Term,
) -> Result<Option<Box<Term>>, Memory>
    ensures some { IfOk result (λ o. IfSome o (λ r. put_in (term_tree whole.now) path.now (term_tree side.now)
        ≡ Some (term_tree r.value))) }
    ensures none { IfOk result (λ o. IfNone o ((l : TermTree) → sub_at (term_tree whole.now) path.now ≡ Some l →
        SameKind l (term_tree side.now) → ⊥)) }
{
    match replace_at(alloc, whole, path, side) {
        Ok(new) => {
            let new = Box::new(alloc, new)?;
            Ok(Some(new))
        }
        Err(PlaceFault::NoSuchPath) | Err(PlaceFault::WrongKind) => Ok(None),
        Err(PlaceFault::Memory) => Err(AllocError),
    }
}

/// The firing by an instance that was found.
fn shot_by(
    alloc: Global,
    schema: &Schema,
    rule: &Rule,
    rev: bool,
    whole: &Term,
    path: &Path,
    s: &Subst,
) -> Result<Shooting, Memory>
    requires rule { RuleOk schema.now (rule_tree rule.now) }
    requires covers { Covers (rule_tree rule.now) rev }
    requires by { IsInstance schema.now (rule_tree rule.now) rev (term_tree whole.now) path.now
        (substitution_of (found_binds s.now)) }
    requires shown { AllShown schema.now [] [] (rule_tree rule.now) (substitution_of (found_binds s.now)) }
    ensures { IfOk result (λ x. IsShooting schema.now
        (HitBy schema.now (rule_tree rule.now) rev (term_tree whole.now) path.now) x) }
{
    let side = side_of(alloc, rule, rev, s)?;
    let Some(new) = exchanged(alloc, whole, path, &side)? else {
        return Ok(Shooting::Miss);
    };
    if fits_unit(alloc, schema, &new)? {
        return Ok(Shooting::Hit(new));
    }
    Ok(Shooting::Size)
}

/// An attempt at a part that has the form of the side that is matched.
fn shot_at(
    alloc: Global,
    schema: &Schema,
    rule: &Rule,
    rev: bool,
    whole: &Term,
    path: &Path,
    part: SubTerm,
) -> Result<Shooting, Memory>
    requires rule { RuleOk schema.now (rule_tree rule.now) }
    requires covers { Covers (rule_tree rule.now) rev }
    requires fits { FitsUnit schema.now (term_tree whole.now) }
    requires part { sub_at (term_tree whole.now) path.now ≡ Some (sub_tree part) }
    ensures { IfOk result (λ x. IsShooting schema.now
        (HitBy schema.now (rule_tree rule.now) rev (term_tree whole.now) path.now) x) }
{
    schema.well_formed();
    let Some(input) = input_at(alloc, schema, whole, path)? else {
        return Ok(Shooting::Miss);
    };
    let none = Items::new(alloc);
    let mut tally = Tally::new();
    let Some(s) = match_at(alloc, schema, &none, rule, rev, part, &input, &mut tally)? else {
        return Ok(Shooting::Miss);
    };
    if !are_shown(alloc, schema, rule, &s)? {
        return Ok(Shooting::Miss);
    }
    shot_by(alloc, schema, rule, rev, whole, path, &s)
}

/// An attempt to fire the rule of the number at the path. Where a node differs from the side that is matched, it takes
/// no memory.
pub(crate) fn fire(
    alloc: Global,
    schema: &Schema,
    rules: &RuleTable,
    whole: &Term,
    n: usize,
    rev: bool,
    path: &Path,
) -> Result<Shooting, Memory>
    requires rules { Each (RuleOk schema.now) (map rule_tree rules.now) }
    requires fires { MayFire (map rule_tree rules.now) n rev }
    requires fits { FitsUnit schema.now (term_tree whole.now) }
    ensures { IfOk result (λ x. IsShooting schema.now
        (Hit schema.now (map rule_tree rules.now) n rev (term_tree whole.now) path.now) x) }
{
    let Some(rule) = rules.get(n) else {
        return Ok(Shooting::Miss);
    };
    let Some(part) = whole.as_part().at(path.as_slice()) else {
        return Ok(Shooting::Miss);
    };
    if !has_form(pattern_of(rule, rev).as_part(), part) {
        return Ok(Shooting::Miss);
    }
    shot_at(alloc, schema, rule, rev, whole, path, part)
}
