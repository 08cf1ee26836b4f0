//! Instances of rules: matched, put in, and what they give for the variables.

ghost use Rattle.std.specs.Prelude.{◌≡◌, IfOk, true};
ghost use Rattle.kola_values.specs.Views.{type_tree};
ghost use Rattle.kola_term.specs.ContextView.{context_of};
ghost use Rattle.kola_term.specs.Parts.{sub_tree};
ghost use Rattle.kola_term.specs.Places.{Typed};

use crate::samples::{Broken, boxed, is_printed, schema, term_with, variables};
use kola_canon::type_text;
use kola_core::{Memory, Name, Names};
use kola_laws::laws;
use kola_match::{
    Subst, Tally, binds_all_variables, instantiate, instantiate_type, match_at, match_both,
    rule_ok, same_part,
};
use kola_rule::{Rule, RuleTable};
use kola_schema::Schema;
use kola_term::{MetaCtx, MetaTy, SubTerm, Term, out_type_without_limit, pred_ok_without_limit};
use kola_values::Ty;
use std::alloc::Global;
use std::test::Fail;

fn type_var(alloc: Global, name: &str) -> Result<Ty, Memory> {
    Ok(Ty::Var(Name::from_text(alloc, name)?))
}

fn class(alloc: Global, name: &str) -> Result<Ty, Memory> {
    Ok(Ty::Class(Name::from_text(alloc, name)?))
}

fn push_fun(
    alloc: Global,
    vars: &mut MetaCtx,
    name: &str,
    from: &str,
    to: &str,
) -> Result<(), Memory> {
    let name = Name::from_text(alloc, name)?;
    let to = boxed(alloc, type_var(alloc, to)?)?;
    let from = type_var(alloc, from)?;
    vars.push((name, MetaTy::Fun(from, Box::into_inner(to))))
}

/// Functions `f` from `b` to `c` and `g` from `a` to `b`.
fn functions(alloc: Global) -> Result<MetaCtx, Memory> {
    let mut vars = MetaCtx::new(alloc);
    push_fun(alloc, &mut vars, "f", "b", "c")?;
    push_fun(alloc, &mut vars, "g", "a", "b")?;
    Ok(vars)
}

/// A function `f` from persons to `c`.
fn of_persons(alloc: Global) -> Result<MetaCtx, Memory> {
    let mut vars = MetaCtx::new(alloc);
    let name = Name::from_text(alloc, "f")?;
    let to = boxed(alloc, type_var(alloc, "c")?)?;
    let from = class(alloc, "Person")?;
    vars.push((name, MetaTy::Fun(from, Box::into_inner(to))))?;
    Ok(vars)
}

/// A rule without conditions at an input type.
fn rule(
    alloc: Global,
    vars: MetaCtx,
    input: Box<Ty>,
    sides: (&str, &str),
) -> Result<Box<Rule>, Broken> {
    let name = Name::from_text(alloc, "near")?;
    let left = term_with(alloc, sides.0, &vars)?;
    let right = term_with(alloc, sides.1, &vars)?;
    let rule = Rule {
        name,
        vars,
        input: Box::into_inner(input),
        when: Names::new(alloc),
        left: Box::into_inner(left),
        right: Box::into_inner(right),
    };
    Ok(boxed(alloc, rule)?)
}

/// A term without variables.
fn term(alloc: Global, text: &str) -> Result<Box<Term>, Broken> {
    let vars = MetaCtx::new(alloc);
    term_with(alloc, text, &vars)
}

/// Whether a function or predicate is typed at a type.
fn is_typed(
    alloc: Global,
    schema: &Schema,
    ctx: &MetaCtx,
    part: SubTerm,
    ty: &Ty,
) -> Result<bool, Memory>
    ensures { IfOk result (λ b. b ≡ true
        → Typed schema.now (context_of ctx.now) (sub_tree part.entry) (type_tree ty.now)) }
{
    match part {
        SubTerm::F(f) => {
            let output = out_type_without_limit(alloc, schema, ctx, f, ty)?;
            Ok(output.is_some())
        }
        SubTerm::P(p) => pred_ok_without_limit(alloc, schema, ctx, p, ty),
        SubTerm::C(_) => Ok(false),
    }
}

/// What `match_at` answers, where it may be asked.
fn matched(
    alloc: Global,
    schema: &Schema,
    rule: &Rule,
    rev: bool,
    t: &Term,
    ty: &Ty,
    tally: &mut Tally,
) -> Result<Option<Box<Subst>>, Broken> {
    let ctx = MetaCtx::new(alloc);
    let part = t.as_part();
    if !rule_ok(alloc, schema, rule)? {
        return Err(Broken::Refused);
    }
    if !binds_all_variables(alloc, rule, rev)? {
        return Err(Broken::Refused);
    }
    if !is_typed(alloc, schema, &ctx, part, ty)? {
        return Err(Broken::Refused);
    }
    match match_at(alloc, schema, &ctx, rule, rev, part, ty, tally)? {
        Some(subst) => Ok(Some(boxed(alloc, subst)?)),
        None => Ok(None),
    }
}

/// What `match_both` answers, where it may be asked.
fn matched_both(
    alloc: Global,
    schema: &Schema,
    rule: &Rule,
    terms: (&Term, &Term),
    ty: &Ty,
) -> Result<Option<Box<Subst>>, Broken> {
    let ctx = MetaCtx::new(alloc);
    let first = terms.0.as_part();
    let second = terms.1.as_part();
    if !rule_ok(alloc, schema, rule)? {
        return Err(Broken::Refused);
    }
    if !is_typed(alloc, schema, &ctx, first, ty)? {
        return Err(Broken::Refused);
    }
    if !is_typed(alloc, schema, &ctx, second, ty)? {
        return Err(Broken::Refused);
    }
    match match_both(alloc, schema, &ctx, rule, false, first, second, ty)? {
        Some(subst) => Ok(Some(boxed(alloc, subst)?)),
        None => Ok(None),
    }
}

/// Whether a side under what was found has the text; the empty text stands for no answer.
fn is_given(
    alloc: Global,
    side: &Term,
    found: &Option<Box<Subst>>,
    text: &str,
) -> Result<bool, Memory> {
    match found {
        Some(subst) => {
            let given = instantiate(alloc, side, subst)?;
            let given = boxed(alloc, given)?;
            is_printed(alloc, &given, text)
        }
        None => Ok(text.is_empty()),
    }
}

const SIDES: (&str, &str) = ("<g, (f o g)>", "(<id, f> o g)");

fn near(alloc: Global) -> Result<Box<Rule>, Broken> {
    let input = boxed(alloc, type_var(alloc, "a")?)?;
    rule(alloc, functions(alloc)?, input, SIDES)
}

/// Whether the rule makes this of a term at the integers, or nothing; the tally must have risen by one.
fn rewrites(alloc: Global, rev: bool, text: &str, wanted: &str) -> Result<bool, Broken> {
    let schema = schema(alloc)?;
    let rule = near(alloc)?;
    let t = term(alloc, text)?;
    let mut tally = Tally::new();
    let found = matched(alloc, &schema, &rule, rev, &t, &Ty::Int, &mut tally)?;
    let other = if rev { &rule.left } else { &rule.right };
    Ok(tally.matches() == 1 && is_given(alloc, other, &found, wanted)?)
}

#[test]
fn a_side_is_put_in_for_the_other(rt: HostRuntime) -> Result<(), Fail> {
    for (rev, text, wanted) in [
        (false, "<id, (K(1) o id)>", "(<id, K(1)> o id)"),
        (false, "<K(2), (K(1) o id)>", ""),
        (false, "<id, (K(1) o K(2))>", ""),
        (false, "<id, K(1)>", ""),
        (true, "(<id, K(1)> o K(2))", "<K(2), (K(1) o K(2))>"),
        (true, "<id, (K(1) o id)>", ""),
    ] {
        assert!(rt; rewrites(rt.alloc(), rev, text, wanted)?, "{text}");
    }
    Ok(())
}

/// Whether both sides give the terms at the integers, and the right one then has the text.
fn gives_both(alloc: Global, left: &str, right: &str, wanted: &str) -> Result<bool, Broken> {
    let schema = schema(alloc)?;
    let rule = near(alloc)?;
    let left = term(alloc, left)?;
    let right = term(alloc, right)?;
    let found = matched_both(alloc, &schema, &rule, (&left, &right), &Ty::Int)?;
    Ok(is_given(alloc, &rule.right, &found, wanted)?)
}

#[test]
fn both_sides_are_given_by_one_instance(rt: HostRuntime) -> Result<(), Fail> {
    for (left, right, wanted) in [
        (
            "<id, (K(1) o id)>",
            "(<id, K(1)> o id)",
            "(<id, K(1)> o id)",
        ),
        ("<id, (K(1) o id)>", "(<id, K(1)> o K(2))", ""),
        ("<id, (K(1) o id)>", "<id, (K(1) o id)>", ""),
        ("<id, (K(1) o K(2))>", "(<id, K(1)> o id)", ""),
    ] {
        assert!(rt;
            gives_both(rt.alloc(), left, right, wanted)?,
            "{left} {right}"
        );
    }
    Ok(())
}

/// Whether the substitution has this term and this input type for a variable; the empty text stands for none.
fn has(alloc: Global, subst: &Subst, var: &str, term: &str, input: &str) -> Result<bool, Memory> {
    let var = Name::from_text(alloc, var)?;
    let as_term = match subst.term_of(&var) {
        Some(t) => is_printed(alloc, t, term)?,
        None => term.is_empty(),
    };
    let as_input = match subst.input_of(&var) {
        Some(t) => type_text(alloc, t)?.as_slice() == input.as_bytes(),
        None => input.is_empty(),
    };
    Ok(as_term && as_input)
}

/// Whether the rule of all kinds of variables gives these of a term at the integers.
fn gives(alloc: Global, text: &str, wanted: &[(&str, &str, &str)]) -> Result<bool, Broken> {
    let schema = schema(alloc)?;
    let input = boxed(alloc, Ty::Int)?;
    let rule = rule(
        alloc,
        variables(alloc)?,
        input,
        ("if(p, f, K(c))", "if(~p, K(c), f)"),
    )?;
    let t = term(alloc, text)?;
    let mut tally = Tally::new();
    let Some(subst) = matched(alloc, &schema, &rule, false, &t, &Ty::Int, &mut tally)? else {
        return Ok(wanted.is_empty());
    };
    for (var, term, input) in wanted {
        if !has(alloc, &subst, var, term, input)? {
            return Ok(false);
        }
    }
    Ok(true)
}

#[test]
fn an_instance_gives_terms_and_input_types(rt: HostRuntime) -> Result<(), Fail> {
    let variables = [
        ("f", "(fst o <id, K(2)>)", "int"),
        ("p", "CP(lt, 1)", "int"),
        ("c", "5", ""),
        ("g", "", ""),
    ];
    assert!(rt;
        gives(
            rt.alloc(),
            "if(CP(lt, 1), (fst o <id, K(2)>), K(5))",
            &variables
        )?
    );
    assert!(rt; gives(rt.alloc(), "if(CP(lt, 1), id, id)", &[])?);
    Ok(())
}

/// Whether a type is this under what was found.
fn becomes(alloc: Global, subst: &Subst, t: &Ty, text: &str) -> Result<bool, Memory> {
    let under = boxed(alloc, instantiate_type(alloc, t, subst)?)?;
    Ok(type_text(alloc, &under)?.as_slice() == text.as_bytes())
}

/// The sets of a type variable.
fn sets_of(alloc: Global, name: &str) -> Result<Box<Ty>, Memory> {
    let member = type_var(alloc, name)?;
    let sets = Ty::set_of(alloc, member)?;
    boxed(alloc, sets)
}

/// Whether the sets of a type variable are these under what was found.
fn sets_become(alloc: Global, subst: &Subst, name: &str, text: &str) -> Result<bool, Memory> {
    let sets = sets_of(alloc, name)?;
    becomes(alloc, subst, &sets, text)
}

/// Whether a function variable is there, and is the term that is found for it.
fn is_fun(subst: &Subst, var: &Name) -> bool {
    match (subst.fun_of(var), subst.term_of(var)) {
        (Some(f), Some(t)) => same_part(SubTerm::F(f), t.as_part()),
        (None, None) => true,
        _ => false,
    }
}

fn is_fun_named(alloc: Global, subst: &Subst, var: &str) -> Result<bool, Memory> {
    let var = Name::from_text(alloc, var)?;
    Ok(is_fun(subst, &var))
}

/// Whether an instance of the rule of two functions gives types and functions.
fn gives_types(alloc: Global, subst: &Subst) -> Result<bool, Memory> {
    for (name, text) in [
        ("a", "set<int>"),
        ("b", "set<string>"),
        ("c", "set<bool>"),
        ("d", "set<unit>"),
    ] {
        if !sets_become(alloc, subst, name, text)? {
            return Ok(false);
        }
    }
    Ok(is_fun_named(alloc, subst, "f")? && is_fun_named(alloc, subst, "h")?)
}

/// The same of the rule's instance in a term at the integers.
fn gives_types_of(alloc: Global, text: &str) -> Result<bool, Broken> {
    let schema = schema(alloc)?;
    let rule = near(alloc)?;
    let t = term(alloc, text)?;
    let mut tally = Tally::new();
    match matched(alloc, &schema, &rule, false, &t, &Ty::Int, &mut tally)? {
        Some(subst) => Ok(gives_types(alloc, &subst)?),
        None => Ok(false),
    }
}

#[test]
fn an_instance_gives_types_and_functions(rt: HostRuntime) -> Result<(), Fail> {
    assert!(rt; gives_types_of(rt.alloc(), "<K(\"a\"), (K(true) o K(\"a\"))>")?);
    Ok(())
}

fn all_laws(alloc: Global) -> Result<Box<RuleTable>, Memory> {
    let laws = laws(alloc)?;
    let boxed = boxed(alloc, laws)?;
    Ok(boxed)
}

fn law<'a>(alloc: Global, laws: &'a RuleTable, name: &str) -> Result<Option<&'a Rule>, Memory> {
    let name = Name::from_text(alloc, name)?;
    match laws.find(&name) {
        Some(n) => Ok(laws.get(n)),
        None => Ok(None),
    }
}

/// Whether what was found gives a law's left side this text, and its variable `f` is then this; the empty text stands for no
/// answer.
fn gives_f(
    alloc: Global,
    rule: &Rule,
    found: &Option<Box<Subst>>,
    text: &str,
    f: &str,
) -> Result<bool, Memory> {
    match found {
        Some(subst) => {
            Ok(has(alloc, subst, "f", f, "Person")? && is_given(alloc, &rule.left, found, text)?)
        }
        None => Ok(f.is_empty()),
    }
}

/// Whether the left side of a rule gives a term at persons, with this for `f`.
fn side_gives(
    alloc: Global,
    schema: &Schema,
    rule: &Rule,
    text: &str,
    f: &str,
) -> Result<bool, Broken> {
    let person = boxed(alloc, class(alloc, "Person")?)?;
    let t = term(alloc, text)?;
    let mut tally = Tally::new();
    let found = matched(alloc, schema, rule, false, &t, &person, &mut tally)?;
    Ok(gives_f(alloc, rule, &found, text, f)?)
}

/// The same of a law.
fn law_gives(alloc: Global, name: &str, text: &str, f: &str) -> Result<bool, Broken> {
    let schema = schema(alloc)?;
    let laws = all_laws(alloc)?;
    match law(alloc, &laws, name)? {
        Some(rule) => side_gives(alloc, &schema, rule, text, f),
        None => Ok(false),
    }
}

/// Laws, each with a term and what its variable `f` is.
const GIVEN: [(&str, &str, &str); 4] = [
    ("eq_self", "(eq @ <.last, .last>)", ".last"),
    ("eq_self", "(eq @ <.last, .first>)", ""),
    ("id_left", "(id o .last)", ".last"),
    ("id_left", "(.last o id)", ""),
];

#[test]
fn laws_give_what_stands_at_persons(rt: HostRuntime) -> Result<(), Fail> {
    for (name, text, f) in GIVEN {
        assert!(rt; law_gives(rt.alloc(), name, text, f)?, "{text}");
    }
    Ok(())
}

/// Whether both sides of a rule give the terms at persons, with this for `f`.
fn sides_give(
    alloc: Global,
    schema: &Schema,
    rule: &Rule,
    texts: (&str, &str),
    f: &str,
) -> Result<bool, Broken> {
    let person = boxed(alloc, class(alloc, "Person")?)?;
    let left = term(alloc, texts.0)?;
    let right = term(alloc, texts.1)?;
    let found = matched_both(alloc, schema, rule, (&left, &right), &person)?;
    Ok(gives_f(alloc, rule, &found, texts.0, f)?)
}

/// The same of a law.
fn law_gives_both(alloc: Global, name: &str, texts: (&str, &str), f: &str) -> Result<bool, Broken> {
    let schema = schema(alloc)?;
    let laws = all_laws(alloc)?;
    match law(alloc, &laws, name)? {
        Some(rule) => sides_give(alloc, &schema, rule, texts, f),
        None => Ok(false),
    }
}

/// Laws, each with two terms and what its variable `f` is.
const GIVEN_BOTH: [(&str, (&str, &str), &str); 3] = [
    ("id_left", ("(id o .last)", ".last"), ".last"),
    ("id_left", ("(id o .last)", ".first"), ""),
    ("id_right", ("(.last o id)", ".last"), ".last"),
];

#[test]
fn laws_give_both_sides_at_persons(rt: HostRuntime) -> Result<(), Fail> {
    for (name, texts, f) in GIVEN_BOTH {
        assert!(rt; law_gives_both(rt.alloc(), name, texts, f)?, "{name}");
    }
    Ok(())
}

/// Whether a rule on persons makes this of a term at the class, or nothing.
fn of_a_person(alloc: Global, at: &str, text: &str, wanted: &str) -> Result<bool, Broken> {
    let schema = schema(alloc)?;
    let input = boxed(alloc, class(alloc, "Person")?)?;
    let rule = rule(alloc, of_persons(alloc)?, input, ("(f o id)", "f"))?;
    let at = boxed(alloc, class(alloc, at)?)?;
    let t = term(alloc, text)?;
    let mut tally = Tally::new();
    let found = matched(alloc, &schema, &rule, false, &t, &at, &mut tally)?;
    Ok(is_given(alloc, &rule.right, &found, wanted)?)
}

#[test]
fn a_rule_on_persons_has_no_instance_at_vehicles(rt: HostRuntime) -> Result<(), Fail> {
    for (at, text, wanted) in [
        ("Person", "(.last o id)", ".last"),
        ("Person", "(.cars o id)", ".cars"),
        ("Vehicle", "(.year o id)", ""),
        ("Vehicle", "(K(1) o id)", ""),
    ] {
        assert!(rt; of_a_person(rt.alloc(), at, text, wanted)?, "{at} {text}");
    }
    Ok(())
}
