//! A rule as text: its name, variables, input type, conditions and sides.

use kola_canon::{push_bytes, push_type};
use kola_core::{Memory, Name, Names};
use kola_rule::Rule;
use kola_term::{MetaCtx, MetaTy, Term};
use kola_text::print_term;
use kola_values::Ty;

/// Adds a type as it stands in a rule.
fn push_rule_type(out: &mut Vec<u8>, t: &Ty) -> Result<(), Memory> {
    match t {
        Ty::Set(t) => {
            push_bytes(out, b"set ")?;
            push_rule_type(out, t.get())
        }
        Ty::Pair(t, u) => {
            push_bytes(out, b"(")?;
            push_rule_type(out, t.get())?;
            push_bytes(out, b", ")?;
            push_rule_type(out, u.get())?;
            push_bytes(out, b")")
        }
        _ => push_type(out, t),
    }
}

fn push_name(out: &mut Vec<u8>, name: &Name) -> Result<(), Memory> {
    push_bytes(out, name.as_text().as_bytes())
}

/// Adds what a variable is, with its types.
fn push_kind(out: &mut Vec<u8>, kind: &MetaTy) -> Result<(), Memory> {
    match kind {
        MetaTy::Fun(t, u) => {
            push_rule_type(out, t)?;
            push_bytes(out, b" -> ")?;
            push_rule_type(out, u)
        }
        MetaTy::Pred(t) => {
            push_bytes(out, b"pred ")?;
            push_rule_type(out, t)
        }
        MetaTy::Const(t) => push_rule_type(out, t),
    }
}

fn push_variables(out: &mut Vec<u8>, vars: &MetaCtx) -> Result<(), Memory> {
    let mut before: &[u8] = b"";
    for (name, kind) in vars.as_slice() {
        push_bytes(out, before)?;
        push_name(out, name)?;
        push_bytes(out, b": ")?;
        push_kind(out, kind)?;
        before = b", ";
    }
    Ok(())
}

fn push_conditions(out: &mut Vec<u8>, when: &Names) -> Result<(), Memory> {
    let mut before: &[u8] = b" when inj(";
    for name in when.as_slice() {
        push_bytes(out, before)?;
        push_name(out, name)?;
        push_bytes(out, b")")?;
        before = b", inj(";
    }
    Ok(())
}

fn push_term(out: &mut Vec<u8>, t: &Term) -> Result<(), Memory> {
    let text = print_term(*out.allocator(), t)?;
    push_bytes(out, &text)
}

fn push_sides(out: &mut Vec<u8>, rule: &Rule) -> Result<(), Memory> {
    push_term(out, &rule.left)?;
    push_bytes(out, b" = ")?;
    push_term(out, &rule.right)
}

/// Adds a rule and the end of a line.
pub(crate) fn push_rule(out: &mut Vec<u8>, rule: &Rule) -> Result<(), Memory> {
    push_name(out, &rule.name)?;
    push_bytes(out, b" (")?;
    push_variables(out, &rule.vars)?;
    push_bytes(out, b") at ")?;
    push_rule_type(out, &rule.input)?;
    push_conditions(out, &rule.when)?;
    push_bytes(out, b": ")?;
    push_sides(out, rule)?;
    push_bytes(out, b"\n")
}
