//! A query in its one canonical spelling.

ghost use Rattle.std.specs.Prelude.{◌≡◌, ◌++◌, ◌∷◌, true, false, map, IfOk, OnOk, codes};
ghost use Rattle.std.specs.List.{flat_map};
ghost use Rattle.kola_canon.specs.Spelling.{truth};
ghost use Rattle.oql_tree.specs.QueryTrees.{of_links, of_set_links, of_fields, of_ranges};
ghost use Rattle.oql_tree.specs.QueryViews.{lit_tree, literal_entries, form_tree, query_tree, link_entry, set_link_entry, named_entry, where_of};
ghost use Rattle.oql_print.specs.declared.print.Class.TheVariants.{Not, Sets, Meet, Prim};
ghost use Rattle.oql_print.specs.QuerySpelling.{class_number, class_of, is_quantifier, takes, literal_spelling, further_literal, literals_spelling, label_spelling, comparison_spelling, union_spelling, spelling, spelling_at, operands_spelling, set_links_spelling, fields_spelling, further_fields, ranges_spelling, further_ranges, where_spelling, query_spelling};

use kola_canon::{push_bytes, push_int, push_text};
use kola_core::{Memory, Name};
use oql_tree::{BoxedExpr, Chain, Expr, Form, Lit, Query, Sign};
use std::alloc::Global;

/// The one canonical spelling of a query, in bytes: words in lower case, ranges with `in`, paths with dots, and parentheses
/// exactly where the grammar does not take a part bare at its place, decided from the outside inwards.
pub fn print_query(alloc: Global, query: &Query) -> Result<Vec<u8>, Memory>
    ensures { IfOk result (λ text. text.items ≡ query_spelling (query_tree query.now)) }
{
    let mut out = Vec::new(alloc);
    push_query(&mut out, query, true)?;
    Ok(out)
}

// ---- places

/// What a place in a query takes bare: each class takes what the classes behind it take.
#[derive(Clone, Copy)]
pub(crate) enum Class {
    Full,
    Or,
    And,
    Not,
    Compared,
    Sets,
    Meet,
    Path,
    Prim,
}

impl Class {
    fn number(self) -> u8
        ensures { result ≡ class_number self }
    {
        match self {
            Class::Full => 0,
            Class::Or => 1,
            Class::And => 2,
            Class::Not => 3,
            Class::Compared => 4,
            Class::Sets => 5,
            Class::Meet => 6,
            Class::Path => 7,
            Class::Prim => 8,
        }
    }
}

/// The class of an expression by its form.
fn class_of(e: &Expr) -> Class
    ensures { result ≡ class_of (query_tree e.now) }
{
    match &e.form {
        Form::Select(_, _, _) => Class::Full,
        Form::Or(_, _) => Class::Or,
        Form::And(_, _) => Class::And,
        Form::Not(_) | Form::Exists(_, _, _) | Form::ForAll(_, _, _) => Class::Not,
        Form::Compare(_, _, _) => Class::Compared,
        Form::UnionExcept(_, _) => Class::Sets,
        Form::Intersect(_, _) => Class::Meet,
        Form::Path(_, _) => Class::Path,
        _ => Class::Prim,
    }
}

fn is_quantifier(e: &Expr) -> bool
    ensures { result ≡ is_quantifier (query_tree e.now) }
{
    match &e.form {
        Form::Exists(_, _, _) | Form::ForAll(_, _, _) => true,
        _ => false,
    }
}

/// Whether a place of the class takes the expression bare.
fn takes(class: Class, open_end: bool, e: &Expr) -> bool
    ensures { result ≡ takes class open_end (query_tree e.now) }
{
    class.number() <= class_of(e).number() && (open_end || !is_quantifier(e))
}

// ---- what has no parts

fn push_name(out: &mut Vec<u8>, name: &Name) -> Result<(), Memory>
    ensures { OnOk result (out.new.items ≡ out.old.items ++ name.now) }
{
    push_bytes(out, name.as_text().as_bytes())
}

fn push_truth(out: &mut Vec<u8>, b: bool) -> Result<(), Memory>
    ensures { OnOk result (out.new.items ≡ out.old.items ++ truth b) }
{
    if b {
        push_bytes(out, b"true")
    } else {
        push_bytes(out, b"false")
    }
}

fn push_literal(out: &mut Vec<u8>, literal: &Lit) -> Result<(), Memory>
    ensures { OnOk result (out.new.items ≡ out.old.items ++ literal_spelling (lit_tree literal.now)) }
{
    match literal {
        Lit::Int(n) => push_int(out, *n),
        Lit::Str(text) => push_text(out, text.as_text()),
        Lit::Bool(b) => push_truth(out, *b),
    }
}

fn push_literals(out: &mut Vec<u8>, literals: &[(Lit, usize)]) -> Result<(), Memory>
    ensures { OnOk result (out.new.items ≡ out.old.items ++ literals_spelling (literal_entries literals.now)) }
{
    let Some(((first, _), others)) = literals.split_first() else {
        return Ok(());
    };
    push_literal(out, first)?;
    for (literal, _) in others {
        push_bytes(out, b", ")?;
        push_literal(out, literal)?;
    }
    Ok(())
}

fn push_set_of(out: &mut Vec<u8>, literals: &[(Lit, usize)]) -> Result<(), Memory>
    ensures { OnOk result (out.new.items ≡ out.old.items
        ++ (codes "set(" ++ literals_spelling (literal_entries literals.now) ++ codes ")")) }
{
    push_bytes(out, b"set(")?;
    push_literals(out, literals)?;
    push_bytes(out, b")")
}

fn push_labels(out: &mut Vec<u8>, labels: &[(Name, usize)]) -> Result<(), Memory>
    ensures { OnOk result (out.new.items ≡ out.old.items ++ flat_map label_spelling labels.now) }
{
    for (label, _) in labels {
        push_bytes(out, b".")?;
        push_name(out, label)?;
    }
    Ok(())
}

fn push_sign(out: &mut Vec<u8>, sign: Sign) -> Result<(), Memory>
    ensures { OnOk result (out.new.items ≡ out.old.items ++ comparison_spelling sign) }
{
    match sign {
        Sign::Eq => push_bytes(out, b" = "),
        Sign::Ne => push_bytes(out, b" != "),
        Sign::Lt => push_bytes(out, b" < "),
        Sign::Le => push_bytes(out, b" <= "),
        Sign::Gt => push_bytes(out, b" > "),
        Sign::Ge => push_bytes(out, b" >= "),
        Sign::Member => push_bytes(out, b" in "),
    }
}

fn push_union(out: &mut Vec<u8>, except: bool) -> Result<(), Memory>
    ensures { OnOk result (out.new.items ≡ out.old.items ++ union_spelling except) }
{
    if except {
        push_bytes(out, b" except ")
    } else {
        push_bytes(out, b" union ")
    }
}

// ---- queries

/// Adds the query itself; a quantifier may stand bare at its end where the end is open.
#[cycle(print)]
fn push_query(out: &mut Vec<u8>, query: &Expr, open_end: bool) -> Result<(), Memory>
    ensures { OnOk result (out.new.items ≡ out.old.items ++ spelling open_end (query_tree query.now)) }
{
    match &query.form {
        Form::Name(name) => push_name(out, name),
        Form::Literal(literal) => push_literal(out, literal),
        Form::SetOf(literals) => push_set_of(out, literals.as_slice()),
        Form::Path(e, labels) => push_path(out, e, labels.as_slice()),
        Form::Struct(fields) => push_struct(out, fields.as_slice()),
        Form::Flatten(e) => push_inside(out, b"flatten(", e),
        Form::SomeMember(e) => push_inside(out, b"exists(", e),
        Form::Not(e) => push_not(out, e, open_end),
        Form::Intersect(e, links) => push_chain(out, e, links, Class::Path, b" intersect ", false),
        Form::And(e, links) => push_chain(out, e, links, Class::Not, b" and ", open_end),
        Form::Or(e, links) => push_chain(out, e, links, Class::And, b" or ", open_end),
        Form::UnionExcept(e, links) => push_sets(out, e, links.as_slice()),
        Form::Compare(sign, a, b) => push_comparison(out, *sign, a, b),
        Form::Exists(x, range, body) => push_quantifier(out, b"exists ", x, range, body),
        Form::ForAll(x, range, body) => push_quantifier(out, b"for all ", x, range, body),
        Form::Select(head, ranges, condition) => {
            push_select(out, head, ranges.as_slice(), condition)
        }
    }
}

/// Adds an expression at a place of the class, bare or in parentheses.
#[cycle(print)]
fn push_part(out: &mut Vec<u8>, e: &Expr, class: Class, open_end: bool) -> Result<(), Memory>
    ensures { OnOk result (out.new.items ≡ out.old.items ++ spelling_at class open_end (query_tree e.now)) }
{
    if takes(class, open_end, e) {
        return push_query(out, e, open_end);
    }
    push_bytes(out, b"(")?;
    push_query(out, e, true)?;
    push_bytes(out, b")")
}

/// Adds a word with its parenthesis, the expression, and the closing parenthesis.
#[cycle(print)]
fn push_inside(out: &mut Vec<u8>, before: &[u8], e: &BoxedExpr) -> Result<(), Memory>
    ensures { OnOk result (out.new.items ≡ out.old.items ++ (before.now ++ spelling true e.now ++ codes ")")) }
{
    push_bytes(out, before)?;
    push_query(out, e.get(), true)?;
    push_bytes(out, b")")
}

#[cycle(print)]
fn push_not(out: &mut Vec<u8>, e: &BoxedExpr, open_end: bool) -> Result<(), Memory>
    ensures { OnOk result (out.new.items ≡ out.old.items
        ++ (codes "not " ++ spelling_at Not open_end e.now)) }
{
    push_bytes(out, b"not ")?;
    push_part(out, e.get(), Class::Not, open_end)
}

#[cycle(print)]
fn push_path(out: &mut Vec<u8>, e: &BoxedExpr, labels: &[(Name, usize)]) -> Result<(), Memory>
    ensures { OnOk result (out.new.items ≡ out.old.items
        ++ (spelling_at Prim false e.now ++ flat_map label_spelling labels.now)) }
{
    push_part(out, e.get(), Class::Prim, false)?;
    push_labels(out, labels)
}

#[cycle(print)]
fn push_comparison(
    out: &mut Vec<u8>,
    sign: Sign,
    a: &BoxedExpr,
    b: &BoxedExpr,
) -> Result<(), Memory>
    ensures { OnOk result (out.new.items ≡ out.old.items
        ++ (spelling_at Sets false a.now ++ comparison_spelling sign ++ spelling_at Sets false b.now)) }
{
    push_part(out, a.get(), Class::Sets, false)?;
    push_sign(out, sign)?;
    push_part(out, b.get(), Class::Sets, false)
}

#[cycle(print)]
fn push_quantifier(
    out: &mut Vec<u8>,
    before: &[u8],
    x: &Name,
    range: &BoxedExpr,
    body: &BoxedExpr,
) -> Result<(), Memory>
    ensures { OnOk result (out.new.items ≡ out.old.items
        ++ (before.now ++ x.now ++ codes " in " ++ spelling_at Sets false range.now
        ++ codes " : " ++ spelling true body.now)) }
{
    push_bytes(out, before)?;
    push_name(out, x)?;
    push_bytes(out, b" in ")?;
    push_part(out, range.get(), Class::Sets, false)?;
    push_bytes(out, b" : ")?;
    push_query(out, body.get(), true)
}

/// Adds a chain; the end of its last operand alone may be open.
#[cycle(print)]
fn push_chain(
    out: &mut Vec<u8>,
    e: &BoxedExpr,
    links: &Chain,
    class: Class,
    word: &[u8],
    open_end: bool,
) -> Result<(), Memory>
    ensures { OnOk result (out.new.items ≡ out.old.items
        ++ operands_spelling class word.now open_end (λ o. spelling_at class o e.now) (of_links links.now)) }
{
    push_operands(out, e.get(), links.as_slice(), class, word, open_end)
}

/// Adds the operands of a chain, with the word between each two.
#[cycle(print)]
fn push_operands(
    out: &mut Vec<u8>,
    first: &Expr,
    links: &[(usize, Expr)],
    class: Class,
    word: &[u8],
    open_end: bool,
) -> Result<(), Memory>
    ensures { OnOk result (out.new.items ≡ out.old.items
        ++ operands_spelling class word.now open_end (λ o. spelling_at class o (query_tree first.now))
        (of_links (map link_entry links.now))) }
{
    let mut last = first;
    for (_, next) in links {
        push_part(out, last, class, false)?;
        push_bytes(out, word)?;
        last = next;
    }
    push_part(out, last, class, open_end)
}

#[cycle(print)]
fn push_sets(
    out: &mut Vec<u8>,
    first: &BoxedExpr,
    links: &[(usize, bool, Expr)],
) -> Result<(), Memory>
    ensures { OnOk result (out.new.items ≡ out.old.items
        ++ (spelling_at Meet false first.now ++ set_links_spelling (of_set_links (map set_link_entry links.now)))) }
{
    push_part(out, first.get(), Class::Meet, false)?;
    push_set_links(out, links)
}

#[cycle(print)]
fn push_set_links(out: &mut Vec<u8>, links: &[(usize, bool, Expr)]) -> Result<(), Memory>
    ensures { OnOk result (out.new.items ≡ out.old.items
        ++ set_links_spelling (of_set_links (map set_link_entry links.now))) }
{
    for (_, except, e) in links {
        push_union(out, *except)?;
        push_part(out, e, Class::Meet, false)?;
    }
    Ok(())
}

#[cycle(print)]
fn push_struct(out: &mut Vec<u8>, fields: &[(Name, usize, Expr)]) -> Result<(), Memory>
    ensures { OnOk result (out.new.items ≡ out.old.items
        ++ (codes "struct(" ++ fields_spelling (of_fields (map named_entry fields.now)) ++ codes ")")) }
{
    push_bytes(out, b"struct(")?;
    push_fields(out, fields)?;
    push_bytes(out, b")")
}

#[cycle(print)]
fn push_fields(out: &mut Vec<u8>, fields: &[(Name, usize, Expr)]) -> Result<(), Memory>
    ensures { OnOk result (out.new.items ≡ out.old.items ++ fields_spelling (of_fields (map named_entry fields.now))) }
{
    let Some(((label, _, e), others)) = fields.split_first() else {
        return Ok(());
    };
    push_field(out, b"", label, e)?;
    for (label, _, e) in others {
        push_field(out, b", ", label, e)?;
    }
    Ok(())
}

#[cycle(print)]
fn push_field(out: &mut Vec<u8>, before: &[u8], label: &Name, e: &Expr) -> Result<(), Memory>
    ensures { OnOk result (out.new.items ≡ out.old.items
        ++ (before.now ++ label.now ++ codes ": " ++ spelling true (query_tree e.now))) }
{
    push_bytes(out, before)?;
    push_name(out, label)?;
    push_bytes(out, b": ")?;
    push_query(out, e, true)
}

#[cycle(print)]
fn push_select(
    out: &mut Vec<u8>,
    head: &BoxedExpr,
    ranges: &[(Name, usize, Expr)],
    condition: &Option<(usize, BoxedExpr)>,
) -> Result<(), Memory>
    ensures { OnOk result (out.new.items ≡ out.old.items
        ++ (codes "select distinct " ++ spelling true head.now ++ codes " from "
        ++ ranges_spelling (of_ranges (map named_entry ranges.now)) ++ where_spelling (where_of condition.now))) }
{
    push_bytes(out, b"select distinct ")?;
    push_query(out, head.get(), true)?;
    push_bytes(out, b" from ")?;
    push_ranges(out, ranges)?;
    push_condition(out, condition)
}

#[cycle(print)]
fn push_ranges(out: &mut Vec<u8>, ranges: &[(Name, usize, Expr)]) -> Result<(), Memory>
    ensures { OnOk result (out.new.items ≡ out.old.items ++ ranges_spelling (of_ranges (map named_entry ranges.now))) }
{
    let Some(((x, _, e), others)) = ranges.split_first() else {
        return Ok(());
    };
    push_range(out, b"", x, e)?;
    for (x, _, e) in others {
        push_range(out, b", ", x, e)?;
    }
    Ok(())
}

#[cycle(print)]
fn push_range(out: &mut Vec<u8>, before: &[u8], x: &Name, e: &Expr) -> Result<(), Memory>
    ensures { OnOk result (out.new.items ≡ out.old.items
        ++ (before.now ++ x.now ++ codes " in " ++ spelling_at Sets false (query_tree e.now))) }
{
    push_bytes(out, before)?;
    push_name(out, x)?;
    push_bytes(out, b" in ")?;
    push_part(out, e, Class::Sets, false)
}

#[cycle(print)]
fn push_condition(out: &mut Vec<u8>, condition: &Option<(usize, BoxedExpr)>) -> Result<(), Memory>
    ensures { OnOk result (out.new.items ≡ out.old.items ++ where_spelling (where_of condition.now)) }
{
    let Some((_, e)) = condition else {
        return Ok(());
    };
    push_bytes(out, b" where ")?;
    push_query(out, e.get(), true)
}
