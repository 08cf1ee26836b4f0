//! The value and the visits of a term at a value that is lent.
ghost use Rattle.std.specs.Prelude.{◌≡◌, ◌+◌, ◌∷◌, ◌++◌, [], map, flat_map, sum_by, length, not, IfOk, OnOk};
ghost use Rattle.kola_values.specs.Values.{VPair};
ghost use Rattle.kola_values.specs.Order.{cmp, same};
ghost use Rattle.kola_values.specs.Sets.{any, all, members, set_of};
ghost use Rattle.kola_values.specs.Views.{value_tree};
ghost use Rattle.kola_term.specs.Meaning.{left, right};
ghost use Rattle.kola_term.specs.Terms.{FComp, FIf, PAt, PAnd, POr};
ghost use Rattle.kola_term.specs.TermView.{fun_tree, pred_tree};
ghost use Rattle.kola_eval.specs.Lending.{lent_tree, held_tree, Paid};
ghost use Rattle.kola_eval.specs.Evaluating.{den_in, holds_in, visits_in, checks_in, member_visits, pair_tree};
ghost use Rattle.kola_eval.specs.Evaluating.{parts_value, parts_visits, one_picked, picked, picked_visits};
ghost use Rattle.kola_eval.specs.Evaluating.{paired, paired_visits, crossed, crossed_visits, match_visits};
ghost use Rattle.kola_eval.specs.Evaluating.{one_matched, matched, matched_visits, with_matches, unnested};
ghost use Rattle.kola_eval.specs.Evaluating.{unnested_visits, until_visits};

use crate::budget::{Stop, pay};
use crate::held::Held;
use crate::lent::{Lent, compared, first, is_member, members_in, second};
use crate::made::{joined, parted, push_before, push_held, push_pairs, set_of, shared, united};
use crate::parts::{Parts, pairing};
use crate::run::Run;
use kola_core::Memory;
use kola_term::{Fun, Pred};
use kola_values::{BoxedValue, Value};
use std::cmp::Ordering;

// The value of a function at a value.
#[cycle(terms)]
fn fun_at<'a>(run: Run<'a>, f: &'a Fun, x: Lent<'a>, left: &mut u64) -> Result<Held<'a>, Stop>
    ensures value { IfOk result (λ h. held_tree h ≡ den_in run.entry (fun_tree f.now) (lent_tree x.entry)) }
    ensures paid { Paid (visits_in run.entry (fun_tree f.now) (lent_tree x.entry)) left.old left.new result }
{
    match f {
        Fun::Id => Ok(Held::Lent(x)),
        Fun::Fst => Ok(Held::Lent(first(x))),
        Fun::Snd => Ok(Held::Lent(second(x))),
        Fun::Flat => flattened(run, x, left),
        Fun::Union => Ok(Held::Own(united(run.alloc, x)?)),
        Fun::Isect => Ok(Held::Own(shared(run.alloc, x)?)),
        Fun::Minus => Ok(Held::Own(parted(run.alloc, x)?)),
        Fun::Attr(a) => Ok(Held::Lent(run.attribute(x, a))),
        Fun::Comp(f, g) => composed(run, f, g, x, left),
        Fun::Pair(f, g) => both(run, f, x, g, x, left),
        Fun::Times(f, g) => both(run, f, first(x), g, second(x), left),
        Fun::K(c) => Ok(Held::Lent(run.constant(c))),
        Fun::C(f, c) => beside(run, f, run.constant(c), x, left),
        Fun::If(p, f, g) => chosen(run, p, f, g, x, left),
        Fun::Iterate(p, f) => iterated(run, p, f, members_in(x), left),
        Fun::Iter(p, f) => paired_with(run, p, f, first(x), members_in(second(x)), left),
        Fun::Join(p, f) => crossed(run, p, f, members_in(first(x)), members_in(second(x)), left),
        Fun::Nest(f, g) => nested(run, f, g, members_in(first(x)), members_in(second(x)), left),
        Fun::Unnest(f, g) => unnested(run, f, g, members_in(x), left),
        Fun::Meta(_) => Ok(Held::Lent(Lent::Unit)),
    }
}

// The union of a set of sets: a visit for each of them.
fn flattened<'a>(run: Run<'a>, x: Lent<'_>, left: &mut u64) -> Result<Held<'a>, Stop>
    ensures value { IfOk result (λ h. held_tree h ≡ set_of (flat_map members (members (lent_tree x.entry)))) }
    ensures paid { Paid (length (members (lent_tree x.entry))) left.old left.new result }
{
    let sets = members_in(x);
    pay(left, sets.len() as u64)?;
    let set = joined(run.alloc, sets)?;
    Ok(Held::Own(set))
}

// The value of `f` at the pair of two values.
#[cycle(terms)]
fn beside<'a>(
    run: Run<'a>,
    f: &Fun,
    v: Lent<'_>,
    w: Lent<'_>,
    left: &mut u64,
) -> Result<Held<'a>, Stop>
    ensures value { IfOk result (λ h. held_tree h ≡ den_in run.entry (fun_tree f.now)
        (pair_tree v.entry w.entry)) }
    ensures paid { Paid (visits_in run.entry (fun_tree f.now) (pair_tree v.entry w.entry)) left.old left.new
        result }
{
    let value = fun_at(run, &*f, Lent::Pair(&v, &w), left)?;
    let value = value.into_boxed(run.alloc)?;
    Ok(Held::Own(value))
}

// The value of `f` at a value that goes.
#[cycle(terms)]
fn behind<'a>(run: Run<'a>, f: &Fun, v: BoxedValue, left: &mut u64) -> Result<Held<'a>, Stop>
    ensures value { IfOk result (λ h. held_tree h ≡ den_in run.entry (fun_tree f.now) v) }
    ensures paid { Paid (visits_in run.entry (fun_tree f.now) v) left.old left.new result }
{
    let value = fun_at(run, &*f, Lent::Whole(v.get()), left)?;
    let value = value.into_boxed(run.alloc)?;
    Ok(Held::Own(value))
}

// The value of `f` at that of `g`.
#[cycle(terms)]
fn composed<'a>(
    run: Run<'a>,
    f: &'a Fun,
    g: &'a Fun,
    x: Lent<'a>,
    left: &mut u64,
) -> Result<Held<'a>, Stop>
    ensures value { IfOk result
        (λ h. held_tree h ≡ den_in run.entry (FComp (fun_tree f.now) (fun_tree g.now)) (lent_tree x.entry)) }
    ensures paid { Paid (visits_in run.entry (FComp (fun_tree f.now) (fun_tree g.now)) (lent_tree x.entry))
        left.old left.new result }
{
    match pairing(g, x) {
        Some(parts) => composed_pair(run, f, parts, left),
        None => composed_whole(run, f, g, x, left),
    }
}

// The value of `f` at the pair of two values that are never put together.
#[cycle(terms)]
fn composed_pair<'a>(
    run: Run<'a>,
    f: &Fun,
    parts: Parts<'a>,
    left: &mut u64,
) -> Result<Held<'a>, Stop>
    ensures value { IfOk result
        (λ h. held_tree h ≡ den_in run.entry (fun_tree f.now) (parts_value run.entry parts.entry)) }
    ensures paid { Paid (parts_visits run.entry parts.entry + visits_in run.entry (fun_tree f.now)
        (parts_value run.entry parts.entry))
        left.old left.new result }
{
    let v = fun_at(run, parts.f, parts.x, left)?;
    let w = fun_at(run, parts.g, parts.y, left)?;
    beside(run, &*f, v.as_lent(), w.as_lent(), left)
}

// The value of `f` at that of `g`, which stands whole.
#[cycle(terms)]
fn composed_whole<'a>(
    run: Run<'a>,
    f: &'a Fun,
    g: &'a Fun,
    x: Lent<'a>,
    left: &mut u64,
) -> Result<Held<'a>, Stop>
    ensures value { IfOk result
        (λ h. held_tree h ≡ den_in run.entry (FComp (fun_tree f.now) (fun_tree g.now)) (lent_tree x.entry)) }
    ensures paid { Paid (visits_in run.entry (FComp (fun_tree f.now) (fun_tree g.now)) (lent_tree x.entry))
        left.old left.new result }
{
    match fun_at(run, g, x, left)? {
        Held::Lent(v) => fun_at(run, f, v, left),
        Held::Own(v) => behind(run, f, v, left),
    }
}

// The value of `f` in a box.
#[cycle(terms)]
pub(crate) fn boxed_at(
    run: Run<'_>,
    f: &Fun,
    x: Lent<'_>,
    left: &mut u64,
) -> Result<BoxedValue, Stop>
    ensures value { IfOk result (λ h. h ≡ den_in run.entry (fun_tree f.now) (lent_tree x.entry)) }
    ensures paid { Paid (visits_in run.entry (fun_tree f.now) (lent_tree x.entry)) left.old left.new result }
{
    let value = fun_at(run, &*f, x, left)?;
    let value = value.into_boxed(run.alloc)?;
    Ok(value)
}

// The pair of two values.
#[cycle(terms)]
fn both<'a>(
    run: Run<'a>,
    f: &Fun,
    x: Lent<'_>,
    g: &Fun,
    y: Lent<'_>,
    left: &mut u64,
) -> Result<Held<'a>, Stop>
    ensures value { IfOk result
        (λ h. held_tree h ≡ VPair (den_in run.entry (fun_tree f.now) (lent_tree x.entry))
        (den_in run.entry (fun_tree g.now) (lent_tree y.entry))) }
    ensures paid { Paid (visits_in run.entry (fun_tree f.now) (lent_tree x.entry) + visits_in run.entry
        (fun_tree g.now) (lent_tree y.entry))
        left.old left.new result }
{
    let v = boxed_at(run, &*f, x, left)?;
    let w = boxed_at(run, &*g, y, left)?;
    let pair = BoxedValue::new(run.alloc, Value::Pair(v, w))?;
    Ok(Held::Own(pair))
}

// The value of `f` where `p` holds, and else that of `g`.
#[cycle(terms)]
fn chosen<'a>(
    run: Run<'a>,
    p: &Pred,
    f: &'a Fun,
    g: &'a Fun,
    x: Lent<'a>,
    left: &mut u64,
) -> Result<Held<'a>, Stop>
    ensures value { IfOk result
        (λ h. held_tree h ≡ den_in run.entry (FIf (pred_tree p.now) (fun_tree f.now) (fun_tree g.now))
        (lent_tree x.entry)) }
    ensures paid { Paid (visits_in run.entry (FIf (pred_tree p.now) (fun_tree f.now) (fun_tree g.now))
        (lent_tree x.entry))
        left.old left.new result }
{
    if pred_at(run, &*p, x, left)? {
        fun_at(run, f, x, left)
    } else {
        fun_at(run, g, x, left)
    }
}

// Adds the value of `f`.
#[cycle(terms)]
fn add(
    run: Run<'_>,
    f: &Fun,
    x: Lent<'_>,
    made: &mut Vec<Value>,
    left: &mut u64,
) -> Result<(), Stop>
    ensures made { OnOk result (map value_tree made.new.items
        ≡ map value_tree made.old.items ++ den_in run.entry (fun_tree f.now) (lent_tree x.entry) ∷ []) }
    ensures paid { Paid (visits_in run.entry (fun_tree f.now) (lent_tree x.entry)) left.old left.new result }
{
    let value = fun_at(run, &*f, x, left)?;
    push_held(run.alloc, made, value)?;
    Ok(())
}

// Visits a member: adds the value of `f` where `p` holds.
#[cycle(terms)]
fn visit(
    run: Run<'_>,
    p: &Pred,
    f: &Fun,
    x: Lent<'_>,
    made: &mut Vec<Value>,
    left: &mut u64,
) -> Result<(), Stop>
    ensures made { OnOk result (map value_tree made.new.items
        ≡ map value_tree made.old.items ++ one_picked run.entry (pred_tree p.now) (fun_tree f.now)
        (lent_tree x.entry)) }
    ensures paid { Paid (member_visits run.entry (pred_tree p.now) (fun_tree f.now) (lent_tree x.entry))
        left.old left.new result }
{
    pay(left, 1)?;
    if pred_at(run, &*p, x, left)? {
        add(run, &*f, x, made, left)
    } else {
        Ok(())
    }
}

// Visits a member with a value before it.
#[cycle(terms)]
fn visit_beside(
    run: Run<'_>,
    p: &Pred,
    f: &Fun,
    x: Lent<'_>,
    y: &Value,
    made: &mut Vec<Value>,
    left: &mut u64,
) -> Result<(), Stop>
    ensures made { OnOk result (map value_tree made.new.items
        ≡ map value_tree made.old.items ++ one_picked run.entry (pred_tree p.now) (fun_tree f.now)
        (VPair (lent_tree x.entry) (value_tree y.now))) }
    ensures paid { Paid (member_visits run.entry (pred_tree p.now) (fun_tree f.now)
        (VPair (lent_tree x.entry) (value_tree y.now)))
        left.old left.new result }
{
    let y = Lent::Whole(&*y);
    visit(run, &*p, &*f, Lent::Pair(&x, &y), made, left)
}

// The values of `f` at the members where `p` holds.
#[cycle(terms)]
fn iterated<'a>(
    run: Run<'a>,
    p: &Pred,
    f: &Fun,
    members: &[Value],
    left: &mut u64,
) -> Result<Held<'a>, Stop>
    ensures value { IfOk result
        (λ h. held_tree h ≡ set_of (picked run.entry (pred_tree p.now) (fun_tree f.now)
        (map value_tree members.now))) }
    ensures paid { Paid (picked_visits run.entry (pred_tree p.now) (fun_tree f.now)
        (map value_tree members.now))
        left.old left.new result }
{
    let mut made = Vec::new(run.alloc);
    for x in members {
        visit(run, &*p, &*f, Lent::Whole(x), &mut made, left)?;
    }
    let set = set_of(made)?;
    Ok(Held::Own(set))
}

// Adds the values of `f` at the pairs of a value and a member where `p` holds.
#[cycle(terms)]
fn visit_each(
    run: Run<'_>,
    p: &Pred,
    f: &Fun,
    x: Lent<'_>,
    members: &[Value],
    made: &mut Vec<Value>,
    left: &mut u64,
) -> Result<(), Stop>
    ensures made { OnOk result (map value_tree made.new.items
        ≡ map value_tree made.old.items ++ paired run.entry (pred_tree p.now) (fun_tree f.now)
        (lent_tree x.entry) (map value_tree members.now)) }
    ensures paid { Paid (paired_visits run.entry (pred_tree p.now) (fun_tree f.now) (lent_tree x.entry)
        (map value_tree members.now))
        left.old left.new result }
{
    for y in members {
        visit_beside(run, &*p, &*f, x, y, made, left)?;
    }
    Ok(())
}

// The values of `f` at the pairs of a value and a member where `p` holds.
#[cycle(terms)]
fn paired_with<'a>(
    run: Run<'a>,
    p: &Pred,
    f: &Fun,
    x: Lent<'_>,
    members: &[Value],
    left: &mut u64,
) -> Result<Held<'a>, Stop>
    ensures value { IfOk result
        (λ h. held_tree h ≡ set_of (paired run.entry (pred_tree p.now) (fun_tree f.now) (lent_tree x.entry)
        (map value_tree members.now))) }
    ensures paid { Paid (paired_visits run.entry (pred_tree p.now) (fun_tree f.now) (lent_tree x.entry)
        (map value_tree members.now))
        left.old left.new result }
{
    let mut made = Vec::new(run.alloc);
    visit_each(run, &*p, &*f, x, &*members, &mut made, left)?;
    let set = set_of(made)?;
    Ok(Held::Own(set))
}

// The values of `f` at the pairs of members of two sets where `p` holds.
#[cycle(terms)]
fn crossed<'a>(
    run: Run<'a>,
    p: &Pred,
    f: &Fun,
    first: &[Value],
    second: &[Value],
    left: &mut u64,
) -> Result<Held<'a>, Stop>
    ensures value { IfOk result
        (λ h. held_tree h ≡ set_of (crossed run.entry (pred_tree p.now) (fun_tree f.now)
        (map value_tree first.now) (map value_tree second.now))) }
    ensures paid { Paid (crossed_visits run.entry (pred_tree p.now) (fun_tree f.now)
        (map value_tree first.now) (map value_tree second.now))
        left.old left.new result }
{
    let mut made = Vec::new(run.alloc);
    for x in first {
        visit_each(run, &*p, &*f, Lent::Whole(x), &*second, &mut made, left)?;
    }
    let set = set_of(made)?;
    Ok(Held::Own(set))
}

// Whether the value of `f` at a member is the other.
#[cycle(terms)]
fn is_at(run: Run<'_>, f: &Fun, x: &Value, y: &Value, left: &mut u64) -> Result<bool, Stop>
    ensures value { IfOk result
        (λ h. h ≡ same (den_in run.entry (fun_tree f.now) (value_tree x.now)) (value_tree y.now)) }
    ensures paid { Paid (visits_in run.entry (fun_tree f.now) (value_tree x.now)) left.old left.new result }
{
    let value = fun_at(run, &*f, Lent::Whole(&*x), left)?;
    let order = compared(run.alloc, value.as_lent(), Lent::Whole(&*y))?;
    Ok(order.is_eq())
}

// Visits a member: adds the value of `g` where that of `f` is the other.
#[cycle(terms)]
fn visit_match(
    run: Run<'_>,
    f: &Fun,
    g: &Fun,
    x: &Value,
    y: &Value,
    made: &mut Vec<Value>,
    left: &mut u64,
) -> Result<(), Stop>
    ensures made { OnOk result (map value_tree made.new.items
        ≡ map value_tree made.old.items ++ one_matched run.entry (fun_tree f.now) (fun_tree g.now)
        (value_tree y.now) (value_tree x.now)) }
    ensures paid { Paid (match_visits run.entry (fun_tree f.now) (fun_tree g.now) (value_tree y.now)
        (value_tree x.now))
        left.old left.new result }
{
    pay(left, 1)?;
    if is_at(run, &*f, &*x, &*y, left)? {
        add(run, &*g, Lent::Whole(&*x), made, left)
    } else {
        Ok(())
    }
}

// The values of `g` at the members where that of `f` is the other.
#[cycle(terms)]
fn matches_of(
    run: Run<'_>,
    f: &Fun,
    g: &Fun,
    y: &Value,
    members: &[Value],
    left: &mut u64,
) -> Result<BoxedValue, Stop>
    ensures value { IfOk result
        (λ h. h ≡ set_of (matched run.entry (fun_tree f.now) (fun_tree g.now) (value_tree y.now)
        (map value_tree members.now))) }
    ensures paid { Paid (matched_visits run.entry (fun_tree f.now) (fun_tree g.now) (value_tree y.now)
        (map value_tree members.now))
        left.old left.new result }
{
    let mut made = Vec::new(run.alloc);
    for x in members {
        visit_match(run, &*f, &*g, x, &*y, &mut made, left)?;
    }
    let set = set_of(made)?;
    Ok(set)
}

// Adds a member with its matches.
#[cycle(terms)]
fn add_matches(
    run: Run<'_>,
    f: &Fun,
    g: &Fun,
    y: &Value,
    members: &[Value],
    made: &mut Vec<Value>,
    left: &mut u64,
) -> Result<(), Stop>
    ensures made { OnOk result (map value_tree made.new.items
        ≡ map value_tree made.old.items ++ with_matches run.entry (fun_tree f.now) (fun_tree g.now)
        (map value_tree members.now) (value_tree y.now) ∷ []) }
    ensures paid { Paid (matched_visits run.entry (fun_tree f.now) (fun_tree g.now) (value_tree y.now)
        (map value_tree members.now))
        left.old left.new result }
{
    let set = matches_of(run, &*f, &*g, &*y, &*members, left)?;
    push_before(run.alloc, made, &*y, set)?;
    Ok(())
}

// Each member of the second list with the values of `g` at its matches in the first.
#[cycle(terms)]
fn nested<'a>(
    run: Run<'a>,
    f: &Fun,
    g: &Fun,
    first: &[Value],
    second: &[Value],
    left: &mut u64,
) -> Result<Held<'a>, Stop>
    ensures value { IfOk result
        (λ h. held_tree h ≡ set_of (map (λ y. with_matches run.entry (fun_tree f.now) (fun_tree g.now)
        (map value_tree first.now) y) (map value_tree second.now))) }
    ensures paid { Paid (sum_by (λ y. matched_visits run.entry (fun_tree f.now) (fun_tree g.now) y
        (map value_tree first.now)) (map value_tree second.now))
        left.old left.new result }
{
    let mut made = Vec::new(run.alloc);
    for y in second {
        add_matches(run, &*f, &*g, y, &*first, &mut made, left)?;
    }
    let set = set_of(made)?;
    Ok(Held::Own(set))
}

// Adds the pairs of the value of `f` with each member of that of `g`, at a visit each.
#[cycle(terms)]
fn add_pairs(
    run: Run<'_>,
    a: &BoxedValue,
    g: &Fun,
    x: &Value,
    made: &mut Vec<Value>,
    left: &mut u64,
) -> Result<(), Stop>
    ensures made { OnOk result (map value_tree made.new.items
        ≡ map value_tree made.old.items ++ map (λ y. VPair a.now y)
        (members (den_in run.entry (fun_tree g.now) (value_tree x.now)))) }
    ensures paid { Paid (visits_in run.entry (fun_tree g.now) (value_tree x.now) + length
        (members (den_in run.entry (fun_tree g.now) (value_tree x.now))))
        left.old left.new result }
{
    let set = fun_at(run, &*g, Lent::Whole(&*x), left)?;
    let values = members_in(set.as_lent());
    pay(left, values.len() as u64)?;
    push_pairs(run.alloc, made, &*a, values)?;
    Ok(())
}

// Visits a member.
#[cycle(terms)]
fn visit_pairs(
    run: Run<'_>,
    f: &Fun,
    g: &Fun,
    x: &Value,
    made: &mut Vec<Value>,
    left: &mut u64,
) -> Result<(), Stop>
    ensures made { OnOk result (map value_tree made.new.items
        ≡ map value_tree made.old.items ++ unnested run.entry (fun_tree f.now) (fun_tree g.now)
        (value_tree x.now)) }
    ensures paid { Paid (unnested_visits run.entry (fun_tree f.now) (fun_tree g.now) (value_tree x.now))
        left.old left.new result }
{
    pay(left, 1)?;
    let a = boxed_at(run, &*f, Lent::Whole(&*x), left)?;
    add_pairs(run, &a, &*g, &*x, made, left)
}

// The value of `f` at each member, paired with each member of that of `g`.
#[cycle(terms)]
fn unnested<'a>(
    run: Run<'a>,
    f: &Fun,
    g: &Fun,
    values: &[Value],
    left: &mut u64,
) -> Result<Held<'a>, Stop>
    ensures value { IfOk result
        (λ h. held_tree h ≡ set_of (flat_map (λ x. unnested run.entry (fun_tree f.now) (fun_tree g.now) x)
        (map value_tree values.now))) }
    ensures paid { Paid (sum_by (λ x. unnested_visits run.entry (fun_tree f.now) (fun_tree g.now) x)
        (map value_tree values.now))
        left.old left.new result }
{
    let mut made = Vec::new(run.alloc);
    for x in values {
        visit_pairs(run, &*f, &*g, x, &mut made, left)?;
    }
    let set = set_of(made)?;
    Ok(Held::Own(set))
}

// Whether a predicate holds at a value.
#[cycle(terms)]
fn pred_at<'a>(run: Run<'a>, p: &'a Pred, x: Lent<'a>, left: &mut u64) -> Result<bool, Stop>
    ensures value { IfOk result (λ h. h ≡ holds_in run.entry (pred_tree p.now) (lent_tree x.entry)) }
    ensures paid { Paid (checks_in run.entry (pred_tree p.now) (lent_tree x.entry)) left.old left.new result }
{
    match p {
        Pred::Eq => Ok(order_in(run, x)?.is_eq()),
        Pred::Lt => Ok(order_in(run, x)?.is_lt()),
        Pred::Le => Ok(order_in(run, x)?.is_le()),
        Pred::Member => Ok(is_member(run.alloc, first(x), second(x))?),
        Pred::At(p, f) => pred_behind(run, p, f, x, left),
        Pred::And(p, q) => conjunction(run, p, q, x, left),
        Pred::Or(p, q) => disjunction(run, p, q, x, left),
        Pred::Not(p) => Ok(!pred_at(run, p, x, left)?),
        Pred::Inv(p) => pred_beside(run, p, second(x), first(x), left),
        Pred::KP(b) => Ok(*b),
        Pred::CP(p, c) => pred_beside(run, p, run.constant(c), x, left),
        Pred::Ex(p) => some_passes(run, p, first(x), members_in(second(x)), left),
        Pred::Fa(p) => each_passes(run, p, first(x), members_in(second(x)), left),
        Pred::Meta(_) => Ok(false),
    }
}

// The order of the parts of a pair.
fn order_in(run: Run<'_>, x: Lent<'_>) -> Result<Ordering, Memory>
    ensures { IfOk result (λ o. o ≡ cmp (left (lent_tree x.entry)) (right (lent_tree x.entry))) }
{
    compared(run.alloc, first(x), second(x))
}

// Whether both hold; the second is asked only where the first holds.
#[cycle(terms)]
fn conjunction<'a>(
    run: Run<'a>,
    p: &'a Pred,
    q: &'a Pred,
    x: Lent<'a>,
    left: &mut u64,
) -> Result<bool, Stop>
    ensures value { IfOk result
        (λ h. h ≡ holds_in run.entry (PAnd (pred_tree p.now) (pred_tree q.now)) (lent_tree x.entry)) }
    ensures paid { Paid (checks_in run.entry (PAnd (pred_tree p.now) (pred_tree q.now)) (lent_tree x.entry))
        left.old left.new result }
{
    if pred_at(run, p, x, left)? {
        pred_at(run, q, x, left)
    } else {
        Ok(false)
    }
}

// Whether one holds; the second is asked only where the first does not.
#[cycle(terms)]
fn disjunction<'a>(
    run: Run<'a>,
    p: &'a Pred,
    q: &'a Pred,
    x: Lent<'a>,
    left: &mut u64,
) -> Result<bool, Stop>
    ensures value { IfOk result
        (λ h. h ≡ holds_in run.entry (POr (pred_tree p.now) (pred_tree q.now)) (lent_tree x.entry)) }
    ensures paid { Paid (checks_in run.entry (POr (pred_tree p.now) (pred_tree q.now)) (lent_tree x.entry))
        left.old left.new result }
{
    if pred_at(run, p, x, left)? {
        Ok(true)
    } else {
        pred_at(run, q, x, left)
    }
}

// Whether `p` holds at the pair of two values.
#[cycle(terms)]
fn pred_beside(
    run: Run<'_>,
    p: &Pred,
    v: Lent<'_>,
    w: Lent<'_>,
    left: &mut u64,
) -> Result<bool, Stop>
    ensures value { IfOk result (λ h. h ≡ holds_in run.entry (pred_tree p.now) (pair_tree v.entry w.entry)) }
    ensures paid { Paid (checks_in run.entry (pred_tree p.now) (pair_tree v.entry w.entry)) left.old
        left.new result }
{
    pred_at(run, &*p, Lent::Pair(&v, &w), left)
}

// Whether `p` holds at the value of `f`.
#[cycle(terms)]
fn pred_behind<'a>(
    run: Run<'a>,
    p: &Pred,
    f: &'a Fun,
    x: Lent<'a>,
    left: &mut u64,
) -> Result<bool, Stop>
    ensures value { IfOk result
        (λ h. h ≡ holds_in run.entry (PAt (pred_tree p.now) (fun_tree f.now)) (lent_tree x.entry)) }
    ensures paid { Paid (checks_in run.entry (PAt (pred_tree p.now) (fun_tree f.now)) (lent_tree x.entry))
        left.old left.new result }
{
    match pairing(f, x) {
        Some(parts) => pred_at_pair(run, &*p, parts, left),
        None => pred_at_whole(run, &*p, f, x, left),
    }
}

// Whether `p` holds at the pair of two values that are never put together.
#[cycle(terms)]
fn pred_at_pair<'a>(run: Run<'a>, p: &Pred, parts: Parts<'a>, left: &mut u64) -> Result<bool, Stop>
    ensures value { IfOk result (λ h. h ≡ holds_in run.entry (pred_tree p.now)
        (parts_value run.entry parts.entry)) }
    ensures paid { Paid (parts_visits run.entry parts.entry + checks_in run.entry (pred_tree p.now)
        (parts_value run.entry parts.entry))
        left.old left.new result }
{
    let v = fun_at(run, parts.f, parts.x, left)?;
    let w = fun_at(run, parts.g, parts.y, left)?;
    pred_beside(run, &*p, v.as_lent(), w.as_lent(), left)
}

// Whether `p` holds at the value of `f`, which stands whole.
#[cycle(terms)]
fn pred_at_whole<'a>(
    run: Run<'a>,
    p: &Pred,
    f: &'a Fun,
    x: Lent<'a>,
    left: &mut u64,
) -> Result<bool, Stop>
    ensures value { IfOk result
        (λ h. h ≡ holds_in run.entry (PAt (pred_tree p.now) (fun_tree f.now)) (lent_tree x.entry)) }
    ensures paid { Paid (checks_in run.entry (PAt (pred_tree p.now) (fun_tree f.now)) (lent_tree x.entry))
        left.old left.new result }
{
    let v = fun_at(run, f, x, left)?;
    pred_at(run, &*p, v.as_lent(), left)
}

// Visits a member: whether `p` holds at the pair of a value and the member.
#[cycle(terms)]
fn passes(run: Run<'_>, p: &Pred, x: Lent<'_>, y: &Value, left: &mut u64) -> Result<bool, Stop>
    ensures value { IfOk result
        (λ h. h ≡ holds_in run.entry (pred_tree p.now) (VPair (lent_tree x.entry) (value_tree y.now))) }
    ensures paid { Paid (1 + checks_in run.entry (pred_tree p.now)
        (VPair (lent_tree x.entry) (value_tree y.now)))
        left.old left.new result }
{
    pay(left, 1)?;
    pred_beside(run, &*p, x, Lent::Whole(&*y), left)
}

// Whether `p` holds with some member. It looks at none behind the first.
#[cycle(terms)]
fn some_passes(
    run: Run<'_>,
    p: &Pred,
    x: Lent<'_>,
    members: &[Value],
    left: &mut u64,
) -> Result<bool, Stop>
    ensures value { IfOk result
        (λ h. h ≡ any (λ y. holds_in run.entry (pred_tree p.now) (VPair (lent_tree x.entry) y))
        (map value_tree members.now)) }
    ensures paid { Paid (until_visits run.entry (λ b. b) (pred_tree p.now) (lent_tree x.entry)
        (map value_tree members.now))
        left.old left.new result }
{
    for y in members {
        if passes(run, &*p, x, y, left)? {
            return Ok(true);
        }
    }
    Ok(false)
}

// Whether `p` holds with each member. It looks at none behind the first with which it does not.
#[cycle(terms)]
fn each_passes(
    run: Run<'_>,
    p: &Pred,
    x: Lent<'_>,
    members: &[Value],
    left: &mut u64,
) -> Result<bool, Stop>
    ensures value { IfOk result
        (λ h. h ≡ all (λ y. holds_in run.entry (pred_tree p.now) (VPair (lent_tree x.entry) y))
        (map value_tree members.now)) }
    ensures paid { Paid (until_visits run.entry not (pred_tree p.now) (lent_tree x.entry)
        (map value_tree members.now))
        left.old left.new result }
{
    for y in members {
        if !passes(run, &*p, x, y, left)? {
            return Ok(false);
        }
    }
    Ok(true)
}
