//! The total order of values.
ghost use Rattle.std.specs.Prelude.{◌≡◌};
ghost use Rattle.kola_values.specs.Values.{VSet, of_items, of_fields};
ghost use Rattle.kola_values.specs.Order.{cmp, cmp_members, cmp_fields, rank, same};
ghost use Rattle.kola_values.specs.Views.{value_tree};

use crate::{Set, Value, ValueFields};
use std::cmp::Ordering;

fn rank(v: &Value) -> u8
    ensures { result ≡ rank (value_tree v.now) }
{
    match v {
        Value::Unit => 0,
        Value::Int(_) => 1,
        Value::Bool(_) => 2,
        Value::Str(_) => 3,
        Value::Obj(_, _) => 4,
        Value::Pair(_, _) => 5,
        Value::Struct(_) => 6,
        Value::Set(_) => 7,
    }
}

/// The total order of values. False comes before true; integers go by value, strings by bytes, objects by their class's bytes and then
/// by id; pairs and structs part by part; sets as their rising lists, a proper prefix first; values of different forms as the variants
/// of `Value` stand.
#[cycle(cmp)]
pub fn cmp_values(a: &Value, b: &Value) -> Ordering
    ensures { result ≡ cmp (value_tree a.now) (value_tree b.now) }
{
    match (a, b) {
        (Value::Int(m), Value::Int(n)) => m.cmp(n),
        (Value::Unit, Value::Unit) => Ordering::Equal,
        (Value::Bool(m), Value::Bool(n)) => m.cmp(n),
        (Value::Str(s), Value::Str(t)) => s.cmp_bytes(t),
        (Value::Obj(c, i), Value::Obj(d, j)) => c.cmp_bytes(d).then(i.cmp(j)),
        (Value::Pair(a, b), Value::Pair(c, d)) => match cmp_values(a.get(), c.get()) {
            Ordering::Equal => cmp_values(b.get(), d.get()),
            unequal => unequal,
        },
        (Value::Struct(fs), Value::Struct(gs)) => cmp_entries(fs, gs),
        (Value::Set(vs), Value::Set(ws)) => cmp_sets(vs, ws),
        _ => rank(a).cmp(&rank(b)),
    }
}

#[cycle(cmp)]
fn cmp_sets(a: &Set, b: &Set) -> Ordering
    ensures { result ≡ cmp_members (of_items a.now) (of_items b.now) }
{
    let (vs, ws) = (a.as_slice(), b.as_slice());
    for i in 0..vs.len().min(ws.len()) {
        match cmp_values(&vs[i], &ws[i]) {
            Ordering::Equal => {}
            unequal => return unequal,
        }
    }
    vs.len().cmp(&ws.len())
}

#[cycle(cmp)]
fn cmp_entries(a: &ValueFields, b: &ValueFields) -> Ordering
    ensures { result ≡ cmp_fields (of_fields a.now) (of_fields b.now) }
{
    let (fs, gs) = (a.as_slice(), b.as_slice());
    for i in 0..fs.len().min(gs.len()) {
        let ((label, v), (other, w)) = (&fs[i], &gs[i]);
        match label.cmp_bytes(other).then(cmp_values(v, w)) {
            Ordering::Equal => {}
            unequal => return unequal,
        }
    }
    fs.len().cmp(&gs.len())
}

impl Set {
    /// Whether two sets have the same members.
    pub fn is(&self, other: &Set) -> bool
        ensures { result ≡ same (VSet (of_items self.now)) (VSet (of_items other.now)) }
    {
        cmp_sets(self, other).is_eq()
    }
}

impl Value {
    /// Whether two values are the same.
    pub fn is(&self, other: &Value) -> bool
        ensures { result ≡ same (value_tree self.now) (value_tree other.now) }
    {
        cmp_values(self, other).is_eq()
    }
}
