//! The loads.

ghost use Rattle.std.specs.Prelude.{IfOk};
ghost use Rattle.kola_term.specs.TermView.{fun_tree};
ghost use Rattle.kola_bench.specs.Swaps.{IsSwap};

use crate::matching::match_all;
use crate::rule_text::push_rule;
use kola_core::{Memory, Name, Text};
use kola_database::{Db, ObjectDef, ObjectsRefused};
use kola_laws::laws;
use kola_load::{SchemaFault, read_schema};
use kola_rule::RuleTable;
use kola_schema::Schema;
use kola_term::{Fun, MetaCtx, Term, TypeFault, make, out_type};
use kola_text::{TextFault, print_term, read_term};
use kola_values::{BoxedTy, Set, Ty, Value, ValueFields};
use std::alloc::{AllocError, Global};

/// The count that a load of this name and size answers; none where no load has the name.
pub(crate) fn run_load(alloc: Global, name: &str, n: u32) -> Result<Option<usize>, Memory> {
    let count = match name {
        "set" => mixed_set(alloc, 0, n)?.len(),
        "sets" => two_sets(alloc, n)?,
        "union" => union_of_two(alloc, n)?,
        "database" => database(alloc, n)?,
        "typing" => typing(alloc, n)?,
        "text" => text_of_term(alloc, n)?,
        "matching" => matching(alloc, n)?,
        _ => return Ok(None),
    };
    Ok(Some(count))
}

/// A number of a mixed order: the multiples of a number that is prime to a prime modulus.
fn mixed(k: u32) -> i64 {
    let product = u64::from(k).wrapping_mul(7_654_321) % 999_999_937;
    product as i64
}

/// The set of n numbers that come in mixed order, from the one behind `from`.
fn mixed_set(alloc: Global, from: u32, n: u32) -> Result<Set, Memory> {
    let mut members = Vec::new(alloc);
    for k in 0..n {
        members.push(Value::Int(mixed(from.wrapping_add(k))))?;
    }
    Set::from_members(alloc, members)
}

/// The members of two sets that share half of their members, each counted.
fn two_sets(alloc: Global, n: u32) -> Result<usize, Memory> {
    let first = mixed_set(alloc, 0, n)?;
    let second = mixed_set(alloc, n / 2, n)?;
    Ok(first.len().saturating_add(second.len()))
}

/// The members of the union of the same two sets.
fn union_of_two(alloc: Global, n: u32) -> Result<usize, Memory> {
    let first = mixed_set(alloc, 0, n)?;
    let second = mixed_set(alloc, n / 2, n)?;
    Ok(first.union(&second)?.len())
}

/// The schema of parts, with a number and two names, and two keys: the number, and both names.
const PARTS: &[u8] = b"class Part (extent Parts, key number, key (first, last)) {
    attribute int number; attribute string first; attribute string last; attribute set<Part> next;
};";

/// The schema of parts; none where it is no schema.
fn parts(alloc: Global) -> Result<Option<Box<Schema>>, Memory> {
    match read_schema(alloc, PARTS) {
        Ok(schema) => Ok(Some(Box::new(alloc, schema)?)),
        Err(SchemaFault::At { .. }) => Ok(None),
        Err(SchemaFault::Memory) => Err(AllocError),
    }
}

/// The names that each part has, made once and shared.
#[derive(Drop)]
struct Labels {
    part: Name,
    number: Name,
    first: Name,
    last: Name,
    next: Name,
}

fn part_labels(alloc: Global) -> Result<Labels, Memory> {
    let part = Name::from_text(alloc, "Part")?;
    let number = Name::from_text(alloc, "number")?;
    let first = Name::from_text(alloc, "first")?;
    let last = Name::from_text(alloc, "last")?;
    let next = Name::from_text(alloc, "next")?;
    Ok(Labels {
        part,
        number,
        first,
        last,
        next,
    })
}

fn push_value(values: &mut ValueFields, label: &Name, value: Value) -> Result<(), Memory> {
    let label = label.copy()?;
    values.push((label, value))
}

fn push_text(alloc: Global, values: &mut ValueFields, label: &Name, n: u32) -> Result<(), Memory> {
    let text = Text::from_string(format!(in alloc; "part {n}")?)?;
    push_value(values, label, Value::Str(text))
}

/// The set of the one part of this id.
fn push_part(
    alloc: Global,
    values: &mut ValueFields,
    labels: &Labels,
    id: u32,
) -> Result<(), Memory> {
    let part = labels.part.copy()?;
    let mut members = Vec::new(alloc);
    members.push(Value::Obj(part, id))?;
    let set = Set::from_members(alloc, members)?;
    push_value(values, &labels.next, Value::Set(set))
}

/// The values of the part of this id, which names a part before it.
fn values_of(alloc: Global, labels: &Labels, id: u32) -> Result<ValueFields, Memory> {
    let mut values = ValueFields::new(alloc);
    push_value(&mut values, &labels.number, Value::Int(mixed(id)))?;
    push_text(alloc, &mut values, &labels.first, id / 100)?;
    push_text(alloc, &mut values, &labels.last, id % 100)?;
    push_part(alloc, &mut values, labels, id / 2 + 1)?;
    Ok(values)
}

fn part_of(alloc: Global, labels: &Labels, id: u32) -> Result<ObjectDef, Memory> {
    let class = labels.part.copy()?;
    let values = values_of(alloc, labels, id)?;
    Ok(ObjectDef { class, id, values })
}

/// The parts of the ids n, n - 1 and so on down to 1.
fn objects(alloc: Global, n: u32) -> Result<Vec<ObjectDef>, Memory> {
    let labels = part_labels(alloc)?;
    let mut objects = Vec::new(alloc);
    for k in 0..n {
        objects.push(part_of(alloc, &labels, n - k)?)?;
    }
    Ok(objects)
}

/// The objects of a database of n objects with two keys, made in falling order of their ids, where it is accepted; else 0.
fn database(alloc: Global, n: u32) -> Result<usize, Memory> {
    let Some(schema) = parts(alloc)? else {
        return Ok(0);
    };
    match Db::try_make(alloc, &schema, objects(alloc, n)?) {
        Ok(db) => Ok(db.extent_at(0).map_or(0, |set| set.len())),
        Err(ObjectsRefused::NotMet) => Ok(0),
        Err(ObjectsRefused::Memory) => Err(AllocError),
    }
}

/// A function of at most so many nodes: compositions of compositions, down to `<snd, fst>`.
fn composed(alloc: Global, nodes: u32) -> Result<Box<Fun>, Memory>
    ensures { IfOk result (λ f. IsSwap (fun_tree f.value)) }
{
    if nodes < 7 {
        return Ok(Box::new(alloc, make::pair(alloc, Fun::Snd, Fun::Fst)?)?);
    }
    let rest = nodes - 1;
    let left = composed(alloc, rest / 2)?;
    let right = composed(alloc, rest - rest / 2)?;
    Ok(Box::new(alloc, Fun::Comp(left, right))?)
}

/// How often the function is typed at the type of two numbers, of a hundred times.
fn typed_often(alloc: Global, schema: &Schema, f: &Fun, input: &Ty) -> Result<usize, Memory> {
    let ctx = MetaCtx::new(alloc);
    let mut typed: usize = 0;
    for _ in 0..100 {
        match out_type(alloc, schema, &ctx, f, input) {
            Ok(_) => typed = typed.saturating_add(1),
            Err(TypeFault::At { .. }) => {}
            Err(TypeFault::Memory) => return Err(AllocError),
        }
    }
    Ok(typed)
}

/// How often a function of at most n nodes is typed, of a hundred times.
fn typing(alloc: Global, n: u32) -> Result<usize, Memory> {
    let Some(schema) = parts(alloc)? else {
        return Ok(0);
    };
    let f = composed(alloc, n)?;
    let input = BoxedTy::new(alloc, Ty::pair_of(alloc, Ty::Int, Ty::Int)?)?;
    typed_often(alloc, &schema, &f, input.get())
}

/// A function of at most n nodes as text.
fn composed_text(alloc: Global, n: u32) -> Result<Vec<u8>, Memory> {
    let f = composed(alloc, n)?;
    print_term(alloc, &Term::F(Box::into_inner(f)))
}

/// A text of a term, read and printed again; empty where it is none.
fn printed_again(alloc: Global, text: &[u8]) -> Result<Vec<u8>, Memory> {
    let vars = MetaCtx::new(alloc);
    match read_term(alloc, text, &vars) {
        Ok(term) => print_term(alloc, &term),
        Err(TextFault::At { .. }) => Ok(Vec::new(alloc)),
        Err(TextFault::Memory) => Err(AllocError),
    }
}

/// The bytes of a function of at most n nodes as text, which is read and printed again twenty times.
fn text_of_term(alloc: Global, n: u32) -> Result<usize, Memory> {
    let mut text = composed_text(alloc, n)?;
    for _ in 0..20 {
        text = printed_again(alloc, &text)?;
    }
    Ok(text.len())
}

/// How often a law is matched at a place of a function of at most n nodes: the number of nodes times that of laws.
fn matching(alloc: Global, n: u32) -> Result<usize, Memory> {
    let Some(schema) = parts(alloc)? else {
        return Ok(0);
    };
    let f = composed(alloc, n)?;
    let input = BoxedTy::new(alloc, Ty::pair_of(alloc, Ty::Int, Ty::Int)?)?;
    let laws = laws(alloc)?;
    let matches = match_all(alloc, &schema, &laws, &f, input.get())?;
    Ok(matches as usize)
}

fn push_rules(out: &mut Vec<u8>, rules: &RuleTable) -> Result<(), Memory> {
    for n in 0..rules.len() {
        if let Some(rule) = rules.get(n) {
            push_rule(out, rule)?;
        }
    }
    Ok(())
}

/// The laws, one a line, in a table that is made anew each of n times.
pub(crate) fn laws_text(alloc: Global, n: u32) -> Result<Vec<u8>, Memory> {
    let mut out = Vec::new(alloc);
    for _ in 0..n {
        push_rules(&mut out, &laws(alloc)?)?;
    }
    Ok(out)
}
