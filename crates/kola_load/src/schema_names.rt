//! The first fault of the names of a schema.

ghost use Rattle.std.specs.Prelude.{◌≡◌, [], map, IfOk};
ghost use Rattle.kola_load.specs.Names.{is_extent_name};
ghost use Rattle.kola_load.specs.SchemaFaults.{starts_with_capital, rank, class_names, extents};
ghost use Rattle.kola_load.specs.FirstMarks.{goes_before, earlier, unless, first_of, not_allowed, names_from, twice, unknown_class, unknown_key, unknown_keys, unknown_types, first_in_class, first_mark};
ghost use Rattle.kola_load.specs.SchemaViews.{named_view, type_view, key_view, attribute_view, class_view};

use crate::schema_fault::{Mark, NameWhy};
use crate::schema_tree::{AttributeAt, ClassAt, TypeAt};
use kola_base::{Alphabet, Named, TermWord, is_name};
use kola_core::{Memory, NameTable};
use std::alloc::Global;

fn rank(why: NameWhy) -> u8
    ensures { result ≡ rank why }
{
    match why {
        NameWhy::NotAllowed => 0,
        NameWhy::TwiceDefined => 1,
        NameWhy::UnknownClass => 2,
        NameWhy::UnknownKeyAttribute => 3,
    }
}

fn goes_before(m: Mark, n: Mark) -> bool
    ensures { result ≡ goes_before m n }
{
    m.at < n.at || (m.at == n.at && rank(m.why) <= rank(n.why))
}

fn earlier(a: Option<Mark>, b: Option<Mark>) -> Option<Mark>
    ensures { result ≡ earlier a b }
{
    match (a, b) {
        (None, other) => other,
        (Some(m), None) => Some(m),
        (Some(m), Some(n)) => { if goes_before(m, n) { Some(m) } else { Some(n) } }
    }
}

/// The cause at the name, where the test fails.
fn unless(passes: bool, why: NameWhy, name: &Named<'_>) -> Option<Mark>
    ensures { result ≡ unless passes why (named_view name.now) }
{
    if passes {
        None
    } else {
        Some(Mark { at: name.at, why })
    }
}

fn starts_with_capital(name: &str) -> bool
    ensures { result ≡ starts_with_capital name.now }
{
    match name.as_bytes() {
        [] => false,
        [first, ..] => b'A' <= *first && *first <= b'Z',
    }
}

#[tactic(auto, unfolding(crate::specs::Names::is_extent_name))]
fn is_extent_name(word: &str) -> bool
    ensures { result ≡ is_extent_name word.now }
{
    is_name(word.as_bytes()) && TermWord::named(word).is_none()
}

fn not_allowed(class: &ClassAt<'_>) -> Option<Mark>
    ensures { result ≡ not_allowed (class_view class.now) }
{
    earlier(
        unless(
            starts_with_capital(class.name.name),
            NameWhy::NotAllowed,
            &class.name,
        ),
        unless(
            is_extent_name(class.extent.name),
            NameWhy::NotAllowed,
            &class.extent,
        ),
    )
}

/// The table of the names, and the first one that is named so before.
fn table_of(alloc: Global, names: &[Named<'_>]) -> Result<(NameTable, Option<Mark>), Memory>
    ensures table { IfOk result (λ x. x.0 ≡ names_from [] (map named_view names.now)) }
    ensures twice { IfOk result (λ x. x.1 ≡ twice (map named_view names.now)) }
{
    let mut seen = NameTable::new(alloc);
    let mut first = None;
    for name in names {
        let new = seen.add(name.name)?;
        first = earlier(first, unless(new, NameWhy::TwiceDefined, name));
    }
    Ok((seen, first))
}

fn unknown_class(known: &NameTable, ty: &TypeAt<'_>) -> Option<Mark>
    ensures { result ≡ unknown_class known.now (type_view ty.now) }
{
    match ty {
        TypeAt::Set(member) => unknown_class(known, member),
        TypeAt::Class(name) => unless(known.holds(name.name), NameWhy::UnknownClass, name),
        TypeAt::Int | TypeAt::Str | TypeAt::Bool => None,
    }
}

fn unknown_types(known: &NameTable, attributes: &[AttributeAt<'_>]) -> Option<Mark>
    ensures { result ≡ unknown_types known.now (map attribute_view attributes.now) }
{
    let mut first = None;
    for attribute in attributes {
        first = earlier(first, unknown_class(known, &attribute.ty));
    }
    first
}

fn unknown_key(known: &NameTable, key: &[Named<'_>]) -> Option<Mark>
    ensures { result ≡ unknown_key known.now (map named_view key.now) }
{
    let mut first = None;
    for name in key {
        first = earlier(
            first,
            unless(known.holds(name.name), NameWhy::UnknownKeyAttribute, name),
        );
    }
    first
}

fn unknown_keys(known: &NameTable, keys: &[Vec<Named<'_>>]) -> Option<Mark>
    ensures { result ≡ unknown_keys known.now (map key_view keys.now) }
{
    let mut first = None;
    for key in keys {
        first = earlier(first, unknown_key(known, key.as_slice()));
    }
    first
}

fn attribute_names<'a>(alloc: Global, class: &ClassAt<'a>) -> Result<Vec<Named<'a>>, Memory>
    ensures { IfOk result (λ v. v.items ≡ map (λ a. a.name) class.now.attributes.items) }
{
    let mut names = Vec::new(alloc);
    for attribute in &class.attributes {
        names.push(attribute.name)?;
    }
    Ok(names)
}

fn class_names<'a>(alloc: Global, classes: &[ClassAt<'a>]) -> Result<Vec<Named<'a>>, Memory>
    ensures { IfOk result (λ v. v.items ≡ map (λ c. c.name) classes.now) }
{
    let mut names = Vec::new(alloc);
    for class in classes {
        names.push(class.name)?;
    }
    Ok(names)
}

fn extents<'a>(alloc: Global, classes: &[ClassAt<'a>]) -> Result<Vec<Named<'a>>, Memory>
    ensures { IfOk result (λ v. v.items ≡ map (λ c. c.extent) classes.now) }
{
    let mut names = Vec::new(alloc);
    for class in classes {
        names.push(class.extent)?;
    }
    Ok(names)
}

fn first_in_class(
    alloc: Global,
    known: &NameTable,
    class: &ClassAt<'_>,
) -> Result<Option<Mark>, Memory>
    ensures { IfOk result (λ m. m ≡ first_in_class known.now (class_view class.now)) }
{
    let names = attribute_names(alloc, class)?;
    let (table, twice) = table_of(alloc, names.as_slice())?;
    let types = unknown_types(known, class.attributes.as_slice());
    let keys = unknown_keys(&table, class.keys.as_slice());
    Ok(earlier(not_allowed(class), earlier(twice, earlier(types, keys))))
}

fn first_in_classes(
    alloc: Global,
    known: &NameTable,
    classes: &[ClassAt<'_>],
) -> Result<Option<Mark>, Memory>
    ensures { IfOk result (λ m. m ≡ first_of (first_in_class known.now) (map class_view classes.now)) }
{
    let mut first = None;
    for class in classes {
        let found = first_in_class(alloc, known, class)?;
        first = earlier(first, found);
    }
    Ok(first)
}

/// The first name of a class that a class has before, and the first fault inside of a class.
fn first_of_classes(
    alloc: Global,
    classes: &[ClassAt<'_>],
) -> Result<(Option<Mark>, Option<Mark>), Memory>
    ensures twice { IfOk result (λ r. r.0 ≡ twice (class_names (map class_view classes.now))) }
    ensures inside { IfOk result (λ r. r.1 ≡ first_of
        (first_in_class (names_from [] (class_names (map class_view classes.now)))) (map class_view classes.now)) }
{
    let names = class_names(alloc, classes)?;
    let (known, twice) = table_of(alloc, names.as_slice())?;
    let inside = first_in_classes(alloc, &known, classes)?;
    Ok((twice, inside))
}

/// The first extent that is named as one before.
fn first_extent_twice(alloc: Global, classes: &[ClassAt<'_>]) -> Result<Option<Mark>, Memory>
    ensures { IfOk result (λ m. m ≡ twice (extents (map class_view classes.now))) }
{
    let extents = extents(alloc, classes)?;
    let (_, twice) = table_of(alloc, extents.as_slice())?;
    Ok(twice)
}

/// The first fault of the names of the classes, and `None` where they have none.
pub fn first_mark(alloc: Global, classes: &[ClassAt<'_>]) -> Result<Option<Mark>, Memory>
    ensures { IfOk result (λ m. m ≡ first_mark (map class_view classes.now)) }
{
    let (twice, inside) = first_of_classes(alloc, classes)?;
    let extent_twice = first_extent_twice(alloc, classes)?;
    Ok(earlier(twice, earlier(extent_twice, inside)))
}
