//! Schemas: lists of classes with their extents, attributes and keys, each found by its name.
ghost use Rattle.std.specs.Prelude.{◌≡◌, true, map, position, slice_get, IfOk};
ghost use Rattle.std.specs.List.{list_any, list_all};
ghost use Rattle.std.specs.Option.{option_map, option_copied};
ghost use Rattle.std.specs.Str.{bytes_eq};
ghost use Rattle.kola_core.specs.NameLists.{is_listed};
ghost use Rattle.kola_values.specs.Databases.{attribute_type, extent_class, look_up};
ghost use Rattle.kola_values.specs.Sets.{Each};
ghost use Rattle.kola_schema.specs.Schemas.{are_distinct, names_of, class_names, extent_names, is_stored_type, is_key, is_class, is_schema, class_named, extent_named, key_at};
ghost use Rattle.kola_values.specs.Views.{type_tree};
ghost use Rattle.kola_schema.specs.SchemaViews.{class_tree, class_at, type_at};

use crate::entries::{has_label, labels_are_distinct};
use kola_core::{Items, Memory, Name, NameTable, Names};
use kola_values::{Fields, Ty};
use std::alloc::Global;
use std::marker::Model;

/// The keys of a class: lists of attributes.
pub type Keys = Items<Names>;

/// A class as a schema defines it.
#[derive(Drop)]
pub struct ClassDef {
    /// The class's name.
    pub name: Name,
    /// The name of the extent, which holds every object of the class.
    pub extent: Name,
    /// The attributes with their types.
    pub attributes: Fields,
    /// The keys: no two objects of the extent agree on all attributes of one.
    pub keys: Keys,
}

fn has_class(classes: &[ClassDef], name: &Name) -> bool
    ensures { result ≡ list_any (λ c. bytes_eq name.now c.name) classes.now }
{
    classes.iter().any(|class| name.is(&class.name))
}

fn has_extent(classes: &[ClassDef], name: &Name) -> bool
    ensures { result ≡ list_any (λ c. bytes_eq name.now c.extent) classes.now }
{
    classes.iter().any(|class| name.is(&class.extent))
}

fn class_names_are_distinct(classes: &[ClassDef]) -> bool
    ensures { result ≡ are_distinct (map (λ c. c.name) classes.now) }
{
    for i in 0..classes.len() {
        if has_class(&classes[i + 1..], &classes[i].name) {
            return false;
        }
    }
    true
}

fn extent_names_are_distinct(classes: &[ClassDef]) -> bool
    ensures { result ≡ are_distinct (map (λ c. c.extent) classes.now) }
{
    for i in 0..classes.len() {
        if has_extent(&classes[i + 1..], &classes[i].extent) {
            return false;
        }
    }
    true
}

fn is_stored_type(classes: &[ClassDef], t: &Ty) -> bool
    ensures { result ≡ is_stored_type (class_names (map class_tree classes.now)) (type_tree t.now) }
{
    match t {
        Ty::Int | Ty::Str | Ty::Bool => true,
        Ty::Class(name) => has_class(classes, name),
        Ty::Set(member) => is_stored_type(classes, member.get()),
        Ty::Unit | Ty::Var(_) | Ty::Pair(_, _) | Ty::Struct(_) => false,
    }
}

fn are_stored_types(classes: &[ClassDef], entries: &[(Name, Ty)]) -> bool
    ensures { result
        ≡ list_all (λ e. is_stored_type (class_names (map class_tree classes.now)) (type_tree e.1)) entries.now }
{
    entries
        .iter()
        .all(|entry| is_stored_type(classes, &entry.1))
}

fn are_attributes(entries: &[(Name, Ty)], names: &[Name]) -> bool
    ensures { result ≡ list_all (λ n. list_any (λ e. bytes_eq n e.0) entries.now) names.now }
{
    names.iter().all(|name| has_label(entries, name))
}

fn is_key(entries: &[(Name, Ty)], key: &Names) -> bool
    ensures { result ≡ is_key (names_of entries.now) key.now }
{
    !key.is_empty() && are_attributes(entries, key.as_slice())
}

fn are_keys(entries: &[(Name, Ty)], keys: &[Names]) -> bool
    ensures { result ≡ list_all (is_key (names_of entries.now)) keys.now }
{
    keys.iter().all(|key| is_key(entries, key))
}

fn is_class(classes: &[ClassDef], class: &ClassDef) -> bool
    ensures { result ≡ is_class (class_names (map class_tree classes.now)) (class_tree class.now) }
{
    let entries = class.attributes.as_slice();
    labels_are_distinct(entries)
        && are_stored_types(classes, entries)
        && are_keys(entries, class.keys.as_slice())
}

fn are_classes(classes: &[ClassDef]) -> bool
    ensures { result ≡ list_all (λ c. is_class (class_names (map class_tree classes.now)) (class_tree c)) classes.now }
{
    classes.iter().all(|class| is_class(classes, class))
}

/// Whether the classes make a schema: no two have one name, no two have one extent, attribute names are distinct within a class, every
/// attribute type is built of `Int`, `Str`, `Bool`, sets and classes of the list, and every key is a non-empty list of attributes of its
/// class. A class and an extent may share a name. It takes no memory: it compares each name with each other, in time by the square of the
/// number of classes and of the attributes of a class, which are few.
pub fn classes_ok(classes: &[ClassDef]) -> bool
    ensures { result ≡ is_schema (map class_tree classes.now) }
{
    class_names_are_distinct(classes) && extent_names_are_distinct(classes) && are_classes(classes)
}

// The names of classes, in their order.
fn class_table(alloc: Global, classes: &[ClassDef]) -> Result<NameTable, Memory>
    requires { are_distinct (map (λ c. c.name) classes.now) ≡ true }
    ensures { IfOk result (λ t. t ≡ map (λ c. c.name) classes.now) }
{
    let mut names = NameTable::new(alloc);
    for class in classes {
        names.add(class.name.as_text())?;
    }
    Ok(names)
}

// The names of the extents of classes, in their order.
fn extent_table(alloc: Global, classes: &[ClassDef]) -> Result<NameTable, Memory>
    requires { are_distinct (map (λ c. c.extent) classes.now) ≡ true }
    ensures { IfOk result (λ t. t ≡ map (λ c. c.extent) classes.now) }
{
    let mut names = NameTable::new(alloc);
    for class in classes {
        names.add(class.extent.as_text())?;
    }
    Ok(names)
}

// The names of attributes, in their order.
fn attribute_table(alloc: Global, entries: &[(Name, Ty)]) -> Result<NameTable, Memory>
    requires { are_distinct (map (λ e. e.0) entries.now) ≡ true }
    ensures { IfOk result (λ t. t ≡ map (λ e. e.0) entries.now) }
{
    let mut names = NameTable::new(alloc);
    for entry in entries {
        names.add(entry.0.as_text())?;
    }
    Ok(names)
}

/// A class with a table of its attributes. Contracts see it as the class.
#[derive(Drop)]
pub struct IndexedClass {
    class: ClassDef,
    attributes: NameTable,
}

impl Model for IndexedClass {
    ghost use Rattle.std.specs.Coded.{codes};
    ghost use Rattle.kola_values.specs.Databases.{Class};
    ghost use Rattle.kola_values.specs.Models.TypeCode.{type_code};

    ghost Value = { Class };

    ghost coded = { Prim.hlevel (codes, type_code) };

    ghost use Rattle.std.specs.Prelude.{◌≡◌};
    ghost use Rattle.kola_schema.specs.Schemas.{names_of};
    ghost use Rattle.kola_schema.specs.SchemaViews.{class_tree};

    ghost view = { λ a. class_tree a.class };

    ghost invariant = { λ a. a.attributes ≡ names_of a.class.attributes };
}

impl IndexedClass {
    fn make(alloc: Global, class: ClassDef) -> Result<IndexedClass, Memory>
        requires { are_distinct (names_of class.attributes) ≡ true }
        ensures { IfOk result (λ c. c ≡ class_tree class) }
    {
        let attributes = attribute_table(alloc, class.attributes.as_slice())?;
        Ok(IndexedClass { class, attributes })
    }

    /// The class.
    pub fn get(&self) -> &ClassDef
        ensures { class_tree result.now ≡ self.now }
    {
        &self.class
    }

    /// The number of an attribute: its place in the class's order, counted from 0; `None` exactly where the class has no attribute of the
    /// name. It takes constant expected time.
    pub fn attribute_place(&self, a: &str) -> Option<usize>
        ensures { result ≡ position (bytes_eq a.now) (names_of self.now.attributes) }
    {
        self.attributes.place(a)
    }

    /// Whether the class has an attribute of the name. It takes constant expected time.
    pub fn has_attribute(&self, a: &str) -> bool
        ensures { result ≡ is_listed a.now (names_of self.now.attributes) }
    {
        self.attributes.holds(a)
    }

    fn attribute(&self, a: &Name) -> Option<&Ty>
        ensures { option_map type_at result ≡ look_up a.now self.now.attributes }
    {
        let place = self.attributes.place(a.as_text())?;
        let entry = self.class.attributes.get(place)?;
        Some(&entry.1)
    }
}

// The classes, each with a table of its attributes.
fn indexed(alloc: Global, classes: Vec<ClassDef>) -> Result<Vec<IndexedClass>, Memory>
    requires { Each (λ k. are_distinct (names_of k.attributes) ≡ true) (map class_tree classes.items) }
    ensures { IfOk result (λ v. v.items ≡ map class_tree classes.items) }
{
    let mut all = Vec::new(alloc);
    for class in classes {
        all.push(IndexedClass::make(alloc, class)?)?;
    }
    Ok(all)
}

/// A schema: classes that pass the test of `classes_ok`. Contracts see it as their list. A class is found by its name and by its extent's
/// name, and an attribute of a class by its name, each in constant expected time.
#[derive(Drop)]
pub struct Schema {
    classes: Vec<IndexedClass>,
    names: NameTable,
    extents: NameTable,
}

impl Model for Schema {
    ghost use Rattle.std.specs.Coded.{codes};
    ghost use Rattle.kola_values.specs.Databases.{Classes};
    ghost use Rattle.kola_values.specs.Models.TypeCode.{type_code};

    ghost Value = { Classes };

    ghost coded = { Prim.hlevel (codes, type_code) };

    ghost use Rattle.std.specs.Prelude.{true, ◌≡◌};
    ghost use Rattle.kola_schema.specs.Schemas.{is_schema, class_names, extent_names};

    ghost view = { λ a. a.classes.items };

    ghost invariant = { λ a. (is_schema a.classes.items ≡ true)
        × (a.names ≡ class_names a.classes.items)
        × (a.extents ≡ extent_names a.classes.items) };
}

impl Schema {
    /// The schema of these classes, in their order. They must pass the test of `classes_ok`. It makes the tables by which a class and an
    /// attribute are found.
    pub fn make(alloc: Global, classes: Vec<ClassDef>) -> Result<Schema, Memory>
        requires { is_schema (map class_tree classes.items) ≡ true }
        ensures { IfOk result (λ s. s ≡ map class_tree classes.items) }
    {
        let names = class_table(alloc, classes.as_slice())?;
        let extents = extent_table(alloc, classes.as_slice())?;
        let classes = indexed(alloc, classes)?;
        Ok(Schema {
            classes,
            names,
            extents,
        })
    }

    /// What every schema keeps: its classes pass the test of `classes_ok`. It does nothing else.
    pub fn well_formed(&self)
        ensures { is_schema self.now ≡ true }
    {
        let _classes = &self.classes;
    }

    /// The class at place `n` in the schema's order, counted from 0; `None` past the end.
    pub fn class_at(&self, n: usize) -> Option<&ClassDef>
        ensures { option_map class_at result ≡ slice_get self.now n }
    {
        let class = self.at(n)?;
        Some(class.get())
    }

    /// The number of a class: its place in the schema's order, counted from 0; `None` exactly where the schema has no class of the name. It
    /// takes constant expected time.
    pub fn class_place(&self, class: &str) -> Option<usize>
        ensures { result ≡ position (bytes_eq class.now) (class_names self.now) }
    {
        self.names.place(class)
    }

    /// The number of the class whose extent has the name; `None` exactly where there is none. It takes constant expected time.
    pub fn extent_place(&self, extent: &str) -> Option<usize>
        ensures { result ≡ position (bytes_eq extent.now) (extent_names self.now) }
    {
        self.extents.place(extent)
    }

    /// Whether an extent of the schema has the name. It takes constant expected time.
    pub fn has_extent(&self, extent: &str) -> bool
        ensures { result ≡ is_listed extent.now (extent_names self.now) }
    {
        self.extents.holds(extent)
    }

    /// The class of the name; `None` exactly where there is none. It takes constant expected time.
    pub fn class_named(&self, class: &Name) -> Option<&ClassDef>
        ensures { option_map class_at result ≡ class_named self.now class.now }
    {
        let class = self.by_name(class)?;
        Some(class.get())
    }

    /// The class whose extent has the name; `None` exactly where there is none. It takes constant expected time.
    pub fn class_of(&self, extent: &Name) -> Option<&Name>
        ensures { option_copied result ≡ extent_class self.now extent.now }
    {
        let place = self.extents.place(extent.as_text())?;
        let class = self.at(place)?;
        Some(&class.get().name)
    }

    /// The extent of the class of the name; `None` exactly where there is no such class. It takes constant expected time.
    pub fn extent_of(&self, class: &Name) -> Option<&Name>
        ensures { option_copied result ≡ extent_named self.now class.now }
    {
        let class = self.by_name(class)?;
        Some(&class.get().extent)
    }

    /// The type of an attribute of the class of the name; `None` exactly where the schema has no such class or the class no such
    /// attribute. It takes constant expected time.
    pub fn attribute(&self, class: &Name, a: &Name) -> Option<&Ty>
        ensures { option_map type_at result ≡ attribute_type self.now class.now a.now }
    {
        self.by_name(class)?.attribute(a)
    }

    /// The key at place `n`, counted from 0, of the class of the name; `None` exactly where there is no such class or no such key. It
    /// takes constant expected time.
    pub fn key_of(&self, class: &Name, n: usize) -> Option<&Names>
        ensures { option_copied result ≡ key_at self.now class.now n }
    {
        let class = self.by_name(class)?;
        class.get().keys.get(n)
    }

    /// The classes in their order, each with its table.
    pub fn classes(&self) -> &[IndexedClass]
        ensures { result.now ≡ self.now }
    {
        self.classes.as_slice()
    }

    fn by_name(&self, name: &Name) -> Option<&IndexedClass>
        ensures { option_copied result ≡ class_named self.now name.now }
    {
        let place = self.names.place(name.as_text())?;
        self.at(place)
    }

    fn at(&self, n: usize) -> Option<&IndexedClass>
        ensures { option_copied result ≡ slice_get self.now n }
    {
        self.classes.get(n)
    }
}
