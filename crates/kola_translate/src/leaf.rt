//! Names, literals and sets of literals.

ghost use Rattle.std.specs.Prelude.{◌≡◌, map, IfOk};
ghost use Rattle.kola_values.specs.Databases.{look_up, extent_class};
ghost use Rattle.kola_values.specs.Sets.{canon};
ghost use Rattle.kola_values.specs.Types.{TSet};
ghost use Rattle.kola_values.specs.Views.{type_tree, value_tree};
ghost use Rattle.kola_term.specs.Literals.{set_type};
ghost use Rattle.kola_term.specs.TermView.{const_tree};
ghost use Rattle.kola_term.specs.Terms.{CInt, CStr, FK, CSet};
ghost use Rattle.oql_tree.specs.QueryViews.{lit_tree, literal_entry};
ghost use Rattle.oql_check.specs.Checking.{literal_form};
ghost use Rattle.oql_check.specs.QueryMeaning.{literal_value};
ghost use Rattle.kola_translate.specs.Translation.{type_of_name, type_of_extent, type_of_literals, distance, literal_values};
ghost use Rattle.kola_translate.specs.Building.{as_function_part, name_built, literal_built, set_built, node};
ghost use Rattle.kola_translate.specs.Parts.{Builds, fun_view, part_view};

use crate::fault::TranslateFault;
use crate::made::{MadeFun, Part, charge, constant, extent, nothing, variable};
use crate::scope::Scope;
use kola_core::{Memory, Name};
use kola_schema::Schema;
use kola_term::{Const, LitSet};
use kola_values::{BoxedTy, Set, Ty, Value};
use oql_tree::{Lit, LitList};
use std::alloc::Global;

// ---- names

fn named(alloc: Global, scope: &Scope, made: &mut u32, x: &Name) -> Result<MadeFun, TranslateFault>
    ensures { Builds fun_view result made.new (name_built x.now (distance x.now scope.now) made.old) }
{
    match scope.place(x) {
        Some(newer) => variable(alloc, made, newer),
        None => extent(alloc, made, x),
    }
}

fn extent_type(alloc: Global, schema: &Schema, x: &Name) -> Result<BoxedTy, Memory>
    ensures { IfOk result (λ t. t ≡ type_of_extent (extent_class schema.now x.now)) }
{
    match schema.class_of(x) {
        Some(class) => {
            let class = class.copy()?;
            let set = Ty::set_of(alloc, Ty::Class(class))?;
            BoxedTy::new(alloc, set)
        }
        None => BoxedTy::new(alloc, Ty::Unit),
    }
}

fn name_type(alloc: Global, schema: &Schema, scope: &Scope, x: &Name) -> Result<BoxedTy, Memory>
    ensures { IfOk result (λ t. t ≡ type_of_name (look_up x.now scope.now) (extent_class schema.now x.now)) }
{
    match scope.find(x) {
        Some(t) => t.copy(),
        None => extent_type(alloc, schema, x),
    }
}

/// A variable, or the extent where there is none.
pub(crate) fn name(
    alloc: Global,
    schema: &Schema,
    scope: &Scope,
    made: &mut u32,
    x: &Name,
) -> Result<(Part, BoxedTy), TranslateFault>
    ensures built { Builds (λ r. part_view r.0) result made.new
        (as_function_part (name_built x.now (distance x.now scope.now) made.old)) }
    ensures ty { IfOk result
        (λ r. r.1 ≡ type_of_name (look_up x.now scope.now) (extent_class schema.now x.now)) }
{
    let ty = name_type(alloc, schema, scope, x)?;
    let f = named(alloc, scope, made, x)?;
    Ok((Part::Function(f), ty))
}

// ---- literals

fn form_type(alloc: Global, l: &Lit) -> Result<BoxedTy, Memory>
    ensures { IfOk result (λ t. t ≡ literal_form (lit_tree l.now)) }
{
    match l {
        Lit::Int(_) => BoxedTy::new(alloc, Ty::Int),
        Lit::Str(_) => BoxedTy::new(alloc, Ty::Str),
        Lit::Bool(_) => BoxedTy::new(alloc, Ty::Bool),
    }
}

fn literal_part(alloc: Global, made: &mut u32, l: &Lit) -> Result<Part, TranslateFault>
    ensures { Builds part_view result made.new (literal_built (lit_tree l.now) made.old) }
{
    match l {
        Lit::Int(n) => {
            let f = constant(alloc, made, Const::Int(*n))?;
            Ok(Part::Function(f))
        }
        Lit::Str(text) => {
            let text = text.copy()?;
            let f = constant(alloc, made, Const::Str(text))?;
            Ok(Part::Function(f))
        }
        Lit::Bool(b) => {
            charge(made, 0, 0, 0)?;
            Ok(Part::Truth(*b))
        }
    }
}

/// A literal.
pub(crate) fn literal(
    alloc: Global,
    made: &mut u32,
    l: &Lit,
) -> Result<(Part, BoxedTy), TranslateFault>
    ensures built { Builds (λ r. part_view r.0) result made.new (literal_built (lit_tree l.now) made.old) }
    ensures ty { IfOk result (λ r. r.1 ≡ literal_form (lit_tree l.now)) }
{
    let ty = form_type(alloc, l)?;
    let part = literal_part(alloc, made, l)?;
    Ok((part, ty))
}

// ---- sets

fn value_of(l: &Lit) -> Result<Value, Memory>
    ensures { IfOk result (λ v. value_tree v ≡ literal_value (lit_tree l.now)) }
{
    match l {
        Lit::Int(n) => Ok(Value::Int(*n)),
        Lit::Str(text) => Ok(Value::Str(text.copy()?)),
        Lit::Bool(b) => Ok(Value::Bool(*b)),
    }
}

fn values_of(alloc: Global, literals: &[(Lit, usize)]) -> Result<Vec<Value>, Memory>
    ensures { IfOk result (λ vs. map value_tree vs.items ≡ literal_values (map literal_entry literals.now)) }
{
    let mut values = Vec::new(alloc);
    for (l, _) in literals {
        values.push(value_of(l)?)?;
    }
    Ok(values)
}

fn members_of(alloc: Global, literals: &[(Lit, usize)]) -> Result<Set, Memory>
    ensures { IfOk result (λ s. s ≡ canon (literal_values (map literal_entry literals.now))) }
{
    let values = values_of(alloc, literals)?;
    Set::from_members(alloc, values)
}

fn first_type(alloc: Global, literals: &[(Lit, usize)]) -> Result<BoxedTy, Memory>
    ensures { IfOk result (λ t. t ≡ TSet (type_of_literals (map literal_entry literals.now))) }
{
    let member = match literals.first() {
        Some((l, _)) => form_type(alloc, l)?,
        None => BoxedTy::new(alloc, Ty::Unit)?,
    };
    BoxedTy::new(alloc, Ty::Set(member))
}

fn set_constant(alloc: Global, made: &mut u32, members: Set) -> Result<MadeFun, TranslateFault>
    ensures { Builds fun_view result made.new (set_built (set_type members) members made.old) }
{
    match LitSet::make(members) {
        Some(set) => constant(alloc, made, Const::Literals(set)),
        None => nothing(alloc, made),
    }
}

/// A set of literals.
pub(crate) fn set(
    alloc: Global,
    made: &mut u32,
    literals: &LitList,
) -> Result<(Part, BoxedTy), TranslateFault>
    ensures built { Builds (λ r. part_view r.0) result made.new (as_function_part
        (set_built (set_type (canon (literal_values (map literal_entry literals.now))))
        (canon (literal_values (map literal_entry literals.now))) made.old)) }
    ensures ty { IfOk result (λ r. r.1 ≡ TSet (type_of_literals (map literal_entry literals.now))) }
{
    let ty = first_type(alloc, literals.as_slice())?;
    let members = members_of(alloc, literals.as_slice())?;
    let f = set_constant(alloc, made, members)?;
    Ok((Part::Function(f), ty))
}
