//! The values that JSON values write, by their types.
ghost use Rattle.std.specs.Prelude.{◌≡◌, map, flat_map, not, option_map, IfOk};
ghost use Rattle.std.specs.List.{find};
ghost use Rattle.kola_load.specs.JsonViews.{view};
ghost use Rattle.kola_values.specs.Types.{TStr};
ghost use Rattle.kola_values.specs.Sets.{set_of};
ghost use Rattle.kola_values.specs.Views.{type_tree, value_tree};
ghost use Rattle.kola_load.specs.Ids.{there};
ghost use Rattle.kola_load.specs.Written.{whole, value_of, references};

use crate::gathered::Gathered;
use crate::ids::Ids;
use crate::parts::{array_of, bool_of, id_of, integer_of, text_of};
use json::Value as Json;
use kola_core::{Memory, Text};
use kola_values::{Ty, Value};
use std::alloc::Global;

// The text that a JSON value writes; nothing where it is no string.
fn str_of(alloc: Global, value: &Json<'_>) -> Result<Option<Value>, Memory>
    ensures { IfOk result (λ o. option_map value_tree o ≡ value_of TStr (view value.now)) }
{
    match text_of(value) {
        Some(text) => Ok(Some(Value::Str(Text::from_text(alloc, text)?))),
        None => Ok(None),
    }
}

// The value of a type that a JSON value writes; nothing where it is not of the type.
#[cycle(value_of)]
pub(crate) fn value_of(alloc: Global, t: &Ty, value: &Json<'_>) -> Result<Option<Value>, Memory>
    ensures { IfOk result (λ o. option_map value_tree o ≡ value_of (type_tree t.now) (view value.now)) }
{
    match t {
        Ty::Int => Ok(integer_of(value).map(Value::Int)),
        Ty::Str => str_of(alloc, value),
        Ty::Bool => Ok(bool_of(value).map(Value::Bool)),
        Ty::Class(class) => match id_of(value) {
            Some(id) => Ok(Some(Value::Obj(class.copy()?, id))),
            None => Ok(None),
        },
        Ty::Set(member) => match array_of(value) {
            Some(elements) => set_of(alloc, member.get(), elements),
            None => Ok(None),
        },
        Ty::Unit | Ty::Var(_) | Ty::Pair(_, _) | Ty::Struct(_) => Ok(None),
    }
}

// The set of the values of a type that JSON values write; nothing where one is not of the type.
#[cycle(value_of)]
fn set_of(alloc: Global, t: &Ty, elements: &[Json<'_>]) -> Result<Option<Value>, Memory>
    ensures { IfOk result (λ o. option_map value_tree o
        ≡ option_map set_of (whole (map (value_of (type_tree t.now)) (map view elements.now)))) }
{
    let mut members = Gathered::new(alloc);
    for element in elements {
        match value_of(alloc, t, element)? {
            Some(member) => members = members.with(alloc, member)?,
            None => return Ok(None),
        }
    }
    let set = members.into_set(alloc)?;
    Ok(Some(Value::Set(set)))
}

// The first id in a value of a type that names no object of its class.
#[cycle(missing)]
pub(crate) fn missing(ids: &Ids, t: &Ty, value: &Json<'_>) -> Option<u32>
    ensures { result ≡ option_map (λ r. r.1)
        (find (λ r. not (there ids.now r)) (references (type_tree t.now) (view value.now))) }
{
    match t {
        Ty::Class(class) => {
            let id = id_of(value)?;
            if ids.holds(class, id) { None } else { Some(id) }
        }
        Ty::Set(member) => missing_among(ids, member.get(), array_of(value)?),
        _ => None,
    }
}

// The same in the values of a type that JSON values write, one after the other.
#[cycle(missing)]
fn missing_among(ids: &Ids, t: &Ty, elements: &[Json<'_>]) -> Option<u32>
    ensures { result ≡ option_map (λ r. r.1)
        (find (λ r. not (there ids.now r)) (flat_map (references (type_tree t.now)) (map view elements.now))) }
{
    for element in elements {
        if let Some(id) = missing(ids, t, element) {
            return Some(id);
        }
    }
    None
}
