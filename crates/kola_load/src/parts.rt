//! The parts of a JSON value.
ghost use Rattle.std.specs.Prelude.{◌≡◌, codes, map, option_map, is_some};
ghost use Rattle.serde_json.specs.Find.{get, as_bool, as_str, as_array};
ghost use Rattle.kola_load.specs.Json.{is_object, elements, integer_of, id_of, own_id};
ghost use Rattle.kola_load.specs.JsonViews.{view, items_view, listed_view, object_of};

use crate::numbers::integer_in;
use json::Value;
use std::alloc::Global;

// Whether a value is an object.
pub(crate) fn is_object(value: &Value<'_>) -> bool
    ensures { result ≡ is_object (view value.now) }
{
    matches!(value, Value::Object(_))
}

// The truth value that a value is.
pub(crate) fn bool_of(value: &Value<'_>) -> Option<bool>
    ensures { result ≡ as_bool (view value.now) }
{
    match value {
        Value::Bool(b) => Some(*b),
        _ => None,
    }
}

// The text that a value is.
pub(crate) fn text_of<'a>(value: &Value<'a>) -> Option<&'a str>
    ensures { option_map (λ s. s.now) result ≡ as_str (view value.now) }
{
    match value {
        Value::String(text) => Some(*text),
        _ => None,
    }
}

// The elements of the array that a value is.
pub(crate) fn array_of<'v, 'a>(value: &'v Value<'a>) -> Option<&'v Vec<Value<'a>>>
    ensures { option_map (λ v. items_view v.now.items) result ≡ as_array (view value.now) }
{
    match value {
        Value::Array(elements) => Some(elements),
        _ => None,
    }
}

// The integer of 64 bits that a value writes.
pub(crate) fn integer_of(value: &Value<'_>) -> Option<i64>
    ensures { result ≡ integer_of (view value.now) }
{
    match value {
        Value::Number(text) => integer_in(text),
        _ => None,
    }
}

// The id that a value writes: an integer from 1 to 4294967295.
pub(crate) fn id_of(value: &Value<'_>) -> Option<u32>
    ensures { result ≡ id_of (view value.now) }
{
    let n = integer_of(value)?;
    if 1 <= n && n <= 4294967295 {
        Some(n as u32)
    } else {
        None
    }
}

// The member of a name; of two the last one.
fn member_in<'v, 'a>(object: &'v Value<'a>, name: &str) -> Option<&'v Value<'a>>
    ensures { option_map (λ v. view v.now) result ≡ get name.now (view object.now) }
{
    object.get(name)
}

// The id of an object: that of its member `#`.
pub(crate) fn own_id(object: &Value<'_>) -> Option<u32>
    ensures { result ≡ own_id (view object.now) }
{
    let id = member_in(object, "#")?;
    id_of(id)
}

// The elements of an array; any other value has none.
pub(crate) fn elements_in<'a>(alloc: Global, value: Value<'a>) -> Vec<Value<'a>>
    ensures { map view result.items ≡ elements (view value.entry) }
{
    match value {
        Value::Array(elements) => elements,
        _ => Vec::new(alloc),
    }
}

// The members of an object in the order of the text; any other value has none.
pub(crate) fn members_in<'a>(alloc: Global, value: Value<'a>) -> Vec<(&'a str, Value<'a>)>
    ensures { listed_view result.items ≡ object_of (view value.entry) }
{
    match value {
        Value::Object(members) => members,
        _ => Vec::new(alloc),
    }
}
