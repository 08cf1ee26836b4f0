//! Whether the numbers of a JSON value are not too large.
ghost use Rattle.std.specs.Prelude.{◌≡◌};
ghost use Rattle.json.specs.Value.{value_view, items_view, members_view};
ghost use Rattle.kola_load.specs.JsonData.{fits, items_fit, members_fit};

use crate::numbers::number_fits;
use json::Value;

// Whether no number in a value is too large for a float.
#[cycle(fits)]
pub(crate) fn value_fits(value: &Value<'_>) -> bool
    ensures { result ≡ fits (value_view value.now) }
{
    match value {
        Value::Number(text) => number_fits(text),
        Value::Array(items) => items_fit(items),
        Value::Object(members) => members_fit(members),
        _ => true,
    }
}

// The same of each of a list.
#[cycle(fits)]
fn items_fit(items: &[Value<'_>]) -> bool
    ensures { result ≡ items_fit (items_view items.now) }
{
    for item in items {
        if !value_fits(item) {
            return false;
        }
    }
    true
}

// The same of the value of each member.
#[cycle(fits)]
fn members_fit(members: &[(&str, Value<'_>)]) -> bool
    ensures { result ≡ members_fit (members_view members.now) }
{
    for member in members {
        if !value_fits(&member.1) {
            return false;
        }
    }
    true
}
