//! The members of JSON objects, in tables by their names.
ghost use Rattle.std.specs.Prelude.{◌≡◌, codes, option_map, IfOk};
ghost use Rattle.serde_json.specs.Find.{get};
ghost use Rattle.kola_load.specs.Json.{own_id};
ghost use Rattle.kola_load.specs.JsonViews.{view, listed_view, table_view, object_of};

use crate::parts::{id_of, members_in};
use json::Value;
use kola_core::Memory;
use std::alloc::Global;
use std::collections::BTreeMap;

/// The members of an object by their names.
pub(crate) type Members<'a> = BTreeMap<&'a str, Value<'a>>;

// The table of members. Of two of one name the last one stands.
fn table_of<'a>(alloc: Global, members: Vec<(&'a str, Value<'a>)>) -> Result<Members<'a>, Memory>
    ensures { IfOk result (λ t. table_view t ≡ listed_view members.entry.items) }
{
    let mut table = BTreeMap::new(alloc);
    for member in members {
        drop(table.insert(member.0, member.1)?);
    }
    Ok(table)
}

// The members of an object; any other value has none.
pub(crate) fn members_of<'a>(alloc: Global, value: Value<'a>) -> Result<Members<'a>, Memory>
    ensures { IfOk result (λ t. table_view t ≡ object_of (view value.entry)) }
{
    let members = members_in(alloc, value);
    table_of(alloc, members)
}

// The member of a name.
pub(crate) fn member_of<'m, 'a>(members: &'m Members<'a>, name: &str) -> Option<&'m Value<'a>>
    ensures { option_map (λ v. view v.now) result ≡ get name.now (table_view members.now) }
{
    members.get(name)
}

// The id of an object: that of its member `#`.
pub(crate) fn id_among(members: &Members<'_>) -> Option<u32>
    ensures { result ≡ own_id (table_view members.now) }
{
    let id = member_of(members, "#")?;
    id_of(id)
}
