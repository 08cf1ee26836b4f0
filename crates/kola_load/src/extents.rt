//! The members of a database: each names an extent.
ghost use Rattle.kola_load.specs.JsonViews.{table_view};
ghost use Rattle.kola_load.specs.Calls.{Finds, Nothing};
ghost use Rattle.kola_load.specs.Loading.{members_fault};

use crate::DbFault;
use crate::members::Members;
use crate::names::{Knows, least_unknown};
use kola_schema::Schema;
use std::alloc::Global;

// The names of the extents of a schema.
#[derive(Drop)]
struct Extents<'a> {
    schema: &'a Schema,
}

impl Knows for Extents<'_> {
    ghost use Rattle.kola_schema.specs.Schemas.{extent_names};

    ghost names = { λ e. extent_names e.schema.now };

    fn knows(&self, name: &str) -> bool {
        self.schema.has_extent(name)
    }
}

// Whether each member names an extent.
pub(crate) fn check_members(
    alloc: Global,
    schema: &Schema,
    members: &Members<'_>,
) -> Result<(), DbFault>
    ensures { Finds (members_fault schema.now (table_view members.now)) Nothing result }
{
    let extents = Extents { schema };
    match least_unknown(alloc, &extents, members)? {
        Some(name) => Err(DbFault::UnknownExtent { name }),
        None => Ok(()),
    }
}
