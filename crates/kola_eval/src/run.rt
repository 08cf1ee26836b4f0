//! What an evaluation runs on.
ghost use Rattle.std.specs.Prelude.{◌≡◌};
ghost use Rattle.kola_database.specs.Stored.{IsUnder, extents_of};

use kola_database::Db;
use kola_schema::Schema;
use std::alloc::Global;

/// A database with the schema under which it was made.
#[derive(Clone, Copy)]
pub(crate) struct Run<'a> {
    pub(crate) alloc: Global,
    pub(crate) schema: &'a Schema,
    pub(crate) db: &'a Db,
    ghost extents: { db.now.extents ≡ extents_of schema.now },
}

impl<'a> Run<'a> {
    // The run over a database.
    pub(crate) fn over(alloc: Global, schema: &'a Schema, db: &'a Db) -> Run<'a>
        requires { IsUnder schema.now db.now }
        ensures schema { result.schema.now ≡ schema.now }
        ensures db { result.db.now ≡ db.now }
    {
        Run { alloc, schema, db }
    }
}
