//! Queries with their types.

ghost use Rattle.std.specs.Prelude.{◌≡◌};
ghost use Rattle.kola_values.specs.Views.{type_tree};
ghost use Rattle.oql_tree.specs.QueryViews.{query_tree};
ghost use Rattle.oql_check.specs.CheckAnswers.{IsChecked};

use crate::fault::CheckFault;
use crate::scope::Scope;
use crate::typing::query_type;
use kola_schema::Schema;
use kola_values::{BoxedTy, Ty};
use oql_tree::Query;
use std::alloc::Global;
use std::marker::Model;

/// A query with its type. Contracts see it as the query's tree and the type's.
#[derive(Drop)]
pub struct Typed {
    query: Query,
    ty: BoxedTy,
}

impl Model for Typed {
    ghost use Rattle.std.specs.Coded.{coded×};
    ghost use Rattle.kola_values.specs.Types.{TypeTree};
    ghost use Rattle.kola_values.specs.Models.TypeCode.{type_code};
    ghost use Rattle.oql_tree.specs.Models.QueryCode.{query_code};
    ghost use Rattle.oql_tree.specs.QueryTrees.{QueryTree};
    ghost use Rattle.oql_tree.specs.QueryViews.{query_tree};

    ghost Value = { QueryTree × TypeTree };

    ghost coded = { coded× query_code type_code };

    ghost view = { λ a. (query_tree a.query, a.ty) };
}

impl Typed {
    /// The type of the query.
    pub fn ty(&self) -> &Ty
        ensures { type_tree result.now ≡ self.now.1 }
    {
        self.ty.get()
    }

    /// The query.
    pub fn query(&self) -> &Query
        ensures { query_tree result.now ≡ self.now.0 }
    {
        &self.query
    }
}

/// The query with its type under the schema, where it has one and no variable is in scope; else its first fault, by its place and its
/// cause. The query is handed back in both cases.
///
/// The parts of an expression are typed before its own tests, from the left. In a select the ranges come first, each with its test, then
/// the condition with its test, then the head; in a quantifier the range with its test and then the body; in a struct each label before
/// its expression. A name is looked for among the variables, of which the newest of the name is found in constant expected time, and among
/// the extents only where no variable has it. A variable's type is copied where the variable stands, but where a path
/// begins with it. No type of more than 4,096 nodes is built.
pub fn check_query(
    alloc: Global,
    schema: &Schema,
    query: Query,
) -> Result<Typed, (CheckFault, Query)>
    ensures { IsChecked schema.now (query_tree query) result }
{
    let mut scope = Scope::new(alloc);
    match query_type(alloc, schema, &mut scope, &query) {
        Ok(ty) => Ok(Typed { query, ty }),
        Err(fault) => Err((fault, query)),
    }
}
