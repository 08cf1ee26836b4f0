//! The types along a path of labels.

ghost use Rattle.std.specs.Prelude.{◌≡◌};
ghost use Rattle.std.specs.Option.{option_map};
ghost use Rattle.kola_values.specs.Databases.{look_up};
ghost use Rattle.kola_values.specs.Views.{type_tree};
ghost use Rattle.kola_schema.specs.SchemaViews.{type_at};
ghost use Rattle.oql_check.specs.QueryTypes.{sized, step_type, path_type};
ghost use Rattle.oql_check.specs.Checking.{Finds, IsType};
ghost use Rattle.oql_check.specs.declared.fault.CheckFault.TheVariants as fault;
ghost use Rattle.oql_check.specs.declared.fault.CheckWhy.TheVariants as why;

use crate::fault::{CheckFault, CheckWhy};
use crate::size::is_small;
use kola_core::Name;
use kola_schema::Schema;
use kola_values::{BoxedTy, Fields, Ty};
use oql_tree::Labels;
use std::alloc::Global;

/// The type of the first field of the label; `None` where there is none.
fn field<'a>(fields: &'a Fields, label: &Name) -> Option<&'a Ty>
    ensures { option_map type_at result ≡ look_up label.now fields.now }
{
    for (name, t) in fields.as_slice() {
        if label.is(name) {
            return Some(t);
        }
    }
    None
}

fn missing(at: usize) -> CheckFault
    ensures { result ≡ fault.At at why.NoSuchAttribute }
{
    CheckFault::At {
        at,
        why: CheckWhy::NoSuchAttribute,
    }
}

fn sized(at: usize, t: &Ty) -> Result<&Ty, CheckFault>
    ensures { Finds type_at result (sized at (type_tree t.now)) }
{
    if is_small(t) {
        Ok(t)
    } else {
        Err(CheckFault::At {
            at,
            why: CheckWhy::TypeTooLarge,
        })
    }
}

/// The type behind one label.
fn step<'a>(schema: &'a Schema, t: &'a Ty, label: &Name, at: usize) -> Result<&'a Ty, CheckFault>
    ensures { Finds type_at result (step_type schema.now (type_tree t.now) label.now at) }
{
    match t {
        Ty::Class(class) => match schema.attribute(class, label) {
            Some(u) => sized(at, u),
            None => Err(missing(at)),
        },
        Ty::Struct(fields) => match field(fields, label) {
            Some(u) => Ok(u),
            None => Err(missing(at)),
        },
        _ => Err(missing(at)),
    }
}

/// The type behind all labels, which the schema or the first type lends.
fn walked<'a>(schema: &'a Schema, t: &'a Ty, labels: &Labels) -> Result<&'a Ty, CheckFault>
    ensures { Finds type_at result (path_type schema.now (type_tree t.now) labels.now) }
{
    let mut last = t;
    for (label, at) in labels.as_slice() {
        last = step(schema, last, label, *at)?;
    }
    Ok(last)
}

/// The type behind all labels.
pub(crate) fn path_type(
    alloc: Global,
    schema: &Schema,
    t: &Ty,
    labels: &Labels,
) -> Result<BoxedTy, CheckFault>
    ensures { IsType result (path_type schema.now (type_tree t.now) labels.now) }
{
    let last = walked(schema, t, labels)?;
    let copy = last.copy()?;
    let boxed = BoxedTy::new(alloc, copy)?;
    Ok(boxed)
}
