//! Paths: attributes of objects, and fields of structs.

ghost use Rattle.std.specs.Prelude.{◌≡◌, ◌∷◌, map, IfOk};
ghost use Rattle.std.specs.Option.{option_map};
ghost use Rattle.kola_values.specs.Databases.{look_up};
ghost use Rattle.kola_values.specs.Types.{of_type_fields};
ghost use Rattle.kola_values.specs.Views.{type_tree, type_entry};
ghost use Rattle.kola_schema.specs.SchemaViews.{type_at};
ghost use Rattle.kola_translate.specs.Translation.{type_or_unit, type_of_step, type_of_path};
ghost use Rattle.kola_translate.specs.Building.{and_then, behind, later_built, selector_built, step_built, path_built};
ghost use Rattle.kola_translate.specs.Parts.{Builds, fun_view, option_view};

use crate::fault::TranslateFault;
use crate::made::{MadeFun, attribute, comp, first_field, last_field, later_field};
use kola_core::{Memory, Name};
use kola_schema::Schema;
use kola_values::{BoxedTy, Ty};
use std::alloc::Global;

/// The type of the first field of the label; `None` where there is none.
fn field_type<'a>(fields: &'a [(Name, Ty)], label: &Name) -> Option<&'a Ty>
    ensures { option_map type_at result ≡ look_up label.now (map type_entry fields.now) }
{
    match fields.split_first() {
        Some(((name, t), rest)) => {
            if label.is(name) {
                Some(t)
            } else {
                field_type(rest, label)
            }
        }
        None => None,
    }
}

/// The type behind a label; `None` where there is none.
#[tactic(auto, using(crate::proofs::FieldLists::fields_listed))]
fn next_type<'a>(schema: &'a Schema, t: &'a Ty, label: &Name) -> Option<&'a Ty>
    ensures { type_or_unit (option_map type_at result) ≡ type_of_step schema.now (type_tree t.now) label.now }
{
    match t {
        Ty::Class(class) => schema.attribute(class, label),
        Ty::Struct(fields) => field_type(fields.as_slice(), label),
        _ => None,
    }
}

fn later(
    alloc: Global,
    made: &mut u32,
    s: Option<MadeFun>,
) -> Result<Option<MadeFun>, TranslateFault>
    ensures { Builds option_view result made.new (later_built (option_view s) made.old) }
{
    let f = match s {
        Some(s) => later_field(alloc, made, s)?,
        None => last_field(alloc, made)?,
    };
    Ok(Some(f))
}

/// What takes the field of the label out of an encoded struct; `None` where the struct is that field.
fn selector(
    alloc: Global,
    made: &mut u32,
    label: &Name,
    first: &(Name, Ty),
    rest: &[(Name, Ty)],
) -> Result<Option<MadeFun>, TranslateFault>
    ensures { Builds option_view result made.new
        (selector_built label.now (of_type_fields (type_entry first.now ∷ map type_entry rest.now)) made.old) }
{
    let Some((second, others)) = rest.split_first() else {
        return Ok(None);
    };
    if label.is(&first.0) {
        let f = first_field(alloc, made)?;
        return Ok(Some(f));
    }
    let s = selector(alloc, made, label, second, others)?;
    later(alloc, made, s)
}

fn behind(
    alloc: Global,
    made: &mut u32,
    s: Option<MadeFun>,
    f: MadeFun,
) -> Result<MadeFun, TranslateFault>
    ensures { Builds fun_view result made.new (behind (option_view s) (fun_view f) made.old) }
{
    match s {
        Some(s) => comp(alloc, made, s, f),
        None => Ok(f),
    }
}

fn field(
    alloc: Global,
    made: &mut u32,
    label: &Name,
    fields: &[(Name, Ty)],
    f: MadeFun,
) -> Result<MadeFun, TranslateFault>
    ensures { Builds fun_view result made.new
        (and_then (selector_built label.now (of_type_fields (map type_entry fields.now)) made.old) (λ s m. behind s (fun_view f) m)) }
{
    let Some((first, rest)) = fields.split_first() else {
        return Ok(f);
    };
    let s = selector(alloc, made, label, first, rest)?;
    behind(alloc, made, s, f)
}

/// The function behind one label.
fn step(
    alloc: Global,
    made: &mut u32,
    t: &Ty,
    label: &Name,
    f: MadeFun,
) -> Result<MadeFun, TranslateFault>
    ensures { Builds fun_view result made.new (step_built (type_tree t.now) label.now (fun_view f) made.old) }
{
    match t {
        Ty::Class(_) => attribute(alloc, made, label, f),
        Ty::Struct(fields) => field(alloc, made, label, fields.as_slice(), f),
        _ => Ok(f),
    }
}

fn copied(alloc: Global, t: &Ty) -> Result<BoxedTy, Memory>
    ensures { IfOk result (λ b. b ≡ type_tree t.now) }
{
    let copy = t.copy()?;
    BoxedTy::new(alloc, copy)
}

/// The function behind all labels, and its type.
pub(crate) fn path(
    alloc: Global,
    schema: &Schema,
    made: &mut u32,
    t: &Ty,
    f: MadeFun,
    labels: &[(Name, usize)],
) -> Result<(MadeFun, BoxedTy), TranslateFault>
    ensures built { Builds (λ r. fun_view r.0) result made.new
        (path_built schema.now (type_tree t.now) (fun_view f) labels.now made.old) }
    ensures ty { IfOk result (λ r. r.1 ≡ type_of_path schema.now (type_tree t.now) labels.now) }
{
    let Some(((label, _), rest)) = labels.split_first() else {
        let ty = copied(alloc, t)?;
        return Ok((f, ty));
    };
    let g = step(alloc, made, t, label, f)?;
    match next_type(schema, t, label) {
        Some(u) => path(alloc, schema, made, u, g, rest),
        None => path(alloc, schema, made, &Ty::Unit, g, rest),
    }
}
