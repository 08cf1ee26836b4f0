//! A schema without the places of its names.

ghost use Rattle.std.specs.Prelude.{◌≡◌, map, IfOk};
ghost use Rattle.kola_values.specs.Views.{type_tree};
ghost use Rattle.kola_schema.specs.SchemaViews.{class_tree};
ghost use Rattle.kola_load.specs.SchemaFaults.{names};
ghost use Rattle.kola_load.specs.SchemaViews.{named_view, type_view, key_view, attribute_view, class_view};
ghost use Rattle.kola_load.specs.PlainSchemas.{plain_type, plain_attribute, plain_class, plain};

use crate::schema_tree::{AttributeAt, ClassAt, TypeAt};
use kola_base::Named;
use kola_core::{Items, Memory, Name, Names};
use kola_schema::{ClassDef, Keys};
use kola_values::{BoxedTy, Fields, Ty};
use std::alloc::Global;

fn type_of(alloc: Global, ty: &TypeAt<'_>) -> Result<Ty, Memory>
    ensures { IfOk result (λ t. type_tree t ≡ plain_type (type_view ty.now)) }
{
    match ty {
        TypeAt::Int => Ok(Ty::Int),
        TypeAt::Str => Ok(Ty::Str),
        TypeAt::Bool => Ok(Ty::Bool),
        TypeAt::Set(member) => {
            let member = type_of(alloc, member)?;
            Ok(Ty::Set(BoxedTy::new(alloc, member)?))
        }
        TypeAt::Class(name) => Ok(Ty::Class(Name::from_text(alloc, name.name)?)),
    }
}

fn names_of(alloc: Global, written: &[Named<'_>]) -> Result<Names, Memory>
    ensures { IfOk result (λ ns. ns ≡ names (map named_view written.now)) }
{
    let mut all = Items::new(alloc);
    for name in written {
        all.push(Name::from_text(alloc, name.name)?)?;
    }
    Ok(all)
}

fn keys_of(alloc: Global, keys: &[Vec<Named<'_>>]) -> Result<Keys, Memory>
    ensures { IfOk result (λ ks. ks ≡ map names (map key_view keys.now)) }
{
    let mut all = Items::new(alloc);
    for key in keys {
        all.push(names_of(alloc, key.as_slice())?)?;
    }
    Ok(all)
}

fn attributes_of(alloc: Global, attributes: &[AttributeAt<'_>]) -> Result<Fields, Memory>
    ensures { IfOk result (λ fs. fs ≡ map plain_attribute (map attribute_view attributes.now)) }
{
    let mut all = Fields::new(alloc);
    for attribute in attributes {
        let ty = type_of(alloc, &attribute.ty)?;
        all.push((Name::from_text(alloc, attribute.name.name)?, ty))?;
    }
    Ok(all)
}

fn class_of(alloc: Global, class: &ClassAt<'_>) -> Result<ClassDef, Memory>
    ensures { IfOk result (λ c. class_tree c ≡ plain_class (class_view class.now)) }
{
    Ok(ClassDef {
        name: Name::from_text(alloc, class.name.name)?,
        extent: Name::from_text(alloc, class.extent.name)?,
        attributes: attributes_of(alloc, class.attributes.as_slice())?,
        keys: keys_of(alloc, class.keys.as_slice())?,
    })
}

/// The classes without places.
pub fn plain_classes(alloc: Global, classes: &[ClassAt<'_>]) -> Result<Vec<ClassDef>, Memory>
    ensures { IfOk result (λ v. map class_tree v.items ≡ plain (map class_view classes.now)) }
{
    let mut all = Vec::new(alloc);
    for class in classes {
        all.push(class_of(alloc, class)?)?;
    }
    Ok(all)
}
