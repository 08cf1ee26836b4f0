//! A schema as it is written, each name with the place where it stands.

use kola_base::Named;

/// The type of an attribute.
#[derive(Drop)]
pub enum TypeAt<'a> {
    Int,
    Str,
    Bool,
    Set(Box<TypeAt<'a>>),
    Class(Named<'a>),
}

/// An attribute of a class.
#[derive(Drop)]
pub struct AttributeAt<'a> {
    pub ty: TypeAt<'a>,
    pub name: Named<'a>,
}

/// A class.
#[derive(Drop)]
pub struct ClassAt<'a> {
    pub name: Named<'a>,
    pub extent: Named<'a>,
    pub keys: Vec<Vec<Named<'a>>>,
    pub attributes: Vec<AttributeAt<'a>>,
}
