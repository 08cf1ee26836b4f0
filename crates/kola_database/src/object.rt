//! Objects with the values of their attributes.
use kola_core::Name;
use kola_values::ValueFields;

/// An object, as a database holds it.
#[derive(Drop)]
pub struct ObjectDef {
    /// The name of the object's class.
    pub class: Name,
    /// The id, which no other object of the class has.
    pub id: u32,
    /// The attributes with their values.
    pub values: ValueFields,
}
