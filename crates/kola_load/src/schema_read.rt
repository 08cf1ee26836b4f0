//! Schemas from their text.

ghost use Rattle.std.specs.Prelude.{◌≡◌, map, ℕ, IfOk, IfErr};
ghost use Rattle.kola_values.specs.Databases.{Classes};
ghost use Rattle.kola_load.specs.SchemaFaults.{Stands};
ghost use Rattle.kola_load.specs.SchemaViews.{class_view};
ghost use Rattle.kola_load.specs.PlainSchemas.{plain, HaveKeys};
ghost use Rattle.kola_load.specs.SchemaAccepted.{greatest_nesting, Writes, FaultOf, IsFault, IsAt, IsSchema, IsMarked, of_text, name_why};
ghost use Rattle.kola_load.specs.declared.schema_fault.Mark.{Mark};
ghost use Rattle.kola_load.specs.declared.schema_fault.SchemaWhy.{SchemaWhy};

use crate::schema_fault::{NameWhy, SchemaFault, SchemaWhy};
use crate::schema_names::first_mark;
use crate::schema_plain::plain_classes;
use crate::schema_syntax::schema_of;
use crate::schema_tree::ClassAt;
use kola_base::{Lexemes, TextFault, TextWhy, fault_at, tokens};
use kola_schema::Schema;
use std::alloc::Global;

/// How many sets may nest in a type.
pub(crate) const SETS: usize = 100;

/// A fault of the tokens or of the syntax as one of a schema.
fn of_text(fault: TextFault) -> SchemaFault
    ensures { result ≡ of_text fault }
{
    match fault {
        TextFault::Memory => SchemaFault::Memory,
        TextFault::At { at, why } => SchemaFault::At {
            at,
            why: match why {
                TextWhy::Lex(why) => SchemaWhy::Lex(why),
                TextWhy::Unexpected => SchemaWhy::Unexpected,
                TextWhy::TooDeep => SchemaWhy::TooDeep,
            },
        },
    }
}

fn name_why(why: NameWhy) -> SchemaWhy
    ensures { result ≡ name_why why }
{
    match why {
        NameWhy::NotAllowed => SchemaWhy::NameNotAllowed,
        NameWhy::TwiceDefined => SchemaWhy::TwiceDefined,
        NameWhy::UnknownClass => SchemaWhy::UnknownClass,
        NameWhy::UnknownKeyAttribute => SchemaWhy::UnknownKeyAttribute,
    }
}

/// The schema of the classes, or the first fault of their names.
fn checked(alloc: Global, classes: &[ClassAt<'_>]) -> Result<Schema, SchemaFault>
    requires { HaveKeys (map class_view classes.now) }
    ensures found { IfOk result
        (λ s. (s ≡ plain (map class_view classes.now)) × ((m : Mark) → Stands (map class_view classes.now) m → ⊥)) }
    ensures fault { IfErr result (IsMarked (map class_view classes.now)) }
{
    if let Some(mark) = first_mark(alloc, classes)? {
        return Err(SchemaFault::At {
            at: mark.at,
            why: name_why(mark.why),
        });
    }
    let plain = plain_classes(alloc, classes)?;
    Ok(Schema::make(alloc, plain)?)
}

/// The schema that a text writes, where types nest at most so many sets.
fn schema_within(alloc: Global, text: &[u8], sets: usize) -> Result<Schema, SchemaFault>
    ensures found { IfOk result (Writes sets text.now) }
    ensures fault { IfErr result (IsFault sets text.now) }
{
    let tokens = match tokens(alloc, text) {
        Ok(tokens) => tokens,
        Err(fault) => return Err(of_text(TextFault::from(fault))),
    };
    match schema_of(alloc, Lexemes::from_token(text, &tokens, 0), sets) {
        Ok(classes) => checked(alloc, classes.as_slice()),
        Err(stop) => Err(of_text(fault_at(stop, text.len()))),
    }
}

/// The schema that a text writes, in whose types at most 100 sets nest; else the first fault of the text, or want of memory.
///
/// The first fault is that of its tokens, then that of its syntax, and then the least place at which a name is at fault.
pub fn read_schema(alloc: Global, text: &[u8]) -> Result<Schema, SchemaFault>
    // What is read is written so.
    ensures found { IfOk result (Writes greatest_nesting text.now) }
    // What is written so is read, unless memory runs out.
    ensures only { (S : Classes) → Writes greatest_nesting text.now S → IsSchema S result }
    // What is refused is refused at its first fault.
    ensures fault { IfErr result (IsFault greatest_nesting text.now) }
    // A text that has a first fault is refused there, unless memory runs out.
    ensures only_fault { (at : ℕ) (w : SchemaWhy) → FaultOf greatest_nesting text.now at w → IsAt at w result }
{
    schema_within(alloc, text, SETS)
}
