//! The lines of the faults of schemas, rules, queries and databases, and of a spent limit of visits.

ghost use Rattle.std.specs.Prelude.{◌≡◌, ◌++◌, IfOk, OnOk};
ghost use Rattle.std.specs.String.{string_bytes};
ghost use Rattle.oql_syntax.specs.QueryAnswers.{why_cause};
ghost use Rattle.oql_syntax.specs.QueryFaults.{CNotInProfile};
ghost use Rattle.kola_top.specs.FaultLines.{schema_line, rules_line, rule_line, query_fault_line, query_type_line, too_large_line, visits_line, name_field, text_field, number_field, at_number, database_fields, database_line};

use crate::output::query_line;
use kola_base::TextWhy;
use kola_canon::{push_bytes, push_number, push_text};
use kola_core::{Memory, Name, Text};
use kola_load::{DbFault, SchemaWhy};
use kola_proof::StepWhy;
use oql_check::CheckWhy;
use oql_syntax::QueryWhy;
use std::alloc::{AllocError, Global};

/// The line of a fault of the schema's text, at a place in it.
pub fn schema_line(alloc: Global, at: usize, why: SchemaWhy) -> Result<String, AllocError>
    ensures { IfOk result (λ s. string_bytes s ≡ schema_line at why) }
{
    let cause = why.name();
    format!(in alloc; "fault: schema at {at}: {cause}\n")
}

/// The line of a fault of the text of the rules, at a place in it.
pub fn rules_line(alloc: Global, at: usize, why: TextWhy) -> Result<String, AllocError>
    ensures { IfOk result (λ s. string_bytes s ≡ rules_line at why) }
{
    let cause = why.name();
    format!(in alloc; "fault: rules at {at}: {cause}\n")
}

/// The line of a rule that is refused, at a step of its proof.
pub fn rule_line(
    alloc: Global,
    name: &Name,
    step: usize,
    why: StepWhy,
) -> Result<String, AllocError>
    ensures { IfOk result (λ s. string_bytes s ≡ rule_line name.now step why) }
{
    let name = name.as_text();
    let cause = why.name();
    format!(in alloc; "fault: rule {name} step {step}: {cause}\n")
}

/// The line of a query's text that names a word outside the profile.
fn not_in_profile_line(alloc: Global, at: usize, word: &Name) -> Result<String, AllocError>
    ensures { IfOk result (λ s. string_bytes s ≡ query_fault_line at (CNotInProfile word.now)) }
{
    let word = word.as_text();
    format!(in alloc; "fault: query at {at}: NotInProfile {word}\n")
}

/// The line of a fault of the query's text, at a place in it.
pub fn query_fault_line(alloc: Global, at: usize, why: &QueryWhy) -> Result<String, AllocError>
    ensures { IfOk result (λ s. string_bytes s ≡ query_fault_line at (why_cause why.now)) }
{
    match why {
        QueryWhy::NotInProfile { word } => not_in_profile_line(alloc, at, word),
        _ => query_line(alloc, at, why.name()),
    }
}

/// The line of a query that has no type, for what stands at a place in its text.
pub fn query_type_line(alloc: Global, at: usize, why: CheckWhy) -> Result<String, AllocError>
    ensures { IfOk result (λ s. string_bytes s ≡ query_type_line at why) }
{
    query_line(alloc, at, why.name())
}

/// The line of a query whose term is larger than a term may be.
pub fn too_large_line(alloc: Global) -> Result<Vec<u8>, Memory>
    ensures { IfOk result (λ v. v.items ≡ too_large_line) }
{
    let mut out = Vec::new(alloc);
    push_bytes(&mut out, b"fault: term too large\n")?;
    Ok(out)
}

/// The line of a query whose term would visit more members than so many.
pub fn visits_line(alloc: Global, limit: u64) -> Result<String, AllocError>
    ensures { IfOk result (λ s. string_bytes s ≡ visits_line limit) }
{
    format!(in alloc; "fault: visits passed {limit}\n")
}

fn push_name_field(out: &mut Vec<u8>, name: &Name) -> Result<(), Memory>
    ensures { OnOk result (out.new.items ≡ out.old.items ++ name_field name.now) }
{
    push_bytes(out, b" ")?;
    push_bytes(out, name.as_text().as_bytes())
}

fn push_text_field(out: &mut Vec<u8>, text: &Text) -> Result<(), Memory>
    ensures { OnOk result (out.new.items ≡ out.old.items ++ text_field text.now) }
{
    push_bytes(out, b" ")?;
    push_text(out, text.as_text())
}

fn push_number_field(out: &mut Vec<u8>, number: u64) -> Result<(), Memory>
    ensures { OnOk result (out.new.items ≡ out.old.items ++ number_field number) }
{
    push_bytes(out, b" ")?;
    push_number(out, number)
}

/// The class or extent, and a number.
fn push_numbered(out: &mut Vec<u8>, name: &Name, number: u64) -> Result<(), Memory>
    ensures { OnOk result (out.new.items ≡ out.old.items ++ at_number name.now number) }
{
    push_name_field(out, name)?;
    push_number_field(out, number)
}

/// The class, an object's id and one of its attributes.
fn push_attribute(out: &mut Vec<u8>, class: &Name, id: u32, name: &Name) -> Result<(), Memory>
    ensures { OnOk result (out.new.items ≡ out.old.items ++ (at_number class.now id ++ name_field name.now)) }
{
    push_numbered(out, class, u64::from(id))?;
    push_name_field(out, name)
}

/// The class, an object's id and the name of a member that is no attribute.
fn push_member(out: &mut Vec<u8>, class: &Name, id: u32, name: &Text) -> Result<(), Memory>
    ensures { OnOk result (out.new.items ≡ out.old.items ++ (at_number class.now id ++ text_field name.now)) }
{
    push_numbered(out, class, u64::from(id))?;
    push_text_field(out, name)
}

/// An attribute, and the id of the object that it names.
fn push_target(out: &mut Vec<u8>, name: &Name, target: u32) -> Result<(), Memory>
    ensures { OnOk result (out.new.items ≡ out.old.items ++ (name_field name.now ++ number_field target)) }
{
    push_name_field(out, name)?;
    push_number_field(out, u64::from(target))
}

/// The ids of two objects.
fn push_ids(out: &mut Vec<u8>, first: u32, second: u32) -> Result<(), Memory>
    ensures { OnOk result (out.new.items ≡ out.old.items ++ (number_field first ++ number_field second)) }
{
    push_number_field(out, u64::from(first))?;
    push_number_field(out, u64::from(second))
}

fn push_missing_object(
    out: &mut Vec<u8>,
    class: &Name,
    id: u32,
    name: &Name,
    target: u32,
) -> Result<(), Memory>
    ensures { OnOk result (out.new.items ≡ out.old.items
        ++ (at_number class.now id ++ (name_field name.now ++ number_field target))) }
{
    push_numbered(out, class, u64::from(id))?;
    push_target(out, name, target)
}

fn push_repeated_key(
    out: &mut Vec<u8>,
    class: &Name,
    key: usize,
    first: u32,
    second: u32,
) -> Result<(), Memory>
    ensures { OnOk result (out.new.items ≡ out.old.items
        ++ (at_number class.now key ++ (number_field first ++ number_field second))) }
{
    push_numbered(out, class, key as u64)?;
    push_ids(out, first, second)
}

fn push_database_fields(out: &mut Vec<u8>, fault: &DbFault) -> Result<(), Memory>
    ensures { OnOk result (out.new.items ≡ out.old.items ++ database_fields fault.now) }
{
    match fault {
        DbFault::NotJson | DbFault::NotObject | DbFault::Memory => Ok(()),
        DbFault::UnknownExtent { name } => push_text_field(out, name),
        DbFault::NotAnArray { extent } => push_name_field(out, extent),
        DbFault::NotAnObject { extent, index } | DbFault::BadId { extent, index } => {
            push_numbered(out, extent, *index as u64)
        }
        DbFault::TwiceId { extent, id } => push_numbered(out, extent, u64::from(*id)),
        DbFault::UnknownAttribute { class, id, name } => push_member(out, class, *id, name),
        DbFault::MissingAttribute { class, id, name } | DbFault::WrongType { class, id, name } => {
            push_attribute(out, class, *id, name)
        }
        DbFault::NoSuchObject {
            class,
            id,
            name,
            target,
        } => push_missing_object(out, class, *id, name, *target),
        DbFault::KeyRepeats {
            class,
            key,
            first,
            second,
        } => push_repeated_key(out, class, *key, *first, *second),
    }
}

/// The line of a fault of the database.
pub fn database_line(alloc: Global, fault: &DbFault) -> Result<Vec<u8>, Memory>
    ensures { IfOk result (λ v. v.items ≡ database_line fault.now) }
{
    let mut out = Vec::new(alloc);
    push_bytes(&mut out, b"fault: database: ")?;
    push_bytes(&mut out, fault.name().as_bytes())?;
    push_database_fields(&mut out, fault)?;
    push_bytes(&mut out, b"\n")?;
    Ok(out)
}
