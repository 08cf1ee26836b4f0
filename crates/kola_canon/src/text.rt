//! The canonical text of values and types.
ghost use Rattle.std.specs.Prelude.{◌≡◌, ◌++◌, decimal, IfOk, OnOk, OnErr};
ghost use Rattle.std.specs.Fmt.{signed_decimal};
ghost use Rattle.kola_values.specs.Values.{VSet, of_items};
ghost use Rattle.kola_values.specs.Views.{type_tree, value_tree};
ghost use Rattle.kola_canon.specs.Spelling.{quoted, value_spelling, type_spelling};

use crate::spell::{spell_int, spell_number, spell_set, spell_text, spell_type, spell_value};
use kola_core::Memory;
use kola_values::{Set, Ty, Value};
use std::alloc::Global;

/// The canonical text of a value, which follows from the value alone, whatever its type `t`. A query has no value of type `unit` and
/// no pair: they print as `unit` and as `[a, b]`.
pub fn value_text(alloc: Global, v: &Value, t: &Ty) -> Result<Vec<u8>, Memory>
    ensures { IfOk result (λ text. text.items ≡ value_spelling (value_tree v.now)) }
{
    let mut out = Vec::new(alloc);
    spell_value(&mut out, v)?;
    Ok(out)
}

/// The text of a type. A query has no type `unit`, no pair and no type variable: they print as `unit`, as `(T, U)` and as their name.
pub fn type_text(alloc: Global, t: &Ty) -> Result<Vec<u8>, Memory>
    ensures { IfOk result (λ text. text.items ≡ type_spelling (type_tree t.now)) }
{
    let mut out = Vec::new(alloc);
    spell_type(&mut out, t)?;
    Ok(out)
}

/// Adds bytes at the end of a text. Where memory is wanted, the buffer stays as it was.
pub fn push_bytes(out: &mut Vec<u8>, bytes: &[u8]) -> Result<(), Memory>
    ensures ok { OnOk result (out.new.items ≡ out.old.items ++ bytes.now) }
    ensures err { OnErr result (out.new.items ≡ out.old.items) }
{
    out.extend_from_slice(bytes)?;
    Ok(())
}

/// Adds a number in decimal digits. Where memory is wanted, the buffer stays as it was.
pub fn push_number(out: &mut Vec<u8>, n: u64) -> Result<(), Memory>
    ensures ok { OnOk result (out.new.items ≡ out.old.items ++ decimal n) }
    ensures err { OnErr result (out.new.items ≡ out.old.items) }
{
    let mut text = Vec::new(*out.allocator());
    spell_number(&mut text, n)?;
    push_bytes(out, &text)
}

/// Adds an integer in decimal digits, behind a minus sign where it is below zero. Where memory is wanted, the buffer stays as it was.
pub fn push_int(out: &mut Vec<u8>, n: i64) -> Result<(), Memory>
    ensures ok { OnOk result (out.new.items ≡ out.old.items ++ signed_decimal n) }
    ensures err { OnErr result (out.new.items ≡ out.old.items) }
{
    let mut text = Vec::new(*out.allocator());
    spell_int(&mut text, n)?;
    push_bytes(out, &text)
}

/// Adds a string between double quotes, with its escapes. Where memory is wanted, the buffer stays as it was.
pub fn push_text(out: &mut Vec<u8>, text: &str) -> Result<(), Memory>
    ensures ok { OnOk result (out.new.items ≡ out.old.items ++ quoted text.now) }
    ensures err { OnErr result (out.new.items ≡ out.old.items) }
{
    let mut quoted = Vec::new(*out.allocator());
    spell_text(&mut quoted, text)?;
    push_bytes(out, &quoted)
}

/// Adds the canonical text of a value. Where memory is wanted, the buffer stays as it was.
pub fn push_value(out: &mut Vec<u8>, v: &Value) -> Result<(), Memory>
    ensures ok { OnOk result (out.new.items ≡ out.old.items ++ value_spelling (value_tree v.now)) }
    ensures err { OnErr result (out.new.items ≡ out.old.items) }
{
    let mut text = Vec::new(*out.allocator());
    spell_value(&mut text, v)?;
    push_bytes(out, &text)
}

/// Adds the canonical text of a set. Where memory is wanted, the buffer stays as it was.
pub fn push_set(out: &mut Vec<u8>, set: &Set) -> Result<(), Memory>
    ensures ok { OnOk result (out.new.items ≡ out.old.items ++ value_spelling (VSet (of_items set.now))) }
    ensures err { OnErr result (out.new.items ≡ out.old.items) }
{
    let mut text = Vec::new(*out.allocator());
    spell_set(&mut text, set)?;
    push_bytes(out, &text)
}

/// Adds the text of a type. Where memory is wanted, the buffer stays as it was.
pub fn push_type(out: &mut Vec<u8>, t: &Ty) -> Result<(), Memory>
    ensures ok { OnOk result (out.new.items ≡ out.old.items ++ type_spelling (type_tree t.now)) }
    ensures err { OnErr result (out.new.items ≡ out.old.items) }
{
    let mut text = Vec::new(*out.allocator());
    spell_type(&mut text, t)?;
    push_bytes(out, &text)
}
