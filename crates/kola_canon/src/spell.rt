//! The canonical text written piece by piece: where memory is wanted, a front of it may stand behind what stood before.
ghost use Rattle.std.specs.Prelude.{◌≡◌, ◌+◌, ◌<◌, [], ◌∷◌, ◌++◌, map, codes, decimal, false, OnOk};
ghost use Rattle.std.specs.Fmt.{digits, digit_glyph, signed_decimal};
ghost use Rattle.std.specs.List.{flat_map};
ghost use Rattle.kola_values.specs.Types.{of_type_fields};
ghost use Rattle.kola_values.specs.Values.{VSet, of_items, of_fields};
ghost use Rattle.kola_values.specs.Views.{type_tree, type_entry, value_tree, value_entry};
ghost use Rattle.kola_canon.specs.Spelling.{escaped, quoted, value_spelling, members_spelling, fields_spelling, type_spelling, field_types_spelling};

use crate::push_bytes;
use kola_core::{Memory, Name};
use kola_values::{Set, Ty, Value};

// Adds a number in decimal digits, the last digit last.
pub(crate) fn spell_number(out: &mut Vec<u8>, n: u64) -> Result<(), Memory>
    ensures { OnOk result (out.new.items ≡ out.old.items ++ decimal n) }
{
    if n < 10 {
        return spell_digit(out, n);
    }
    spell_number(out, n / 10)?;
    spell_digit(out, n % 10)
}

fn spell_digit(out: &mut Vec<u8>, digit: u64) -> Result<(), Memory>
    requires { digit < 10 }
    ensures { OnOk result (out.new.items ≡ out.old.items ++ (48 + digit) ∷ []) }
{
    out.push(b'0' + digit as u8)?;
    Ok(())
}

// Adds an integer in decimal digits, behind a minus sign where it is below zero.
pub(crate) fn spell_int(out: &mut Vec<u8>, n: i64) -> Result<(), Memory>
    ensures { OnOk result (out.new.items ≡ out.old.items ++ signed_decimal n) }
{
    if n < 0 {
        push_bytes(out, b"-")?;
        return spell_number(out, n.unsigned_abs());
    }
    spell_number(out, n.unsigned_abs())
}

// Adds a string between double quotes, with its escapes.
pub(crate) fn spell_text(out: &mut Vec<u8>, text: &str) -> Result<(), Memory>
    ensures { OnOk result (out.new.items ≡ out.old.items ++ quoted text.now) }
{
    push_bytes(out, b"\"")?;
    spell_escaped(out, text.as_bytes())?;
    push_bytes(out, b"\"")
}

fn spell_escaped(out: &mut Vec<u8>, text: &[u8]) -> Result<(), Memory>
    ensures { OnOk result (out.new.items ≡ out.old.items ++ flat_map escaped text.now) }
{
    for byte in text {
        spell_byte(out, *byte)?;
    }
    Ok(())
}

fn spell_byte(out: &mut Vec<u8>, byte: u8) -> Result<(), Memory>
    ensures { OnOk result (out.new.items ≡ out.old.items ++ escaped byte) }
{
    match byte {
        b'"' => push_bytes(out, b"\\\""),
        b'\\' => push_bytes(out, b"\\\\"),
        b'\n' => push_bytes(out, b"\\n"),
        b'\t' => push_bytes(out, b"\\t"),
        0..=31 | 127 => spell_control(out, byte),
        _ => {
            out.push(byte)?;
            Ok(())
        }
    }
}

fn spell_control(out: &mut Vec<u8>, byte: u8) -> Result<(), Memory>
    ensures { OnOk result (out.new.items ≡ out.old.items ++ codes "\\u{" ++ digits 16 false byte ++ codes "}") }
{
    push_bytes(out, b"\\u{")?;
    spell_hex(out, byte)?;
    push_bytes(out, b"}")
}

// Hexadecimal digits, with no zero before them.
fn spell_hex(out: &mut Vec<u8>, byte: u8) -> Result<(), Memory>
    ensures { OnOk result (out.new.items ≡ out.old.items ++ digits 16 false byte) }
{
    if byte < 16 {
        out.push(hex_digit(byte))?;
        return Ok(());
    }
    out.push(hex_digit(byte / 16))?;
    out.push(hex_digit(byte % 16))?;
    Ok(())
}

fn hex_digit(n: u8) -> u8
    requires { n < 16 }
    ensures { result ≡ digit_glyph false n }
{
    if n < 10 { b'0' + n } else { b'a' + (n - 10) }
}

// Adds the canonical text of a value.
#[cycle(spell_value)]
pub(crate) fn spell_value(out: &mut Vec<u8>, v: &Value) -> Result<(), Memory>
    ensures { OnOk result (out.new.items ≡ out.old.items ++ value_spelling (value_tree v.now)) }
{
    match v {
        Value::Unit => push_bytes(out, b"unit"),
        Value::Int(n) => spell_int(out, *n),
        Value::Bool(b) => push_bytes(out, if *b { b"true" } else { b"false" }),
        Value::Str(text) => spell_text(out, text.as_text()),
        Value::Obj(class, id) => {
            push_bytes(out, class.as_text().as_bytes())?;
            push_bytes(out, b"#")?;
            spell_number(out, u64::from(*id))
        }
        Value::Pair(a, b) => {
            push_bytes(out, b"[")?;
            spell_value(out, a.get())?;
            push_bytes(out, b", ")?;
            spell_value(out, b.get())?;
            push_bytes(out, b"]")
        }
        Value::Struct(fields) => {
            push_bytes(out, b"struct(")?;
            spell_fields(out, fields.as_slice())?;
            push_bytes(out, b")")
        }
        Value::Set(set) => spell_set(out, set),
    }
}

// Adds the canonical text of a set.
#[cycle(spell_value)]
pub(crate) fn spell_set(out: &mut Vec<u8>, set: &Set) -> Result<(), Memory>
    ensures { OnOk result (out.new.items ≡ out.old.items ++ value_spelling (VSet (of_items set.now))) }
{
    push_bytes(out, b"{")?;
    spell_members(out, set.as_slice())?;
    push_bytes(out, b"}")
}

#[cycle(spell_value)]
fn spell_members(out: &mut Vec<u8>, members: &[Value]) -> Result<(), Memory>
    ensures { OnOk result (out.new.items ≡ out.old.items ++ members_spelling (of_items (map value_tree members.now))) }
{
    let Some((first, others)) = members.split_first() else {
        return Ok(());
    };
    spell_value(out, first)?;
    for member in others {
        push_bytes(out, b", ")?;
        spell_value(out, member)?;
    }
    Ok(())
}

#[cycle(spell_value)]
fn spell_fields(out: &mut Vec<u8>, fields: &[(Name, Value)]) -> Result<(), Memory>
    ensures { OnOk result (out.new.items ≡ out.old.items ++ fields_spelling (of_fields (map value_entry fields.now))) }
{
    let Some(((label, v), others)) = fields.split_first() else {
        return Ok(());
    };
    spell_label(out, label)?;
    spell_value(out, v)?;
    for (label, v) in others {
        push_bytes(out, b", ")?;
        spell_label(out, label)?;
        spell_value(out, v)?;
    }
    Ok(())
}

fn spell_label(out: &mut Vec<u8>, label: &Name) -> Result<(), Memory>
    ensures { OnOk result (out.new.items ≡ out.old.items ++ (label.now ++ codes ": ")) }
{
    push_bytes(out, label.as_text().as_bytes())?;
    push_bytes(out, b": ")
}

// Adds the text of a type.
#[cycle(spell_type)]
pub(crate) fn spell_type(out: &mut Vec<u8>, t: &Ty) -> Result<(), Memory>
    ensures { OnOk result (out.new.items ≡ out.old.items ++ type_spelling (type_tree t.now)) }
{
    match t {
        Ty::Int => push_bytes(out, b"int"),
        Ty::Str => push_bytes(out, b"string"),
        Ty::Bool => push_bytes(out, b"bool"),
        Ty::Unit => push_bytes(out, b"unit"),
        Ty::Class(name) | Ty::Var(name) => push_bytes(out, name.as_text().as_bytes()),
        Ty::Set(t) => {
            push_bytes(out, b"set<")?;
            spell_type(out, t.get())?;
            push_bytes(out, b">")
        }
        Ty::Pair(t, u) => {
            push_bytes(out, b"(")?;
            spell_type(out, t.get())?;
            push_bytes(out, b", ")?;
            spell_type(out, u.get())?;
            push_bytes(out, b")")
        }
        Ty::Struct(fields) => {
            push_bytes(out, b"struct(")?;
            spell_field_types(out, fields.as_slice())?;
            push_bytes(out, b")")
        }
    }
}

#[cycle(spell_type)]
fn spell_field_types(out: &mut Vec<u8>, fields: &[(Name, Ty)]) -> Result<(), Memory>
    ensures { OnOk result (out.new.items
        ≡ out.old.items ++ field_types_spelling (of_type_fields (map type_entry fields.now))) }
{
    let Some(((label, t), others)) = fields.split_first() else {
        return Ok(());
    };
    spell_label(out, label)?;
    spell_type(out, t)?;
    for (label, t) in others {
        push_bytes(out, b", ")?;
        spell_label(out, label)?;
        spell_type(out, t)?;
    }
    Ok(())
}
