//! Sets, values and types, their copies, their canonical texts, and the encoding of structs.

use crate::samples::{Broken, term};
use kola_canon::{
    decode_by, encode, encode_type, push_bytes, push_int, push_number, push_set, push_text,
    push_type, push_value, type_text, value_text,
};
use kola_core::{Memory, Name, Text};
use kola_database::shaped;
use kola_term::{Const, LitSet, Term};
use kola_values::{Fields, Set, Ty, Value, ValueFields};
use std::alloc::Global;
use std::test::Fail;

fn is_text(found: &[u8], text: &str) -> bool {
    found == text.as_bytes()
}

/// Whether a set is printed so, as its copy is.
fn is_set(alloc: Global, set: &Set, text: &str) -> Result<bool, Memory> {
    let mut out = Vec::new(alloc);
    push_set(&mut out, set)?;
    let copy = set.copy()?;
    let again = value_text(alloc, &Value::Set(copy), &Ty::Unit)?;
    Ok(is_text(out.as_slice(), text) && is_text(again.as_slice(), text))
}

/// The set of a text's constant.
fn set_in(t: &Term) -> Option<&Set> {
    match t {
        Term::C(Const::Literals(set)) => Some(set.set()),
        _ => None,
    }
}

fn is_union(alloc: Global, a: &Set, b: &Set, text: &str) -> Result<bool, Memory> {
    let found = a.union(b)?;
    is_set(alloc, &found, text)
}

fn is_isect(alloc: Global, a: &Set, b: &Set, text: &str) -> Result<bool, Memory> {
    let found = a.isect(b)?;
    is_set(alloc, &found, text)
}

fn is_minus(alloc: Global, a: &Set, b: &Set, text: &str) -> Result<bool, Memory> {
    let found = a.minus(b)?;
    is_set(alloc, &found, text)
}

/// Whether two sets have this union, this intersection and this difference.
fn are_joined(alloc: Global, a: &str, b: &str, wanted: (&str, &str, &str)) -> Result<bool, Broken> {
    let a = term(alloc, a)?;
    let b = term(alloc, b)?;
    let (Some(a), Some(b)) = (set_in(&a), set_in(&b)) else {
        return Ok(false);
    };
    Ok(
        is_union(alloc, a, b, wanted.0)?
            && is_isect(alloc, a, b, wanted.1)?
            && is_minus(alloc, a, b, wanted.2)?,
    )
}

#[test]
fn sets(rt: HostRuntime) -> Result<(), Fail> {
    for (a, b, wanted) in [
        ("{2, 1, 2}", "{3, 2}", ("{1, 2, 3}", "{2}", "{1}")),
        ("{1}", "{1}", ("{1}", "{1}", "{}")),
        (
            "{\"b\", \"a\"}",
            "{\"\"}",
            ("{\"\", \"a\", \"b\"}", "{}", "{\"a\", \"b\"}"),
        ),
    ] {
        assert!(rt; are_joined(rt.alloc(), a, b, wanted)?, "{a} {b}");
    }
    Ok(())
}

fn ints(alloc: Global, ints: &[i64]) -> Result<Set, Memory> {
    let mut members = Vec::new(alloc);
    for n in ints {
        members.push(Value::Int(*n))?;
    }
    Set::from_members(alloc, members)
}

fn is_set_of(alloc: Global, numbers: &[i64], text: &str) -> Result<bool, Memory> {
    let set = ints(alloc, numbers)?;
    is_set(alloc, &set, text)
}

/// The number of members of these integers' set constant; none where it is none.
fn literals(alloc: Global, numbers: &[i64]) -> Result<Option<usize>, Memory> {
    let set = ints(alloc, numbers)?;
    match LitSet::make(set) {
        Some(literals) => {
            let copy = literals.copy()?;
            Ok(Some(copy.set().len()))
        }
        None => Ok(None),
    }
}

/// The number of members of the set of a set's members, which rise.
fn rising(alloc: Global) -> Result<usize, Memory> {
    let set = ints(alloc, &[5, 4])?;
    set.well_formed();
    let members = set.into_vec()?;
    let again = Set::from_rising(members)?;
    Ok(again.len())
}

#[test]
fn sets_of_members(rt: HostRuntime) -> Result<(), Fail> {
    let shown: [(&[i64], &str); 3] = [
        (&[], "{}"),
        (&[3, 1, 3], "{1, 3}"),
        (
            &[0, -9223372036854775808, 9223372036854775807],
            "{-9223372036854775808, 0, 9223372036854775807}",
        ),
    ];
    for (numbers, text) in shown {
        assert!(rt; is_set_of(rt.alloc(), numbers, text)?, "{text}");
    }
    assert_eq!(rt; literals(rt.alloc(), &[])?, None);
    assert_eq!(rt; literals(rt.alloc(), &[2, 1, 2])?, Some(2));
    assert_eq!(rt; rising(rt.alloc())?, 2);
    assert_eq!(rt; Set::new(rt.alloc())?.len(), 0);
    Ok(())
}

/// `struct(a: int, b: set<int>)`.
fn struct_type(alloc: Global) -> Result<Ty, Memory> {
    let mut fields = Fields::new(alloc);
    fields.push((Name::from_text(alloc, "a")?, Ty::Int))?;
    fields.push((Name::from_text(alloc, "b")?, Ty::set_of(alloc, Ty::Int)?))?;
    Ok(Ty::Struct(fields))
}

/// `struct(a: 1, b: {2})`.
fn struct_value(alloc: Global) -> Result<Value, Memory> {
    let mut fields = ValueFields::new(alloc);
    fields.push((Name::from_text(alloc, "a")?, Value::Int(1)))?;
    fields.push((Name::from_text(alloc, "b")?, Value::Set(ints(alloc, &[2])?)))?;
    Ok(Value::Struct(fields))
}

/// A pair of the struct and an object of the class.
fn pair_type(alloc: Global) -> Result<Ty, Memory> {
    let second = Ty::Class(Name::from_text(alloc, "Person")?);
    Ty::pair_of(alloc, struct_type(alloc)?, second)
}

fn pair_value(alloc: Global) -> Result<Value, Memory> {
    let second = Value::Obj(Name::from_text(alloc, "Person")?, 7);
    Value::pair_of(alloc, struct_value(alloc)?, second)
}

fn is_value(alloc: Global, v: &Value, text: &str) -> Result<bool, Memory> {
    let copy = v.copy()?;
    let found = value_text(alloc, &copy, &Ty::Unit)?;
    Ok(is_text(found.as_slice(), text))
}

fn is_type(alloc: Global, t: &Ty, text: &str) -> Result<bool, Memory> {
    let copy = t.copy()?;
    let found = type_text(alloc, &copy)?;
    Ok(is_text(found.as_slice(), text))
}

fn is_sample_value(alloc: Global, text: &str) -> Result<bool, Memory> {
    let v = pair_value(alloc)?;
    is_value(alloc, &v, text)
}

fn is_sample_type(alloc: Global, text: &str) -> Result<bool, Memory> {
    let t = pair_type(alloc)?;
    is_type(alloc, &t, text)
}

fn is_string(alloc: Global, given: &str, text: &str) -> Result<bool, Memory> {
    let v = Value::Str(Text::from_text(alloc, given)?);
    is_value(alloc, &v, text)
}

/// The texts of bytes, of numbers, and of a string, one after the other.
fn is_pushed(alloc: Global, text: &str) -> Result<bool, Memory> {
    let mut out = Vec::new(alloc);
    push_bytes(&mut out, b"-> ")?;
    push_number(&mut out, 18446744073709551615)?;
    push_int(&mut out, -7)?;
    push_text(&mut out, "a\"")?;
    Ok(is_text(out.as_slice(), text))
}

/// The text of the sample's type behind that of its value.
fn is_pushed_with_type(alloc: Global, text: &str) -> Result<bool, Memory> {
    let mut out = Vec::new(alloc);
    let v = struct_value(alloc)?;
    push_value(&mut out, &v)?;
    let t = struct_type(alloc)?;
    push_type(&mut out, &t)?;
    Ok(is_text(out.as_slice(), text))
}

#[test]
fn canonical_texts(rt: HostRuntime) -> Result<(), Fail> {
    assert!(rt; is_sample_value(rt.alloc(), "[struct(a: 1, b: {2}), Person#7]")?);
    assert!(rt; is_sample_type(rt.alloc(), "(struct(a: int, b: set<int>), Person)")?);
    assert!(rt; is_string(rt.alloc(), "x\n\u{1}", r#""x\n\u{1}""#)?);
    assert!(rt; is_pushed(rt.alloc(), r#"-> 18446744073709551615-7"a\"""#)?);
    assert!(rt;
        is_pushed_with_type(
            rt.alloc(),
            "struct(a: 1, b: {2})struct(a: int, b: set<int>)"
        )?
    );
    Ok(())
}

fn is_encoded(alloc: Global, v: &Value, t: &Ty, text: &str) -> Result<bool, Memory> {
    if !shaped(v, t) {
        return Ok(false);
    }
    let e = encode(alloc, v, t)?;
    is_value(alloc, &e, text)
}

/// Whether an encoding is decoded to the text, by the type of the values.
fn is_decoded(alloc: Global, e: &Value, t: &Ty, text: &str) -> Result<bool, Memory> {
    let encodings = encode_type(alloc, t)?;
    if !shaped(e, &encodings) {
        return Ok(false);
    }
    let v = decode_by(alloc, e, t)?;
    is_value(alloc, &v, text)
}

/// Whether the struct has this encoding.
fn has_encoding(alloc: Global, text: &str) -> Result<bool, Memory> {
    let t = struct_type(alloc)?;
    let v = struct_value(alloc)?;
    is_encoded(alloc, &v, &t, text)
}

/// `[1, {2}]`.
fn encoded(alloc: Global) -> Result<Value, Memory> {
    let second = Value::Set(ints(alloc, &[2])?);
    Value::pair_of(alloc, Value::Int(1), second)
}

/// Whether that encoding is decoded to the text, by the struct's type.
fn has_decoding(alloc: Global, text: &str) -> Result<bool, Memory> {
    let t = struct_type(alloc)?;
    let e = encoded(alloc)?;
    is_decoded(alloc, &e, &t, text)
}

fn has_encoded_type(alloc: Global, text: &str) -> Result<bool, Memory> {
    let t = struct_type(alloc)?;
    let encodings = encode_type(alloc, &t)?;
    is_type(alloc, &encodings, text)
}

#[test]
fn a_struct_and_its_pair(rt: HostRuntime) -> Result<(), Fail> {
    assert!(rt; has_encoding(rt.alloc(), "[1, {2}]")?);
    assert!(rt; has_decoding(rt.alloc(), "struct(a: 1, b: {2})")?);
    assert!(rt; has_encoded_type(rt.alloc(), "(int, set<int>)")?);
    Ok(())
}
