//! The encoding of structs as pairs nested to the right, and its inverse by a type.
ghost use Rattle.std.specs.Prelude.{◌≡◌, List, map, IfOk};
ghost use Rattle.kola_values.specs.Values.{ValueTree, of_fields};
ghost use Rattle.kola_values.specs.Types.{TypeTree, of_type_fields};
ghost use Rattle.kola_values.specs.Order.{cmp};
ghost use Rattle.kola_values.specs.Sets.{Each, set_of};
ghost use Rattle.kola_values.specs.Databases.{Objects, HasType};
ghost use Rattle.kola_values.specs.WellFormed.{WellFormed, WellFormedFields};
ghost use Rattle.kola_values.specs.Shapes.{Shaped};
ghost use Rattle.kola_canon.specs.Encoding.{enc, enc_fields, enc_type, enc_field_types, dec, dec_fields};
ghost use Rattle.kola_values.specs.Views.{type_tree, type_entry, value_tree, value_entry};

use kola_core::{Memory, Name};
use kola_values::{Set, Ty, Value, ValueFields};
use std::alloc::Global;

/// The type of the encodings of a type's values: a struct of one field is that field's type, and one of more is the pair of the first field's
/// type and of the rest. Labels are lost. `Memory` is the only error.
#[cycle(encode_type)]
pub fn encode_type(alloc: Global, t: &Ty) -> Result<Ty, Memory>
    ensures { IfOk result (λ e. type_tree e ≡ enc_type (type_tree t.now)) }
{
    match t {
        Ty::Set(t) => Ty::set_of(alloc, encode_type(alloc, t.get())?),
        Ty::Pair(t, u) => Ty::pair_of(
            alloc,
            encode_type(alloc, t.get())?,
            encode_type(alloc, u.get())?,
        ),
        Ty::Struct(fields) => encode_field_types(alloc, fields.as_slice()),
        _ => t.copy(),
    }
}

// From the last field to the first, so that the pairs nest to the right.
#[cycle(encode_type)]
fn encode_field_types(alloc: Global, fields: &[(Name, Ty)]) -> Result<Ty, Memory>
    ensures { IfOk result (λ e. type_tree e ≡ enc_field_types (of_type_fields (map type_entry fields.now))) }
{
    let mut left = fields.len();
    if left == 0 {
        return Ok(Ty::Unit);
    }
    left -= 1;
    let mut all = encode_type(alloc, &fields[left].1)?;
    while left > 0 {
        left -= 1;
        let first = encode_type(alloc, &fields[left].1)?;
        all = Ty::pair_of(alloc, first, all)?;
    }
    Ok(all)
}

/// The encoding of a value of a type: a struct of one field is that field's value, and one of more is the pair of the first field's value and
/// of the rest; sets are encoded member by member. `Memory` is the only error. The type is not read: it says what the value is.
pub fn encode(alloc: Global, v: &Value, t: &Ty) -> Result<Value, Memory>
    requires { Shaped (value_tree v.now) (type_tree t.now) }
    ensures { IfOk result (λ e. value_tree e ≡ enc (value_tree v.now)) }
{
    v.well_formed();
    encoded(alloc, v)
}

#[cycle(encoded)]
fn encoded(alloc: Global, v: &Value) -> Result<Value, Memory>
    requires { WellFormed (enc (value_tree v.now)) }
    ensures { IfOk result (λ e. value_tree e ≡ enc (value_tree v.now)) }
{
    match v {
        Value::Pair(a, b) => {
            Value::pair_of(alloc, encoded(alloc, a.get())?, encoded(alloc, b.get())?)
        }
        Value::Struct(fields) => encoded_fields(alloc, fields.as_slice()),
        Value::Set(set) => {
            let members = encoded_members(alloc, set.as_slice())?;
            Ok(Value::Set(Set::from_rising(members)?))
        }
        _ => v.copy(),
    }
}

// From the last field to the first, so that the pairs nest to the right.
#[cycle(encoded)]
fn encoded_fields(alloc: Global, fields: &[(Name, Value)]) -> Result<Value, Memory>
    requires { WellFormed (enc_fields (of_fields (map value_entry fields.now))) }
    ensures { IfOk result (λ e. value_tree e ≡ enc_fields (of_fields (map value_entry fields.now))) }
{
    let mut left = fields.len();
    if left == 0 {
        return Ok(Value::Unit);
    }
    left -= 1;
    let mut all = encoded(alloc, &fields[left].1)?;
    while left > 0 {
        left -= 1;
        let first = encoded(alloc, &fields[left].1)?;
        all = Value::pair_of(alloc, first, all)?;
    }
    Ok(all)
}

#[cycle(encoded)]
fn encoded_members(alloc: Global, members: &[Value]) -> Result<Vec<Value>, Memory>
    requires { Each WellFormed (map enc (map value_tree members.now)) }
    ensures { IfOk result (λ r. map value_tree r.items ≡ map enc (map value_tree members.now)) }
{
    let mut all = Vec::new(alloc);
    for member in members {
        all.push(encoded(alloc, member)?)?;
    }
    Ok(all)
}

/// The value of a type whose encoding is `v`: pairs become the structs that the type has there, with its labels. There is one such value.
/// `Memory` is the only error.
pub fn decode_by(alloc: Global, v: &Value, t: &Ty) -> Result<Value, Memory>
    requires { Shaped (value_tree v.now) (enc_type (type_tree t.now)) }
    ensures { IfOk result (λ w. (enc (value_tree w) ≡ value_tree v.now) × Shaped (value_tree w) (type_tree t.now)) }
{
    v.well_formed();
    decoded(alloc, v, t)
}

#[cycle(decoded)]
fn decoded(alloc: Global, v: &Value, t: &Ty) -> Result<Value, Memory>
    requires { WellFormed (dec (type_tree t.now) (value_tree v.now)) }
    ensures { IfOk result (λ w. value_tree w ≡ dec (type_tree t.now) (value_tree v.now)) }
{
    match (t, v) {
        (Ty::Pair(t, u), Value::Pair(a, b)) => Value::pair_of(
            alloc,
            decoded(alloc, a.get(), t.get())?,
            decoded(alloc, b.get(), u.get())?,
        ),
        (Ty::Struct(types), _) => Ok(Value::Struct(decoded_fields(alloc, v, types.as_slice())?)),
        (Ty::Set(t), Value::Set(set)) => {
            let members = decoded_members(alloc, set.as_slice(), t.get())?;
            Ok(Value::Set(Set::from_rising(members)?))
        }
        _ => v.copy(),
    }
}

#[cycle(decoded)]
fn decoded_fields(alloc: Global, v: &Value, types: &[(Name, Ty)]) -> Result<ValueFields, Memory>
    requires { WellFormedFields (dec_fields (of_type_fields (map type_entry types.now)) (value_tree v.now)) }
    ensures { IfOk result (λ fs. of_fields fs
        ≡ dec_fields (of_type_fields (map type_entry types.now)) (value_tree v.now)) }
{
    let mut fields = ValueFields::new(alloc);
    let mut rest = v;
    let mut done = 0;
    while done + 1 < types.len() {
        let Value::Pair(first, others) = rest else {
            return Ok(fields);
        };
        fields.push(decoded_field(alloc, first.get(), &types[done])?)?;
        rest = others.get();
        done += 1;
    }
    if done == types.len() {
        return Ok(fields);
    }
    fields.push(decoded_field(alloc, rest, &types[done])?)?;
    Ok(fields)
}

#[cycle(decoded)]
fn decoded_field(alloc: Global, v: &Value, field: &(Name, Ty)) -> Result<(Name, Value), Memory>
    requires { WellFormed (dec (type_tree field.now.1) (value_tree v.now)) }
    ensures { IfOk result (λ f. value_entry f ≡ (field.now.0, dec (type_tree field.now.1) (value_tree v.now))) }
{
    Ok((field.0.copy()?, decoded(alloc, v, &field.1)?))
}

#[cycle(decoded)]
fn decoded_members(alloc: Global, members: &[Value], t: &Ty) -> Result<Vec<Value>, Memory>
    requires { Each WellFormed (map (dec (type_tree t.now)) (map value_tree members.now)) }
    ensures { IfOk result (λ r. map value_tree r.items ≡ map (dec (type_tree t.now)) (map value_tree members.now)) }
{
    let mut all = Vec::new(alloc);
    for member in members {
        all.push(decoded(alloc, member, t)?)?;
    }
    Ok(all)
}

/// The encoding keeps the order of the values of one type, and so their sets rise as before; two of them with one encoding are the same.
pub fn encoding_keeps_order()
    ensures order { (t : TypeTree) (v w : ValueTree) → Shaped v t → Shaped w t → cmp (enc v) (enc w) ≡ cmp v w }
    ensures exact { (t : TypeTree) (v w : ValueTree) → Shaped v t → Shaped w t → enc v ≡ enc w → v ≡ w }
{}

/// The encoding of the set of some values of one type is the set of their encodings.
pub fn encoding_goes_through_sets()
    ensures { (t : TypeTree) (vs : List ValueTree) → Each (λ v. Shaped v t) vs → enc (set_of vs) ≡ set_of (map enc vs) }
{}

/// A value of a type has its shape. The encoding of a value of a type's shape has the shape of the encoded type, and decoding gives the value
/// back; each value of the shape of the encoded type is the encoding of what it decodes to.
pub fn encoding_has_an_inverse()
    ensures typed { (d : Objects) (t : TypeTree) (v : ValueTree) → HasType d v t → Shaped v t }
    ensures encoded { (t : TypeTree) (v : ValueTree) → Shaped v t → Shaped (enc v) (enc_type t) }
    ensures back { (t : TypeTree) (v : ValueTree) → Shaped v t → dec t (enc v) ≡ v }
    ensures onto { (t : TypeTree) (v : ValueTree) → Shaped v (enc_type t) → (enc (dec t v) ≡ v) × Shaped (dec t v) t }
{}
