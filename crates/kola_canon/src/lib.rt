//! The canonical text of values and types, and the encoding of structs as pairs.
#![tactic(auto)]

mod encoding;
mod spell;
mod text;

pub use encoding::{
    decode_by, encode, encode_type, encoding_goes_through_sets, encoding_has_an_inverse,
    encoding_keeps_order,
};
pub use text::{
    push_bytes, push_int, push_number, push_set, push_text, push_type, push_value, type_text,
    value_text,
};
