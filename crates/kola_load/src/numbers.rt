//! What the numbers of a JSON text write.
ghost use Rattle.std.specs.Prelude.{◌≡◌, ◌<◌, ◌==◌, true, false, IsTrue, length, slice_index, is_some, option_map, option_and_then};
ghost use Rattle.serde_json.specs.Find.{as_i64};
ghost use Rattle.serde_json.specs.Read.{number_of, number_from, float_of};

use fast_float::Numeral;

// A float has no integer; nothing where it is too large.
fn float(negative: bool, numeral: &Numeral<'_>) -> Option<Option<i64>>
    ensures { result ≡ option_map as_i64 (float_of negative numeral.now) }
{
    if numeral.to_float::<f64>(negative).is_finite() {
        Some(None)
    } else {
        None
    }
}

// The integer of a number without a sign.
fn unsigned(numeral: &Numeral<'_>) -> Option<Option<i64>>
    ensures { result ≡ option_map as_i64 (number_from false numeral.now) }
{
    match numeral.to_u64() {
        Some(n) if n <= i64::MAX as u64 => Some(Some(n as i64)),
        Some(_) => Some(None),
        None => float(false, numeral),
    }
}

// The integer of a number with a minus; `-0` is a float.
fn negative(numeral: &Numeral<'_>) -> Option<Option<i64>>
    ensures { result ≡ option_map as_i64 (number_from true numeral.now) }
{
    if let Some(n) = numeral.to_i64(true) {
        if n < 0 {
            return Some(Some(n));
        }
    }
    float(true, numeral)
}

// Whether a minus comes first.
fn has_minus(bytes: &[u8]) -> bool
    ensures value { result ≡ (slice_index bytes.now 0 == 45) }
    ensures len { IsTrue result → 0 < length bytes.now }
{
    !bytes.is_empty() && bytes[0] == b'-'
}

// What a number writes: an integer of 64 bits, or any other number; nothing where it is too large for a float.
fn number_of(text: &str) -> Option<Option<i64>>
    ensures { result ≡ option_map as_i64 (number_of text.now) }
{
    let bytes = text.as_bytes();
    if has_minus(bytes) {
        negative(&Numeral::scan(&bytes[1..]))
    } else {
        unsigned(&Numeral::scan(bytes))
    }
}

// Whether a number is not too large for a float.
pub(crate) fn number_fits(text: &str) -> bool
    ensures { result ≡ is_some (number_of text.now) }
{
    number_of(text).is_some()
}

// The integer of 64 bits that a number writes.
pub(crate) fn integer_in(text: &str) -> Option<i64>
    ensures { result ≡ option_and_then as_i64 (number_of text.now) }
{
    number_of(text)?
}
