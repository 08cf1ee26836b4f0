//! The JSON value of a text.
ghost use Rattle.std.specs.Prelude.{◌≡◌, Some, IfOk, IfErr, is_some, option_and_then};
ghost use Rattle.json.specs.Json.{value, if_last};
ghost use Rattle.json.specs.Value.{value_view};
ghost use Rattle.serde_json.specs.Read.{of_json};
ghost use Rattle.kola_load.specs.Calls.{IsOfText, IsOfTokens, read_of};
ghost use Rattle.kola_load.specs.JsonViews.{view};
ghost use Rattle.kola_load.specs.Loaded.{is_blank, json_text, Reads};
ghost use Rattle.std.specs.List.{list_all};
ghost use Rattle.std.specs.Str.{IsUtf8};

use crate::DbFault;
use crate::fitting::value_fits;
use json::{Error, Reader, Scratch, Value};
use std::alloc::Global;
use std::str;

// How deep arrays and objects may nest.
const MAX_DEPTH: usize = 127;

// Whether a byte is a blank, a tab or one of a line's end.
fn is_blank(byte: u8) -> bool
    ensures { result ≡ is_blank byte }
{
    matches!(byte, b' ' | b'\t' | b'\n' | b'\r')
}

// Whether every byte of a text is.
fn are_blanks(text: &[u8]) -> bool
    ensures { result ≡ list_all is_blank text.now }
{
    text.iter().all(|byte| is_blank(*byte))
}

// The text; in place of one of blanks an object without members.
fn json_text(text: &[u8]) -> &[u8]
    ensures { result.now ≡ json_text text.now }
{
    if are_blanks(text) { b"{}" } else { text }
}

// The value that comes first among the tokens.
fn first_value<'a>(alloc: Global, reader: &mut Reader<'a>) -> Result<Value<'a>, DbFault>
    ensures ok { IfOk result (λ v. value 127 reader.old ≡ Some (value_view v, reader.new)) }
    ensures err { IfErr result (λ e. IsOfTokens (value 127 reader.old) e) }
{
    match Value::read(alloc, reader, MAX_DEPTH) {
        Ok(value) => Ok(value),
        Err(Error::OutOfMemory) => Err(DbFault::Memory),
        Err(_) => Err(DbFault::NotJson),
    }
}

// Whether a value reads as data, and no token stands behind it.
fn is_whole(value: &Value<'_>, reader: &mut Reader<'_>) -> bool
    ensures { result ≡ is_some (option_and_then of_json (if_last (value_view value.now) reader.old)) }
{
    match reader.next() {
        Some(_) => false,
        None => value_fits(value),
    }
}

// The value that the tokens are.
fn whole_value<'a>(alloc: Global, reader: &mut Reader<'a>) -> Result<Value<'a>, DbFault>
    ensures ok { IfOk result (λ v. read_of reader.old ≡ Some (view v)) }
    ensures err { IfErr result (λ e. IsOfTokens (read_of reader.old) e) }
{
    let value = first_value(alloc, reader)?;
    if is_whole(&value, reader) {
        Ok(value)
    } else {
        Err(DbFault::NotJson)
    }
}

// The value that a text reads as. Its texts are lent by the text and by the scratch.
pub(crate) fn read_json<'a>(
    alloc: Global,
    text: &'a [u8],
    scratch: &'a mut Scratch,
) -> Result<Value<'a>, DbFault>
    ensures ok { IfOk result (λ v. Reads text.now (view v)) }
    ensures err { IfErr result (λ e. IsOfText text.now e) }
{
    let Ok(text) = str::from_utf8(json_text(text)) else {
        return Err(DbFault::NotJson);
    };
    let mut reader = Reader::new(text, scratch)?;
    whole_value(alloc, &mut reader)
}
