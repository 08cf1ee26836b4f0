//! The strings between quotes: their bytes, and their first fault.

ghost use Rattle.std.specs.Prelude.{◌≡◌, ◌<◌, ◌≤◌, ◌++◌, ℕ, List, None, drop, length, true, IfSome, IfOk};
ghost use Rattle.std.specs.Result.{result_err};
ghost use Rattle.std.specs.List.{list_all, prefix_len};
ghost use Rattle.std.specs.Option.{option_map};
ghost use Rattle.std.specs.Char.{encode_utf8, digit_value};
ghost use Rattle.std.specs.Str.{IsUtf8};
ghost use Rattle.std.specs.Str.Lossy.{utf8_valid_len};
ghost use Rattle.kola_base.specs.Strings.{is_hex, hexadecimal, begins_with, character, named, simple_escape, escape, front, written, behind, bytes_written, content_fault, string_fault, string_value};
ghost use Rattle.kola_base.specs.declared.lex.Kind.TheVariants as kinds;
ghost use Rattle.kola_base.specs.Tokens.{bytes_of, IsTokenIn};

use crate::lex::{LexWhy, Token};
use std::alloc::{AllocError, Global};

/// The value of a hexadecimal digit.
fn digit_value(digit: u8) -> u32
    requires { is_hex digit ≡ true }
    ensures is { result ≡ digit_value digit }
    ensures small { result < 16 }
{
    char::from(digit).to_digit(16).unwrap_or(0)
}

/// The number that hexadecimal digits write.
fn hexadecimal(digits: &[u8]) -> u32
    requires few { length digits.now ≤ 6 }
    requires digits { list_all is_hex digits.now ≡ true }
    ensures { result ≡ hexadecimal 0 digits.now }
{
    let mut number: u32 = 0;
    for digit in digits {
        number = number * 16 + digit_value(*digit);
    }
    number
}

/// How many bytes at the front are hexadecimal digits.
fn digits_len(rest: &[u8]) -> usize
    ensures is { result ≡ prefix_len is_hex rest.now }
    ensures within { result ≤ length rest.now }
{
    rest.iter().take_while(|b| is_hex(**b)).count()
}

fn is_hex(b: u8) -> bool
    ensures { result ≡ is_hex b }
{
    char::from(b).is_digit(16)
}

fn begins_with(c: u8, rest: &[u8]) -> bool
    ensures { result ≡ begins_with c rest.now }
{
    match rest {
        [] => false,
        [b, ..] => *b == c,
    }
}

/// The character of a number that is a Unicode scalar value.
fn character(number: u32) -> Option<char>
    ensures { result ≡ character number }
{
    char::from_u32(number)
}

/// Digits and a closing brace: how many bytes the escape has behind its backslash, and its character.
fn named(rest: &[u8]) -> Option<(usize, char)>
    ensures is { result ≡ named (prefix_len is_hex rest.now) rest.now }
    ensures few { IfSome result (λ e. e.0 ≤ 9) }
{
    let digits = digits_len(rest);
    if !(1 <= digits && digits <= 6) {
        return None;
    }
    if !begins_with(b'}', &rest[digits..]) {
        return None;
    }
    let named = character(hexadecimal(&rest[..digits]))?;
    Some((digits + 3, named))
}

fn simple_escape(b: u8) -> Option<char>
    ensures { result ≡ simple_escape b }
{
    match b {
        b'"' => Some('"'),
        b'\\' => Some('\\'),
        b'n' => Some('\n'),
        b't' => Some('\t'),
        _ => None,
    }
}

/// An escape behind its backslash: how many bytes it has there, and its character.
fn escape(rest: &[u8]) -> Option<(usize, char)>
    ensures is { result ≡ escape rest.now }
    ensures few { IfSome result (λ e. e.0 ≤ 9) }
{
    match rest {
        [b'u', b'{', more @ ..] => named(more),
        [b'u', ..] | [] => None,
        [b, ..] => {
            let named = simple_escape(*b)?;
            Some((1, named))
        }
    }
}

/// What comes first between the quotes: how many bytes it has, and the character where it is an escape; none where a backslash begins
/// no escape.
fn front(rest: &[u8]) -> Option<(usize, Option<char>)>
    requires some { 0 < length rest.now }
    ensures is { option_map (λ f. (f.0, option_map encode_utf8 f.1)) result ≡ front rest.now }
    ensures few { IfSome result (λ f. (0 < f.0) × (f.0 ≤ 10)) }
{
    match rest {
        [b'\\', more @ ..] => {
            let (len, named) = escape(more)?;
            Some((len + 1, Some(named)))
        }
        _ => Some((1, None)),
    }
}

/// The place of the first backslash that begins no escape.
fn bad_escape(content: &[u8]) -> Option<usize>
    ensures is { result ≡ result_err (written 0 content.now) }
    ensures within { IfSome result (λ k. k < length content.now) }
{
    let mut at = 0;
    while at < content.len() {
        let Some((len, _)) = front(&content[at..]) else {
            return Some(at);
        };
        at += len;
    }
    None
}

/// How many bytes at the front are UTF-8.
fn valid_len(content: &[u8]) -> usize
    ensures is { result ≡ utf8_valid_len content.now }
    ensures within { result ≤ length content.now }
{
    match str::from_utf8(content) {
        Ok(_) => content.len(),
        Err(error) => error.valid_up_to(),
    }
}

fn content_fault(content: &[u8]) -> Option<(usize, LexWhy)>
    ensures is { result ≡ content_fault content.now }
    ensures within { IfSome result (λ f. f.0 < length content.now) }
{
    let valid = valid_len(content);
    match bad_escape(content) {
        Some(at) if valid < at => Some((valid, LexWhy::NotUtf8)),
        Some(at) => Some((at, LexWhy::BadEscape)),
        None if valid < content.len() => Some((valid, LexWhy::NotUtf8)),
        None => None,
    }
}

/// The first fault of a string with its quotes, by its place in it.
pub fn string_fault(string: &[u8]) -> Option<(usize, LexWhy)>
    requires { 2 ≤ length string.now }
    ensures is { result ≡ string_fault string.now }
    ensures within { IfSome result (λ f. f.0 < length string.now) }
{
    let (at, why) = content_fault(&string[1..string.len() - 1])?;
    Some((at + 1, why))
}

/// Puts what comes first between the quotes at the end of a list, and answers how many bytes it has.
fn push_front(out: &mut Vec<u8>, rest: &[u8]) -> Result<usize, AllocError>
    requires some { 0 < length rest.now }
    requires sound { result_err (written 0 rest.now) ≡ None }
    ensures is { IfOk result (λ n. (w : List ℕ) × (out.new.items ≡ out.old.items ++ w)
        × (written 0 rest.now ≡ behind n w (written 0 (drop n rest.now)))) }
    ensures some { IfOk result (λ n. (0 < n) × (n ≤ 10)) }
{
    match front(rest) {
        Some((len, Some(named))) => {
            let mut buffer = [0; 4];
            out.extend_from_slice(named.encode_utf8(&mut buffer).as_bytes())?;
            Ok(len)
        }
        _ => {
            out.push(rest[0])?;
            Ok(1)
        }
    }
}

/// The bytes that are written between the quotes of a string.
fn written(alloc: Global, content: &[u8]) -> Result<Vec<u8>, AllocError>
    requires { result_err (written 0 content.now) ≡ None }
    ensures { IfOk result (λ v. v.items ≡ bytes_written (written 0 content.now)) }
{
    let mut out = Vec::new(alloc);
    let mut at = 0;
    while at < content.len() {
        at += push_front(&mut out, &content[at..])?;
    }
    Ok(out)
}

/// The bytes that a string without a fault writes.
pub fn string_of(alloc: Global, string: &[u8]) -> Result<Vec<u8>, AllocError>
    requires quotes { 2 ≤ length string.now }
    requires sound { string_fault string.now ≡ None }
    ensures is { IfOk result (λ v. v.items ≡ string_value string.now) }
    ensures utf8 { IfOk result (λ v. IsUtf8 v.items) }
{
    written(alloc, &string[1..string.len() - 1])
}

/// The bytes that a string token of the text writes, its escapes read.
///
/// Each token that `tokens` answers for the text stands in it as the second condition says.
pub fn quoted_of(alloc: Global, text: &[u8], token: &Token) -> Result<Vec<u8>, AllocError>
    requires quoted { token.now.kind ≡ kinds.Quoted }
    requires in_text { IsTokenIn text.now token.now }
    ensures is { IfOk result (λ v. v.items ≡ string_value (bytes_of text.now token.now)) }
    ensures utf8 { IfOk result (λ v. IsUtf8 v.items) }
{
    string_of(alloc, &text[token.from..token.to])
}
