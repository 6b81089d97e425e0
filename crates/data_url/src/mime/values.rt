//! Values of parameters, as slices of a text and as texts of their own.
#![tactic(auto, using(crate::proofs::mime::Parsing::quotable_values))]

ghost use Rattle.std.specs.Prelude.{◌≡◌, ◌<◌, ◌≤◌, ◌+◌, ◌-◌, ◌++◌, IfOk, MatchBool, None, Some};
ghost use Rattle.std.specs.Prelude.{drop, false, length, take};
ghost use Rattle.std.specs.{List.{list_all}, Option.{option_map}, Str.{chars}};
ghost use Rattle.data_url.specs.{CodePoints.{is_quotable}, Steps.Few.{value_text}};
ghost use Rattle.data_url.specs.{MimeType.{code_points}, Steps.Parsing.{unescaped, value_of}};

use crate::classes::lanes::{ROW, none_outside, outside, put, repeated, row};
use crate::classes::{Class, UNESCAPED, has, long_span};
use std::alloc::{AllocError, Global};

/// A value as a slice of a text.
#[derive(Clone, Copy)]
pub(super) enum Value<'a> {
    /// No value, or one with a code point that is not a quoted-string code point.
    Missing,
    /// A value without quotes, of quoted-string code points.
    Unquoted(&'a str),
    /// The text of a quoted string that has neither `"` nor `\`.
    Verbatim(&'a str),
    /// The text of another quoted string: between the quotes, or after the first one up to the end.
    Quoted(&'a str),
}

impl<'a> Value<'a> {
    /// Returns whether the value is there and has quoted-string code points alone. `\` is one of them, so a quoted
    /// string is tested before its escapes are removed.
    pub(super) fn is_valid(&self) -> bool
        ensures { MatchBool result (value_of self.now ≡ Some (value_text self.now))
            (value_of self.now ≡ None) }
    {
        match self {
            Value::Missing => false,
            Value::Unquoted(_) => true,
            Value::Verbatim(text) | Value::Quoted(text) => is_quotable(text),
        }
    }

    /// The value as a text of its own, if it is there and has quoted-string code points alone. It takes memory for that
    /// text. `\` is a quoted-string code point, so a quoted string is tested before its escapes are removed.
    pub(super) fn text(&self, alloc: Global) -> Result<Option<String>, AllocError>
        ensures { IfOk result (λ text. option_map (λ t. code_points t) text ≡ value_of self.now) }
    {
        match self {
            Value::Unquoted(text) => Ok(Some(String::from_str(alloc, text)?)),
            Value::Verbatim(text) if is_quotable(text) => Ok(Some(String::from_str(alloc, text)?)),
            Value::Quoted(text) if is_quotable(text) => Ok(Some(unescaped(alloc, text)?)),
            _ => Ok(None),
        }
    }
}

/// Whether all code points of a text are quoted-string code points.
#[inline(always)]
fn is_quotable(text: &str) -> bool
    ensures { result ≡ list_all is_quotable (chars text.now) }
{
    long_span(Class::Quotable, text.as_bytes()) == text.len()
}

/// Returns the value of a quoted string: without the `\` before a code point.
fn unescaped(alloc: Global, quoted: &str) -> Result<String, AllocError>
    ensures { IfOk result (λ text. code_points text ≡ unescaped false (chars quoted.now)) }
{
    let bytes = quoted.as_bytes();
    let mut value = vec![in alloc; 0; bytes.len()]?;
    let mut at = copy_rows(bytes, &mut value, 0);
    let mut len = at;
    while at + 1 < bytes.len() {
        let (taken, copied) = copy_next(bytes, at, &mut value, len);
        at += taken;
        len += copied;
    }
    value.truncate(len);
    value.extend_from_slice(&bytes[at..])?;
    Ok(unsafe { String::from_utf8_unchecked(value) })
}

/// Copies the byte at a place, after which another one follows. If it is a `\`, copies that other one instead, and the
/// rows after it. Returns how many bytes of the text this takes, and how many are copied. The two cases are two
/// branches: the processor guesses which one comes, and does not wait until the byte is loaded.
#[inline(always)]
fn copy_next(bytes: &[u8], at: usize, value: &mut [u8], len: usize) -> (usize, usize)
    requires within { at + 1 < length bytes.now }
    requires room { len + (length bytes.now - at) ≤ length value.old }
    ensures sizes { (0 < result.0) × (result.1 ≤ result.0) × (at + result.0 ≤ length bytes.now) }
    ensures value { take (len + result.1) value.new
        ++ unescaped false (drop (at + result.0) bytes.now)
        ≡ take len value.old ++ unescaped false (drop at bytes.now) }
{
    if bytes[at] != b'\\' {
        value[len] = bytes[at];
        return (1, 1);
    }
    value[len] = bytes[at + 1];
    let copied = 1 + copy_rows(&bytes[at + 2..], value, len + 1);
    (1 + copied, copied)
}

/// Copies the bytes before the first `"` or `\` of the whole rows of a text, or all of them. Returns how many. Bytes
/// after them may be overwritten. The first byte is tested by itself, since one escape often follows another.
#[inline(always)]
fn copy_rows(text: &[u8], value: &mut [u8], len: usize) -> usize
    requires { len + length text.now ≤ length value.old }
    ensures within { result ≤ length text.now }
    ensures copied { take (len + result) value.new ≡ take len value.old ++ take result text.now }
    ensures verbatim { unescaped false text.now
        ≡ take result text.now ++ unescaped false (drop result text.now) }
{
    if text.len() < ROW || !has(Class::Unescaped, text[0]) {
        return 0;
    }
    let mut copied = 0;
    while text.len() - copied >= ROW {
        let row = row(text, copied);
        put(value, len + copied, row);
        if !none_outside(&UNESCAPED, repeated(row)) {
            return copied + outside(&UNESCAPED, row).trailing_zeros() as usize;
        }
        copied += ROW;
    }
    copied
}
