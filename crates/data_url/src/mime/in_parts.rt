//! MIME types in parts: each text after its length.

ghost use Rattle.std.specs.Prelude.{◌≡◌, ◌+◌, ◌<◌, ◌≤◌, IsTrue, encode_utf8_all, false, length, map};
ghost use Rattle.std.specs.{Char.{to_ascii_lowercase}, Int.{to_le_bytes, w64}, List.{flat_map}, Str.{chars}};
ghost use Rattle.data_url.specs.Mime.{BeginsParameters, IsRecordOfParts, default_record, is_token_text};
ghost use Rattle.data_url.specs.Parts.{ReadsMimeType, WritesIfFits, part, parts_of, parts_of_pair};
ghost use Rattle.data_url.specs.{MimeType.{pair_of}, Steps.Parsing.{unescaped}};
ghost use Rattle.data_url.specs.Steps.Few.{AreAllTokens, AreMany, sliced_pair, value_text};
ghost use Rattle.data_url.specs.Steps.MimeParts.{HasTokens, Puts, WritesParts, WritesRecord, head_record};
ghost use Rattle.data_url.specs.Steps.MimeParts.{pairs_in};

use super::few::{FewParameters, NameAndValue};
use super::lower::copy_lowercase;
use super::parse::{Head, read_head, read_parameters};
use super::values::Value;
use super::{MimeFromStrError, MimeParsingError};
use std::alloc::{AllocError, Global};
use std::simd::prelude::*;

/// How many bytes the length of a part takes.
const LENGTH_LEN: usize = 8;

/// The most bytes that parts have together.
const LONGEST: usize = 0x7fff_ffff_ffff_ffff;

/// `text/plain;charset=US-ASCII` in parts.
const DEFAULT: &[u8; 56] = b"\x04\0\0\0\0\0\0\0text\x05\0\0\0\0\0\0\0plain\
\x07\0\0\0\0\0\0\0charset\x08\0\0\0\0\0\0\0US-ASCII";

/// Writes bytes to an output at a place.
#[inline(always)]
fn write_at(output: &mut [u8], at: usize, bytes: &[u8])
    requires { at + length bytes.now ≤ length output.old }
    ensures { Puts bytes.now output.old at output.new (at + length bytes.now) }
{
    output[at..at + bytes.len()].copy_from_slice(bytes);
}

/// Writes bytes in ASCII lower case to an output at a place.
#[inline(always)]
fn write_lowercase_at(output: &mut [u8], at: usize, bytes: &[u8])
    requires { at + length bytes.now ≤ length output.old }
    ensures { Puts (map to_ascii_lowercase bytes.now) output.old at output.new
        (at + length bytes.now) }
{
    copy_lowercase(bytes, &mut output[at..at + bytes.len()]);
}

/// Writes a length to an output at a place, as eight bytes, the lowest first, by one store.
#[inline(always)]
fn write_length_at(output: &mut [u8], at: usize, len: usize)
    requires { at + 8 ≤ length output.old }
    ensures { Puts (to_le_bytes w64 len) output.old at output.new (at + 8) }
{
    u8x8::from_array(len.to_le_bytes()).copy_to_slice(&mut output[at..]);
}

/// Puts bytes: writes them to an output at a place, if they fit. Returns the place after them, whether or not they fit;
/// at most `usize::MAX`. So does each `put_` function below with what it puts, but `put_unescaped` tests each byte.
#[inline(always)]
fn put(output: &mut [u8], at: usize, bytes: &[u8]) -> usize
    ensures puts { Puts bytes.now output.old at output.new result }
    ensures stays { length output.old < at + length bytes.now → output.new ≡ output.old }
{
    let end = at.saturating_add(bytes.len());
    if end <= output.len() {
        write_at(output, at, bytes);
    }
    end
}

/// Puts a text, as a part.
#[inline(always)]
fn put_text(output: &mut [u8], at: usize, text: &str) -> usize
    ensures { Puts (part (encode_utf8_all (chars text.now))) output.old at output.new result }
{
    let end = at.saturating_add(LENGTH_LEN).saturating_add(text.len());
    if end <= output.len() {
        write_length_at(output, at, text.len());
        write_at(output, at + LENGTH_LEN, text.as_bytes());
    }
    end
}

/// Puts a text of token code points in ASCII lower case, as a part.
#[inline(always)]
fn put_lowercase(output: &mut [u8], at: usize, text: &str) -> usize
    requires { IsTrue (is_token_text (chars text.now)) }
    ensures { Puts (part (encode_utf8_all (map to_ascii_lowercase (chars text.now)))) output.old at
        output.new result }
{
    let end = at.saturating_add(LENGTH_LEN).saturating_add(text.len());
    if end <= output.len() {
        write_length_at(output, at, text.len());
        write_lowercase_at(output, at + LENGTH_LEN, text.as_bytes());
    }
    end
}

/// Puts the text of a quoted string without the `\` before a code point.
fn put_unescaped(output: &mut [u8], at: usize, quoted: &[u8]) -> usize
    ensures { Puts (unescaped false quoted.now) output.old at output.new result }
{
    let mut end = at;
    let mut is_escaped = false;
    for byte in quoted {
        is_escaped = *byte == b'\\' && !is_escaped;
        if !is_escaped {
            end = put(output, end, &[*byte]);
        }
    }
    if is_escaped {
        end = put(output, end, b"\\");
    }
    end
}

/// Puts the value of a quoted string, as a part.
fn put_quoted(output: &mut [u8], at: usize, quoted: &str) -> usize
    ensures { Puts (part (encode_utf8_all (unescaped false (chars quoted.now)))) output.old at
        output.new result }
{
    let bytes = quoted.as_bytes();
    let len = put_unescaped(&mut [], 0, bytes);
    let end = at.saturating_add(LENGTH_LEN).saturating_add(len);
    if end <= output.len() {
        write_length_at(output, at, len);
        put_unescaped(output, at + LENGTH_LEN, bytes);
    }
    end
}

/// Puts a value, as a part.
#[inline(always)]
fn put_value(output: &mut [u8], at: usize, value: &Value<'_>) -> usize
    ensures { Puts (part (encode_utf8_all (value_text value.now))) output.old at output.new result }
{
    match value {
        Value::Missing => put_text(output, at, ""),
        Value::Unquoted(text) | Value::Verbatim(text) => put_text(output, at, text),
        Value::Quoted(text) => put_quoted(output, at, text),
    }
}

/// Puts the names and the values of parameters that are slices, as parts.
#[inline(always)]
fn put_slices(output: &mut [u8], at: usize, slices: &[NameAndValue<'_>]) -> usize
    requires { AreAllTokens slices.now }
    ensures { Puts (flat_map parts_of_pair (map (λ s. sliced_pair s) slices.now)) output.old at
        output.new result }
{
    let mut end = at;
    for slice in slices {
        end = put_lowercase(output, end, slice.name);
        end = put_value(output, end, &slice.value);
    }
    end
}

/// Puts the names and the values of the parameters of a record, as parts.
fn put_pairs(output: &mut [u8], at: usize, pairs: &[(String, String)]) -> usize
    ensures { Puts (flat_map parts_of_pair (map (λ p. pair_of p) pairs.now)) output.old at
        output.new result }
{
    let mut end = at;
    for (name, value) in pairs {
        end = put_text(output, end, name);
        end = put_text(output, end, value);
    }
    end
}

/// The parameters that are kept of a MIME type.
#[derive(Clone, Copy)]
enum Parameters<'a> {
    /// As slices of the text.
    OfText(&'a [NameAndValue<'a>]),
    /// As in a record.
    OfRecord(&'a [(String, String)]),
}

impl<'a> Head<'a> {
    /// Puts the record of a MIME type with this head and these parameters, in parts, at the start of an output. Returns
    /// how many bytes it has, up to `usize::MAX`. It is compiled into its caller, where nothing but this length is
    /// left of it if the output is empty.
    #[inline(always)]
    fn put(&self, parameters: Parameters<'_>, output: &mut [u8]) -> usize
        requires type_ { IsTrue (is_token_text (chars self.now.type_.now)) }
        requires subtype { IsTrue (is_token_text (chars self.now.subtype.now)) }
        requires tokens { HasTokens parameters }
        ensures { Puts (parts_of (head_record self.now (pairs_in parameters.entry))) output.old 0
            output.new result }
    {
        let at = put_lowercase(output, 0, self.type_);
        let at = put_lowercase(output, at, self.subtype);
        match parameters {
            Parameters::OfText(slices) => put_slices(output, at, slices),
            Parameters::OfRecord(pairs) => put_pairs(output, at, pairs),
        }
    }

    /// Writes the record of a MIME type with this head and these parameters, in parts, to the start of an output, if it
    /// has room. Returns how many bytes the record has, or an error if they are more than `LONGEST`.
    #[inline(always)]
    fn write_with(&self, parameters: Parameters<'_>, output: &mut [u8]) -> Result<usize, AllocError>
        requires type_ { IsTrue (is_token_text (chars self.now.type_.now)) }
        requires subtype { IsTrue (is_token_text (chars self.now.subtype.now)) }
        requires tokens { HasTokens parameters }
        ensures { WritesRecord (head_record self.now (pairs_in parameters.entry)) output.old
            output.new result }
    {
        let len = self.put(parameters, &mut []);
        if len > LONGEST {
            return Err(AllocError);
        }
        if len <= output.len() {
            self.put(parameters, output);
        }
        Ok(len)
    }

    /// Writes the record of a MIME type with this head, in parts, to the start of an output, if it has room.
    /// Returns how many bytes the record has. Allocates only if many parameters are kept.
    #[inline(always)]
    pub(crate) fn write(&self, alloc: Global, output: &mut [u8]) -> Result<usize, AllocError>
        requires type_ { IsTrue (is_token_text (chars self.now.type_.now)) }
        requires subtype { IsTrue (is_token_text (chars self.now.subtype.now)) }
        requires parameters { BeginsParameters (chars self.now.parameters.now) }
        ensures { WritesParts (IsRecordOfParts (chars self.now.type_.now)
            (chars self.now.subtype.now) (chars self.now.parameters.now)) output.old output.new
            result }
    {
        if self.parameters.is_empty() {
            return self.write_with(Parameters::OfText(&[]), output);
        }
        self.write_all(alloc, output)
    }

    /// Writes the record of a MIME type with this head, as `write` does.
    #[inline(never)]
    fn write_all(&self, alloc: Global, output: &mut [u8]) -> Result<usize, AllocError>
        requires type_ { IsTrue (is_token_text (chars self.now.type_.now)) }
        requires subtype { IsTrue (is_token_text (chars self.now.subtype.now)) }
        requires parameters { BeginsParameters (chars self.now.parameters.now) }
        ensures { WritesParts (IsRecordOfParts (chars self.now.type_.now)
            (chars self.now.subtype.now) (chars self.now.parameters.now)) output.old output.new
            result }
    {
        let mut few = FewParameters::new();
        if !few.read(self.parameters) {
            return self.write_many(alloc, output);
        }
        self.write_with(Parameters::OfText(&few.slices[..few.len]), output)
    }

    /// Writes the record of a MIME type with this head, as `write` does. It has more than eight parameters that are
    /// kept.
    #[inline(never)]
    fn write_many(&self, alloc: Global, output: &mut [u8]) -> Result<usize, AllocError>
        requires type_ { IsTrue (is_token_text (chars self.now.type_.now)) }
        requires subtype { IsTrue (is_token_text (chars self.now.subtype.now)) }
        requires parameters { BeginsParameters (chars self.now.parameters.now) }
        requires many { AreMany (chars self.now.parameters.now) }
        ensures { WritesParts (IsRecordOfParts (chars self.now.type_.now)
            (chars self.now.subtype.now) (chars self.now.parameters.now)) output.old output.new
            result }
    {
        let Ok(pairs) = read_parameters(alloc, self.parameters) else {
            return Err(AllocError);
        };
        self.write_with(Parameters::OfRecord(&pairs), output)
    }
}

/// Writes the record of a URL without a MIME type, in parts, to the start of an output, if it has room. Returns how
/// many bytes the record has.
pub(crate) fn write_default(output: &mut [u8]) -> usize
    ensures { WritesIfFits (parts_of default_record) output.old output.new result }
{
    put(output, 0, DEFAULT)
}

/// Parses a MIME type
/// ([MIME Sniffing Standard, section 4.4](https://mimesniff.spec.whatwg.org/#parsing-a-mime-type)), as
/// `Mime::from_str` does, and writes it in parts to the start of an output.
///
/// The parts are the type, the subtype, and the name and the value of each parameter, in UTF-8. Each part comes after
/// its length in bytes, which takes eight bytes, the lowest first. Type, subtype and names are in ASCII lower case.
///
/// Returns how many bytes the parts have together. If the output has room for fewer, nothing is written.
///
/// Returns `Parsing` exactly if the text is not a MIME type. Allocates only for a MIME type with more than 8
/// parameters. Returns `OutOfMemory` if that fails, or if the parts have 2 to the power of 63 bytes or more together.
pub fn read_mime_type(
    alloc: Global,
    text: &str,
    output: &mut [u8],
) -> Result<usize, MimeFromStrError>
    ensures { ReadsMimeType (chars text.now) output.old output.new result }
{
    let Some(head) = &read_head(text) else {
        return Err(MimeFromStrError::Parsing(MimeParsingError(())));
    };
    match head.write(alloc, output) {
        Ok(len) => Ok(len),
        Err(AllocError) => Err(MimeFromStrError::OutOfMemory),
    }
}
