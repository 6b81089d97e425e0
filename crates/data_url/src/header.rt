//! The header of a data: URL (Fetch Standard, section 6), from its text in the input.

ghost use Rattle.std.specs.Prelude.{◌≡◌, if◌then◌else◌, [], IfErr, IfOk, IfSome, List, MatchOption};
ghost use Rattle.std.specs.Prelude.{codes, false, length, map, string_bytes, take, true, ℕ};
ghost use Rattle.std.specs.{Char.{to_ascii_lowercase}, Str.{bytes_eq, chars}};
ghost use Rattle.data_url.specs.{Url.{without_tabs_and_newlines}, Fetch.{before_base64, with_plain}};
ghost use Rattle.data_url.specs.Mime.{IsHead, Record, default_record};
ghost use Rattle.data_url.specs.Steps.{MimeParts.{WritesParts}, Parsing.{HasNoHead}};
ghost use Rattle.data_url.specs.Steps.Header.{IsHeaderOf, IsMedia, IsPathAndQuery, IsPrintable, IsRecordFor};
ghost use Rattle.data_url.specs.Steps.Header.{IsSerialised, encoded_parts, header_text};
ghost use Rattle.data_url.specs.MimeType.{as_option, record_of};

use crate::classes::{Class, end_span, long_span};
use crate::mime::{
    Head, Mime, read_trimmed_head, text_plain_head, without_trailing_whitespace, write_default,
};
use crate::percent::{EncodeSet, PART, push_encoded};
use crate::split::trim;
use std::alloc::{AllocError, Global};

const SUFFIX: [u8; 6] = *b"base64";

/// Splits off the space at the end of a path that a query follows. Returns the path without it, and whether there is
/// one.
#[tactic(auto, using(crate::proofs::header::Serialising::last_spaces))]
fn split_last_space<'a>(path: &'a [u8], query: &[u8]) -> (&'a [u8], bool)
    ensures { (header : List ℕ) → IsPathAndQuery header path.now query.now
        → encoded_parts result.0.now (if result.1 then codes "%20" else []) query.now
        ≡ header_text (without_tabs_and_newlines header) }
{
    let end = path.len() - end_span(Class::TabOrNewline, path);
    if query.is_empty() || end == 0 || path[end - 1] != b' ' {
        return (path, false);
    }
    (&path[..end - 1], true)
}

/// Returns the text of a header, serialised. Room is allocated once for a header of at most 128 bytes; for a longer
/// one it may grow.
#[inline(never)]
#[tactic(auto, using(crate::proofs::header::Serialising::serialising))]
fn serialised(alloc: Global, header: &[u8]) -> Result<String, AllocError>
    ensures { IfOk result (λ text. string_bytes text
        ≡ header_text (without_tabs_and_newlines header.now)) }
{
    let mut text = String::with_capacity(alloc, header.len() + 2 * header.len().min(PART))?;
    let (path, query) = header.split_at(long_span(Class::Path, header));
    let (path, has_space) = split_last_space(path, query);
    push_encoded(&mut text, EncodeSet::Path, path)?;
    if has_space {
        text.push_str("%20")?;
    }
    push_encoded(&mut text, EncodeSet::Query, query)?;
    Ok(text)
}

/// Returns whether bytes are `base64` in any ASCII case. Most are in lower case, which is faster to test.
#[inline(always)]
fn is_suffix_word(word: &[u8; 6]) -> bool
    ensures { result ≡ bytes_eq (map to_ascii_lowercase word.now)
        (map to_ascii_lowercase (codes "base64")) }
{
    word.as_slice() == SUFFIX.as_slice() || word.eq_ignore_ascii_case(&SUFFIX)
}

/// Returns the text before `;`, spaces and `base64` (in any ASCII case) at the end of a header, if it ends so.
#[inline(always)]
#[tactic(auto, using(crate::proofs::header::Serialising::suffixes))]
fn without_suffix(header: &str) -> Option<&str>
    requires { IsPrintable header.now }
    ensures text { as_option result ≡ before_base64 header.now }
    ensures prefix { IfSome result (λ text. text.now ≡ take (length text.now) header.now) }
{
    let (front, word) = header.as_bytes().split_last_chunk()?;
    if !is_suffix_word(word) {
        return None;
    }
    let end = front.len() - end_span(Class::Control, front);
    let semicolon = end.checked_sub(1)?;
    if front[semicolon] != b';' {
        return None;
    }
    Some(&header[..semicolon])
}

/// Returns the text of a header, serialised, or None if it is known to be so as it is.
pub(crate) fn serialise(
    alloc: Global,
    header: &str,
    is_serialised: bool,
) -> Result<Option<String>, AllocError>
    requires { is_serialised ≡ true → header_text (without_tabs_and_newlines header.now) ≡ header.now }
    ensures text { IfOk result (IsSerialised header.now) }
    ensures needed { IfErr result (λ e. is_serialised ≡ false) }
{
    if is_serialised {
        return Ok(None);
    }
    Ok(Some(serialised(alloc, header.as_bytes())?))
}

/// The serialised text of a header.
#[tactic(auto, using(crate::proofs::header::Stages::stages))]
pub(crate) fn serialised_text<'a>(text: &'a Option<String>, header: &'a str) -> &'a str
    requires { IsSerialised header.now text.now }
    ensures text { result.now ≡ header_text (without_tabs_and_newlines header.now) }
    ensures printable { IsPrintable result.now }
{
    text.as_deref().unwrap_or(header)
}

/// A serialised header without its suffix and without whitespace at its ends, and whether it has the suffix, so that
/// the body is base64.
#[inline(always)]
#[tactic(auto, using(crate::proofs::header::Stages::printable_trimmed))]
pub(crate) fn split_suffix(header: &str) -> (&str, bool)
    requires { IsPrintable header.now }
    ensures header { (m : Record) → IsRecordFor (with_plain result.0.now) m
        → IsHeaderOf header.now m result.1 }
    ensures media { IsMedia result.0.now }
{
    let stripped = trim(header);
    match without_suffix(stripped) {
        Some(text) => (without_trailing_whitespace(text), true),
        None => (stripped, false),
    }
}

/// Returns the head of the MIME type of a header without its suffix and without whitespace at its ends, if it has one.
/// A missing type is `text/plain`.
#[inline(always)]
#[tactic(auto, using(crate::proofs::header::Stages::chars_printable, crate::proofs::header::Stages::begins_at))]
fn media_head(media: &str) -> Option<Head<'_>>
    requires { IsMedia media.now }
    ensures { MatchOption result (HasNoHead (with_plain media.now))
        (λ h. IsHead (with_plain media.now) (chars h.type_.now) (chars h.subtype.now)
        (chars h.parameters.now)) }
{
    if media.as_bytes().starts_with(b";") {
        return Some(text_plain_head(media));
    }
    read_trimmed_head(media)
}

/// Returns the record of a header without its suffix and without whitespace at its ends, or the default record.
pub(crate) fn read_media(alloc: Global, media: &str) -> Result<Mime, AllocError>
    requires { IsMedia media.now }
    ensures { IfOk result (λ mime. IsRecordFor (with_plain media.now) (record_of mime)) }
{
    match media_head(media) {
        Some(head) => head.record(alloc),
        None => default_mime(alloc),
    }
}

/// Writes the record that `read_media` returns, in parts, to the start of an output that has room for it. Returns how
/// many bytes it has.
pub(crate) fn write_media(
    alloc: Global,
    media: &str,
    output: &mut [u8],
) -> Result<usize, AllocError>
    requires { IsMedia media.now }
    ensures { WritesParts (IsRecordFor (with_plain media.now)) output.old output.new result }
{
    match &media_head(media) {
        Some(head) => head.write(alloc, output),
        None => Ok(write_default(output)),
    }
}

/// `text/plain;charset=US-ASCII`.
#[tactic(auto, using(crate::proofs::header::Stages::default_is))]
fn default_mime(alloc: Global) -> Result<Mime, AllocError>
    ensures { IfOk result (λ mime. record_of mime ≡ default_record) }
{
    let charset = String::from_str(alloc, "charset")?;
    let value = String::from_str(alloc, "US-ASCII")?;
    let mut parameters = Vec::with_capacity(alloc, 1)?;
    parameters.push((charset, value))?;
    Ok(Mime {
        type_: String::from_str(alloc, "text")?,
        subtype: String::from_str(alloc, "plain")?,
        parameters,
    })
}
