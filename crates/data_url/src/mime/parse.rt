//! Reads a MIME type (MIME Sniffing Standard, section 4.4).

ghost use Rattle.std.specs.Prelude.{◌≡◌, ◌<◌, ◌++◌, List, MatchOption, IfOk, IsTrue, OnOk, codes};
ghost use Rattle.std.specs.Prelude.{drop, false, map, suc, take, true};
ghost use Rattle.std.specs.Str.{chars};
ghost use Rattle.data_url.specs.Mime.{BeginsParameters, IsHead, Item, Items, is_token_text};
ghost use Rattle.data_url.specs.Mime.{kept_pairs, valid_of, IsRecordOfParts};
ghost use Rattle.data_url.specs.Url.{without_start};
ghost use Rattle.data_url.specs.Steps.Parsing.{HasNoHead, IsTrimmed, given_reading, in_value};
ghost use Rattle.data_url.specs.Steps.Parsing.{item_in, pair_in, quotable_value};
ghost use Rattle.data_url.specs.Steps.Parsing.{quoted_len, reading_in, unescaped, unless_named};
ghost use Rattle.data_url.specs.Steps.Parsing.{unquoted_reading, value_of};
ghost use Rattle.data_url.specs.{Steps.Kept.{IsIndexed, pairs_of}, MimeType.{pair_of, record_of}};

use super::Mime;
use super::cuts::{
    after_char, after_semicolon, from_semicolon, split_name, split_tokens,
    without_leading_whitespace, without_trailing_whitespace,
};
use super::kept::{FINGERPRINTS_LEN, KeptParameters};
use super::lower::lowercased;
use super::values::Value;
use crate::classes::{Class, long_span, span, span_if_any};
use std::alloc::{AllocError, Global};
use std::collections::BTreeSet;

/// The type, the subtype and the parameters of a text, as slices of it.
#[derive(Clone, Copy)]
pub(crate) struct Head<'a> {
    pub(super) type_: &'a str,
    pub(super) subtype: &'a str,
    pub(super) parameters: &'a str,
}

/// One parameter, as it is in the text, and the text after it.
#[derive(Clone, Copy)]
pub(super) struct Parameter<'a> {
    pub(super) name: &'a str,
    /// Whether the name is not empty and has only token code points.
    pub(super) is_token: bool,
    pub(super) value: Value<'a>,
    pub(super) rest: &'a str,
}

impl<'a> Head<'a> {
    /// Returns the record of a MIME type with this head. Allocates the record.
    #[inline(always)]
    pub(crate) fn record(self, alloc: Global) -> Result<Mime, AllocError>
        requires type_ { IsTrue (is_token_text (chars self.type_.now)) }
        requires subtype { IsTrue (is_token_text (chars self.subtype.now)) }
        requires parameters { BeginsParameters (chars self.parameters.now) }
        ensures { IfOk result (λ mime.
            IsRecordOfParts (chars self.entry.type_.now) (chars self.entry.subtype.now)
            (chars self.entry.parameters.now) (record_of mime)) }
    {
        Ok(Mime {
            type_: lowercased(alloc, self.type_)?,
            subtype: lowercased(alloc, self.subtype)?,
            parameters: read_parameters(alloc, self.parameters)?,
        })
    }
}

/// The head of a MIME type, if the text is one.
#[inline(always)]
pub(crate) fn read_head(text: &str) -> Option<Head<'_>>
    ensures { MatchOption result (HasNoHead (chars text.now))
        (λ h. IsHead (chars text.now) (chars h.type_.now) (chars h.subtype.now)
        (chars h.parameters.now)) }
{
    read_trimmed_head(without_trailing_whitespace(without_leading_whitespace(text)))
}

/// The head of a MIME type, if the text is one. The text has no HTTP whitespace at its ends.
#[inline(always)]
#[tactic(auto, using(crate::proofs::mime::Parsing::heads))]
pub(crate) fn read_trimmed_head(text: &str) -> Option<Head<'_>>
    requires { IsTrimmed (chars text.now) }
    ensures { MatchOption result (HasNoHead (chars text.now))
        (λ h. IsHead (chars text.now) (chars h.type_.now) (chars h.subtype.now)
        (chars h.parameters.now)) }
{
    let (type_, rest) = split_tokens(text)?;
    let (subtype, rest) = split_tokens(after_char(rest, b'/')?)?;
    let parameters = without_leading_whitespace(rest);
    if !parameters.is_empty() {
        after_char(parameters, b';')?;
    }
    Some(Head {
        type_,
        subtype,
        parameters,
    })
}

/// Returns the head of the MIME type `text/plain` with a text after the subtype. That text is empty or begins with
/// `;`, and has no HTTP whitespace at its ends.
#[tactic(auto, using(crate::proofs::mime::Parsing::text_plain_head_is))]
pub(crate) fn text_plain_head(parameters: &str) -> Head<'_>
    requires begins { BeginsParameters (chars parameters.now) }
    requires trimmed { IsTrimmed (chars parameters.now) }
    ensures { IsHead (codes "text/plain" ++ chars parameters.now)
        (chars result.type_.now) (chars result.subtype.now) (chars result.parameters.now) }
{
    Head {
        type_: "text",
        subtype: "plain",
        parameters,
    }
}

/// Returns the parameter that a text begins with, after its `;`.
#[inline(always)]
pub(super) fn read_parameter(text: &str) -> Parameter<'_>
    ensures token { result.is_token ≡ is_token_text (chars result.name.now) }
    ensures pair { pair_in result ≡ valid_of (item_in (chars text.now)) }
    ensures rest { chars result.rest.now ≡ (reading_in (chars text.now)).rest }
{
    let (name, is_token, rest) = split_name(without_leading_whitespace(text));
    let (value, rest) = match after_char(rest, b'=') {
        Some(given) => read_value(given),
        None => (Value::Missing, rest),
    };
    Parameter {
        name,
        is_token,
        value,
        rest,
    }
}

/// Returns the value after a `=`, and the text after it.
#[inline(always)]
fn read_value(text: &str) -> (Value<'_>, &str)
    ensures value { value_of result.0 ≡ quotable_value (given_reading (chars text.now)).value }
    ensures rest { chars result.1.now ≡ (given_reading (chars text.now)).rest }
{
    let Some(quoted) = after_char(text, b'"') else {
        return read_unquoted(text);
    };
    let (text, is_verbatim, after) = split_quote(quoted);
    let value = if is_verbatim {
        Value::Verbatim(text)
    } else {
        Value::Quoted(text)
    };
    (value, from_semicolon(after))
}

/// Returns the value after a `=` that does not begin with `"`, and the text after it.
#[tactic(auto, using(crate::proofs::mime::Parsing::unquoted_values))]
fn read_unquoted(text: &str) -> (Value<'_>, &str)
    ensures value { value_of result.0 ≡ quotable_value (unquoted_reading (chars text.now)).value }
    ensures rest { chars result.1.now ≡ without_start in_value (chars text.now) }
{
    let bytes = text.as_bytes();
    let quotable = long_span(Class::Unquoted, bytes);
    let (value, rest) = text.split_at(quotable + span(Class::Value, &bytes[quotable..]));
    let value = without_trailing_whitespace(value);
    if value.is_empty() || value.len() > quotable {
        return (Value::Missing, rest);
    }
    (Value::Unquoted(value), rest)
}

/// Splits a text at the quote that closes a quoted string. If there is none, the whole text is the quoted string. The
/// flag is whether the quoted string has neither `"` nor `\`.
#[tactic(auto, using(crate::proofs::mime::TokenTexts::quotes, crate::proofs::mime::Parsing::verbatim))]
fn split_quote(text: &str) -> (&str, bool, &str)
    ensures quoted { chars result.0.now
        ≡ take (quoted_len false (chars text.now)) (chars text.now) }
    ensures verbatim { result.1 ≡ true
        → unescaped false (chars result.0.now) ≡ chars result.0.now }
    ensures after { chars result.2.now
        ≡ drop (suc (quoted_len false (chars text.now))) (chars text.now) }
{
    let bytes = text.as_bytes();
    let verbatim_len = long_span(Class::Unescaped, bytes);
    let mut place = verbatim_len;
    while place < bytes.len() {
        if bytes[place] == b'"' {
            return (&text[..place], place == verbatim_len, &text[place + 1..]);
        }
        let from = bytes.len().min(place + 2);
        place = from + span_if_any(Class::Unescaped, &bytes[from..]);
    }
    (text, verbatim_len == bytes.len(), "")
}

/// The length of the shortest valid parameter, such as `;a=b`, in bytes; about half of what most take.
const LEAST_LEN: usize = 4;

/// The greatest number of parameters that room is allocated for at first.
const MOST: usize = 32;

/// The parameters that are kept of a text that is empty or begins with `;`.
#[tactic(auto, using(crate::proofs::mime::FirstNames::parameters))]
pub(super) fn read_parameters(
    alloc: Global,
    text: &str,
) -> Result<Vec<(String, String)>, AllocError>
    requires { BeginsParameters (chars text.now) }
    ensures { IfOk result (λ pairs. (items : List Item) × Items (chars text.now) items
        × (map (λ p. pair_of p) pairs.items ≡ kept_pairs items)) }
{
    if text.is_empty() {
        return Ok(Vec::new(alloc));
    }
    let capacity = ((text.len() / LEAST_LEN + 1) / 2).min(MOST);
    let mut kept = KeptParameters {
        pairs: Vec::with_capacity(alloc, capacity)?,
        fingerprints: [0; FINGERPRINTS_LEN],
        later_names: BTreeSet::new(alloc),
    };
    let mut rest = text;
    while !rest.is_empty() {
        let parameter = read_parameter(after_semicolon(rest));
        rest = parameter.rest;
        keep(alloc, &mut kept, &parameter)?;
    }
    Ok(kept.pairs)
}

/// Adds the pair of a parameter, if it is valid and its name is not there yet.
#[tactic(auto, using(crate::proofs::mime::FirstNames::lowercase_name))]
fn keep(
    alloc: Global,
    kept: &mut KeptParameters,
    parameter: &Parameter<'_>,
) -> Result<(), AllocError>
    requires indexed { IsIndexed kept.old }
    requires token { parameter.now.is_token ≡ is_token_text (chars parameter.now.name.now) }
    ensures pairs { OnOk result (pairs_of kept.new
        ≡ pairs_of kept.old ++ unless_named (pairs_of kept.old) (pair_in parameter.now)) }
    ensures indexed { OnOk result (IsIndexed kept.new) }
{
    let name = parameter.name;
    if !parameter.is_token || kept.is_among_first(name) {
        return Ok(());
    }
    let Some(value) = parameter.value.text(alloc)? else {
        return Ok(());
    };
    kept.push(lowercased(alloc, name)?, value)
}
