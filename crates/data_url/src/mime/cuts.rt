//! Where texts are cut: at HTTP whitespace, at a character and after token code points (MIME Sniffing Standard,
//! section 3).
#![tactic(auto, using(crate::proofs::mime::Parsing::cuts))]

ghost use Rattle.std.specs.{Prelude.{◌≡◌, ◌<◌, ◌∷◌, [], None, Some, MatchOption, length, take}, Str.{chars}};
ghost use Rattle.data_url.specs.CodePoints.{is_http_whitespace, is_token};
ghost use Rattle.data_url.specs.Mime.{BeginsParameters, is_token_text};
ghost use Rattle.data_url.specs.Url.{without_end, without_start};
ghost use Rattle.data_url.specs.Steps.Parsing.{IsTokens, IsTrimmedEnd, after_char, front_of};
ghost use Rattle.data_url.specs.Steps.Parsing.{in_name, in_value};

use crate::classes::{Class, end_span, span};

/// The text without HTTP whitespace at its start.
pub(super) fn without_leading_whitespace(text: &str) -> &str
    ensures { chars result.now ≡ without_start is_http_whitespace (chars text.now) }
{
    &text[span(Class::Whitespace, text.as_bytes())..]
}

/// The text without HTTP whitespace at its end.
pub(crate) fn without_trailing_whitespace(text: &str) -> &str
    ensures trimmed { IsTrimmedEnd is_http_whitespace (chars text.now) (chars result.now) }
    ensures without { chars result.now ≡ without_end is_http_whitespace (chars text.now) }
    ensures bytes { result.now ≡ take (length result.now) text.now }
{
    &text[..text.len() - end_span(Class::Whitespace, text.as_bytes())]
}

/// The text after an ASCII character, if the text begins with it.
#[inline(always)]
pub(super) fn after_char(text: &str, c: u8) -> Option<&str>
    requires { c < 128 }
    ensures { MatchOption result (after_char c (chars text.now) ≡ None)
        (λ rest. after_char c (chars text.now) ≡ Some (chars rest.now)) }
{
    let bytes = text.as_bytes();
    if bytes.is_empty() || bytes[0] != c {
        return None;
    }
    Some(&text[1..])
}

/// The text after its first character, which is `;`.
#[inline(always)]
#[tactic(auto, using(crate::proofs::mime::Parsing::past_semicolon))]
pub(super) fn after_semicolon(text: &str) -> &str
    requires begins { BeginsParameters (chars text.now) }
    requires some { 0 < length text.now }
    ensures { chars text.now ≡ 59 ∷ chars result.now }
{
    &text[1..]
}

/// The text from its first `;` on.
pub(super) fn from_semicolon(text: &str) -> &str
    ensures { chars result.now ≡ without_start in_value (chars text.now) }
{
    &text[span(Class::Value, text.as_bytes())..]
}

/// Whether a text is not empty and has only token code points.
pub(super) fn is_token_text(text: &str) -> bool
    ensures { result ≡ is_token_text (chars text.now) }
{
    !text.is_empty() && span(Class::Token, text.as_bytes()) == text.len()
}

/// Splits a text after its longest prefix of token code points. Returns None if that is empty.
pub(super) fn split_tokens(text: &str) -> Option<(&str, &str)>
    ensures { MatchOption result (front_of is_token (chars text.now) ≡ [])
        (λ parts. IsTokens (chars text.now) (chars parts.0.now) (chars parts.1.now)) }
{
    let len = span(Class::Token, text.as_bytes());
    if len == 0 {
        return None;
    }
    Some(text.split_at(len))
}

/// Splits a text before its first `;` or `=`. The flag is whether the first part has token code points alone, and is
/// not empty.
#[inline(always)]
#[tactic(auto, using(crate::proofs::mime::TokenTexts::names))]
pub(super) fn split_name(text: &str) -> (&str, bool, &str)
    ensures name { chars result.0.now ≡ front_of in_name (chars text.now) }
    ensures token { result.1 ≡ is_token_text (chars result.0.now) }
    ensures rest { chars result.2.now ≡ without_start in_name (chars text.now) }
{
    let bytes = text.as_bytes();
    let tokens = span(Class::Token, bytes);
    let (name, rest) = text.split_at(tokens + span(Class::Name, &bytes[tokens..]));
    (name, tokens != 0 && tokens == name.len(), rest)
}
