//! Splits the input: trims it, and finds its scheme and its first comma (URL Standard, section 4.4).

ghost use Rattle.std.specs.{Prelude.{◌≡◌, None, IfSome, IfNone, false, true}, List.{list_all}};
ghost use Rattle.data_url.specs.Url.{after, comma, front, trimmed_text, without_tabs_and_newlines};
ghost use Rattle.data_url.specs.Steps.Header.{header_text};
ghost use Rattle.data_url.specs.Steps.Split.{HasNoScheme, IsHeaderAndTail, IsSchemeAndRest};
ghost use Rattle.data_url.specs.Steps.Split.{is_unencoded_path};

use crate::classes::{Class, end_span, has, long_span, span};

const SCHEME: [u8; 5] = *b"data:";

/// The text without C0 controls and spaces at both ends.
#[tactic(auto, using(crate::proofs::texts::CodePoints::controls), unfolding(crate::specs::Url::trimmed_text))]
pub(crate) fn trim(text: &str) -> &str
    ensures { result.now ≡ trimmed_text text.now }
{
    let text = &text[span(Class::Control, text.as_bytes())..];
    &text[..text.len() - end_span(Class::Control, text.as_bytes())]
}

/// What follows the scheme `data:` of a trimmed text, spelled in any ASCII case, with tabs and newlines anywhere.
#[tactic(auto, using(crate::proofs::split::Cuts::common_boundary, crate::proofs::split::Cuts::common_scheme))]
pub(crate) fn after_scheme(text: &str) -> Option<&str>
    ensures found { IfSome result (λ rest. IsSchemeAndRest text.now rest.now) }
    ensures none { IfNone result (HasNoScheme text.now) }
{
    if text.as_bytes().starts_with(&SCHEME) {
        return Some(&text[SCHEME.len()..]);
    }
    after_respelled_scheme(text)
}

/// Returns what follows the scheme, byte by byte, if it is not spelled as it commonly is.
#[inline(never)]
#[tactic(auto, using(crate::proofs::split::Cuts::spelling))]
fn after_respelled_scheme(text: &str) -> Option<&str>
    ensures found { IfSome result (λ rest. IsSchemeAndRest text.now rest.now) }
    ensures none { IfNone result (HasNoScheme text.now) }
{
    let mut matched = 0;
    for (place, byte) in text.as_bytes().iter().enumerate() {
        if has(Class::TabOrNewline, *byte) {
            continue;
        }
        if byte.to_ascii_lowercase() != SCHEME[matched] {
            return None;
        }
        matched += 1;
        if matched == SCHEME.len() {
            return Some(&text[place + 1..]);
        }
    }
    None
}

/// A text cut at its first comma.
#[derive(Clone, Copy)]
pub(crate) struct Split<'a> {
    /// The text before the comma.
    pub(crate) header: &'a str,
    /// The text after it.
    pub(crate) tail: &'a str,
    /// Whether the header has only bytes that are serialised as they are.
    pub(crate) is_serialised: bool,
}

/// The text cut at its first comma, unless a `#` comes before it.
#[tactic(auto, using(crate::proofs::split::Cuts::commas))]
pub(crate) fn split_at_comma(text: &str) -> Option<Split<'_>>
    ensures found { IfSome result (λ f. IsHeaderAndTail text.now f.header.now f.tail.now) }
    ensures serialised { IfSome result (λ f. f.is_serialised ≡ true
        → header_text (without_tabs_and_newlines f.header.now) ≡ f.header.now) }
    ensures encoded { IfSome result (λ f. f.is_serialised ≡ false
        → list_all is_unencoded_path f.header.now ≡ false) }
    ensures none { IfNone result (after comma (front text.now) ≡ None) }
{
    let bytes = text.as_bytes();
    let unencoded = long_span(Class::UnencodedPath, bytes);
    let place = unencoded + span(Class::Header, &bytes[unencoded..]);
    if place == bytes.len() || bytes[place] == b'#' {
        return None;
    }
    Some(Split {
        header: &text[..place],
        tail: &text[place + 1..],
        is_serialised: place == unencoded,
    })
}
