//! Texts and data: URLs, from bytes that come from C.

ghost use Rattle.std.specs.Prelude.{◌≡◌, IsUtf8, MatchOption};
ghost use Rattle.data_url_c.specs.Steps.{IsRefusalOf, IsUrlFor};

use crate::answer::Refusal;
use data_url::{DataUrl, DataUrlError};
use std::alloc::Global;

/// The text of bytes, if they are UTF-8.
pub(crate) fn text_of(bytes: &[u8]) -> Option<&str>
    ensures { MatchOption result (IsUtf8 bytes.now → ⊥) (λ text. IsUtf8 bytes.now
        × (text.now ≡ bytes.now)) }
{
    str::from_utf8(bytes).ok()
}

/// Returns why a text is not a data: URL.
pub(crate) fn refusal_of(error: DataUrlError) -> Refusal
    ensures { IsRefusalOf error result }
{
    match error {
        DataUrlError::NotADataUrl => Refusal::NotADataUrl,
        DataUrlError::NoComma => Refusal::NoComma,
        DataUrlError::OutOfMemory => Refusal::OutOfMemory,
    }
}

/// The URL of a text.
pub(crate) fn url_of<'a>(alloc: Global, text: &'a str) -> Result<DataUrl<'a>, Refusal>
    ensures { IsUrlFor text.entry.now result }
{
    match DataUrl::process(alloc, text) {
        Ok(url) => Ok(url),
        Err(error) => Err(refusal_of(error)),
    }
}

/// The URL of the text of bytes.
pub(crate) fn url_of_bytes<'a>(alloc: Global, bytes: &'a [u8]) -> Result<DataUrl<'a>, Refusal>
    ensures { IsUrlFor bytes.entry.now result }
{
    match text_of(bytes) {
        Some(text) => url_of(alloc, text),
        None => Err(Refusal::NotUtf8),
    }
}
