//! The statuses that calls return. The comment of `lib.rt` has a table of them.

ghost use Rattle.std.specs.Prelude.{◌≡◌};
ghost use Rattle.data_url_c.specs.Answers.{status_of_kind};

use data_url::forgiving_base64::InvalidBase64;
use data_url::parts::InvalidBase64Details;

/// The call succeeded.
pub(crate) const DONE: u32 = 0;

/// The text has no scheme `data:`.
pub(crate) const NOT_A_DATA_URL: u32 = 1;

/// There is no comma before the fragment.
pub(crate) const NO_COMMA: u32 = 2;

/// Allocation failed.
pub(crate) const OUT_OF_MEMORY: u32 = 3;

/// The text is not UTF-8.
pub(crate) const NOT_UTF8: u32 = 4;

/// The output is too small for the result.
pub(crate) const OUTPUT_TOO_SMALL: u32 = 5;

/// The text is not a MIME type.
pub(crate) const NOT_A_MIME_TYPE: u32 = 6;

/// The URL has no fragment.
pub(crate) const NO_FRAGMENT: u32 = 7;

/// Base64 with padding that does not fit the symbols.
const PADDING: u32 = 8;

/// Base64 with a symbol left over after the groups of four.
const LONE_SYMBOL: u32 = 9;

/// Base64 with a symbol after padding.
const SYMBOL_AFTER_PADDING: u32 = 10;

/// A body or a fragment goes on.
pub(crate) const MORE: u32 = 11;

/// The state is not good, or its text has ended.
pub(crate) const BAD_STATE: u32 = 12;

/// Base64 with a byte that is not allowed: this and the byte.
const UNEXPECTED_SYMBOL: u32 = 256;

/// Returns the status of a kind of base64 that is not valid: for an unexpected symbol, also from its byte.
pub(crate) fn status_of_details(details: InvalidBase64Details) -> u32
    ensures { result ≡ status_of_kind details }
{
    match details {
        InvalidBase64Details::Padding => PADDING,
        InvalidBase64Details::LoneAlphabetSymbol => LONE_SYMBOL,
        InvalidBase64Details::AlphabetSymbolAfterPadding => SYMBOL_AFTER_PADDING,
        InvalidBase64Details::UnexpectedSymbol(byte) => UNEXPECTED_SYMBOL + u32::from(byte),
    }
}

/// Returns the status of base64 that is not valid.
pub(crate) fn status_of(refusal: &InvalidBase64) -> u32
    ensures { result ≡ status_of_kind refusal.now }
{
    status_of_details(refusal.details())
}
