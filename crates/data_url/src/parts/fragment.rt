//! Fragments in parts: a fragment is percent-encoded into outputs, one after another.

ghost use Rattle.std.specs.Prelude.{◌≡◌};
ghost use Rattle.data_url.specs.Parts.{EncodesPart};

use super::output::push;
use crate::percent::{BUFFER_LEN, EncodeSet, WIDEST, encode_next};

/// What encoding a part of a fragment returns.
#[derive(Clone, Copy)]
pub struct Encoded {
    /// How many bytes of the text were read, from its start.
    pub read: usize,
    /// How many bytes were written, to the start of the output.
    pub len: usize,
}

/// Writes the start of a fragment to the start of an output, percent-encoded as the URL parser leaves it ([URL
/// Standard, section 4.4, fragment state](https://url.spec.whatwg.org/#fragment-state)). Tabs and newlines are dropped.
/// Each byte of the fragment percent-encode set is written as `%` and two upper-case hexadecimal digits. Any other
/// byte, `%` too, is written as it is. The rest of the output does not change.
///
/// The text is what follows the `#`, and may be any bytes. It is read to its end, or until the output has room for
/// fewer than three bytes. With an output of three bytes or more, at least one byte is read. An output three times as
/// long as the text is enough for all of it. Encode what is left of the text next.
///
/// Returns how many bytes of the text were read, and how many were written.
pub fn encode_fragment(text: &[u8], output: &mut [u8]) -> Encoded
    ensures { EncodesPart text.now output.old output.new result }
{
    let mut buffer = [0; BUFFER_LEN];
    let mut read = 0;
    let mut len = 0;
    while read < text.len() && output.len() - len >= WIDEST {
        let rest = &text[read..];
        let part = &rest[..rest.len().min((output.len() - len) / WIDEST)];
        let (written, after) = encode_next(EncodeSet::Fragment, part, &mut buffer);
        push(output, &mut len, written);
        read += part.len() - after.len();
    }
    Encoded { read, len }
}
