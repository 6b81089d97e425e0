//! Headers of data: URLs, whose MIME types are written in parts.

ghost use Rattle.data_url.specs.Parts.{ReadsHeader};

use crate::DataUrlError;
use crate::header::{serialise, serialised_text, split_suffix, write_media};
use crate::mime::write_default;
use crate::split::{after_scheme, split_at_comma, trim};
use std::alloc::Global;

/// What reading the header of a data: URL returns.
#[derive(Clone, Copy)]
pub struct Header<'a> {
    /// How many bytes the MIME type has in parts. It is written if the output has room for as many.
    pub len: usize,
    /// Whether the body is base64.
    pub base64: bool,
    /// The text after the comma: the body, and the fragment if there is one.
    pub tail: &'a str,
}

/// Reads the header of a data: URL
/// ([Fetch Standard, section 6](https://fetch.spec.whatwg.org/#data-url-processor)), as `DataUrl::process` does, and
/// writes its MIME type to the start of an output, in parts as `read_mime_type` does. If the header has none, this is
/// `text/plain;charset=US-ASCII`. Everything after `data:` is an opaque path (URL Standard, section 4.4).
///
/// Returns how many bytes the parts have together, whether the body is base64, and the text after the comma, from which
/// `Body` decodes it. If the output has room for fewer bytes, nothing is written.
///
/// Returns `NotADataUrl` exactly if the text does not begin with the scheme `data:`, and `NoComma` exactly if it does
/// and there is no comma before its fragment. Allocates only for a header with a `?`, a tab, a newline or a byte to
/// percent-encode, and for a MIME type with more than 8 parameters. Returns `OutOfMemory` if that fails, or if the
/// parts have 2 to the power of 63 bytes or more together.
#[tactic(auto, using(crate::proofs::header::Stages::stages))]
pub fn read_header<'a>(
    alloc: Global,
    input: &'a str,
    output: &mut [u8],
) -> Result<Header<'a>, DataUrlError>
    ensures { ReadsHeader input.entry.now output.old output.new result }
{
    let Some(rest) = after_scheme(trim(input)) else {
        return Err(DataUrlError::NotADataUrl);
    };
    let Some(split) = split_at_comma(rest) else {
        return Err(DataUrlError::NoComma);
    };
    if split.header.is_empty() {
        return Ok(Header {
            len: write_default(output),
            base64: false,
            tail: split.tail,
        });
    }
    let Ok(text) = serialise(alloc, split.header, split.is_serialised) else {
        return Err(DataUrlError::OutOfMemory);
    };
    let (media, base64) = split_suffix(serialised_text(&text, split.header));
    let Ok(len) = write_media(alloc, media, output) else {
        return Err(DataUrlError::OutOfMemory);
    };
    Ok(Header {
        len,
        base64,
        tail: split.tail,
    })
}
