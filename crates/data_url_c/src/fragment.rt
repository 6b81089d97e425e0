//! Fragments, whole and in parts.

ghost use Rattle.data_url_c.specs.{Gives.{GivesFragment}, Parts.{EncodesFragment}, Steps.{HasFragment}};

use crate::answer::{DataUrlFed, Refusal};
use crate::status::{DONE, MORE, OUTPUT_TOO_SMALL};
use crate::url::url_of_bytes;
use data_url::DataUrl;
use data_url::forgiving_base64::DecodeError;
use data_url::parts::{Encoded, encode_fragment};
use std::alloc::{AllocError, Global};
use std::convert::Infallible;

/// The encoded fragment of a URL, whose whole body is decoded first.
fn encoded_fragment_of(alloc: Global, url: &DataUrl) -> Result<Vec<u8>, Refusal>
    ensures { HasFragment url.now result }
{
    match url.decode(|_piece: &[u8]| -> Result<(), Infallible> { Ok(()) }) {
        Ok(Some(fragment)) => match fragment.to_percent_encoded(alloc) {
            Ok(text) => Ok(text.into_bytes()),
            Err(AllocError) => Err(Refusal::OutOfMemory),
        },
        Ok(None) => Err(Refusal::NoFragment),
        Err(DecodeError::InvalidBase64(refusal)) => {
            Err(Refusal::InvalidBase64(refusal, Vec::new(alloc)))
        }
        Err(DecodeError::WriteError(never)) => match never {},
    }
}

/// Returns the encoded fragment of the URL that bytes are.
pub(crate) fn fragment(alloc: Global, url: &[u8]) -> Result<Vec<u8>, Refusal>
    ensures { GivesFragment url.now result }
{
    match url_of_bytes(alloc, url) {
        Ok(url) => encoded_fragment_of(alloc, &url),
        Err(refusal) => Err(refusal),
    }
}

/// The smallest output that a fragment is encoded into, in bytes: a byte is written as three at most.
const SMALLEST_OUTPUT: usize = 3;

/// Encodes the start of a fragment.
pub(crate) fn next(text: &[u8], out: &mut [u8]) -> DataUrlFed
    ensures { EncodesFragment text.now out.old out.new result }
{
    if out.len() < SMALLEST_OUTPUT {
        return DataUrlFed {
            status: OUTPUT_TOO_SMALL,
            len: 0,
            read: 0,
        };
    }
    let Encoded { read, len } = encode_fragment(text, out);
    let status = if read < text.len() { MORE } else { DONE };
    DataUrlFed { status, len, read }
}
