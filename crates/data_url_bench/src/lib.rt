//! The public functions of `data_url`, for a driver outside of Rattle that times them (`bench` at the top of the
//! repository).
//!
//! Each export returns how many bytes the function returned, or `REFUSED`, and copies them to `out` as far as they fit
//! there. A driver that compares passes an `out` with room; one that times passes an empty one, so that nothing is
//! copied. If the function calls a closure with its bytes, the closure writes them to `out`. In the exports whose names
//! end with `summed` it keeps none, and adds up how many there are, and some of them.
#![tactic(auto)]

ghost use Rattle.std.specs.Prelude.{◌≡◌, length};
ghost use Rattle.std.specs.Str.{IsUtf8};

mod buffer;
mod sum;

use buffer::Buffer;
use data_url::DataUrl;
use data_url::escapes::{Piece, Pieces};
use data_url::forgiving_base64::{Decoder, decode_to_vec};
use data_url::mime::Mime;
use std::alloc::Global;
use sum::Sum;

/// The result of a call that failed.
const REFUSED: usize = usize::MAX;

/// Copies bytes to `out` as far as they fit, and returns how many they are.
fn show(bytes: &[u8], out: &mut [u8]) -> usize
    ensures { result ≡ length bytes.now }
{
    let len = bytes.len().min(out.len());
    out[..len].copy_from_slice(&bytes[..len]);
    bytes.len()
}

/// `forgiving_base64::decode_to_vec`.
#[unsafe(no_mangle)]
pub extern "C" fn data_url_base64_to_vec(alloc: Global, input: &[u8], out: &mut [u8]) -> usize {
    match decode_to_vec(alloc, input) {
        Ok(bytes) => show(&bytes, out),
        Err(_) => REFUSED,
    }
}

/// A `forgiving_base64::Decoder` that is fed once.
#[unsafe(no_mangle)]
pub extern "C" fn data_url_base64_feed(input: &[u8], out: &mut [u8]) -> usize {
    let mut buffer = Buffer::new(out);
    let mut decoder = Decoder::new(|piece: &[u8]| -> Result<(), ()> { buffer.append(piece) });
    if decoder.feed(input).is_err() {
        return REFUSED;
    }
    if decoder.finish().is_err() {
        return REFUSED;
    }
    buffer.len()
}

/// A `forgiving_base64::Decoder` that is fed in parts of `size` bytes.
#[unsafe(no_mangle)]
pub extern "C" fn data_url_base64_feed_summed(input: &[u8], size: usize, out: &mut [u8]) -> usize {
    let mut sum = Sum::new();
    let mut decoder = Decoder::new(|piece: &[u8]| -> Result<(), ()> {
        sum.add(piece);
        Ok(())
    });
    for part in input.chunks(size.max(1)) {
        if decoder.has_failed() || decoder.feed(part).is_err() {
            return REFUSED;
        }
    }
    if decoder.has_failed() || decoder.finish().is_err() {
        return REFUSED;
    }
    sum.show(out)
}

/// `DataUrl::process`; returns the number of parameters of the MIME type.
#[unsafe(no_mangle)]
pub extern "C" fn data_url_process(alloc: Global, text: &[u8]) -> usize
    requires { IsUtf8 text.now }
{
    let text = unsafe { str::from_utf8_unchecked(text) };
    match DataUrl::process(alloc, text) {
        Ok(url) => url.mime_type().parameters.len(),
        Err(_) => REFUSED,
    }
}

/// `DataUrl::process`, and its MIME type printed.
#[unsafe(no_mangle)]
pub extern "C" fn data_url_process_mime(alloc: Global, text: &[u8], out: &mut [u8]) -> usize
    requires { IsUtf8 text.now }
{
    let text = unsafe { str::from_utf8_unchecked(text) };
    let Ok(url) = DataUrl::process(alloc, text) else {
        return REFUSED;
    };
    match format!(in alloc; "{}", url.mime_type()) {
        Ok(line) => show(line.as_bytes(), out),
        Err(_) => REFUSED,
    }
}

/// `DataUrl::process` and `DataUrl::decode`.
#[unsafe(no_mangle)]
pub extern "C" fn data_url_decode(alloc: Global, text: &[u8], out: &mut [u8]) -> usize
    requires { IsUtf8 text.now }
{
    let text = unsafe { str::from_utf8_unchecked(text) };
    let Ok(url) = DataUrl::process(alloc, text) else {
        return REFUSED;
    };
    let mut buffer = Buffer::new(out);
    match url.decode(|piece: &[u8]| -> Result<(), ()> { buffer.append(piece) }) {
        Ok(_) => buffer.len(),
        Err(_) => REFUSED,
    }
}

/// `DataUrl::process` and `DataUrl::decode`.
#[unsafe(no_mangle)]
pub extern "C" fn data_url_decode_summed(alloc: Global, text: &[u8], out: &mut [u8]) -> usize
    requires { IsUtf8 text.now }
{
    let text = unsafe { str::from_utf8_unchecked(text) };
    let Ok(url) = DataUrl::process(alloc, text) else {
        return REFUSED;
    };
    let mut sum = Sum::new();
    let decoded = url.decode(|piece: &[u8]| -> Result<(), ()> {
        sum.add(piece);
        Ok(())
    });
    match decoded {
        Ok(_) => sum.show(out),
        Err(_) => REFUSED,
    }
}

/// `DataUrl::process` and `DataUrl::decode_to_vec`.
#[unsafe(no_mangle)]
pub extern "C" fn data_url_decode_to_vec(alloc: Global, text: &[u8], out: &mut [u8]) -> usize
    requires { IsUtf8 text.now }
{
    let text = unsafe { str::from_utf8_unchecked(text) };
    let Ok(url) = DataUrl::process(alloc, text) else {
        return REFUSED;
    };
    match url.decode_to_vec(alloc) {
        Ok(found) => show(&found.0, out),
        Err(_) => REFUSED,
    }
}

/// `DataUrl::process`, and the `Pieces` of the text after the first comma. Returns how many bytes they have.
#[unsafe(no_mangle)]
pub extern "C" fn data_url_pieces(alloc: Global, text: &[u8], out: &mut [u8]) -> usize
    requires { IsUtf8 text.now }
{
    let text = unsafe { str::from_utf8_unchecked(text) };
    if DataUrl::process(alloc, text).is_err() {
        return REFUSED;
    }
    let Some((_, tail)) = text.split_once(',') else {
        return REFUSED;
    };
    let mut buffer = Buffer::new(out);
    let mut sum = Sum::new();
    let mut pieces = Pieces::new(tail);
    for _ in 0..tail.len() {
        match pieces.next() {
            None => return sum.len(),
            Some(Piece::Slice(slice)) => {
                sum.add(slice);
                buffer.append_if_room(slice);
            }
            Some(Piece::Byte(byte)) => {
                sum.add(&[byte]);
                buffer.append_if_room(&[byte]);
            }
        }
    }
    sum.len()
}

/// `DataUrl::process`, `DataUrl::decode` and the fragment's `to_percent_encoded`.
#[unsafe(no_mangle)]
pub extern "C" fn data_url_fragment(alloc: Global, text: &[u8], out: &mut [u8]) -> usize
    requires { IsUtf8 text.now }
{
    let text = unsafe { str::from_utf8_unchecked(text) };
    let Ok(url) = DataUrl::process(alloc, text) else {
        return REFUSED;
    };
    let Ok(Some(fragment)) = url.decode(|_: &[u8]| -> Result<(), ()> { Ok(()) }) else {
        return REFUSED;
    };
    match fragment.to_percent_encoded(alloc) {
        Ok(encoded) => show(encoded.as_bytes(), out),
        Err(_) => REFUSED,
    }
}

/// `Mime::from_str`; returns the number of parameters.
#[unsafe(no_mangle)]
pub extern "C" fn data_url_mime(alloc: Global, text: &[u8]) -> usize
    requires { IsUtf8 text.now }
{
    let text = unsafe { str::from_utf8_unchecked(text) };
    match Mime::from_str(alloc, text) {
        Ok(mime) => mime.parameters.len(),
        Err(_) => REFUSED,
    }
}

/// `Mime::from_str`, and the record printed.
#[unsafe(no_mangle)]
pub extern "C" fn data_url_mime_printed(alloc: Global, text: &[u8], out: &mut [u8]) -> usize
    requires { IsUtf8 text.now }
{
    let text = unsafe { str::from_utf8_unchecked(text) };
    let Ok(mime) = Mime::from_str(alloc, text) else {
        return REFUSED;
    };
    match format!(in alloc; "{mime}") {
        Ok(line) => show(line.as_bytes(), out),
        Err(_) => REFUSED,
    }
}
