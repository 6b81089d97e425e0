//! Data: URLs by the Fetch Standard, from a text rather than a parsed URL, to avoid copies.
#![tactic(auto)]

ghost use Rattle.std.specs.{Prelude.{◌≡◌, ◌≤◌, ◌+◌, IfErr, IfOk, Some, length}, Fn.{CalledAt}};
ghost use Rattle.data_url.specs.DataUrl.{Decodes, IsFragmentOf, IsProcessed, mime_of, url_body, url_tail};
ghost use Rattle.data_url.specs.{Fetch.{Good}, Errors.{IsBodyErrorOf}};

mod body;
mod classes;
pub mod escapes;
pub mod forgiving_base64;
mod fragment;
mod header;
pub mod laws;
pub mod mime;
mod packing;
pub mod parts;
mod percent;
mod split;

use body::{base64_to_vec, decode_base64, decode_percent_encoded, percent_encoded_to_vec};
use escapes::{Walk, fragment_at};
use forgiving_base64::{DecodeError, DecodeToVecError, max_decoded_len};
pub use fragment::FragmentIdentifier;
use header::{read_media, serialise, serialised_text, split_suffix};
use mime::Mime;
use split::{after_scheme, split_at_comma, trim};
use std::alloc::{AllocError, Global};
use std::error::Error;
use std::fmt;

/// A data: URL ([Fetch Standard, section 6](https://fetch.spec.whatwg.org/#data-url-processor)): its MIME type, and
/// its body and fragment as slices of the text that it was read from.
#[derive(Drop)]
pub struct DataUrl<'a> {
    mime_type: Mime,
    base64: bool,
    tail: &'a str,
}

/// Why a text is not a data: URL ([Fetch Standard, section 6](https://fetch.spec.whatwg.org/#data-url-processor)).
#[derive(Debug, Drop)]
pub enum DataUrlError {
    /// The text does not begin with the scheme `data:` (URL Standard, section 4.4, scheme state).
    NotADataUrl,
    /// There is no comma before the fragment (Fetch Standard, section 6).
    NoComma,
    /// Allocation failed. `parts::read_header` also returns it if the MIME type has 2 to the power of 63 bytes or more
    /// in parts.
    OutOfMemory,
}

impl fmt::Display for DataUrlError {
    ghost use Rattle.data_url.specs.Errors.{url_error_text};

    ghost output = { λ error. Some (url_error_text error) };

    ghost styled_output = { λ error spec. Some (url_error_text error) };

    fn fmt<W: fmt::Write>(&self, f: &mut fmt::Formatter<W>) -> fmt::Result {
        f.write_str(match self {
            DataUrlError::NotADataUrl => "not a valid data url",
            DataUrlError::NoComma => "data url is missing comma delimiting attributes and body",
            DataUrlError::OutOfMemory => "out of memory",
        })
    }
}

impl Error for DataUrlError {}

impl<'a> DataUrl<'a> {
    /// Reads a data: URL ([Fetch Standard, section 6](https://fetch.spec.whatwg.org/#data-url-processor)). Everything
    /// after `data:` is an opaque path (URL Standard, section 4.4).
    ///
    /// Returns `NotADataUrl` exactly if the text does not begin with the scheme `data:`, and `NoComma` exactly if it
    /// does and there is no comma before its fragment. Neither depends on allocation. Returns `OutOfMemory` only for
    /// other texts, if allocation fails. A URL whose base64 body is not valid is accepted: decoding its body returns
    /// the error.
    #[tactic(auto, using(crate::proofs::header::Stages::stages))]
    pub fn process(alloc: Global, input: &'a str) -> Result<DataUrl<'a>, DataUrlError>
        ensures { IsProcessed input.entry.now result }
    {
        let Some(rest) = after_scheme(trim(input)) else {
            return Err(DataUrlError::NotADataUrl);
        };
        let Some(split) = split_at_comma(rest) else {
            return Err(DataUrlError::NoComma);
        };
        let Ok(text) = serialise(alloc, split.header, split.is_serialised) else {
            return Err(DataUrlError::OutOfMemory);
        };
        let (media, base64) = split_suffix(serialised_text(&text, split.header));
        let Ok(mime_type) = read_media(alloc, media) else {
            return Err(DataUrlError::OutOfMemory);
        };
        Ok(DataUrl {
            mime_type,
            base64,
            tail: split.tail,
        })
    }

    /// Returns the MIME type ([Fetch Standard, section 6](https://fetch.spec.whatwg.org/#data-url-processor)): that
    /// of the header or, if the header has none, `text/plain;charset=US-ASCII`.
    pub fn mime_type(&self) -> &Mime
        ensures { result.now ≡ mime_of self.now }
    {
        &self.mime_type
    }

    /// Calls a closure with the body's bytes, piece by piece. Returns the fragment
    /// ([Fetch Standard, section 6](https://fetch.spec.whatwg.org/#data-url-processor)), and the closure as its last
    /// call left it. Nothing is allocated.
    ///
    /// The closure has to accept any bytes, whatever it was called with before. It is called at most once more than
    /// there are bytes after the comma. Callers must not rely on where the bytes are cut, and pieces may be empty.
    /// Today a long stretch of the text is one piece, shorter ones and the values of escapes come in pieces of up to
    /// 512 bytes, base64 comes in pieces of up to 48 bytes, and no piece is empty.
    ///
    /// Returns `WriteError` with the closure's error; the closure is not called again. Returns `InvalidBase64` if the
    /// body is base64 that is not valid, after calls with the bytes before the first fault.
    ///
    /// The result may hold a reference, the fragment. After such a call a caller knows nothing of what its closure
    /// captured: `docs/CALLING.md` shows a small function for closures that keep state.
    pub fn decode_with<F, E>(
        &self,
        write_body_bytes: F,
    ) -> (Result<Option<FragmentIdentifier<'a>>, DecodeError<E>>, F)
    where
        F: FnMut(&[u8]) -> Result<(), E>,
        requires { F.IsAlwaysCallable write_body_bytes }
        ensures { Decodes (CalledAt F.FnMut) write_body_bytes (length (url_tail self.now) + 1)
            (url_body self.now) (IsFragmentOf (url_tail self.now)) result.0 result.1 }
    {
        let tail = self.tail.as_bytes();
        let (answer, write) = if self.base64 {
            decode_base64(tail, write_body_bytes)
        } else {
            let (prefix, walk) = Walk::after_prefix(tail, tail.len());
            decode_percent_encoded(prefix, walk, write_body_bytes)
        };
        match answer {
            Ok(place) => (
                Ok(fragment_at(self.tail, place).map(FragmentIdentifier::new)),
                write,
            ),
            Err(error) => (Err(error), write),
        }
    }

    /// Calls a closure with the body's bytes, piece by piece, and returns the fragment
    /// ([Fetch Standard, section 6](https://fetch.spec.whatwg.org/#data-url-processor)). Nothing is allocated.
    ///
    /// The closure has to accept any bytes, whatever it was called with before. Callers must not rely on where the
    /// bytes are cut.
    ///
    /// Returns `WriteError` with the closure's error. Returns `InvalidBase64` if the body is base64 that is not
    /// valid, after calls with the bytes before the first fault. It may be called again, and begins anew each time.
    ///
    /// The contract speaks of calls of the closure, at most one more than there are bytes after the comma, and none
    /// after an error. That there is no call after these is not proved here: `decode_with` returns the closure that
    /// its calls end with. For a closure that keeps state, such as a count or the bytes, see `docs/CALLING.md`.
    pub fn decode<F, E>(
        &self,
        write_body_bytes: F,
    ) -> Result<Option<FragmentIdentifier<'a>>, DecodeError<E>>
    where
        F: FnMut(&[u8]) -> Result<(), E>,
        requires { F.IsAlwaysCallable write_body_bytes }
        ensures { (after : F) × Decodes (CalledAt F.FnMut) write_body_bytes
            (length (url_tail self.now) + 1) (url_body self.now)
            (IsFragmentOf (url_tail self.now)) result after }
    {
        self.decode_with(write_body_bytes).0
    }

    /// Returns the body's bytes and the fragment
    /// ([Fetch Standard, section 6](https://fetch.spec.whatwg.org/#data-url-processor)).
    ///
    /// Room for a body without tabs, newlines and `%` is allocated once. For another body, room for 64 KiB or less is
    /// allocated first, or more if more bytes come before the first of these. It grows while the body is read. For
    /// base64, room is allocated by the length of the text after the comma, if that is at most 64 KiB, or if its first
    /// 4 KiB have no tab, newline, `%` or `#`. Room for a fragment is given back if it is at least half of the room and
    /// 4 KiB, or if the body has no tab, newline or `%`.
    ///
    /// Returns `InvalidBase64` with the first fault if the body is base64 that is not valid, and `OutOfMemory` if
    /// allocation fails. If both happen, it is `OutOfMemory` if allocation fails before the fault is found: room is
    /// allocated before the body is read, and grows while it is.
    pub fn decode_to_vec(
        &self,
        alloc: Global,
    ) -> Result<(Vec<u8>, Option<FragmentIdentifier<'a>>), DecodeToVecError>
        ensures body { IfOk result (λ found. url_body self.now ≡ Good found.0.items) }
        ensures fragment { IfOk result (λ found. IsFragmentOf (url_tail self.now) found.1) }
        ensures error { IfErr result (IsBodyErrorOf (url_body self.now)) }
    {
        let tail = self.tail.as_bytes();
        let (bytes, place) = if self.base64 {
            base64_to_vec(alloc, tail)?
        } else {
            percent_encoded_to_vec(alloc, tail)?
        };
        let fragment = fragment_at(self.tail, place).map(FragmentIdentifier::new);
        Ok((bytes, fragment))
    }
}
