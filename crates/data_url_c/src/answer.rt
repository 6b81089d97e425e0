//! How a result is passed to C: as a status, a length, and bytes in the caller's output.

ghost use Rattle.std.specs.Prelude.{◌≡◌, List, ℕ};
ghost use Rattle.data_url.specs.Parts.{WritesIfFits};
ghost use Rattle.data_url_c.specs.Answers.{Crosses, Shows};

use crate::status::{
    DONE, NO_COMMA, NO_FRAGMENT, NOT_A_DATA_URL, NOT_A_MIME_TYPE, NOT_UTF8, OUT_OF_MEMORY,
    OUTPUT_TOO_SMALL, status_of,
};
use data_url::forgiving_base64::InvalidBase64;

/// Why a call failed.
#[derive(Drop)]
pub enum Refusal {
    /// The text does not begin with the scheme `data:`.
    NotADataUrl,
    /// There is no comma before the fragment.
    NoComma,
    /// Allocation failed.
    OutOfMemory,
    /// The bytes are not UTF-8.
    NotUtf8,
    /// The text is not a MIME type.
    NotAMimeType,
    /// The URL has no fragment.
    NoFragment,
    /// The base64 is not valid; with the bytes before its first fault, if the call returns them.
    InvalidBase64(InvalidBase64, Vec<u8>),
}

/// What a call for a whole text returns.
#[repr(C)]
#[derive(Clone, Copy)]
pub struct DataUrlAnswer {
    /// How the call ended: 0 if it succeeded.
    pub status: u32,
    /// How many bytes the result has, whether or not they fit into the output.
    pub len: usize,
}

/// What feeding a part of base64, or encoding a part of a fragment, returns.
#[repr(C)]
#[derive(Clone, Copy)]
pub struct DataUrlFed {
    /// How the call ended: 0 if it succeeded, 11 if a fragment goes on.
    pub status: u32,
    /// How many bytes were written to the front of the output.
    pub len: usize,
    /// How many bytes of the part were read, from its start.
    pub read: usize,
}

/// What a step of decoding returns.
#[repr(C)]
#[derive(Clone, Copy)]
pub struct DataUrlStep {
    /// How the call ended: 0 if it succeeded.
    pub status: u32,
    /// How many bytes were written to the front of the output.
    pub len: usize,
}

/// Writes bytes to the start of the output, and returns the given status and their number. If the output is too small
/// for them, returns that, and how many there are.
pub(crate) fn show(status: u32, bytes: &[u8], out: &mut [u8]) -> DataUrlAnswer
    ensures { Shows status bytes.now out.old out.new result }
{
    let len = bytes.len();
    if len > out.len() {
        return DataUrlAnswer {
            status: OUTPUT_TOO_SMALL,
            len,
        };
    }
    out[..len].copy_from_slice(bytes);
    DataUrlAnswer { status, len }
}

/// Returns the result for bytes that were written to the start of an output, if it has room for them.
pub(crate) fn written(len: usize, out: &[u8]) -> DataUrlAnswer
    ensures { (bytes old : List ℕ) → WritesIfFits bytes old out.now len
        → Shows 0 bytes old out.now result }
{
    let status = if len > out.len() {
        OUTPUT_TOO_SMALL
    } else {
        DONE
    };
    DataUrlAnswer { status, len }
}

/// The status of an error without bytes.
fn tell(status: u32) -> DataUrlAnswer
    ensures { (result.status ≡ status) × (result.len ≡ 0) }
{
    DataUrlAnswer { status, len: 0 }
}

/// Returns the result for C of a call that returned bytes or an error.
pub(crate) fn answer(given: Result<Vec<u8>, Refusal>, out: &mut [u8]) -> DataUrlAnswer
    ensures { Crosses given out.old out.new result }
{
    match given {
        Ok(bytes) => show(DONE, &bytes, out),
        Err(Refusal::InvalidBase64(refusal, before)) => show(status_of(&refusal), &before, out),
        Err(Refusal::NotADataUrl) => tell(NOT_A_DATA_URL),
        Err(Refusal::NoComma) => tell(NO_COMMA),
        Err(Refusal::OutOfMemory) => tell(OUT_OF_MEMORY),
        Err(Refusal::NotUtf8) => tell(NOT_UTF8),
        Err(Refusal::NotAMimeType) => tell(NOT_A_MIME_TYPE),
        Err(Refusal::NoFragment) => tell(NO_FRAGMENT),
    }
}
