//! Bodies, decoded by closures that keep state.

ghost use Rattle.std.specs.Prelude.{◌+◌, length};
ghost use Rattle.std.specs.Fn.{CalledAt};
ghost use Rattle.data_url.specs.DataUrl.{Decodes};
ghost use Rattle.data_url.specs.DataUrl.{url_body, url_tail};
ghost use Rattle.uses.specs.Bodies.{AnyAnswer, Appends, IsLengthOf};

use data_url::DataUrl;
use data_url::forgiving_base64::{DecodeError, DecodeToVecError, InvalidBase64};
use std::alloc::AllocError;
use std::convert::Infallible;

/// Calls a closure with the body of a URL, piece by piece, and returns the closure as its last call left it. Nothing is
/// allocated, and the fragment is dropped. The result of decoding is written to a place of its own, so that a caller
/// still knows, by its cases, what its closure captured.
///
/// It is `WriteError` with the closure's error, which is not called again, and `InvalidBase64` for a base64 body that
/// is not valid, after calls with the bytes before its first fault.
pub fn decode_body<F, E>(url: &DataUrl, answer: &mut Result<(), DecodeError<E>>, write: F) -> F
where
    F: FnMut(&[u8]) -> Result<(), E>,
    E: Drop,
    requires { F.IsAlwaysCallable write }
    ensures { Decodes (CalledAt F.FnMut) write (length (url_tail url.now) + 1) (url_body url.now)
        AnyAnswer answer.new result }
{
    let (answered, write) = url.decode_with(write);
    *answer = match answered {
        Ok(_) => Ok(()),
        Err(error) => Err(error),
    };
    write
}

/// How many bytes the body of a URL has, or the greatest number where they are more. It takes no memory.
///
/// The error comes for a base64 body that is not valid.
pub fn body_len(url: &DataUrl) -> Result<usize, InvalidBase64>
    ensures { IsLengthOf (url_body url.now) result }
{
    let mut len: usize = 0;
    let mut answer = Ok(());
    decode_body(url, &mut answer, |piece: &[u8]| -> Result<(), Infallible> {
        len = len.saturating_add(piece.len());
        Ok(())
    });
    match answer {
        Ok(()) => Ok(len),
        Err(DecodeError::InvalidBase64(refusal)) => Err(refusal),
        Err(DecodeError::WriteError(never)) => match never {},
    }
}

/// Appends the body of a URL to a vector.
///
/// Returns `InvalidBase64` if the body is base64 that is not valid, after the bytes before its first fault were
/// appended, and `OutOfMemory` if allocation fails, after a beginning of the body was appended.
pub fn append_body(url: &DataUrl, bytes: &mut Vec<u8>) -> Result<(), DecodeToVecError>
    ensures { Appends (url_body url.now) bytes.old.items bytes.new.items result }
{
    let mut answer = Ok(());
    decode_body(url, &mut answer, |piece: &[u8]| -> Result<(), AllocError> {
        bytes.extend_from_slice(piece)
    });
    match answer {
        Ok(()) => Ok(()),
        Err(DecodeError::InvalidBase64(refusal)) => Err(DecodeToVecError::InvalidBase64(refusal)),
        Err(DecodeError::WriteError(AllocError)) => Err(DecodeToVecError::OutOfMemory),
    }
}
