//! Forgiving base64 (Infra Standard, forgiving-base64 decode).

ghost use Rattle.std.specs.Prelude.{◌≡◌, ◌*◌, ◌+◌, ◌++◌, ◌/◌, ◌%◌, IfErr, IfOk, IsOk, IsTrue, Some};
ghost use Rattle.std.specs.Fn.{CalledAt};
ghost use Rattle.data_url.specs.{Parts.{left_over_text}, Steps.Parts.{DecodesPart, FinishesPart}};
ghost use Rattle.data_url.specs.Base64.{decoded, is_valid};
ghost use Rattle.data_url.specs.Steps.Whole.{DecodesText};
ghost use Rattle.data_url.specs.Errors.{IsErrorOf};

use std::alloc::{AllocError, Global};
use std::error::Error;
use std::fmt;
use std::marker::Model;

mod alphabet;
mod decode;
mod gaps;
mod held;
mod left_over;
mod rows;

pub use decode::Decoder;
pub use left_over::LeftOver;

/// Why a text is not valid base64 ([Infra Standard, forgiving-base64
/// decode](https://infra.spec.whatwg.org/#forgiving-base64-decode)). There are four kinds:
///
/// - an unexpected symbol, with its byte, which is neither white space nor `=` nor in the alphabet;
/// - an alphabet symbol after padding: a `=` is somewhere before it;
/// - a lone alphabet symbol, left over after the groups of four;
/// - padding: the number of `=` does not fit.
///
/// Contracts see the kind; `Display` writes it.
#[derive(Debug, Drop)]
pub struct InvalidBase64 {
    details: InvalidBase64Details,
}

/// The kinds of base64 that is not valid ([Infra Standard, forgiving-base64
/// decode](https://infra.spec.whatwg.org/#forgiving-base64-decode)).
#[derive(Clone, Copy, Debug)]
pub enum InvalidBase64Details {
    /// A byte that is neither white space nor `=` nor a symbol of the alphabet.
    UnexpectedSymbol(u8),
    /// An alphabet symbol with a `=` somewhere before it.
    AlphabetSymbolAfterPadding,
    /// A symbol left over after the groups of four.
    LoneAlphabetSymbol,
    /// A number of `=` that does not fit the symbols.
    Padding,
}

impl Model for InvalidBase64 {
    ghost use Rattle.data_url.specs.Base64.{Kind};

    ghost Value = { Kind };

    ghost view = { λ refusal. refusal.details };
}

impl InvalidBase64 {
    ghost use Rattle.std.specs.Prelude.{◌≡◌};

    /// Returns the kind, with the byte of an unexpected symbol.
    pub fn details(&self) -> InvalidBase64Details
        ensures { result ≡ self.now }
    {
        self.details
    }
}

impl fmt::Display for InvalidBase64 {
    ghost use Rattle.data_url.specs.Errors.{kind_text};

    ghost output = { λ kind. Some (kind_text kind) };

    fn fmt<W: fmt::Write>(&self, f: &mut fmt::Formatter<W>) -> fmt::Result {
        match &self.details {
            InvalidBase64Details::UnexpectedSymbol(byte) => {
                write!(f, "symbol with codepoint {byte} not expected")
            }
            InvalidBase64Details::AlphabetSymbolAfterPadding => {
                write!(f, "alphabet symbol present after padding")
            }
            InvalidBase64Details::LoneAlphabetSymbol => write!(f, "lone alphabet symbol present"),
            InvalidBase64Details::Padding => write!(f, "incorrect padding"),
        }
    }
}

impl Error for InvalidBase64 {}

/// Why decoding ended early: the text is not valid base64 ([Infra Standard, forgiving-base64
/// decode](https://infra.spec.whatwg.org/#forgiving-base64-decode)), or the closure returned an error.
#[derive(Debug, Drop)]
pub enum DecodeError<E> {
    /// The text is not valid base64.
    InvalidBase64(InvalidBase64),
    /// The closure's own error.
    WriteError(E),
}

impl<E: fmt::Display> fmt::Display for DecodeError<E> {
    ghost use Rattle.data_url.specs.Errors.{decode_error_text};

    ghost output = { λ error. decode_error_text E.output error };

    fn fmt<W: fmt::Write>(&self, f: &mut fmt::Formatter<W>) -> fmt::Result {
        match self {
            DecodeError::InvalidBase64(inner) => write!(f, "base64 not valid: {inner}"),
            DecodeError::WriteError(inner) => write!(f, "write error: {inner}"),
        }
    }
}

impl<E: Error> Error for DecodeError<E> {}

/// Why a text was not decoded into a vector: it is not valid base64 ([Infra Standard, forgiving-base64
/// decode](https://infra.spec.whatwg.org/#forgiving-base64-decode)), or allocation failed.
#[derive(Debug, Drop)]
pub enum DecodeToVecError {
    /// The text is not valid base64.
    InvalidBase64(InvalidBase64),
    /// Allocation failed.
    OutOfMemory,
}

impl DecodeToVecError {
    ghost use Rattle.std.specs.Prelude.{◌≡◌};
    ghost use Rattle.data_url.specs.Steps.Whole.{vec_error};

    /// Returns the error of a vector that a closure fills: the closure fails if allocation does.
    pub(crate) fn of(error: DecodeError<AllocError>) -> Self
        ensures { result ≡ vec_error error }
    {
        match error {
            DecodeError::InvalidBase64(refusal) => DecodeToVecError::InvalidBase64(refusal),
            DecodeError::WriteError(AllocError) => DecodeToVecError::OutOfMemory,
        }
    }
}

impl fmt::Display for DecodeToVecError {
    ghost use Rattle.data_url.specs.Errors.{vec_error_text};

    ghost output = { λ error. Some (vec_error_text error) };

    fn fmt<W: fmt::Write>(&self, f: &mut fmt::Formatter<W>) -> fmt::Result {
        match self {
            DecodeToVecError::InvalidBase64(inner) => write!(f, "{inner}"),
            DecodeToVecError::OutOfMemory => write!(f, "out of memory"),
        }
    }
}

impl Error for DecodeToVecError {}

/// Calls a closure with the bytes of a text. Returns the closure as well.
pub(crate) fn decode_whole<F, E>(input: &[u8], write_bytes: F) -> (Result<(), DecodeError<E>>, F)
where
    F: FnMut(&[u8]) -> Result<(), E>,
    requires { F.IsAlwaysCallable write_bytes }
    ensures { DecodesText (CalledAt F.FnMut) write_bytes input.now result.0 result.1 }
{
    let mut decoder = Decoder::new(write_bytes);
    match decoder.feed(input) {
        Ok(()) => decoder.finish_with(),
        Err(error) => (Err(error), decoder.into_closure()),
    }
}

/// Calls a closure with the bytes of the groups that a text completes after what was left over. What is left over then
/// takes the place of what was. After an error it is of no use.
pub(crate) fn decode_part<F, E>(
    left_over: &mut LeftOver,
    text: &[u8],
    write_bytes: &mut F,
) -> Result<(), DecodeError<E>>
where
    F: FnMut(&[u8]) -> Result<(), E>,
    requires { F.IsAlwaysCallable write_bytes.old }
    ensures { DecodesPart (CalledAt F.FnMut) write_bytes.old
        (left_over_text left_over.old ++ text.now) left_over.new result write_bytes.new }
{
    let write = |piece: &[u8]| -> Result<(), E> { write_bytes(piece) };
    let mut decoder = Decoder::resume(*left_over, write);
    let answer = decoder.feed(text);
    *left_over = decoder.left_over();
    answer
}

/// Calls a closure with the last bytes of a text of base64 that has this left over. Returns the closure as well.
pub(crate) fn finish_part<F, E>(
    left_over: LeftOver,
    write_bytes: F,
) -> (Result<(), DecodeError<E>>, F)
where
    F: FnMut(&[u8]) -> Result<(), E>,
    requires { F.IsAlwaysCallable write_bytes }
    ensures { FinishesPart (CalledAt F.FnMut) write_bytes left_over result.0 result.1 }
{
    Decoder::resume(left_over, write_bytes).finish_with()
}

/// Returns how many bytes a text of base64 of this length decodes to at most.
pub(crate) fn max_decoded_len(len: usize) -> usize
    ensures { result ≡ len / 4 * 3 + len % 4 * 3 / 4 }
{
    len / 4 * 3 + len % 4 * 3 / 4
}

/// Decodes a text of base64
/// ([Infra Standard, forgiving-base64 decode](https://infra.spec.whatwg.org/#forgiving-base64-decode)). Room for the
/// bytes is allocated once, by the length of the text.
///
/// Returns `InvalidBase64` with the first fault if the text is not valid, and `OutOfMemory` if allocation fails. That
/// is before the text is read, so a text that is not valid gives `OutOfMemory` too, if there is no room for its bytes.
pub fn decode_to_vec(alloc: Global, input: &[u8]) -> Result<Vec<u8>, DecodeToVecError>
    ensures valid { IsOk result → IsTrue (is_valid input.now) }
    ensures bytes { IfOk result (λ bytes. bytes.items ≡ decoded input.now) }
    ensures error { IfErr result (IsErrorOf input.now) }
{
    let Ok(mut bytes) = Vec::with_capacity(alloc, max_decoded_len(input.len())) else {
        return Err(DecodeToVecError::OutOfMemory);
    };
    let ended = decode_whole(input, |piece: &[u8]| -> Result<(), AllocError> {
        bytes.extend_from_slice(piece)
    });
    match ended.0 {
        Ok(()) => Ok(bytes),
        Err(error) => Err(DecodeToVecError::of(error)),
    }
}
