//! A resource loader: the type of a data: URL, and its body streamed into a sink of limited room.

ghost use Rattle.data_url.specs.DataUrl.{url_body};
ghost use Rattle.uses.specs.Loads.{Loads, StreamsBody};
ghost use Rattle.uses.specs.Steps.{Writes, WritesWithin};

use crate::body::decode_body;
use data_url::forgiving_base64::{DecodeError, InvalidBase64};
use data_url::mime::Mime;
use data_url::{DataUrl, DataUrlError};
use std::alloc::Global;
use std::io::Write;

/// Why a resource was not loaded.
#[derive(Debug, Drop)]
pub enum LoadError {
    /// The text has no scheme `data:`.
    NotADataUrl,
    /// There is no comma before the fragment.
    NoComma,
    /// The body is base64 that is not valid; what comes before its first fault was written.
    InvalidBase64(InvalidBase64),
    /// The body has more bytes than the limit; a beginning of it was written.
    OverLimit,
    /// A write failed or took nothing; a beginning of the body was written.
    SinkFailed,
    /// Allocation failed; nothing was written.
    OutOfMemory,
}

/// Why a piece of a body was refused.
#[derive(Drop)]
pub(crate) enum Refusal {
    /// It does not fit in what is left of the limit.
    OverLimit,
    /// A write failed or took nothing.
    SinkFailed,
}

/// Writes a whole piece. A write that fails or takes nothing is not tried again.
fn write_piece<W: Write>(sink: &mut W, piece: &[u8]) -> Result<(), Refusal>
    ensures { Writes piece.now (W.contents sink.old) (W.contents sink.new) result }
{
    let mut rest = piece;
    while !rest.is_empty() {
        let Ok(taken) = sink.write(rest) else {
            return Err(Refusal::SinkFailed);
        };
        if taken == 0 {
            return Err(Refusal::SinkFailed);
        }
        rest = &rest[taken..];
    }
    Ok(())
}

/// Writes a whole piece if it is no longer than the room, in bytes, and subtracts its length from the room. A longer
/// piece is refused.
fn write_within<W: Write>(sink: &mut W, room: &mut usize, piece: &[u8]) -> Result<(), Refusal>
    ensures { WritesWithin piece.now room.old room.new (W.contents sink.old) (W.contents sink.new)
        result }
{
    if *room < piece.len() {
        return Err(Refusal::OverLimit);
    }
    *room -= piece.len();
    write_piece(sink, piece)
}

/// Writes the body of a URL as it is decoded, up to a limit of bytes. Nothing is allocated.
fn stream_body<W: Write>(url: &DataUrl, limit: usize, sink: &mut W) -> Result<(), LoadError>
    ensures { StreamsBody (url_body url.now) limit (W.contents sink.old) (W.contents sink.new)
        result }
{
    let mut room = limit;
    let mut answer = Ok(());
    decode_body(url, &mut answer, |piece: &[u8]| -> Result<(), Refusal> {
        write_within(sink, &mut room, piece)
    });
    match answer {
        Ok(()) => Ok(()),
        Err(DecodeError::InvalidBase64(refusal)) => Err(LoadError::InvalidBase64(refusal)),
        Err(DecodeError::WriteError(Refusal::OverLimit)) => Err(LoadError::OverLimit),
        Err(DecodeError::WriteError(Refusal::SinkFailed)) => Err(LoadError::SinkFailed),
    }
}

/// Loads the resource of a data: URL: writes its body to a sink, at most `limit` bytes, and returns its type. Memory
/// is allocated for the type alone.
///
/// Returns an error if the resource is not loaded; what was written is then a beginning of the body.
pub fn load<W: Write>(
    alloc: Global,
    text: &str,
    limit: usize,
    sink: &mut W,
) -> Result<Mime, LoadError>
    ensures { Loads text.now limit (W.contents sink.old) (W.contents sink.new) result }
{
    let url = match DataUrl::process(alloc, text) {
        Ok(url) => url,
        Err(DataUrlError::NotADataUrl) => return Err(LoadError::NotADataUrl),
        Err(DataUrlError::NoComma) => return Err(LoadError::NoComma),
        Err(DataUrlError::OutOfMemory) => return Err(LoadError::OutOfMemory),
    };
    let Ok(mime) = url.mime_type().clone() else {
        return Err(LoadError::OutOfMemory);
    };
    match stream_body(&url, limit, sink) {
        Ok(()) => Ok(mime),
        Err(error) => Err(error),
    }
}
