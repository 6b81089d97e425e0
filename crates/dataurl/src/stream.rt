//! Decodes base64 as it is read.

ghost use Rattle.std.specs.Fn.{CalledAt};
ghost use Rattle.dataurl.specs.Runs.{Runs};
ghost use Rattle.dataurl.specs.Steps.Base64.{DecodesReader};

use crate::command::Command;
use crate::fault::{Fault, WriteFailed};
use crate::gather::Gathered;
use crate::input::PIECE;
use data_url::forgiving_base64::{DecodeError, Decoder};
use std::io::{Read, Write};

/// How decoding the bytes of a reader ended.
#[derive(Drop)]
pub(crate) enum Ended {
    /// A read failed, or the reader had no end after 2^64 - 1 reads.
    ReadFailed,
    /// The reader ended, or the decoder stopped before that.
    Decoded(Result<(), DecodeError<WriteFailed>>),
}

/// Decodes the bytes of a reader up to its end or the first fault, and calls the closure with the decoded bytes.
/// Returns the closure.
fn decode_reader<R: Read, F>(reader: &mut R, ended: &mut Ended, write: F) -> F
where
    F: FnMut(&[u8]) -> Result<(), WriteFailed>,
    requires { F.IsAlwaysCallable write }
    ensures { DecodesReader (CalledAt F.FnMut) write (R.remaining reader.old)
        (R.remaining reader.new) ended.new result }
{
    let mut decoder = Decoder::new(write);
    let mut piece = [0; PIECE];
    *ended = Ended::ReadFailed;
    for _ in 0..u64::MAX {
        let Ok(len) = reader.read(&mut piece) else {
            return decoder.into_closure();
        };
        if len == 0 {
            let (answer, write) = decoder.finish_with();
            *ended = Ended::Decoded(answer);
            return write;
        }
        if let Err(error) = decoder.feed(&piece[..len]) {
            *ended = Ended::Decoded(Err(error));
            return decoder.into_closure();
        }
    }
    decoder.into_closure()
}

/// Writes the bytes of a reader's base64 as it is read. They are gathered in a buffer, which is written when it is
/// full, at the end, and before a fault is returned. Nothing is allocated.
pub(crate) fn write_base64<R: Read, W: Write>(reader: &mut R, writer: &mut W) -> Result<(), Fault>
    ensures { Runs Command.Base64 (R.remaining reader.old) (R.remaining reader.new)
        (W.contents writer.old) (W.contents writer.new) result }
{
    let mut gathered = Gathered::new();
    let mut ended = Ended::ReadFailed;
    decode_reader(
        reader,
        &mut ended,
        |piece: &[u8]| -> Result<(), WriteFailed> { gathered.take(piece, writer) },
    );
    match ended {
        Ended::ReadFailed => gathered.flush_before(Err(Fault::Read), writer),
        Ended::Decoded(answer) => gathered.settle(answer, writer),
    }
}
