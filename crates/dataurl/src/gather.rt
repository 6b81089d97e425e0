//! Gathers the short pieces of an output, so that they are written together.

ghost use Rattle.std.specs.Prelude.{◌≤◌};

use crate::fault::{Fault, WriteFailed};
use crate::output::write_all;
use data_url::forgiving_base64::DecodeError;
use std::io::Write;

/// The size of the buffer, in bytes.
pub(crate) const BUFFER_LEN: usize = 4096;

/// A buffer with the bytes of an output that are not written yet.
#[derive(Drop)]
pub(crate) struct Gathered {
    bytes: [u8; BUFFER_LEN],
    len: usize,
    ghost within: { len ≤ 4096 },
}

impl Gathered {
    ghost use Rattle.std.specs.Prelude.{◌≡◌, ◌++◌, ◌+◌, [], length};
    ghost use Rattle.dataurl.specs.Steps.Gathering.{Flushes, Gathers, Settles, waiting_bytes};
    ghost use Rattle.dataurl.specs.Steps.Writing.{Writes};

    /// An empty buffer.
    pub(crate) fn new() -> Gathered
        ensures { waiting_bytes result ≡ [] }
    {
        Gathered {
            bytes: [0; BUFFER_LEN],
            len: 0,
        }
    }

    /// Appends a piece that fits to the buffer.
    fn push(&mut self, piece: &[u8])
        requires { self.old.len + length piece.now ≤ 4096 }
        ensures { waiting_bytes self.new ≡ waiting_bytes self.old ++ piece.now }
    {
        let end = self.len + piece.len();
        self.bytes[self.len..end].copy_from_slice(piece);
        self.len = end;
    }

    /// Writes the bytes in the buffer. A write that fails is not tried again.
    fn flush<W: Write>(&mut self, writer: &mut W) -> Result<(), WriteFailed>
        ensures wrote { Writes (waiting_bytes self.old)
            (W.contents writer.old) (W.contents writer.new) result }
        ensures empty { self.new.len ≡ 0 }
    {
        let len = self.len;
        self.len = 0;
        write_all(writer, &self.bytes[..len])
    }

    /// Adds a piece of an output. If it fits, it is appended to the buffer. Otherwise the buffer is written first; a
    /// piece that is at least as long as the buffer is then written directly.
    pub(crate) fn take<W: Write>(&mut self, piece: &[u8], writer: &mut W) -> Result<(), WriteFailed>
        ensures { Gathers piece.now (waiting_bytes self.old) (waiting_bytes self.new)
            (W.contents writer.old) (W.contents writer.new) result }
    {
        if piece.len() <= BUFFER_LEN - self.len {
            self.push(piece);
            return Ok(());
        }
        self.flush(writer)?;
        if piece.len() >= BUFFER_LEN {
            return write_all(writer, piece);
        }
        self.push(piece);
        Ok(())
    }

    /// Writes the bytes in the buffer, and then returns the end.
    pub(crate) fn flush_before<W: Write>(
        &mut self,
        end: Result<(), Fault>,
        writer: &mut W,
    ) -> Result<(), Fault>
        ensures { Flushes (waiting_bytes self.old) end
            (W.contents writer.old) (W.contents writer.new) result }
    {
        match self.flush(writer) {
            Ok(()) => end,
            Err(WriteFailed) => Err(Fault::Write),
        }
    }

    /// Ends an output that was decoded with this result: the buffer is written first, but nothing after a failed write.
    pub(crate) fn settle<W: Write>(
        &mut self,
        answer: Result<(), DecodeError<WriteFailed>>,
        writer: &mut W,
    ) -> Result<(), Fault>
        ensures { Settles answer (waiting_bytes self.old)
            (W.contents writer.old) (W.contents writer.new) result }
    {
        match answer {
            Ok(()) => self.flush_before(Ok(()), writer),
            Err(DecodeError::InvalidBase64(refusal)) => {
                let end = Err(Fault::Base64(refusal));
                self.flush_before(end, writer)
            }
            Err(DecodeError::WriteError(WriteFailed)) => Err(Fault::Write),
        }
    }
}
