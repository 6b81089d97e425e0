//! Why a command ended early, and the message for it.

ghost use Rattle.std.specs.Prelude.{◌≡◌};
ghost use Rattle.dataurl.specs.Status.{status_of};

use data_url::forgiving_base64::InvalidBase64;
use std::io::Write;
use thiserror::Error;

/// Why a command ended early. The text of each is the line that is written to standard error.
#[derive(Debug, Drop, Error)]
pub enum Fault {
    /// The input does not begin with the scheme `data:`.
    #[error("not a valid data url")]
    NotADataUrl,
    /// There is no comma before the input's fragment.
    #[error("data url is missing comma delimiting attributes and body")]
    NoComma,
    /// The base64 of the input is not valid.
    #[error("base64 not valid: {0}")]
    Base64(InvalidBase64),
    /// The input is not a MIME type.
    #[error("invalid mime type")]
    Mime,
    /// The input is not UTF-8.
    #[error("input is not UTF-8")]
    NotUtf8,
    /// Allocation failed.
    #[error("out of memory")]
    Memory,
    /// Standard input could not be read.
    #[error("read failed")]
    Read,
    /// Standard output could not be written.
    #[error("write failed")]
    Write,
}

/// A write failed, or wrote nothing.
#[derive(Clone, Copy)]
pub(crate) struct WriteFailed;

impl Fault {
    /// The exit status: 1 if the input is not valid, 3 if allocation, a read or a write failed.
    fn status(&self) -> u8
        ensures { result ≡ status_of self.now }
    {
        match self {
            Fault::NotADataUrl | Fault::NoComma | Fault::Base64(_) | Fault::Mime | Fault::NotUtf8 =>
                1,
            Fault::Memory | Fault::Read | Fault::Write => 3,
        }
    }
}

/// Writes the line of a fault and returns the exit status: 1 if the input is not valid, 3 if allocation, a read or a
/// write failed. Nothing is allocated. If this write fails too, that is ignored.
pub fn report<W: Write>(fault: &Fault, writer: &mut W) -> u8
    ensures { result ≡ status_of fault.now }
{
    let _passed_over = writeln!(writer, "{fault}");
    fault.status()
}

/// Writes the line on how to call the program and returns the exit status 2. Nothing is allocated, and a failed write
/// is ignored.
pub fn usage<W: Write>(writer: &mut W) -> u8
    ensures { result ≡ 2 }
{
    let _passed_over = writeln!(
        writer,
        "usage: dataurl body, mime, fragment, type or base64"
    );
    2
}
