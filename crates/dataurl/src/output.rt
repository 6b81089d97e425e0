//! Writes all the bytes of a slice.

ghost use Rattle.dataurl.specs.Steps.Writing.{Writes};

use crate::fault::WriteFailed;
use std::io::Write;

/// Writes all the bytes. If a write fails or writes nothing, it is not tried again, and the bytes written by then are a
/// proper prefix.
pub(crate) fn write_all<W: Write>(writer: &mut W, bytes: &[u8]) -> Result<(), WriteFailed>
    ensures { Writes bytes.now (W.contents writer.old) (W.contents writer.new) result }
{
    let mut rest = bytes;
    while !rest.is_empty() {
        let Ok(taken) = writer.write(rest) else {
            return Err(WriteFailed);
        };
        if taken == 0 {
            return Err(WriteFailed);
        }
        rest = &rest[taken..];
    }
    Ok(())
}
