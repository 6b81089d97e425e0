//! Reads a whole input.

ghost use Rattle.dataurl.specs.Steps.Input.{ReadsAll, ReadsText};

use crate::fault::Fault;
use std::alloc::Global;
use std::io::Read;

/// The greatest number of bytes that are read at a time.
pub(crate) const PIECE: usize = 4096;

/// All the bytes that a reader has left. A failed read is not tried again. If the reader has no end after 2^64 - 1
/// reads, reading fails.
fn read_all<R: Read>(alloc: Global, reader: &mut R) -> Result<Vec<u8>, Fault>
    ensures { ReadsAll (R.remaining reader.old) (R.remaining reader.new) result }
{
    let mut bytes = Vec::new(alloc);
    let mut piece = [0; PIECE];
    for _ in 0..u64::MAX {
        match reader.read(&mut piece) {
            Ok(0) => return Ok(bytes),
            Ok(len) => {
                let Ok(()) = bytes.extend_from_slice(&piece[..len]) else {
                    return Err(Fault::Memory);
                };
            }
            Err(_) => return Err(Fault::Read),
        }
    }
    Err(Fault::Read)
}

/// The text that a reader has left. All of it is read, and then checked to be UTF-8.
pub(crate) fn read_text<R: Read>(alloc: Global, reader: &mut R) -> Result<String, Fault>
    ensures { ReadsText (R.remaining reader.old) (R.remaining reader.new) result }
{
    match read_all(alloc, reader) {
        Ok(bytes) => match String::from_utf8(bytes) {
            Ok(text) => Ok(text),
            Err(_) => Err(Fault::NotUtf8),
        },
        Err(fault) => Err(fault),
    }
}
