//! Outputs that pieces are written to, one after another, and bodies that are decoded into them.

ghost use Rattle.std.specs.Prelude.{◌≡◌, ◌+◌, ◌*◌, ◌/◌, ◌%◌, ◌≤◌, false, length, true};
ghost use Rattle.data_url.specs.Parts.{IsFitting};
ghost use Rattle.data_url.specs.Steps.Parts.{Writes, WritesWithin};
ghost use Rattle.data_url.specs.declared.forgiving_base64.left_over.LeftOver.{LeftOver};

use crate::body::{Stop, decode_base64_part, take_after};
use crate::escapes::Walk;
use crate::forgiving_base64::{DecodeError, InvalidBase64Details, LeftOver};
use std::convert::Infallible;

/// Writes a piece to an output after its first `len` bytes, and adds its length to `len`. Does nothing if it does not
/// fit.
#[inline(always)]
pub(super) fn push(output: &mut [u8], len: &mut usize, piece: &[u8])
    ensures { Writes piece.now output.old len.old output.new len.new }
{
    if *len <= output.len() && piece.len() <= output.len() - *len {
        let end = *len + piece.len();
        output[*len..end].copy_from_slice(piece);
        *len = end;
    }
}

/// Returns the fault of a text, from the error of decoding it with a closure that cannot fail.
pub(super) fn fault_of(error: &DecodeError<Infallible>) -> InvalidBase64Details
    ensures { error.now ≡ DecodeError.InvalidBase64 result }
{
    match error {
        DecodeError::InvalidBase64(refusal) => refusal.details(),
        DecodeError::WriteError(never) => match *never {},
    }
}

/// Returns how many bytes of a text of base64 are decoded into an output, after symbols that are left over. All are, if
/// the output has room for as many symbols, with the bytes that end the text. Otherwise decoding stops where the last
/// group that fits would end, if every byte were a symbol.
pub(super) fn fitting_len(pending: usize, text: &[u8], output: &[u8]) -> usize
    requires { pending ≤ 3 }
    ensures fitting { IsFitting pending (length text.now) (length output.now) result }
    ensures groups { pending + result ≤ length output.now / 3 * 4 + 3 }
    ensures ends { pending ≤ length output.now + 1
        → pending + result ≤ length output.now / 3 * 4 + length output.now % 3 + 1 }
{
    let symbols = pending + text.len();
    // Most outputs have a byte for each symbol. This needs no division.
    if symbols <= output.len() {
        return text.len();
    }
    let groups = output.len() / 3 * 4;
    // Two or three symbols at the end have one or two bytes.
    if symbols <= groups + output.len() % 3 + 1 {
        return text.len();
    }
    groups.saturating_sub(pending)
}

/// Decodes the next bytes of a body that is not base64 into an output.
fn write_percent_decoded(
    tail: &[u8],
    output: &mut [u8],
) -> (usize, Result<Stop, InvalidBase64Details>)
    ensures { (s : LeftOver) → (s.pending ≡ 0) × (s.padding ≡ 0) → WritesWithin false s tail.now
        output.old output.new result.0 s result.1 }
{
    let (prefix, mut walk) = Walk::after_prefix(tail, output.len());
    let most = output.len() - prefix.len();
    let mut len = 0;
    let mut write = |piece: &[u8]| -> Result<(), Infallible> {
        push(output, &mut len, piece);
        Ok(())
    };
    if let Err(never) = take_after(prefix, &mut walk, most, &mut write) {
        match never {}
    }
    let stop = if walk.has_ended() {
        Stop::Ended(walk.end())
    } else {
        Stop::Paused(walk.place())
    };
    (len, Ok(stop))
}

/// Decodes the next bytes of a body of base64 into an output, after what is left over. An output that has no room for
/// the bytes of the symbols left over gets nothing, since the text may end after them.
fn write_base64(
    left_over: &mut LeftOver,
    tail: &[u8],
    output: &mut [u8],
) -> (usize, Result<Stop, InvalidBase64Details>)
    ensures { WritesWithin true left_over.old tail.now output.old output.new result.0
        left_over.new result.1 }
{
    let pending = left_over.pending();
    if pending > output.len() + 1 {
        return (0, Ok(Stop::Paused(0)));
    }
    let most = fitting_len(pending, tail, output);
    let mut len = 0;
    let mut write = |piece: &[u8]| -> Result<(), Infallible> {
        push(output, &mut len, piece);
        Ok(())
    };
    match decode_base64_part(left_over, tail, most, &mut write) {
        Ok(stop) => (len, Ok(stop)),
        Err(error) => (len, Err(fault_of(&error))),
    }
}

/// Decodes the next bytes of a body into an output, after what is left over.
// Not inlined, since `next_part` is compiled into each of its callers.
#[inline(never)]
pub(super) fn write_body(
    base64: bool,
    left_over: &mut LeftOver,
    tail: &[u8],
    output: &mut [u8],
) -> (usize, Result<Stop, InvalidBase64Details>)
    requires { base64 ≡ false → (left_over.old.pending ≡ 0) × (left_over.old.padding ≡ 0) }
    ensures { WritesWithin base64 left_over.old tail.now output.old output.new result.0
        left_over.new result.1 }
{
    if base64 {
        return write_base64(left_over, tail, output);
    }
    write_percent_decoded(tail, output)
}
