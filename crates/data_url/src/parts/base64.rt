//! Base64 in parts: a text that comes in pieces, cut anywhere, decoded into an output.

ghost use Rattle.std.specs.Prelude.{◌≡◌};
ghost use Rattle.data_url.specs.Parts.{FeedsPart, FinishesText, left_over_text};

use super::output::{fault_of, fitting_len, push};
use crate::forgiving_base64::{
    DecodeError, InvalidBase64Details, LeftOver, decode_part, finish_part,
};
use std::convert::Infallible;

/// What feeding a part of a text returns.
#[derive(Clone, Copy)]
pub struct Fed {
    /// How many bytes of the part were read, from its start.
    pub read: usize,
    /// How many bytes were written, to the start of the output.
    pub len: usize,
    /// What the text so far leaves over; or its first fault, after the bytes of the groups before it.
    pub left_over: Result<LeftOver, InvalidBase64Details>,
}

impl LeftOver {
    /// Decodes the next part of a text of base64 ([Infra Standard, forgiving-base64
    /// decode](https://infra.spec.whatwg.org/#forgiving-base64-decode)), cut anywhere, after what the text so far has
    /// left over. Writes the bytes of the groups of four symbols that are complete then to the start of the output, and
    /// leaves the rest of the output as it is.
    ///
    /// How much is read depends on lengths alone, as if every byte were a symbol. The whole part is read if the symbols
    /// left over and the bytes of the part are together at most `output.len() / 3 * 4 + output.len() % 3 + 1`: then the
    /// output has room for all their bytes, with those that `finish` would write. Otherwise
    /// `output.len() / 3 * 4` bytes are read, less the symbols left over. A part of symbols alone then ends with a
    /// group. With an output of three bytes or more, at least one byte is read. Feed what is left of the part next.
    ///
    /// Returns `InvalidBase64Details` for the first fault among the bytes that were read, after the bytes of the groups
    /// before it: a byte that is neither white space nor `=` nor a symbol, or a symbol after a `=`.
    pub fn feed(self, input: &[u8], output: &mut [u8]) -> Fed
        ensures { FeedsPart self input.now output.old output.new result }
    {
        let read = fitting_len(self.pending(), input, output);
        let mut left_over = self;
        let mut len = 0;
        let mut write = |piece: &[u8]| -> Result<(), Infallible> {
            push(output, &mut len, piece);
            Ok(())
        };
        let left_over = match decode_part(&mut left_over, &input[..read], &mut write) {
            Ok(()) => Ok(left_over),
            Err(error) => Err(fault_of(&error)),
        };
        Fed {
            read,
            len,
            left_over,
        }
    }

    /// Ends a text of base64 ([Infra Standard, forgiving-base64
    /// decode](https://infra.spec.whatwg.org/#forgiving-base64-decode)) that has this left over. Writes the last bytes,
    /// of which there are at most two, to the start of the output, and returns their number.
    ///
    /// Returns `InvalidBase64Details` if the text is not valid: if one symbol is left over, or the number of `=` does
    /// not fit. The output does not change then.
    pub fn finish(self, output: &mut [u8; 2]) -> Result<usize, InvalidBase64Details>
        ensures { FinishesText (left_over_text self) output.old output.new result }
    {
        let mut len = 0;
        let decoded = finish_part(self, |piece: &[u8]| -> Result<(), Infallible> {
            push(&mut output[..], &mut len, piece);
            Ok(())
        });
        match &decoded.0 {
            Ok(()) => Ok(len),
            Err(error) => Err(fault_of(error)),
        }
    }
}
