//! A buffer of printed text, so that short texts are written together.
#![tactic(auto, using(crate::proofs::mime::RoundTrips::lines))]

ghost use Rattle.std.specs.{Fmt.{WritesStyledOnOk}, Prelude.{◌≡◌, ◌+◌, ◌++◌, ◌≤◌, [], length}};
ghost use Rattle.data_url.specs.Steps.Printing.{AddsOnOk, IsHeld, held};

use std::{fmt, str};

/// The size of the buffer, in bytes.
const BUFFER_LEN: usize = 128;

/// The end of the printed text, which is held until there is enough to be written.
#[derive(Drop)]
pub(super) struct PrintBuffer {
    bytes: [u8; BUFFER_LEN],
    len: usize,
}

impl PrintBuffer {
    /// Returns an empty buffer.
    #[inline(always)]
    pub(super) fn new() -> PrintBuffer
        ensures none { result.len ≡ 0 }
        ensures held { IsHeld result }
    {
        PrintBuffer {
            bytes: [0; BUFFER_LEN],
            len: 0,
        }
    }

    /// Appends a text that fits.
    #[inline(always)]
    fn hold(&mut self, text: &str)
        requires { self.old.len + length text.now ≤ 128 }
        ensures text { held self.new ≡ held self.old ++ text.now }
        ensures fits { self.new.len ≤ 128 }
    {
        let end = self.len + text.len();
        self.bytes[self.len..end].copy_from_slice(text.as_bytes());
        self.len = end;
    }

    /// Adds a text.
    #[inline(always)]
    pub(super) fn push<W: fmt::Write>(
        &mut self,
        f: &mut fmt::Formatter<W>,
        text: &str,
    ) -> fmt::Result
        requires { IsHeld self.old }
        ensures added { AddsOnOk W.write_str_gives f.old self.old result text.now f.new self.new }
        ensures held { IsHeld self.new }
    {
        if text.len() > BUFFER_LEN - self.len {
            return self.push_past_end(f, text);
        }
        self.hold(text);
        Ok(())
    }

    /// Adds a text that does not fit until the buffer is written.
    #[inline(never)]
    fn push_past_end<W: fmt::Write>(&mut self, f: &mut fmt::Formatter<W>, text: &str) -> fmt::Result
        requires { IsHeld self.old }
        ensures added { AddsOnOk W.write_str_gives f.old self.old result text.now f.new self.new }
        ensures held { IsHeld self.new }
    {
        self.flush(f)?;
        if text.len() > BUFFER_LEN {
            return f.write_str(text);
        }
        self.hold(text);
        Ok(())
    }

    /// Writes the buffer.
    pub(super) fn flush<W: fmt::Write>(&mut self, f: &mut fmt::Formatter<W>) -> fmt::Result
        requires { IsHeld self.old }
        ensures written { WritesStyledOnOk W.write_str_gives f.old result (held self.old) f.new }
        ensures none { self.new.len ≡ 0 }
        ensures held { IsHeld self.new }
    {
        let len = self.len;
        self.len = 0;
        f.write_str(unsafe { str::from_utf8_unchecked(&self.bytes[..len]) })
    }
}
