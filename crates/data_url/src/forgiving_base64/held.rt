//! The bytes of whole groups of a text of base64 (RFC 4648, section 4) that the closure was not yet called with.

ghost use Rattle.std.specs.Prelude.{◌≡◌, ◌%◌, ◌+◌, ◌≤◌, ◌<◌, ◌++◌, [], drop, length, take};

use crate::classes::lanes::{BLOCK, put, row};

/// How many bytes are held before the closure is called: those of 128 groups. Decoding lines of 76 symbols took a
/// twentieth longer with 64 groups, and with 16 another fifth.
pub(crate) const FULL: usize = 384;

/// How many bytes a short text has at most, with the symbols that were left over: it completes up to sixteen groups.
pub(crate) const SHORT: usize = 67;

/// The bytes of up to 128 groups, and of up to fifteen groups of the symbols that were added last.
#[derive(Drop)]
pub(crate) struct HeldGroups {
    pub(super) bytes: [u8; 448],
    pub(crate) len: usize,
    ghost within: { len < 432 },
    ghost whole: { len % 3 ≡ 0 },
    ghost sized: { length bytes ≡ 448 },
}

impl HeldGroups {
    ghost use Rattle.data_url.specs.Steps.Groups.{held_bytes};

    /// Returns no groups.
    #[inline(always)]
    pub(crate) fn new() -> HeldGroups
        ensures bytes { held_bytes result ≡ [] }
        ensures len { result.len ≡ 0 }
    {
        HeldGroups {
            bytes: [0; 448],
            len: 0,
        }
    }

    /// Holds the first `len` bytes of a short text in place of what was held.
    #[inline(always)]
    pub(crate) fn hold(&mut self, short: &[u8; BLOCK], len: usize)
        requires few { len ≤ 48 }
        requires whole { len % 3 ≡ 0 }
        ensures bytes { held_bytes self.new ≡ take len short.now }
        ensures len { self.new.len ≡ len }
    {
        put(&mut self.bytes, 0, row(short, 0));
        put(&mut self.bytes, 16, row(short, 16));
        put(&mut self.bytes, 32, row(short, 32));
        self.len = len;
    }

    /// Returns the bytes.
    #[inline(always)]
    pub(crate) fn as_slice(&self) -> &[u8]
        ensures { result.now ≡ held_bytes self.now }
    {
        &self.bytes[..self.len]
    }

    /// Removes the bytes of the first 128 groups.
    #[inline(always)]
    pub(crate) fn drop_first(&mut self)
        requires { 384 ≤ self.old.len }
        ensures bytes { held_bytes self.new ≡ drop 384 (held_bytes self.old) }
        ensures len { self.new.len + 384 ≡ self.old.len }
    {
        self.bytes.copy_within(FULL..432, 0);
        self.len -= FULL;
    }
}
