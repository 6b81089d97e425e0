//! A digest of results. It costs little beside the work that is measured: sixteen lanes of 32 bits take 64 bytes at a
//! time.

use std::simd::prelude::*;

/// How many bytes are taken at a time.
const BLOCK: usize = 64;

/// The digest of the bytes and numbers so far. Which bytes came together does not matter, as long as their calls do.
#[derive(Drop)]
pub(crate) struct Digest {
    lanes: u32x16,
    numbers: u64,
}

impl Digest {
    /// Returns the digest of nothing.
    pub(crate) fn new() -> Digest {
        Digest {
            lanes: u32x16::splat(0),
            numbers: 0,
        }
    }

    /// Adds a number.
    pub(crate) fn number(&mut self, number: u64) {
        let mixed = (self.numbers ^ number).wrapping_mul(0x9E37_79B9_7F4A_7C15);
        self.numbers = mixed ^ (mixed >> 29);
    }

    /// Adds a block of 64 bytes.
    #[inline(always)]
    fn block(&mut self, bytes: u8x64) {
        let turned = (self.lanes << u32x16::splat(1)) | (self.lanes >> u32x16::splat(31));
        self.lanes = turned + u32x16::from_le_bytes(bytes);
    }

    /// Adds the bytes of a result, and how many they are.
    pub(crate) fn bytes(&mut self, bytes: &[u8]) {
        self.number(bytes.len() as u64);
        let (blocks, rest) = bytes.as_chunks::<BLOCK>();
        for block in blocks {
            self.block(u8x64::from_array(*block));
        }
        let mut last = [0; BLOCK];
        last[..rest.len()].copy_from_slice(rest);
        self.block(u8x64::from_array(last));
    }

    /// Returns the digest as one number.
    pub(crate) fn finish(mut self) -> u64 {
        for lane in self.lanes.to_array() {
            self.number(u64::from(lane));
        }
        self.numbers
    }
}
