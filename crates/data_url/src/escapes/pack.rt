//! A block with several marks: its bytes before the first stop are decoded in lanes and packed into the buffer.

#![tactic(auto, using(crate::proofs::escapes::Walking::walks))]

ghost use Rattle.std.specs.Prelude.{◌≡◌, ◌+◌, ◌-◌, ◌++◌, ◌<◌, ◌≤◌};
ghost use Rattle.std.specs.Prelude.{IfNone, IfSome, length, map, replicate};
ghost use Rattle.std.specs.Simd.Lanes.{mask_l};
ghost use Rattle.data_url.specs.Pieces.{text_of};
ghost use Rattle.data_url.specs.Steps.Escapes.{IsPacked};
ghost use Rattle.data_url.specs.Steps.Window.{is_marked};
ghost use Rattle.data_url.specs.Steps.Walk.{IsWholeBlock, Looking, LooksOn, MayGather, Packs};

use super::cursor::{Ahead, Cursor};
use super::gather::Buffer;
use super::lanes::{decode_escapes, marks_of, padded, stops_of};
use super::marks::Block;
use crate::classes::lanes::BLOCK;
use crate::packing::pack_block;
use std::simd::prelude::*;

/// With this many marks or more in a block, it is faster to decode its escapes in lanes than one by one.
pub(super) const SEVERAL: u32 = 4;

/// If fewer bytes than these come before the first stop of a block, or before the end of the text, escapes are decoded
/// one by one. Twelve bytes are four escapes.
const FEW: usize = 12;

/// If at most this many bytes are left of a block, they are read again with the next block, since an escape may begin
/// in them that goes on after the block.
const SHORT_REST: usize = 2;

impl<'a> Cursor<'a> {
    /// Reads the next block, which has 64 bytes. Returns its bytes.
    #[inline(always)]
    pub(super) fn look_whole(&mut self) -> u8x64
        requires looking { Looking self.old.source self.old.block self.old.place 0 }
        requires room { self.old.place + 64 ≤ length (text_of self.old) }
        requires unseen { self.old.block.end ≤ self.old.place }
        ensures looking { Looking self.new.source self.new.block self.new.place 0 }
        ensures on { LooksOn self.old.source self.new.source }
        ensures stays { (self.new.place ≡ self.old.place) × (self.new.ahead ≡ self.old.ahead) }
        ensures whole { IsWholeBlock self.new result }
    {
        let place = self.place;
        let _len = self.source.len();
        let bytes = self.source.look_bytes(place);
        self.block = Block::between(place, place + BLOCK, marks_of(bytes, false));
        bytes
    }

    /// Packs the block that was read last up to its first stop. Returns how many bytes are gathered then, or None if
    /// nothing is packed.
    #[inline(always)]
    pub(super) fn pack_whole(
        &mut self,
        bytes: u8x64,
        buffer: &mut Buffer,
        len: usize,
    ) -> Option<usize>
        requires may { MayGather self.old len }
        requires whole { IsWholeBlock self.old bytes }
        requires room { len ≤ 384 }
        ensures looking { Looking self.new.source self.new.block self.new.place 0 }
        ensures ahead { self.new.ahead ≡ self.old.ahead }
        ensures packed { IfSome result (Packs self.old self.new buffer.old buffer.new len) }
        ensures none { IfNone result ((self.new ≡ self.old) × (buffer.new ≡ buffer.old)) }
    {
        let (used, end) = pack_to_stop(bytes, self.block.marks, BLOCK, buffer, len)?;
        self.go_on_after(used);
        Some(end)
    }

    /// Reads the next block, after which fewer than 64 bytes follow, and packs it as `pack_whole` does.
    #[inline(always)]
    pub(super) fn pack_end(&mut self, buffer: &mut Buffer, len: usize) -> Option<usize>
        requires looking { Looking self.old.source self.old.block self.old.place 0 }
        requires unknown { self.old.ahead ≡ Ahead.Unknown }
        requires some { self.old.place < length (text_of self.old) }
        requires unseen { self.old.block.end ≤ self.old.place }
        requires room { len ≤ 384 }
        ensures looking { Looking self.new.source self.new.block self.new.place 0 }
        ensures unknown { self.new.ahead ≡ Ahead.Unknown }
        ensures on { LooksOn self.old.source self.new.source }
        ensures packed { IfSome result (Packs self.old self.new buffer.old buffer.new len) }
        ensures none { IfNone result ((buffer.new ≡ buffer.old) × (self.new.place ≡ self.old.place)
            × (self.new.place < self.new.block.end)) }
    {
        if self.source.len() - self.place >= BLOCK {
            let bytes = self.look_whole();
            return self.pack_whole(bytes, buffer, len);
        }
        let rest = self.source.look_rest(self.place);
        let (marks, packed) = pack_last(rest, buffer, len);
        self.block = Block::between(self.place, self.place + rest.len(), marks);
        let (used, end) = packed?;
        self.go_on_after(used);
        Some(end)
    }

    /// Goes on after the first `used` bytes of the block. If only a short rest of the block is left, it is read again
    /// with the next block. The bound on looks allows that, since the rest has no more than `used` bytes.
    #[inline(always)]
    fn go_on_after(&mut self, used: usize)
        requires looking { Looking self.old.source self.old.block self.old.place 0 }
        requires used { (12 ≤ used) × (self.old.place + used ≤ self.old.block.end) }
        ensures looking { Looking self.new.source self.new.block self.new.place 0 }
        ensures place { self.new.place ≡ self.old.place + used }
        ensures source { self.new.source ≡ self.old.source }
        ensures ahead { self.new.ahead ≡ self.old.ahead }
    {
        let _len = self.source.len();
        self.place += used;
        let left = self.block.end - self.place;
        if left <= SHORT_REST {
            self.block = Block::between(self.place, self.place, 0);
        }
    }
}

/// Packs the first `size` bytes of a block up to its first stop, after the `len` bytes that were gathered before: the
/// values of its escapes, and its other bytes without tabs and newlines. Returns how many bytes of the block were read
/// for that, and how many bytes are gathered then. Returns None, and packs nothing, if the block has few marks or only
/// few bytes come before the stop.
#[inline(always)]
#[tactic(auto, using(crate::proofs::escapes::StopBits::stop_bits))]
fn pack_to_stop(
    bytes: u8x64,
    marks: u64,
    size: usize,
    buffer: &mut Buffer,
    len: usize,
) -> Option<(usize, usize)>
    requires marks { marks ≡ mask_l (map is_marked bytes) }
    requires size { size ≤ 64 }
    requires room { len ≤ 384 }
    ensures none { IfNone result (buffer.new ≡ buffer.old) }
    ensures packed { IfSome result (λ p. IsPacked bytes size buffer.old buffer.new len p.0 p.1) }
{
    if marks.count_ones() < SEVERAL {
        return None;
    }
    let percents = bytes.simd_eq(u8x64::splat(b'%')).to_bitmask();
    let (passed, stops) = stops_of(bytes, marks, percents);
    let used = size.min(stops.trailing_zeros() as usize);
    if used < FEW {
        return None;
    }
    let (values, starts) = decode_escapes(bytes, percents);
    let dropped = (6 * starts + passed) | !(u64::MAX >> (BLOCK - used));
    Some((used, pack_block(values, dropped, &mut buffer[..], len)))
}

/// Does what `pack_to_stop` does, with the last bytes of a text, which are fewer than 64. Also returns their marks.
/// This function is not inlined. It gets no reference to the walk, so that the compiler can keep the walk in registers.
#[inline(never)]
fn pack_last(rest: &[u8], buffer: &mut Buffer, len: usize) -> (u64, Option<(usize, usize)>)
    requires rest { length rest.now < 64 }
    requires room { len ≤ 384 }
    ensures marks { result.0 ≡ mask_l (map is_marked rest.now) }
    ensures none { IfNone result.1 (buffer.new ≡ buffer.old) }
    ensures packed { IfSome result.1 (λ p. IsPacked (rest.now ++ replicate (64 - length rest.now) 0)
        (length rest.now) buffer.old buffer.new len p.0 p.1) }
{
    let bytes = padded(rest);
    let marks = marks_of(bytes, false);
    (marks, pack_to_stop(bytes, marks, rest.len(), buffer, len))
}
