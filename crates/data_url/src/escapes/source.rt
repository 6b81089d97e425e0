//! The text of a body. Each byte of it that is examined is counted.

#![tactic(auto, using(crate::proofs::escapes::Walking::sources))]

ghost use Rattle.std.specs.Prelude.{◌≡◌, ◌+◌, ◌-◌, ◌^◌, ◌++◌, ◌<◌, ◌≤◌, IsTrue};
ghost use Rattle.std.specs.Prelude.{drop, length, slice_index, slice_range, take};
ghost use Rattle.std.specs.Option.{option_map};
ghost use Rattle.data_url.specs.Steps.Tail.{IsBodyEnd};
ghost use Rattle.data_url.specs.Url.{after, number_sign};

use super::gather::Buffer;
use super::looks::Looks;
use crate::classes::lanes::BLOCK;
use std::simd::prelude::*;

/// A text with a count of the bytes examined.
#[derive(Drop)]
pub(super) struct Source<'a> {
    text: &'a [u8],
    looks: Looks,
}

impl<'a> Source<'a> {
    /// Returns the text, of which no byte was examined yet.
    #[inline(always)]
    pub(super) fn new(text: &'a [u8]) -> Self
        ensures text { result.text.now ≡ text.entry.now }
        ensures looks { result.looks ≡ 0 }
    {
        Source {
            text,
            looks: Looks::new(),
        }
    }

    /// Returns how many bytes the text has.
    #[inline(always)]
    pub(super) fn len(&self) -> usize
        ensures { result ≡ length self.now.text.now }
    {
        self.text.len()
    }

    /// Returns the byte at a place. This counts as one look.
    #[inline(always)]
    pub(super) fn look(&mut self, place: usize) -> u8
        requires { place < length self.old.text.now }
        ensures byte { result ≡ slice_index self.old.text.now place }
        ensures bound { place + 1 < 2 ^ 64 }
        ensures text { self.new.text.now ≡ self.old.text.now }
        ensures looks { self.new.looks ≡ self.old.looks + 1 }
    {
        self.looks.count(1);
        self.text[place]
    }

    /// Returns the 64 bytes at a place. Each counts as a look.
    #[inline(always)]
    pub(super) fn look_bytes(&mut self, place: usize) -> u8x64
        requires { place + 64 ≤ length self.old.text.now }
        ensures bytes { result ≡ take 64 (drop place self.old.text.now) }
        ensures text { self.new.text.now ≡ self.old.text.now }
        ensures looks { self.new.looks ≡ self.old.looks + 64 }
    {
        self.looks.count(BLOCK);
        u8x64::from_slice(&self.text[place..])
    }

    /// Returns the text from a place on. Each of its bytes counts as a look.
    #[inline(always)]
    pub(super) fn look_rest(&mut self, place: usize) -> &'a [u8]
        requires { place ≤ length self.old.text.now }
        ensures bytes { result.now ≡ drop place self.old.text.now }
        ensures text { self.new.text.now ≡ self.old.text.now }
        ensures looks { self.new.looks + place ≡ self.old.looks + length self.old.text.now }
    {
        let rest = &self.text[place..];
        self.looks.count(rest.len());
        rest
    }

    /// Returns a stretch of the text. None of its bytes is examined.
    #[inline(always)]
    pub(super) fn cut(&self, start: usize, end: usize) -> &'a [u8]
        requires forward { start ≤ end }
        requires within { end ≤ length self.now.text.now }
        ensures { result.now ≡ slice_range self.now.text.now start end }
    {
        &self.text[start..end]
    }

    /// Copies a stretch of at most 64 bytes into a buffer, without a look. The bytes after it in the buffer may be
    /// overwritten. `whole_blocks` says that the text has 64 bytes from the start of the stretch on. Then 64 bytes are
    /// copied, which is faster.
    #[inline(always)]
    pub(super) fn copy(
        &self,
        start: usize,
        end: usize,
        buffer: &mut Buffer,
        len: usize,
        whole_blocks: bool,
    )
        requires forward { start ≤ end }
        requires short { end ≤ start + 64 }
        requires within { end ≤ length self.now.text.now }
        requires whole_blocks { IsTrue whole_blocks → start + 64 ≤ length self.now.text.now }
        requires room { len + 64 ≤ 512 }
        ensures { take (len + (end - start)) buffer.new
            ≡ take len buffer.old ++ slice_range self.now.text.now start end }
    {
        let bytes = self.text;
        if whole_blocks {
            let block = u8x64::from_slice(&bytes[start..start + BLOCK]);
            block.copy_to_slice(&mut buffer[len..len + BLOCK]);
        } else {
            buffer[len..len + (end - start)].copy_from_slice(&bytes[start..end]);
        }
    }
}

/// Returns the fragment of a text whose body ends at a place: what follows the `#` there, or None at the text's end.
pub(crate) fn fragment_at(text: &str, place: usize) -> Option<&str>
    requires { IsBodyEnd text.now place }
    ensures { option_map (λ s. s.now) result ≡ after number_sign text.now }
{
    let bytes = text.as_bytes();
    if place == bytes.len() {
        return None;
    }
    Some(&text[place + 1..])
}
