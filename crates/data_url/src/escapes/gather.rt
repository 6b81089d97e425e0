//! The bytes of a body in few pieces: short stretches and the values of escapes are gathered in a buffer.

#![tactic(auto, using(crate::proofs::escapes::Walking::walks))]

ghost use Rattle.std.specs.Option.{option_map_or};
ghost use Rattle.std.specs.Prelude.{◌≡◌, ◌<◌, ◌≤◌, IfSome, length, slice_index, true};
ghost use Rattle.data_url.specs.Pieces.{text_of, walk_of};
ghost use Rattle.data_url.specs.Steps.Chunks.{GivesBytes};
ghost use Rattle.data_url.specs.Steps.Window.{is_marked};
ghost use Rattle.data_url.specs.Steps.Walk.{Gathered, Gathering, Gathers, HasRoom, IsGathered};
ghost use Rattle.data_url.specs.Steps.Walk.{Knows, Looking, MayCopyBlocks, MayGather, Moves};

use super::Piece;
use super::cursor::{Ahead, Cursor, ESCAPE};
use super::marks::AtMark;
use super::pack::SEVERAL;
use crate::classes::lanes::BLOCK;
use std::mem::replace;

/// How many bytes the buffer holds in which short stretches and values of escapes are gathered.
pub(crate) const BUFFER_LEN: usize = 512;

/// With this many marks in a block, escapes are likely to follow one another: a block of escapes alone has 21 or 22.
const DENSE: u32 = 18;

/// The buffer itself.
pub(super) type Buffer = [u8; BUFFER_LEN];

impl<'a> Cursor<'a> {
    /// Returns the next bytes, at most `most` of them, or None if the body has ended: a long stretch of the text as it
    /// is, or shorter ones and the values of escapes, gathered in a buffer. Nothing is gathered if `most` is less than
    /// what the buffer holds and less than what is left of the text.
    #[inline(always)]
    pub(super) fn next_bytes<'r>(&mut self, buffer: &'r mut Buffer, most: usize) -> Option<&'r [u8]>
    where
        'a: 'r,
        requires knows { Knows self.old }
        requires some { 1 ≤ most }
        ensures gives { GivesBytes (walk_of self.old) result (walk_of self.new) }
        ensures few { IfSome result (λ bytes. length bytes.now ≤ most) }
        ensures knows { Knows self.new }
    {
        let len = self.gather_within(buffer, most);
        if len > 0 {
            return Some(&buffer[..len]);
        }
        match self.next(most) {
            None => None,
            Some(Piece::Slice(slice)) => Some(slice),
            Some(Piece::Byte(byte)) => {
                buffer[0] = byte;
                Some(&buffer[..1])
            }
        }
    }

    /// Does what `gather` does if that cannot gather more than `most` bytes, and otherwise nothing. This function is
    /// not inlined. It works on a local copy of the cursor, so that the compiler can keep that in registers.
    #[inline(never)]
    fn gather_within(&mut self, buffer: &mut Buffer, most: usize) -> usize
        requires { Knows self.old }
        ensures gathers { Gathers self.old self.new buffer.old buffer.new 0 result }
        ensures few { (result ≤ 512) × (result ≤ most) }
        ensures knows { Knows self.new }
    {
        if most < BUFFER_LEN && most < self.source.len().saturating_sub(self.place) {
            return 0;
        }
        let mut cursor = replace(self, Cursor::new(&[]));
        let len = cursor.gather(buffer);
        *self = cursor;
        len
    }

    /// Gathers the next short stretches and the values of escapes in a buffer, until it is full, the body ends or a
    /// long stretch begins. Returns how many bytes are gathered.
    #[inline(always)]
    fn gather(&mut self, buffer: &mut Buffer) -> usize
        requires { Knows self.old }
        ensures gathers { Gathers self.old self.new buffer.old buffer.new 0 result }
        ensures few { result ≤ 512 }
        ensures knows { Knows self.new }
    {
        let mut len = 0;
        match self.ahead {
            Ahead::Escape(value, end) => {
                buffer[0] = value;
                len = 1;
                self.place = end;
                self.ahead = Ahead::Unknown;
            }
            Ahead::AfterEscape => self.ahead = Ahead::Unknown,
            Ahead::Unknown | Ahead::End => {}
        }
        while let Some(more) = self.gather_more(buffer, len) {
            len = more;
        }
        len
    }

    /// Gathers the next block, or what is left of the last one, after the bytes that were gathered before. Returns how
    /// many bytes are gathered then, or None if the body ends, a long stretch begins or there is no room for two
    /// blocks.
    #[inline(always)]
    fn gather_more(&mut self, buffer: &mut Buffer, len: usize) -> Option<usize>
        requires gathering { Gathering self.old }
        requires few { len ≤ 512 }
        ensures gathered { Gathered self.old self.new buffer.old buffer.new len
            (option_map_or (λ n. n) result len) }
        ensures moves { IfSome result (λ _. Moves self.old self.new
            × (self.old.ahead ≡ Ahead.Unknown)) }
    {
        if len > BUFFER_LEN - 2 * BLOCK || !matches!(self.ahead, Ahead::Unknown) {
            return None;
        }
        if self.place >= self.source.len() {
            self.ahead = Ahead::End;
            return None;
        }
        if self.place >= self.block.end {
            if self.source.len() - self.place >= 2 * BLOCK {
                let bytes = self.look_whole();
                if self.block.marks.count_ones() < SEVERAL {
                    if len == 0 && self.block.marks == 0 {
                        return None;
                    }
                    return Some(self.gather_block(buffer, len, true));
                }
                if let Some(more) = self.pack_whole(bytes, buffer, len) {
                    return Some(more);
                }
            } else if let Some(more) = self.pack_end(buffer, len) {
                return Some(more);
            }
        }
        if len == 0 && self.block.marks == 0 {
            return None;
        }
        let whole_blocks = self.source.len() - self.block.end >= BLOCK
            && self.block.marks.count_ones() < DENSE;
        Some(if whole_blocks {
            self.gather_block(buffer, len, true)
        } else {
            self.gather_block(buffer, len, false)
        })
    }

    /// Gathers the rest of the block that was read last, after the bytes that were gathered before. `whole_blocks` says
    /// that 64 bytes or more follow the block in the text. Then 64 bytes are copied at a time. Otherwise, escapes that
    /// follow one another are gathered without a search for marks.
    #[inline(always)]
    fn gather_block(&mut self, buffer: &mut Buffer, len: usize, whole_blocks: bool) -> usize
        requires may { MayGather self.old len }
        requires here { self.old.place < self.old.block.end }
        requires whole_blocks { MayCopyBlocks self.old whole_blocks }
        ensures gathered { Gathered self.old self.new buffer.old buffer.new len result }
        ensures moves { Moves self.old self.new }
    {
        let mut len = len;
        while self.place < self.block.end {
            let place = self.place;
            let Some(mark) = self.block.mark_from(&self.source, place) else {
                self.source
                    .copy(place, self.block.end, buffer, len, whole_blocks);
                self.place = self.block.end;
                return len + (self.place - place);
            };
            self.source.copy(place, mark, buffer, len, whole_blocks);
            self.place = mark;
            let (more, ended) = self.gather_mark(buffer, len + (mark - place), whole_blocks);
            len = more;
            if ended {
                return len;
            }
        }
        len
    }

    /// Gathers what begins at the place, where a mark is. Returns how many bytes are gathered then, and whether the
    /// body ends.
    #[inline(always)]
    fn gather_mark(&mut self, buffer: &mut Buffer, len: usize, whole_blocks: bool) -> (usize, bool)
        requires may { MayGather self.old len }
        requires here { self.old.place < self.old.block.end }
        requires whole_blocks { MayCopyBlocks self.old whole_blocks }
        requires marked { is_marked (slice_index (text_of self.old) self.old.place) ≡ true }
        ensures gathers { Gathers self.old self.new buffer.old buffer.new len result.0 }
        ensures goes { IsGathered self.old self.new result.0 result.1 }
    {
        let mark = self.place;
        match self.source.at_mark(mark, whole_blocks) {
            AtMark::Stays => {
                buffer[len] = b'%';
                self.place = mark + 1;
                (len + 1, false)
            }
            AtMark::Passed => {
                self.place = mark + 1;
                (len, false)
            }
            AtMark::Escape(value, end) => {
                buffer[len] = value;
                self.place = end;
                let len = if whole_blocks {
                    len + 1
                } else {
                    self.gather_escapes(buffer, len + 1)
                };
                (len, false)
            }
            AtMark::End => {
                self.ahead = Ahead::End;
                (len, true)
            }
        }
    }

    /// Gathers the values of escapes that follow one another after an escape.
    #[inline(always)]
    fn gather_escapes(&mut self, buffer: &mut Buffer, len: usize) -> usize
        requires unknown { self.old.ahead ≡ Ahead.Unknown }
        requires looking { Looking self.old.source self.old.block self.old.place 3 }
        requires room { HasRoom self.old len }
        ensures gathers { Gathers self.old self.new buffer.old buffer.new len result }
        ensures may { MayGather self.new result }
        ensures block { self.new.block.end ≡ self.old.block.end }
    {
        let mut len = len;
        let end = BUFFER_LEN.min(len + (self.source.len() - self.place) / ESCAPE);
        while len < end {
            let Some(value) = self.source.escape_here(self.place) else {
                return len;
            };
            self.place += ESCAPE;
            buffer[len] = value;
            len += 1;
        }
        len
    }
}
