//! The marked bytes of a text: where they are, and what begins there.

#![tactic(auto, using(crate::proofs::escapes::BlockMarks::mark_places))]

ghost use Rattle.std.specs.Prelude.{◌≡◌, ◌+◌, ◌^◌, ◌<◌, ◌≤◌};
ghost use Rattle.std.specs.Prelude.{IsTrue, MatchOption, length, slice_index, true};
ghost use Rattle.data_url.specs.Steps.Walk.{IsAtMark, IsClear, IsMarkUpTo};
ghost use Rattle.data_url.specs.Steps.Walk.{IsNextMark, Looking, LooksOn};
ghost use Rattle.data_url.specs.Steps.Window.{is_marked};

use super::lanes::{last_marks, marks_of};
use super::source::Source;
use crate::classes::lanes::BLOCK;

/// The block of a text that was read last, from `base` up to `end`, with a bit for each marked byte.
#[derive(Drop)]
pub(super) struct Block {
    pub(super) base: usize,
    pub(super) end: usize,
    pub(super) marks: u64,
}

/// What begins at a marked byte.
pub(super) enum AtMark {
    /// A `%` that begins no escape.
    Stays,
    /// A tab or a newline.
    Passed,
    /// An escape: its value, and the place after it.
    Escape(u8, usize),
    /// The `#` before the fragment, or the end of the text.
    End,
}

impl Block {
    /// Returns the block between two places of a text, with its marks.
    #[inline(always)]
    pub(super) fn between(base: usize, end: usize, marks: u64) -> Self
        ensures { result ≡ record { base = base; end = end; marks = marks } }
    {
        Block { base, end, marks }
    }

    /// Returns the place of the first marked byte of the block from a place on, or None if there is none.
    #[inline(always)]
    pub(super) fn mark_from(&self, source: &Source<'_>, place: usize) -> Option<usize>
        requires looking { Looking source.now self.now place 0 }
        requires here { place < self.now.end }
        ensures { MatchOption result (IsClear source.now.text.now place self.now.end)
            (λ mark. (mark < self.now.end) × IsNextMark source.now.text.now place mark) }
    {
        let marks = self.marks >> (place - self.base);
        if marks == 0 {
            return None;
        }
        Some(place + marks.trailing_zeros() as usize)
    }

    /// Returns the place of the first marked byte from a place on, or the length of the text if there is none. The
    /// search goes on only up to `end`. If it finds none there, it returns a place after `end`, before which no byte is
    /// marked.
    #[inline(always)]
    pub(super) fn next_mark(&mut self, source: &mut Source<'_>, from: usize, end: usize) -> usize
        requires { Looking source.old self.old from 0 }
        ensures looking { Looking source.new self.new result 0 }
        ensures at_end { from ≤ end → end ≤ result → Looking source.new self.new end 0 }
        ensures on { LooksOn source.old source.new }
        ensures mark { IsMarkUpTo source.old.text.now from end result }
    {
        let mut place = from;
        if place < self.end {
            if let Some(mark) = self.mark_from(source, place) {
                return mark;
            }
            place = self.end;
        }
        let blocks_end = source
            .len()
            .saturating_sub(BLOCK - 1)
            .min(end.saturating_add(1));
        while place < blocks_end {
            let bytes = source.look_bytes(place);
            *self = Block::between(place, place + BLOCK, marks_of(bytes, true));
            if let Some(mark) = self.mark_from(source, place) {
                return mark;
            }
            place += BLOCK;
        }
        if place == source.len() || place > end {
            return place;
        }
        let rest = source.look_rest(place);
        *self = Block::between(place, place + rest.len(), last_marks(rest));
        match self.mark_from(source, place) {
            Some(mark) => mark,
            None => self.end,
        }
    }
}

impl<'a> Source<'a> {
    /// Returns what begins at a marked byte, or that the text ends there. `two_follow` says that at least two bytes
    /// follow the marked byte. Then the end of the text is not tested for.
    #[inline(always)]
    pub(super) fn at_mark(&mut self, mark: usize, two_follow: bool) -> AtMark
        requires within { mark ≤ length self.old.text.now }
        requires room { IsTrue two_follow → mark + 3 ≤ length self.old.text.now }
        requires marked { mark < length self.old.text.now
            → is_marked (slice_index self.old.text.now mark) ≡ true }
        ensures text { self.new.text.now ≡ self.old.text.now }
        ensures bound { length self.old.text.now < 2 ^ 64 }
        ensures looks { self.old.looks ≤ self.new.looks }
        ensures found { IsAtMark self.old.text.now mark self.old.looks self.new.looks result }
    {
        if !two_follow && mark >= self.len() {
            return AtMark::End;
        }
        match self.look(mark) {
            b'%' => match self.escape(mark, two_follow) {
                Some((value, end)) => AtMark::Escape(value, end),
                None => AtMark::Stays,
            },
            b'#' => AtMark::End,
            _ => AtMark::Passed,
        }
    }
}
