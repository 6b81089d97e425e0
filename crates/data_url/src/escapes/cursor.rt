//! The walk over the text of a body, piece by piece.

#![tactic(auto, using(crate::proofs::escapes::Walking::walks))]

ghost use Rattle.std.specs.Prelude.{◌≡◌, ◌≤◌, drop, length};
ghost use Rattle.data_url.specs.Url.{after, number_sign};
ghost use Rattle.data_url.specs.Pieces.{text_of, walk_at_start, walk_of};
ghost use Rattle.data_url.specs.Steps.Chunks.{IsBodyFrom, IsBodyPrefix};
ghost use Rattle.data_url.specs.Steps.Walk.{GivesPiece, Knows, KnowsAhead, Looking};

use super::Piece;
use super::marks::{AtMark, Block};
use super::source::Source;

/// How many bytes an escape has, without tabs and newlines.
pub(super) const ESCAPE: usize = 3;

/// What is known of the text at the place of a walk.
#[derive(Drop)]
pub(super) enum Ahead {
    /// Nothing.
    Unknown,
    /// An escape ends there, so the next one is tried at once.
    AfterEscape,
    /// An escape begins there: its value, and the place after it.
    Escape(u8, usize),
    /// The body ends there.
    End,
}

/// A walk: its text, the block that was read last with its marks, its place, and what is known there.
#[derive(Drop)]
pub(super) struct Cursor<'a> {
    pub(super) source: Source<'a>,
    pub(super) block: Block,
    pub(super) place: usize,
    pub(super) ahead: Ahead,
}

impl<'a> Cursor<'a> {
    /// Returns a walk that begins at the start of a text.
    pub(super) fn new(text: &'a [u8]) -> Self
        ensures walk { walk_of result ≡ walk_at_start text.entry.now }
        ensures unread { result.source.looks ≡ 0 }
        ensures knows { Knows result }
    {
        Cursor {
            source: Source::new(text),
            block: Block::between(0, 0, 0),
            place: 0,
            ahead: Ahead::Unknown,
        }
    }

    /// Returns a walk that begins at a place of a text. The body ends there if the text does, or if a `#` is there.
    #[inline(always)]
    pub(super) fn from_place(text: &'a [u8], place: usize) -> Self
        requires within { place ≤ length text.now }
        requires no_hash { after number_sign (drop place text.now) ≡ after number_sign text.now }
        ensures from { IsBodyFrom text.entry.now place (walk_of result) }
        ensures knows { Knows result }
    {
        Cursor {
            source: Source::new(text),
            block: Block::between(place, place, 0),
            place,
            ahead: if place == text.len() || text[place] == b'#' {
                Ahead::End
            } else {
                Ahead::Unknown
            },
        }
    }

    /// Returns the bytes before the first marked byte, at most `most` of them, and goes to the place after them. If the
    /// first byte is a `%`, that byte alone is the first block, so that the bytes after its escape can be packed. Any
    /// other first byte may be read once more, with the block that it is in: the bound on looks has room for that.
    #[inline(always)]
    pub(super) fn next_prefix(&mut self, most: usize) -> &'a [u8]
        requires start { self.old.place ≡ 0 }
        requires unread { self.old.source.looks ≡ 0 }
        ensures prefix { IsBodyPrefix (text_of self.old) result.now (walk_of self.new) }
        ensures few { length result.now ≤ most }
        ensures knows { Knows self.new }
    {
        let is_percent = self.source.len() > 0 && self.source.look(0) == b'%';
        self.block = Block::between(0, usize::from(is_percent), u64::from(is_percent));
        let len = self.source.len();
        let end = len.min(most);
        let place = self.block.next_mark(&mut self.source, 0, end).min(end);
        self.place = place;
        self.ahead = if place == len {
            Ahead::End
        } else {
            Ahead::Unknown
        };
        self.source.cut(0, place)
    }

    /// Returns the next piece, or None if the body has ended. A slice is cut after `most` bytes.
    #[inline(always)]
    pub(super) fn next(&mut self, most: usize) -> Option<Piece<'a>>
        requires knows { Knows self.old }
        requires some { 1 ≤ most }
        ensures goes { GivesPiece self.old result self.new most }
        ensures knows { Knows self.new }
    {
        match self.ahead {
            Ahead::End => return None,
            Ahead::Escape(value, end) => {
                self.go_to(end, Ahead::AfterEscape);
                return Some(Piece::Byte(value));
            }
            Ahead::AfterEscape if self.source.len() - self.place >= ESCAPE => {
                if let Some(value) = self.source.escape_here(self.place) {
                    self.place += ESCAPE;
                    return Some(Piece::Byte(value));
                }
            }
            Ahead::AfterEscape | Ahead::Unknown => {}
        }
        self.next_stretch(most)
    }

    /// Returns the next piece, as `next` does, from a place at which nothing is known.
    #[inline(always)]
    fn next_stretch(&mut self, most: usize) -> Option<Piece<'a>>
        requires looking { Looking self.old.source self.old.block self.old.place 0 }
        requires some { 1 ≤ most }
        ensures goes { GivesPiece self.old result self.new most }
        ensures knows { KnowsAhead self.new self.new.ahead }
    {
        let mut from = self.place;
        loop {
            let place = self.place;
            let end = place.saturating_add(most);
            let mark = self.block.next_mark(&mut self.source, from, end);
            if (end <= mark) & (end < self.source.len()) {
                self.go_to(end, Ahead::Unknown);
                return Some(Piece::Slice(self.source.cut(place, end)));
            }
            let slice = self.source.cut(place, mark);
            match self.source.at_mark(mark, false) {
                AtMark::Stays => from = mark + 1,
                AtMark::Passed => {
                    from = mark + 1;
                    self.go_to(from, Ahead::Unknown);
                    if place < mark {
                        return Some(Piece::Slice(slice));
                    }
                }
                AtMark::Escape(value, end) if mark == place => {
                    self.go_to(end, Ahead::AfterEscape);
                    return Some(Piece::Byte(value));
                }
                AtMark::Escape(value, end) => {
                    self.go_to(mark, Ahead::Escape(value, end));
                    return Some(Piece::Slice(slice));
                }
                AtMark::End => {
                    self.go_to(mark, Ahead::End);
                    return (place < mark).then_some(Piece::Slice(slice));
                }
            }
        }
    }

    /// Goes to a place. `ahead` is what is known of the text there.
    #[inline(always)]
    fn go_to(&mut self, place: usize, ahead: Ahead)
        ensures there { self.new ≡ record self.old { place = place; ahead = ahead } }
    {
        self.place = place;
        self.ahead = ahead;
    }
}
