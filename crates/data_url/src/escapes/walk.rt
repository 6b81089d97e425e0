//! A walk over the text of a body, as the rest of the library sees it: it gives the body's bytes in few pieces.

ghost use Rattle.std.specs.Prelude.{◌≡◌, ◌-◌, ◌≤◌, IfSome, IsTrue, [], drop, length};
ghost use Rattle.data_url.specs.Url.{after, number_sign};
ghost use Rattle.data_url.specs.Steps.Chunks.{GivesBytes, IsBodyFrom, IsBodyPrefix};
ghost use Rattle.data_url.specs.Steps.Tail.{IsBodyEnd};

use super::cursor::{Ahead, Cursor};
use super::gather::BUFFER_LEN;
use std::marker::Model;

/// A walk. Contracts see the text, the place in it in bytes, and the rest of the body.
#[derive(Drop)]
pub(crate) struct Walk<'a> {
    cursor: Cursor<'a>,
}

impl<'a> Model for Walk<'a> {
    ghost use Rattle.data_url.specs.{Pieces.{Walk, walk_of}, Steps.Walk.{Knows}};

    ghost Value = { Walk };

    ghost view = { λ walk. walk_of walk.cursor };

    ghost invariant = { λ walk. Knows walk.cursor };
}

impl<'a> Walk<'a> {
    /// Returns the bytes of a text before its first mark, at most `most` of them, and the walk after them. They are
    /// bytes of the body.
    #[inline(always)]
    pub(crate) fn after_prefix(text: &'a [u8], most: usize) -> (&'a [u8], Self)
        ensures prefix { IsBodyPrefix text.entry.now result.0.now result.1 }
        ensures few { length result.0.now ≤ most }
    {
        let mut cursor = Cursor::new(text);
        let prefix = cursor.next_prefix(most);
        (prefix, Walk { cursor })
    }

    /// Returns the walk of a text from a place on. No `#` comes before it.
    pub(crate) fn from_place(text: &'a [u8], place: usize) -> Self
        requires within { place ≤ length text.now }
        requires no_hash { after number_sign (drop place text.now) ≡ after number_sign text.now }
        ensures { IsBodyFrom text.entry.now place result }
    {
        Walk {
            cursor: Cursor::from_place(text, place),
        }
    }

    /// Returns the next bytes, at most `most` of them, or None if the body has ended: a long stretch of the text as
    /// it is, or shorter ones and the values of escapes, gathered in a buffer.
    #[inline(always)]
    pub(crate) fn next_bytes<'r>(
        &mut self,
        buffer: &'r mut [u8; BUFFER_LEN],
        most: usize,
    ) -> Option<&'r [u8]>
    where
        'a: 'r,
        requires { 1 ≤ most }
        ensures gives { GivesBytes self.old result self.new }
        ensures few { IfSome result (λ bytes. length bytes.now ≤ most) }
    {
        self.cursor.next_bytes(buffer, most)
    }

    /// Returns whether the walk is known to be at the end of the body.
    #[tactic(auto, using(crate::proofs::escapes::Walking::walking))]
    pub(crate) fn has_ended(&self) -> bool
        ensures ended { result ≡ self.now.ended }
        ensures over { IsTrue result → self.now.rest ≡ [] }
    {
        matches!(self.cursor.ahead, Ahead::End)
    }

    /// Returns the place in the text, before which there is no `#`.
    #[tactic(auto, using(crate::proofs::escapes::Walking::walking))]
    pub(crate) fn place(&self) -> usize
        ensures from { IsBodyFrom self.now.text result self.now }
        ensures no_hash { after number_sign self.now.text
            ≡ after number_sign (drop result self.now.text) }
    {
        self.cursor.place
    }

    /// Returns how many bytes of the text are left.
    pub(crate) fn rest_len(&self) -> usize
        ensures { result ≡ length self.now.text - self.now.place }
    {
        self.cursor.source.len().saturating_sub(self.cursor.place)
    }

    /// Returns the place in the text where the body ends, of a walk that has ended.
    #[tactic(auto, using(crate::proofs::escapes::Walking::walking))]
    pub(crate) fn end(&self) -> usize
        requires { IsTrue self.now.ended }
        ensures end { IsBodyEnd self.now.text result }
        ensures over { self.now.rest ≡ [] }
    {
        self.cursor.place
    }
}
