//! The body of a data: URL in pieces: slices of the input, and the values of escapes (URL Standard, section 1.3,
//! percent-decode). Nothing is allocated.

ghost use Rattle.std.specs.Prelude.{◌≡◌, ◌+◌, ◌*◌, ◌≤◌, ◌++◌, [], IfNone, IfSome, IsTrue, None, length};
ghost use Rattle.std.specs.Option.{option_map};
ghost use Rattle.data_url.specs.Pieces.{IsPiece, walk_at_start, bytes_of_next};
ghost use Rattle.data_url.specs.Url.{after, number_sign};

mod cursor;
mod digits;
mod gather;
mod lanes;
mod looks;
mod marks;
mod pack;
mod source;
mod walk;

use cursor::Cursor;
pub(crate) use gather::BUFFER_LEN;
pub(crate) use source::fragment_at;
use std::marker::Model;
pub(crate) use walk::Walk;

/// A piece of a body.
#[derive(Drop)]
pub enum Piece<'a> {
    /// Bytes of the text as they are: at least one. They end before a tab or newline, an escape, the first `#`, or
    /// the end of the text.
    Slice(&'a [u8]),
    /// The value of an escape: a `%` and two hexadecimal digits, with nothing but tabs and newlines between.
    Byte(u8),
}

/// The pieces of a body, from the text after the comma of a data: URL, with its tabs, newlines and fragment
/// ([URL Standard, sections 1.3 and 4.4](https://url.spec.whatwg.org/#percent-encoded-bytes)).
///
/// Contracts see a walk: the text, the place in it in bytes, the bytes that the pieces from there on join to, whether
/// it has ended, and how many bytes of the text were examined, which is never more than three times its length.
#[derive(Drop)]
pub struct Pieces<'a> {
    text: &'a str,
    cursor: Cursor<'a>,
}

impl<'a> Model for Pieces<'a> {
    ghost use Rattle.std.specs.Prelude.{◌≡◌};
    ghost use Rattle.data_url.specs.{Pieces.{Walk, text_of, walk_of}, Steps.Walk.{Knows}};

    ghost Value = { Walk };

    ghost view = { λ pieces. walk_of pieces.cursor };

    ghost invariant = { λ pieces. Knows pieces.cursor × (pieces.text.now ≡ text_of pieces.cursor) };
}

impl<'a> Pieces<'a> {
    /// Returns the pieces of a text, from its first byte on. The text is what follows the comma of a data: URL.
    pub fn new(text: &'a str) -> Self
        ensures { result ≡ walk_at_start text.entry.now }
    {
        Pieces {
            text,
            cursor: Cursor::new(text.as_bytes()),
        }
    }

    /// Returns the next piece of the body. Returns None if the body has ended, and from then on.
    ///
    /// The pieces before None join to the text before its first `#`, without tabs and newlines, percent-decoded
    /// ([URL Standard, section 1.3](https://url.spec.whatwg.org/#percent-encoded-bytes)). There are at most as many
    /// as the text has bytes. A slice goes as far as it can.
    #[tactic(auto, using(crate::proofs::escapes::Walking::walking))]
    pub fn next(&mut self) -> Option<Piece<'a>>
        ensures text { self.new.text ≡ self.old.text }
        ensures bytes { self.old.rest ≡ bytes_of_next result ++ self.new.rest }
        ensures piece { IfSome result (IsPiece self.old.text self.old.place self.new.place) }
        ensures place { self.old.place + length (bytes_of_next result) ≤ self.new.place }
        ensures within { self.new.place ≤ length self.new.text }
        ensures ended { IfNone result (IsTrue self.new.ended) }
        ensures over { IfNone result (self.new.rest ≡ []) }
        ensures again { IsTrue self.old.ended → result ≡ None }
        ensures looks { self.old.looks ≤ self.new.looks }
        ensures few_looks { self.new.looks ≤ 3 * length self.new.text }
    {
        self.cursor.next(usize::MAX)
    }

    /// Returns the text after the first `#`, as it was given
    /// ([URL Standard, section 4.4, fragment state](https://url.spec.whatwg.org/#fragment-state)), or None if there
    /// is no `#`. It may be called once `next` has returned None.
    #[tactic(auto, using(crate::proofs::escapes::Walking::walking))]
    pub fn fragment(&self) -> Option<&'a str>
        requires { IsTrue self.now.ended }
        ensures { option_map (λ fragment. fragment.now) result ≡ after number_sign self.now.text }
    {
        fragment_at(self.text, self.cursor.place)
    }
}
