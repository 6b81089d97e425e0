//! Bodies in parts: a body is decoded from its tail into outputs, one after another.

ghost use Rattle.std.specs.Prelude.{◌≡◌, ◌≤◌, false, length};

use super::output::write_body;
use crate::DataUrl;
use crate::body::Stop;
use crate::forgiving_base64::{InvalidBase64Details, LeftOver};

/// A body of a data: URL that is decoded in parts ([Fetch Standard, section
/// 6](https://fetch.spec.whatwg.org/#data-url-processor)): its tail, which is the text after the comma, whether it is
/// base64, and where it goes on. It is a value that may be stored and copied.
#[derive(Clone, Copy)]
pub struct Body<'a> {
    tail: &'a [u8],
    base64: bool,
    place: usize,
    left_over: LeftOver,
    ghost within: { place ≤ length tail.now },
    ghost none_left_over: { base64 ≡ false → (left_over.pending ≡ 0) × (left_over.padding ≡ 0) },
}

/// What a call for the next part of a body returns.
#[derive(Clone, Copy)]
pub struct Part<'a> {
    /// How many bytes were written, to the start of the output.
    pub len: usize,
    /// How the body goes on after them.
    pub progress: Progress<'a>,
}

/// How a body goes on after a part.
#[derive(Clone, Copy)]
pub enum Progress<'a> {
    /// There may be more bytes: the rest of the body.
    More(Body<'a>),
    /// The body has ended, at this place in its tail, in bytes. The `#` of the fragment is there, or the tail ends.
    End(usize),
    /// The base64 is not valid. The bytes before its first fault were written, in this part and those before it.
    Fault(InvalidBase64Details),
}

impl<'a> Body<'a> {
    ghost use Rattle.std.specs.Prelude.{MatchOption};
    ghost use Rattle.data_url.specs.DataUrl.{is_base64, url_body, url_tail};
    ghost use Rattle.data_url.specs.Parts.{IsBodyAt, WritesPart, is_resumable, rest_of};

    /// Returns the body of a URL, of which nothing was decoded yet.
    pub fn new(url: &DataUrl<'a>) -> Body<'a>
        ensures body { rest_of result ≡ url_body url.now }
        ensures tail { result.tail.now ≡ url_tail url.now }
        ensures base64 { result.base64 ≡ is_base64 url.now }
        ensures start { result.place ≡ 0 }
        ensures nothing { (result.left_over.pending ≡ 0) × (result.left_over.padding ≡ 0) }
    {
        Body {
            tail: url.tail.as_bytes(),
            base64: url.base64,
            place: 0,
            left_over: LeftOver::new(),
        }
    }

    /// Returns the body that goes on at a place in a tail, in bytes, after what base64 has left over. The tail may be
    /// any bytes, and the place any place in it: the text from there on is decoded by itself.
    ///
    /// Returns None if the place is not in the tail, and if something is left over of a body that is not base64.
    pub fn resume(
        tail: &'a [u8],
        base64: bool,
        place: usize,
        left_over: LeftOver,
    ) -> Option<Body<'a>>
        ensures { MatchOption result (is_resumable base64 tail.entry.now place left_over ≡ false)
            (λ body. IsBodyAt body tail.entry.now base64 place left_over) }
    {
        let (_, pending, padding) = left_over.into_parts();
        if place > tail.len() || (!base64 && (pending > 0 || padding > 0)) {
            return None;
        }
        Some(Body {
            tail,
            base64,
            place,
            left_over,
        })
    }

    /// Returns the tail: the text after the comma, as bytes.
    pub fn tail(&self) -> &'a [u8]
        ensures { result.now ≡ self.now.tail.now }
    {
        self.tail
    }

    /// Returns whether the body is base64.
    pub fn is_base64(&self) -> bool
        ensures { result ≡ self.now.base64 }
    {
        self.base64
    }

    /// Returns the place in the tail where the body goes on, in bytes.
    pub fn place(&self) -> usize
        ensures { result ≡ self.now.place }
    {
        self.place
    }

    /// Returns what base64 has left over. It is nothing if the body is not base64.
    pub fn left_over(&self) -> LeftOver
        ensures { result ≡ self.now.left_over }
    {
        self.left_over
    }

    /// Writes the next bytes of the body to the start of an output, and leaves the rest of the output as it is. Tabs
    /// and newlines are dropped, escapes are decoded (URL Standard, section 1.3), and base64 is decoded after that
    /// (Infra Standard, forgiving-base64 decode).
    ///
    /// Of a body that is not base64, writes until the body ends or the output is full. It may stop earlier, when fewer
    /// than 512 bytes of a larger output are left. Of base64, writes whole groups as far as they fit; white space
    /// counts as symbols. With an output of four bytes or more the place moves forward. An output that is as long as
    /// the rest of the tail, and has six bytes or more, gets the whole rest of the body.
    ///
    /// Returns how many bytes were written, and how the body goes on: with the rest of the body, with the place where
    /// it has ended, or with the fault if its base64 is not valid.
    // Compiled into its callers, so that the returned `Part` is not written to memory and read back.
    #[inline(always)]
    pub fn next_part(self, output: &mut [u8]) -> Part<'a>
        ensures { WritesPart self.entry output.old output.new result }
    {
        let rest = &self.tail[self.place..];
        let mut left_over = self.left_over;
        let (len, stop) = write_body(self.base64, &mut left_over, rest, output);
        match stop {
            Ok(Stop::Paused(place)) => Part {
                len,
                progress: Progress::More(Body {
                    tail: self.tail,
                    base64: self.base64,
                    place: self.place + place,
                    left_over,
                }),
            },
            Ok(Stop::Ended(place)) => Part {
                len,
                progress: Progress::End(self.place + place),
            },
            Err(details) => Part {
                len,
                progress: Progress::Fault(details),
            },
        }
    }
}
