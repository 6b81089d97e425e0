//! Records of the calls of a closure by the functions that decode.

use super::{assert_same, assert_that};
use data_url::forgiving_base64::{DecodeError, Decoder};
use data_url::{DataUrl, FragmentIdentifier};
use std::alloc::{AllocError, Global};
use std::process::Abort;

/// The greatest number of a call that fails in turn.
const REFUSALS: usize = 100;

/// Where the bytes come from.
#[derive(Drop)]
pub enum Source<'a> {
    /// A URL's body.
    Body(&'a DataUrl<'a>),
    /// A text of base64, fed to a decoder in pieces.
    Base64(&'a [&'a [u8]]),
}

/// What happens to the closure when the text has ended.
#[derive(Drop)]
pub enum Closure {
    /// It is dropped, by `decode` and by `finish`.
    Dropped,
    /// It is returned, by `decode_with`, `finish_with` and `into_closure`.
    Returned,
}

/// The calls of a closure, and the result after them.
#[derive(Drop)]
pub struct Record {
    /// The pieces, joined.
    pub bytes: Vec<u8>,
    /// The length of each piece.
    pub lengths: Vec<usize>,
    /// The number of the call that fails, which is also its error, or 0 for none.
    refused: usize,
    /// The message of the error, or `#` and the fragment, or nothing.
    pub answer: String,
}

impl Record {
    /// Creates a record without calls.
    fn new(alloc: Global, refused: usize) -> Record {
        Record {
            bytes: Vec::new(alloc),
            lengths: Vec::new(alloc),
            refused,
            answer: String::new(alloc),
        }
    }

    /// Records a call with a piece, and returns an error if it is the one that fails. The error is 0 if allocation
    /// fails.
    fn take(&mut self, piece: &[u8]) -> Result<(), usize> {
        let kept = self.bytes.extend_from_slice(piece).is_ok();
        if !kept || self.lengths.push(piece.len()).is_err() {
            return Err(0);
        }
        let calls = self.lengths.len();
        if calls == self.refused {
            Err(calls)
        } else {
            Ok(())
        }
    }

    /// Asserts the bytes and the result, and that no piece is empty.
    pub fn assert_is(&self, rt: &impl Abort, about: &str, bytes: &[u8], answer: &str) {
        assert_same(rt, about, self.bytes.as_slice(), bytes);
        assert_same(rt, about, self.answer.as_bytes(), answer.as_bytes());
        assert_that(rt, about, !self.lengths.as_slice().contains(&0));
    }

    /// Asserts that another record has the same bytes, result and lengths of pieces.
    fn assert_equals(&self, rt: &impl Abort, about: &str, other: &Record) {
        self.assert_is(rt, about, other.bytes.as_slice(), other.answer.as_str());
        assert_that(rt, about, self.lengths == other.lengths);
    }

    /// Asserts the result, the number of calls, and that the bytes are a prefix of these.
    fn assert_ends(&self, rt: &impl Abort, about: &str, bytes: &[u8], answer: &str, calls: usize) {
        assert_same(rt, about, self.answer.as_bytes(), answer.as_bytes());
        assert_that(rt, about, self.lengths.len() == calls);
        assert_that(rt, about, bytes.starts_with(self.bytes.as_slice()));
    }
}

/// Returns `#` and a fragment, percent-encoded, or an empty text if there is none.
pub fn fragment_text(
    alloc: Global,
    fragment: Option<FragmentIdentifier>,
) -> Result<String, AllocError> {
    match fragment {
        Some(fragment) => {
            let encoded = fragment.to_percent_encoded(alloc)?;
            format!(in alloc; "#{encoded}")
        }
        None => Ok(String::new(alloc)),
    }
}

/// Returns the record of decoding a URL's body.
fn record_body(
    alloc: Global,
    url: &DataUrl,
    closure: &Closure,
    refused: usize,
) -> Result<Record, AllocError> {
    let mut record = Record::new(alloc, refused);
    let write = |piece: &[u8]| -> Result<(), usize> { record.take(piece) };
    let ended = match closure {
        Closure::Dropped => url.decode(write),
        Closure::Returned => {
            let (ended, _) = url.decode_with(write);
            ended
        }
    };
    record.answer = match ended {
        Ok(fragment) => fragment_text(alloc, fragment)?,
        Err(error) => format!(in alloc; "{error}")?,
    };
    Ok(record)
}

/// Returns the record of decoding base64 in pieces. Asserts that the decoder has failed exactly after an error.
fn record_base64(
    rt: &impl Abort,
    alloc: Global,
    pieces: &[&[u8]],
    closure: &Closure,
    refused: usize,
) -> Result<Record, AllocError> {
    let mut record = Record::new(alloc, refused);
    let mut decoder = Decoder::new(|piece: &[u8]| -> Result<(), usize> { record.take(piece) });
    let mut ended = Ok(());
    for piece in pieces {
        if decoder.has_failed() {
            break;
        }
        ended = decoder.feed(piece);
        assert_that(rt, "fed", decoder.has_failed() == ended.is_err());
    }
    match closure {
        Closure::Returned if decoder.has_failed() => {
            let _ = decoder.into_closure();
        }
        Closure::Returned => ended = decoder.finish_with().0,
        Closure::Dropped if decoder.has_failed() => {}
        Closure::Dropped => ended = decoder.finish(),
    }
    if let Err(error) = ended {
        record.answer = format!(in alloc; "{error}")?;
    }
    Ok(record)
}

impl<'a> Source<'a> {
    /// Returns the record of decoding while this call fails, or no call if it is 0.
    fn record(
        &self,
        rt: &impl Abort,
        alloc: Global,
        closure: &Closure,
        refused: usize,
    ) -> Result<Record, AllocError> {
        match self {
            Source::Body(url) => record_body(alloc, url, closure, refused),
            Source::Base64(pieces) => record_base64(rt, alloc, pieces, closure, refused),
        }
    }

    /// Returns the record of decoding, after asserting that it is the same for a closure that is dropped and for one
    /// that is returned.
    pub fn record_both(
        &self,
        rt: &impl Abort,
        alloc: Global,
        about: &str,
        refused: usize,
    ) -> Result<Record, AllocError> {
        let returned = self.record(rt, alloc, &Closure::Returned, refused)?;
        let dropped = self.record(rt, alloc, &Closure::Dropped, refused)?;
        dropped.assert_equals(rt, about, &returned);
        Ok(dropped)
    }

    /// Asserts that the error of this call is the result, that no call follows it, and that the bytes are a prefix.
    fn assert_refused(
        &self,
        rt: &impl Abort,
        alloc: Global,
        about: &str,
        bytes: &[u8],
        refused: usize,
    ) -> Result<(), AllocError> {
        let record = self.record_both(rt, alloc, about, refused)?;
        let message = format!(in alloc; "write error: {refused}")?;
        record.assert_ends(rt, about, bytes, message.as_str(), refused);
        Ok(())
    }

    /// Asserts what an error of each of the first calls does, up to a hundred of them, and one of the last call.
    fn assert_each_refused(
        &self,
        rt: &impl Abort,
        alloc: Global,
        about: &str,
        bytes: &[u8],
        calls: usize,
    ) -> Result<(), AllocError> {
        for refused in 1..calls.min(REFUSALS).saturating_add(1) {
            self.assert_refused(rt, alloc, about, bytes, refused)?;
        }
        if calls > REFUSALS {
            self.assert_refused(rt, alloc, about, bytes, calls)?;
        }
        Ok(())
    }

    /// Asserts that an error of the call after the last one, which is never made, changes nothing.
    fn assert_never_refused(
        &self,
        rt: &impl Abort,
        alloc: Global,
        about: &str,
        whole: &Record,
    ) -> Result<(), AllocError> {
        let beyond = whole.lengths.len().saturating_add(1);
        let record = self.record_both(rt, alloc, about, beyond)?;
        record.assert_equals(rt, about, whole);
        Ok(())
    }

    /// Asserts the bytes and the result, and what an error of each of the first hundred calls does, one of the last
    /// call, and one of the call after it.
    pub fn assert_is(
        &self,
        rt: &impl Abort,
        alloc: Global,
        about: &str,
        bytes: &[u8],
        answer: &str,
    ) -> Result<Record, AllocError> {
        let whole = self.record_both(rt, alloc, about, 0)?;
        whole.assert_is(rt, about, bytes, answer);
        self.assert_never_refused(rt, alloc, about, &whole)?;
        self.assert_each_refused(rt, alloc, about, bytes, whole.lengths.len())?;
        Ok(whole)
    }
}
