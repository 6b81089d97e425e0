//! Decoding piece by piece (Infra Standard, forgiving-base64 decode).

ghost use Rattle.std.specs.Prelude.{◌≡◌, ◌+◌, ◌%◌, ◌≤◌, Err, length, true, false};

use super::alphabet::{decode_block, group_of, is_of_symbols, symbols_in_block};
use super::gaps::{Line, block_over_gap, spaces_len};
use super::held::{FULL, HeldGroups, SHORT};
use super::left_over::LeftOver;
use super::{DecodeError, InvalidBase64, InvalidBase64Details};
use crate::classes::lanes::BLOCK;
use std::simd::prelude::*;

/// How many bytes the closure is called with at most: those of a block of 64 symbols.
const PIECE: usize = 48;

/// A decoder of base64 ([Infra Standard, forgiving-base64
/// decode](https://infra.spec.whatwg.org/#forgiving-base64-decode)) that is fed its text in parts, cut anywhere, and
/// calls a closure with the bytes.
///
/// It allocates nothing: it keeps at most three symbols, and counts the padding `=` up to three. Contracts see its
/// closure, these symbols, that count and whether it has failed (`state_of`).
#[derive(Drop)]
pub struct Decoder<F, E>
where
    F: FnMut(&[u8]) -> Result<(), E>,
{
    write_bytes: F,
    state: LeftOver,
    failed: bool,
}

impl<F, E> Decoder<F, E>
where
    F: FnMut(&[u8]) -> Result<(), E>,
{
    ghost use Rattle.std.specs.{Fn.{CalledAt}, List.{list_all}, Prelude.{IsTrue, map}};
    ghost use Rattle.data_url.specs.Base64.{groups, is_symbol, symbol_value};
    ghost use Rattle.data_url.specs.Decoder.{Feeds, Finishes, start, state_of};
    ghost use Rattle.data_url.specs.Steps.Holding.{CallsOnce, FeedsToEscapeOrEnd, Flushes};
    ghost use Rattle.data_url.specs.Steps.Holding.{IsBetweenGroups, ReadsOn, ReadsStart};
    ghost use Rattle.data_url.specs.Steps.Holding.{ReadsUntilFault};
    ghost use Rattle.data_url.specs.Steps.Parts.{HoldsLeft, IsResumed};

    /// Returns a decoder that has been fed nothing yet. The closure has to accept any bytes, whatever it was called
    /// with before.
    pub fn new(write_bytes: F) -> Self
        requires { F.IsAlwaysCallable write_bytes }
        ensures state { state_of result ≡ start write_bytes }
        ensures callable { F.IsAlwaysCallable (state_of result).closure }
    {
        Decoder {
            write_bytes,
            state: LeftOver {
                symbols: u8x16::splat(0),
                pending: 0,
                padding: 0,
            },
            failed: false,
        }
    }

    /// Returns a decoder that goes on after what a text has left over.
    pub(crate) fn resume(left_over: LeftOver, write_bytes: F) -> Self
        requires { F.IsAlwaysCallable write_bytes }
        ensures state { IsResumed left_over write_bytes (state_of result) }
        ensures callable { F.IsAlwaysCallable (state_of result).closure }
    {
        Decoder {
            write_bytes,
            state: left_over,
            failed: false,
        }
    }

    /// Returns what the text so far has left over.
    pub(crate) fn left_over(&self) -> LeftOver
        ensures { HoldsLeft result (state_of self.now) }
    {
        self.state
    }

    /// Returns whether a call of `feed` returned an error. A decoder that has failed must not be fed or finished.
    pub fn has_failed(&self) -> bool
        ensures { result ≡ (state_of self.now).failed }
    {
        self.failed
    }

    /// Returns the closure as its last call left it, whether or not the decoder has failed. It is not called again.
    pub fn into_closure(self) -> F
        ensures { result ≡ (state_of self).closure }
    {
        self.write_bytes
    }

    /// Calls the closure with a piece.
    fn write(&mut self, piece: &[u8]) -> Result<(), DecodeError<E>>
        requires callable { F.IsAlwaysCallable (state_of self.old).closure }
        requires going { (state_of self.old).failed ≡ false }
        ensures callable { F.IsAlwaysCallable (state_of self.new).closure }
        ensures called { CallsOnce (CalledAt F.FnMut) (state_of self.old) piece.now result
            (state_of self.new) }
    {
        let answer = (self.write_bytes)(piece);
        self.failed = answer.is_err();
        answer.map_err(DecodeError::WriteError)
    }

    /// Calls the closure with the bytes of a block of symbols.
    #[inline(always)]
    fn write_block(&mut self, block: u8x64) -> Result<(), DecodeError<E>>
        requires symbols { IsTrue (list_all is_symbol block) }
        requires callable { F.IsAlwaysCallable (state_of self.old).closure }
        requires going { (state_of self.old).failed ≡ false }
        ensures callable { F.IsAlwaysCallable (state_of self.new).closure }
        ensures called { CallsOnce (CalledAt F.FnMut) (state_of self.old)
            (groups (map symbol_value block)) result (state_of self.new) }
    {
        let mut bytes = [0; BLOCK];
        decode_block(block).copy_to_slice(&mut bytes);
        self.write(&bytes[..PIECE])
    }

    /// Calls the closure with the bytes of groups, in pieces of up to 48 bytes.
    #[inline(always)]
    fn flush(&mut self, bytes: &[u8]) -> Result<(), DecodeError<E>>
        requires whole { length bytes.now % 3 ≡ 0 }
        requires callable { F.IsAlwaysCallable (state_of self.old).closure }
        requires going { (state_of self.old).failed ≡ false }
        ensures callable { F.IsAlwaysCallable (state_of self.new).closure }
        ensures flushed { Flushes (CalledAt F.FnMut) (state_of self.old) bytes.now result
            (state_of self.new) }
    {
        let mut at = 0;
        while bytes.len() - at >= PIECE {
            self.write(&bytes[at..at + PIECE])?;
            at += PIECE;
        }
        if at < bytes.len() {
            return self.write(&bytes[at..]);
        }
        Ok(())
    }

    /// Makes the decoder fail, and returns the error.
    fn refuse(&mut self, details: InvalidBase64Details) -> DecodeError<E>
        ensures state { state_of self.new ≡ record (state_of self.old) { failed = true } }
        ensures kind { result ≡ DecodeError.InvalidBase64 details }
    {
        self.failed = true;
        DecodeError::InvalidBase64(InvalidBase64 { details })
    }

    /// Calls the closure with the bytes of each block of 64 symbols of a text, from a place on. A block may have one
    /// gap. Skips white space after the last block. Returns the place after it.
    #[inline(always)]
    fn read_lines(&mut self, text: &[u8], place: usize) -> Result<usize, DecodeError<E>>
        requires within { place + 64 ≤ length text.now }
        requires between { IsBetweenGroups (state_of self.old) }
        requires callable { F.IsAlwaysCallable (state_of self.old).closure }
        requires going { (state_of self.old).failed ≡ false }
        ensures callable { F.IsAlwaysCallable (state_of self.new).closure }
        ensures read { ReadsOn (CalledAt F.FnMut) (state_of self.old) text.now place result
            (state_of self.new) }
    {
        let last_block = text.len() - BLOCK;
        let mut at = place;
        let mut line = Line::first(place);
        'block: while at <= last_block {
            let mut before = line.rest_len(at);
            if before >= BLOCK || text[at + before] > b' ' {
                let block = u8x64::from_slice(&text[at..]);
                if is_of_symbols(block) {
                    self.write_block(block)?;
                    at += BLOCK;
                    continue 'block;
                }
                before = symbols_in_block(block);
            }
            let Some(found) = block_over_gap(&text[at..], before) else {
                break 'block;
            };
            self.write_block(found.0)?;
            line = line.next(at + before, found.1);
            at += BLOCK + found.1;
        }
        let spaces = spaces_len(&text[at..]);
        Ok(at + spaces)
    }

    /// Calls the closure with the bytes of each block of 64 symbols that a text begins with. From the first gap on, it
    /// reads the text as `read_lines` does. Does nothing if the text is shorter than a block, or if something is left
    /// over of the text before. Returns how many bytes of the text were read.
    #[inline(always)]
    fn read_blocks(&mut self, text: &[u8]) -> Result<usize, DecodeError<E>>
        requires callable { F.IsAlwaysCallable (state_of self.old).closure }
        requires going { (state_of self.old).failed ≡ false }
        ensures callable { F.IsAlwaysCallable (state_of self.new).closure }
        ensures read { ReadsStart (CalledAt F.FnMut) (state_of self.old) text.now result
            (state_of self.new) }
    {
        if text.len() < BLOCK || !self.state.is_between_groups() {
            return Ok(0);
        }
        let last = text.len() - BLOCK;
        let mut at = 0;
        'block: while at <= last {
            let block = u8x64::from_slice(&text[at..]);
            if !is_of_symbols(block) {
                break 'block;
            }
            self.write_block(block)?;
            at += BLOCK;
        }
        // If the text ends with a block, nothing is left to test.
        if at == text.len() {
            return Ok(at);
        }
        if at <= last {
            return self.read_lines(text, at);
        }
        Ok(at + spaces_len(&text[at..]))
    }

    /// Feeds a text up to its first fault, and holds the bytes of its groups until there are 128. If `decode_short`
    /// reads the whole text, its bytes are not held. Returns the place of the fault and its kind, or the length of the
    /// text and None if there is no fault.
    #[inline(always)]
    fn feed_groups(
        &mut self,
        text: &[u8],
    ) -> Result<(usize, Option<InvalidBase64Details>), DecodeError<E>>
        requires some { 1 ≤ length text.now }
        requires callable { F.IsAlwaysCallable (state_of self.old).closure }
        requires going { (state_of self.old).failed ≡ false }
        ensures callable { F.IsAlwaysCallable (state_of self.new).closure }
        ensures read { ReadsUntilFault (CalledAt F.FnMut) (state_of self.old) text.now result
            (state_of self.new) }
    {
        let mut front = [0; BLOCK];
        let mut len = 0;
        let mut at = 0;
        if self.state.pending() + text.len() <= SHORT {
            (at, len) = self.state.decode_short(text, &mut front);
            if at == text.len() {
                if len == 0 {
                    return Ok((at, None));
                }
                self.write(&front[..len])?;
                return Ok((at, None));
            }
        }
        let mut groups = HeldGroups::new();
        groups.hold(&front, len);
        let mut fault = None;
        'groups: while at < text.len() {
            match self.state.read_groups_or_byte(&text[at..], &mut groups) {
                Ok(taken) => at += taken,
                Err(details) => {
                    fault = Some(details);
                    break 'groups;
                }
            }
            if groups.len >= FULL {
                self.flush(&groups.as_slice()[..FULL])?;
                groups.drop_first();
            }
        }
        self.flush(groups.as_slice())?;
        Ok((at, fault))
    }

    /// Feeds a text up to its first fault: calls the closure with the bytes of the groups before it. Returns the place
    /// of the fault and its kind, or the length of the text and None if there is no fault.
    #[inline(always)]
    fn feed_until_fault(
        &mut self,
        text: &[u8],
    ) -> Result<(usize, Option<InvalidBase64Details>), DecodeError<E>>
        requires callable { F.IsAlwaysCallable (state_of self.old).closure }
        requires going { (state_of self.old).failed ≡ false }
        ensures callable { F.IsAlwaysCallable (state_of self.new).closure }
        ensures read { ReadsUntilFault (CalledAt F.FnMut) (state_of self.old) text.now result
            (state_of self.new) }
    {
        let taken = self.read_blocks(text)?;
        if taken == text.len() {
            return Ok((taken, None));
        }
        let (place, fault) = self.feed_groups(&text[taken..])?;
        Ok((taken + place, fault))
    }

    /// Decodes the next part of the text, in an encoding that contains ASCII. Calls the closure with the bytes of
    /// each group of four symbols that the part completes, at most as many times as the part has bytes. ASCII white
    /// space is skipped. Callers must not rely on where the bytes are cut, and pieces may be empty. Today a piece has
    /// up to 48 bytes, and none is empty.
    ///
    /// Returns `WriteError` with the closure's error; the closure is not called again. Returns `InvalidBase64` at a
    /// byte that is neither white space nor `=` nor a symbol, and at a symbol after a `=` of this part or an earlier
    /// one, after calls with the bytes of the groups before that byte. After an error the decoder has failed.
    ///
    /// It may be called only while `has_failed` returns false.
    pub fn feed(&mut self, input: &[u8]) -> Result<(), DecodeError<E>>
        requires callable { F.IsAlwaysCallable (state_of self.old).closure }
        requires going { (state_of self.old).failed ≡ false }
        ensures callable { F.IsAlwaysCallable (state_of self.new).closure }
        ensures fed { Feeds (CalledAt F.FnMut) (state_of self.old) input.now result
            (state_of self.new) }
    {
        match self.feed_until_fault(input)?.1 {
            None => Ok(()),
            Some(details) => Err(self.refuse(details)),
        }
    }

    /// Decodes a part of the tail of a data: URL up to its first `#` or `%`, as `feed` does. Returns the place of that
    /// byte, or the length of the part. An error is that of `feed` with bytes before that place.
    #[inline(always)]
    pub(crate) fn feed_to_escape_or_end(&mut self, part: &[u8]) -> Result<usize, DecodeError<E>>
        requires few { length part.now ≤ 16384 }
        requires callable { F.IsAlwaysCallable (state_of self.old).closure }
        requires going { (state_of self.old).failed ≡ false }
        ensures callable { F.IsAlwaysCallable (state_of self.new).closure }
        ensures fed { FeedsToEscapeOrEnd (CalledAt F.FnMut) (state_of self.old) part.now result
            (state_of self.new) }
    {
        let (place, fault) = self.feed_until_fault(part)?;
        let Some(details) = fault else {
            return Ok(place);
        };
        let byte = part[place];
        if byte == b'#' || byte == b'%' {
            return Ok(place);
        }
        Err(self.refuse(details))
    }

    /// Ends the text. If two or three symbols are left over, the closure is called once, with the one or two bytes
    /// that they encode; their other bits are dropped.
    ///
    /// Returns `InvalidBase64`, without a call of the closure, if a lone symbol is left over or the padding does not
    /// fit: there may be no `=` or, after two symbols, two or, after three, one. Returns `WriteError` with the
    /// closure's error. `finish_with` returns the closure as well. It may be called only while `has_failed` returns
    /// false.
    pub fn finish(self) -> Result<(), DecodeError<E>>
        requires callable { F.IsAlwaysCallable (state_of self).closure }
        requires going { (state_of self).failed ≡ false }
        ensures { (f : _) × Finishes (CalledAt F.FnMut) (state_of self) result f }
    {
        self.finish_with().0
    }

    /// Ends the text as `finish` does, and also returns the closure as its last call left it. It may be called only
    /// while `has_failed` returns false.
    pub fn finish_with(mut self) -> (Result<(), DecodeError<E>>, F)
        requires callable { F.IsAlwaysCallable (state_of self).closure }
        requires going { (state_of self).failed ≡ false }
        ensures callable { F.IsAlwaysCallable result.1 }
        ensures finished { Finishes (CalledAt F.FnMut) (state_of self) result.0 result.1 }
    {
        (self.end(), self.into_closure())
    }

    /// Ends the text as `finish` does. The decoder must not be fed or finished after that.
    #[inline(always)]
    pub(crate) fn end(&mut self) -> Result<(), DecodeError<E>>
        requires callable { F.IsAlwaysCallable (state_of self.old).closure }
        requires going { (state_of self.old).failed ≡ false }
        ensures callable { F.IsAlwaysCallable (state_of self.new).closure }
        ensures finished { Finishes (CalledAt F.FnMut) (state_of self.old) result
            (state_of self.new).closure }
    {
        let [first, second, third, ..] = self.state.symbols.to_array();
        let padding = usize::from(self.state.padding);
        match self.state.pending {
            1 => Err(self.refuse(InvalidBase64Details::LoneAlphabetSymbol)),
            pending if padding > 0 && pending + padding != 4 => {
                Err(self.refuse(InvalidBase64Details::Padding))
            }
            2 => self.write(&group_of(first, second, b'A', b'A')[..1]),
            3 => self.write(&group_of(first, second, third, b'A')[..2]),
            _ => Ok(()),
        }
    }
}
