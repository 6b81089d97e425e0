//! Bodies: a closure is called with their bytes, piece by piece.

ghost use Rattle.std.specs.{Prelude.{◌+◌, ◌≡◌, ◌≤◌, false, length, true}, Fn.{CalledAt}};
ghost use Rattle.data_url.specs.Steps.Chunks.{IsBodyPrefix, IsCallableUntilError, TakesWithin};
ghost use Rattle.data_url.specs.Steps.Holding.{FeedsToEscapeOrEnd};
ghost use Rattle.data_url.specs.Steps.Tail.{IsBodyEnd};
ghost use Rattle.data_url.specs.Fetch.{outcome, plain_body};
ghost use Rattle.data_url.specs.DataUrl.{Decodes};
ghost use Rattle.data_url.specs.Pieces.{walk_at_start};
ghost use Rattle.data_url.specs.Steps.Whole.{IsBodyInVec};
ghost use Rattle.data_url.specs.{Decoder.{state_of}, Steps.Parts.{DecodesPartOf, DecodesWithin}};

use crate::escapes::{BUFFER_LEN, Walk};
use crate::forgiving_base64::{DecodeError, DecodeToVecError, Decoder, LeftOver, max_decoded_len};
use std::alloc::{AllocError, Global};

/// If a body is likely to be shorter than its text, room is allocated first for at most this many bytes of the text.
const FIRST_CAPACITY: usize = 64 * 1024;

/// How many bytes of a tail the decoder is fed at once, at most, before the first escape.
const FED_AT_ONCE: usize = 16 * 1024;

/// How many bytes the decoder is fed at once, at most, from the first escape on. They are searched for the next escape
/// before, so this is how far a tail is read past a fault.
const FED_AFTER_ESCAPE: usize = 4 * 1024;

/// How many bytes of a long text are tested for marks before room is allocated for its body.
const PROBED: usize = 4 * 1024;

/// Calls a closure with the next bytes of a body, at most `most` of them, and at most `at_once` in each call. It goes
/// on until the body ends, or until fewer than `BUFFER_LEN` of `most` are left, since bytes are not gathered then. If
/// `most` itself is less than `BUFFER_LEN`, it goes on until none is left. Returns the closure's error.
pub(crate) fn take_within<F, E>(
    walk: &mut Walk<'_>,
    most: usize,
    at_once: usize,
    take: &mut F,
) -> Result<(), E>
where
    F: FnMut(&[u8]) -> Result<(), E>,
    requires some { 1 ≤ at_once }
    requires callable { IsCallableUntilError F.FnMut take.old }
    requires short { walk.old.place + length walk.old.rest ≤ length walk.old.text }
    ensures { TakesWithin (CalledAt F.FnMut) take.old walk.old most result take.new walk.new }
{
    if walk.has_ended() {
        return Ok(());
    }
    let mut buffer = [0; BUFFER_LEN];
    let least = if most < BUFFER_LEN { 1 } else { BUFFER_LEN };
    let mut left = most;
    'pieces: while !walk.has_ended() {
        if left < least && left < walk.rest_len() {
            break 'pieces;
        }
        let Some(bytes) = walk.next_bytes(&mut buffer, left.max(1).min(at_once)) else {
            break 'pieces;
        };
        take(bytes)?;
        left -= bytes.len();
    }
    Ok(())
}

/// Calls a closure with the prefix of a body, if it is not empty, and then with the bytes after it, at most `most` of
/// these, as `take_within` does. Returns the first error of the closure.
pub(crate) fn take_after<F, E>(
    prefix: &[u8],
    walk: &mut Walk<'_>,
    most: usize,
    take: &mut F,
) -> Result<(), E>
where
    F: FnMut(&[u8]) -> Result<(), E>,
    requires callable { IsCallableUntilError F.FnMut take.old }
    requires prefix { IsBodyPrefix walk.old.text prefix.now walk.old }
    ensures { TakesWithin (CalledAt F.FnMut) take.old (walk_at_start walk.old.text)
        (length prefix.now + most) result take.new walk.new }
{
    if !prefix.is_empty() {
        take(prefix)?;
    }
    take_within(walk, most, usize::MAX, take)
}

/// Decodes a tail up to its first `#` or `%`, in parts of at most 16 KiB, which is the most that
/// `feed_to_escape_or_end` accepts. So the decoder cannot read far past a fault. Blocks of 64 symbols are decoded only
/// from the start of a group. If a part would begin within a group, as many bytes as the group lacks symbols are fed
/// first, or the rest if it is shorter. If white space among them leaves the group incomplete, the part begins within
/// it. Returns the place of the `#` or `%`, or the length of the tail.
fn feed_front<F, E>(decoder: &mut Decoder<F, E>, tail: &[u8]) -> Result<usize, DecodeError<E>>
where
    F: FnMut(&[u8]) -> Result<(), E>,
    requires callable { F.IsAlwaysCallable (state_of decoder.old).closure }
    requires going { (state_of decoder.old).failed ≡ false }
    ensures callable { F.IsAlwaysCallable (state_of decoder.new).closure }
    ensures fed { FeedsToEscapeOrEnd (CalledAt F.FnMut) (state_of decoder.old) tail.now result
        (state_of decoder.new) }
{
    let mut place = 0;
    let mut completes_group = false;
    while place < tail.len() {
        let rest = &tail[place..];
        let pending = decoder.left_over().pending();
        completes_group = !completes_group && pending > 0;
        let most = if completes_group {
            4 - pending
        } else {
            FED_AT_ONCE
        };
        let part = &rest[..rest.len().min(most)];
        let len = decoder.feed_to_escape_or_end(part)?;
        place += len;
        if len < part.len() {
            return Ok(place);
        }
    }
    Ok(place)
}

/// Where decoding a body stopped.
pub(crate) enum Stop {
    /// At a place in the tail, from which the body goes on.
    Paused(usize),
    /// At the place in the tail where the body ends.
    Ended(usize),
}

/// Feeds a decoder the next bytes of a body, at most `most` of them, and stops as `take_within` does. Ends the text if
/// the body ends. What comes before the first `%` or `#` of the tail is decoded where it is, without a copy.
fn decode_within<F, E>(
    decoder: &mut Decoder<F, E>,
    tail: &[u8],
    most: usize,
) -> Result<Stop, DecodeError<E>>
where
    F: FnMut(&[u8]) -> Result<(), E>,
    requires callable { F.IsAlwaysCallable (state_of decoder.old).closure }
    requires going { (state_of decoder.old).failed ≡ false }
    ensures { DecodesWithin (CalledAt F.FnMut) (state_of decoder.old) tail.now most result
        (state_of decoder.new) }
{
    let place = feed_front(decoder, &tail[..tail.len().min(most)])?;
    let mut walk = Walk::from_place(tail, place);
    let mut feed = |bytes: &[u8]| -> Result<(), DecodeError<E>>
        requires callable { F.IsAlwaysCallable (state_of decoder.now).closure }
        requires going { (state_of decoder.now).failed ≡ false }
    { decoder.feed(bytes) };
    take_within(&mut walk, most - place, FED_AFTER_ESCAPE, &mut feed)?;
    if !walk.has_ended() {
        return Ok(Stop::Paused(walk.place()));
    }
    let end = walk.end();
    decoder.end()?;
    Ok(Stop::Ended(end))
}

/// Calls a closure with the decoded bytes of a body of base64. Returns the place in the text where the body ends.
pub(crate) fn decode_base64<F, E>(tail: &[u8], write: F) -> (Result<usize, DecodeError<E>>, F)
where
    F: FnMut(&[u8]) -> Result<(), E>,
    requires callable { F.IsAlwaysCallable write }
    ensures { Decodes (CalledAt F.FnMut) write (length tail.now + 1)
        (outcome true (plain_body tail.now)) (IsBodyEnd tail.now) result.0 result.1 }
{
    let mut decoder = Decoder::new(write);
    let stop = decode_within(&mut decoder, tail, tail.len());
    let place = stop.map(|stop| match stop {
        Stop::Paused(place) | Stop::Ended(place) => place,
    });
    (place, decoder.into_closure())
}

/// Calls a closure with the next decoded bytes of a body of base64, after what is left over, as `decode_within` does.
/// If decoding is paused, what is left over then takes the place of what was.
pub(crate) fn decode_base64_part<F, E>(
    left_over: &mut LeftOver,
    tail: &[u8],
    most: usize,
    write: &mut F,
) -> Result<Stop, DecodeError<E>>
where
    F: FnMut(&[u8]) -> Result<(), E>,
    requires { F.IsAlwaysCallable write.old }
    ensures { DecodesPartOf (CalledAt F.FnMut) write.old left_over.old tail.now most left_over.new
        result write.new }
{
    let write = |piece: &[u8]| -> Result<(), E> { write(piece) };
    let mut decoder = Decoder::resume(*left_over, write);
    let stop = decode_within(&mut decoder, tail, most);
    *left_over = decoder.left_over();
    stop
}

/// Calls a closure with a body that is not base64: its prefix, and the pieces after it. Returns the place where the
/// body ends.
pub(crate) fn decode_percent_encoded<F, E>(
    prefix: &[u8],
    mut walk: Walk<'_>,
    mut write: F,
) -> (Result<usize, DecodeError<E>>, F)
where
    F: FnMut(&[u8]) -> Result<(), E>,
    requires callable { F.IsAlwaysCallable write }
    requires prefix { IsBodyPrefix walk.text prefix.now walk }
    ensures { Decodes (CalledAt F.FnMut) write (length walk.entry.text + 1)
        (outcome false (plain_body walk.entry.text)) (IsBodyEnd walk.entry.text)
        result.0 result.1 }
{
    let most = walk.rest_len();
    match take_after(prefix, &mut walk, most, &mut write) {
        Ok(()) => (Ok(walk.end()), write),
        Err(error) => (Err(DecodeError::WriteError(error)), write),
    }
}

/// Returns a body that is not base64 in a vector, and the place in the text where it ends.
pub(crate) fn percent_encoded_to_vec(
    alloc: Global,
    tail: &[u8],
) -> Result<(Vec<u8>, usize), DecodeToVecError>
    ensures { IsBodyInVec false tail.now result }
{
    let (prefix, walk) = Walk::after_prefix(tail, tail.len());
    let mut capacity = prefix.len();
    if capacity < tail.len() && tail[capacity] != b'#' {
        capacity = capacity.max(tail.len().min(FIRST_CAPACITY));
    }
    let Ok(mut bytes) = Vec::with_capacity(alloc, capacity) else {
        return Err(DecodeToVecError::OutOfMemory);
    };
    let ended = decode_percent_encoded(prefix, walk, |piece: &[u8]| -> Result<(), AllocError> {
        bytes.extend_from_slice(piece)
    });
    match ended.0 {
        Ok(place) => Ok((bytes, place)),
        Err(error) => Err(DecodeToVecError::of(error)),
    }
}

/// Returns for how many bytes of the tail room is allocated first: for all of them if the tail is short, or if none of
/// its first bytes is marked.
fn first_len(tail: &[u8]) -> usize {
    if tail.len() <= FIRST_CAPACITY || Walk::after_prefix(tail, PROBED).0.len() == PROBED {
        return tail.len();
    }
    FIRST_CAPACITY
}

/// Gives back room that was allocated for a fragment, if there is one. It does so if the body takes less than half of
/// the room, and half of the room is more than 4 KiB, or if no byte of the body's text is marked.
fn shrink(tail: &[u8], body: &mut Vec<u8>, place: usize)
    ensures { body.new.items ≡ body.old.items }
{
    let is_large = body.capacity() / 2 > body.len().max(PROBED);
    if place < tail.len() && (is_large || Walk::after_prefix(tail, tail.len()).0.len() == place) {
        body.shrink_to(max_decoded_len(place));
    }
}

/// Returns a body of base64 in a vector, and the place in the text where it ends. Room is allocated by the length of
/// the text.
pub(crate) fn base64_to_vec(
    alloc: Global,
    tail: &[u8],
) -> Result<(Vec<u8>, usize), DecodeToVecError>
    ensures { IsBodyInVec true tail.now result }
{
    let Ok(mut bytes) = Vec::with_capacity(alloc, max_decoded_len(first_len(tail))) else {
        return Err(DecodeToVecError::OutOfMemory);
    };
    let ended = decode_base64(tail, |piece: &[u8]| -> Result<(), AllocError> {
        bytes.extend_from_slice(piece)
    });
    match ended.0 {
        Ok(place) => {
            shrink(tail, &mut bytes, place);
            Ok((bytes, place))
        }
        Err(error) => Err(DecodeToVecError::of(error)),
    }
}
