//! Base64, whole and in parts: a text that comes in pieces, cut anywhere, decoded into an output.

ghost use Rattle.std.specs.Prelude.{◌≡◌, List, MatchOption, ℕ, false};
ghost use Rattle.std.specs.Fn.{CalledAt};
ghost use Rattle.data_url.{proofs.api.{DecodesText}, specs.Parts.{IsFed}};
ghost use Rattle.data_url_c.specs.{Gives.{GivesBase64}, Parts.{FeedsPart, FinishesPart, is_good_state}};
ghost use Rattle.data_url_c.specs.Steps.{HoldsLeft, IsKept};

use crate::answer::{DataUrlFed, DataUrlStep, Refusal};
use crate::status::{BAD_STATE, DONE, OUTPUT_TOO_SMALL, status_of_details};
use data_url::forgiving_base64::{DecodeError, Decoder};
use data_url::parts::{Fed, InvalidBase64Details, LeftOver};
use std::alloc::{AllocError, Global};

/// Calls a closure with the bytes of a whole text of base64. Returns the closure as well.
fn decode_text<F, E>(text: &[u8], answer: &mut Result<(), DecodeError<E>>, write: F) -> F
where
    F: FnMut(&[u8]) -> Result<(), E>,
    E: Drop,
    requires { F.IsAlwaysCallable write }
    ensures { DecodesText (CalledAt F.FnMut) write text.now answer.new result }
{
    let mut decoder = Decoder::new(write);
    match decoder.feed(text) {
        Ok(()) => {
            let (ended, write) = decoder.finish_with();
            *answer = ended;
            write
        }
        Err(error) => {
            *answer = Err(error);
            decoder.into_closure()
        }
    }
}

/// Decodes a text of base64. If it is not valid, returns the fault and the bytes before it.
pub(crate) fn base64(alloc: Global, text: &[u8]) -> Result<Vec<u8>, Refusal>
    ensures { GivesBase64 text.now result }
{
    let mut bytes = Vec::new(alloc);
    let mut answer = Ok(());
    decode_text(
        text,
        &mut answer,
        |piece: &[u8]| -> Result<(), AllocError> { bytes.extend_from_slice(piece) },
    );
    match answer {
        Ok(()) => Ok(bytes),
        Err(DecodeError::InvalidBase64(refusal)) => Err(Refusal::InvalidBase64(refusal, bytes)),
        Err(DecodeError::WriteError(AllocError)) => Err(Refusal::OutOfMemory),
    }
}

/// The smallest output that base64 is fed to: the bytes of what is left over and of one byte of the text always fit.
const SMALLEST_OUTPUT: usize = 4;

/// Base64 in parts: what is left over for the next part. It begins as all zeros.
#[repr(C)]
#[derive(Clone, Copy)]
pub struct DataUrlBase64 {
    /// The symbols that are left over: the first `pending` of these.
    pub symbols: [u8; 3],
    /// How many symbols are left over.
    pub pending: u8,
    /// The number of `=` so far, where 3 means 3 or more.
    pub padding: u8,
}

/// A state that every later call rejects.
pub(crate) const SPENT: DataUrlBase64 = DataUrlBase64 {
    symbols: [0; 3],
    pending: 255,
    padding: 0,
};

/// Returns what is left over in a state, if the state is good.
#[tactic(auto, using(crate::proofs::BodyLemmas::left_in_parts))]
pub(crate) fn left_over_in(state: &DataUrlBase64) -> Option<LeftOver>
    ensures { MatchOption result (is_good_state state.now ≡ false) (HoldsLeft state.now) }
{
    let symbols = state.symbols;
    LeftOver::from_parts(symbols, usize::from(state.pending), state.padding)
}

/// Returns the state with this left over.
#[tactic(auto, using(crate::proofs::BodyLemmas::left_in_parts))]
pub(crate) fn state_with(left_over: LeftOver) -> DataUrlBase64
    ensures { HoldsLeft result left_over }
{
    let (symbols, pending, padding) = left_over.into_parts();
    let pending = pending as u8;
    DataUrlBase64 {
        symbols,
        pending,
        padding,
    }
}

/// Keeps in a state what a text leaves over, or after a fault that later calls reject it. Returns the status.
fn keep(state: &mut DataUrlBase64, left_over: Result<LeftOver, InvalidBase64Details>) -> u32
    ensures { (u : List ℕ) → IsFed u left_over → IsKept u state.new result }
{
    match left_over {
        Ok(left_over) => {
            *state = state_with(left_over);
            DONE
        }
        Err(details) => {
            *state = SPENT;
            status_of_details(details)
        }
    }
}

/// Feeds a part of a text. If the output is too small for the whole part, reads a part of it.
pub(crate) fn feed(state: &mut DataUrlBase64, input: &[u8], out: &mut [u8]) -> DataUrlFed
    ensures { FeedsPart state.old state.new input.now out.old out.new result }
{
    let Some(left_over) = left_over_in(state) else {
        return DataUrlFed {
            status: BAD_STATE,
            len: 0,
            read: 0,
        };
    };
    if out.len() < SMALLEST_OUTPUT {
        return DataUrlFed {
            status: OUTPUT_TOO_SMALL,
            len: 0,
            read: 0,
        };
    }
    let Fed {
        read,
        len,
        left_over,
    } = left_over.feed(input, out);
    let status = keep(state, left_over);
    DataUrlFed { status, len, read }
}

/// Ends a text.
pub(crate) fn finish(state: &mut DataUrlBase64, out: &mut [u8]) -> DataUrlStep
    ensures { FinishesPart state.old state.new out.old out.new result }
{
    let Some(left_over) = left_over_in(state) else {
        return DataUrlStep {
            status: BAD_STATE,
            len: 0,
        };
    };
    let mut bytes = [0; 2];
    let len = match left_over.finish(&mut bytes) {
        Ok(len) => len,
        Err(details) => {
            *state = SPENT;
            let status = status_of_details(details);
            return DataUrlStep { status, len: 0 };
        }
    };
    if len > out.len() {
        return DataUrlStep {
            status: OUTPUT_TOO_SMALL,
            len,
        };
    }
    out[..len].copy_from_slice(&bytes[..len]);
    *state = SPENT;
    DataUrlStep { status: DONE, len }
}
