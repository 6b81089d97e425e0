//! Bodies, whole and in parts.

ghost use Rattle.std.specs.Prelude.{◌≡◌, ◌≤◌, MatchOption, length};
ghost use Rattle.data_url.specs.DataUrl.{url_body, url_tail};
ghost use Rattle.data_url_c.specs.{Answers.{Answers}, Bodies.{EndsAs, IsGoodBody, StepsBody}};
ghost use Rattle.data_url_c.specs.Gives.{GivesBody};
ghost use Rattle.data_url_c.specs.Steps.{IsBodyOf};

use crate::answer::{DataUrlAnswer, DataUrlStep, Refusal, answer, show};
use crate::base64::{DataUrlBase64, SPENT, left_over_in, state_with};
use crate::status::{BAD_STATE, DONE, MORE, OUTPUT_TOO_SMALL, status_of_details};
use crate::url::url_of;
use data_url::DataUrl;
use data_url::parts::{Body, Progress};
use std::alloc::Global;

/// Decodes the body of a URL into an output that has room for its tail.
fn decode_into(url: &DataUrl, out: &mut [u8]) -> DataUrlStep
    requires room { length (url_tail url.now) ≤ length out.old }
    ensures { EndsAs (url_body url.now) out.old out.new result.status result.len }
{
    let part = Body::new(url).next_part(out);
    let status = match part.progress {
        Progress::End(_) => DONE,
        Progress::Fault(details) => status_of_details(details),
        // The output is as long as the tail, so the body has ended.
        Progress::More(_) => unreachable!(),
    };
    DataUrlStep {
        status,
        len: part.len,
    }
}

/// Decodes the body of the URL of a text: into the output, if it has room for the tail, and otherwise into a vector.
pub(crate) fn body(alloc: Global, text: &str, out: &mut [u8]) -> DataUrlAnswer
    ensures { Answers (GivesBody text.now) out.old out.new result }
{
    let url = match url_of(alloc, text) {
        Ok(url) => url,
        Err(refusal) => return answer(Err(refusal), out),
    };
    let tail_len = Body::new(&url).tail().len();
    if tail_len <= out.len() {
        let DataUrlStep { status, len } = decode_into(&url, out);
        return DataUrlAnswer { status, len };
    }
    let Ok(mut bytes) = vec![in alloc; 0u8; tail_len] else {
        return answer(Err(Refusal::OutOfMemory), out);
    };
    let DataUrlStep { status, len } = decode_into(&url, &mut bytes);
    show(status, &bytes[..len], out)
}

/// The smallest output that a body is decoded into, in bytes.
const SMALLEST_OUTPUT: usize = 8;

/// A body in parts: where it goes on in its tail, and what is left over. It begins at 0, with nothing left over.
#[repr(C)]
#[derive(Clone, Copy)]
pub struct DataUrlBody {
    /// Where the body goes on in the tail. After status 0, where it has ended: at the `#` of the fragment, or at the
    /// end.
    pub from: usize,
    /// What is left over of base64.
    pub left: DataUrlBase64,
    /// Whether the body is base64: 0 if it is not, and any other value if it is.
    pub is_base64: u8,
}

/// Returns the body that goes on where a state says, if the state is good.
fn body_of<'a>(state: &DataUrlBody, tail: &'a [u8]) -> Option<Body<'a>>
    ensures { MatchOption result (IsGoodBody tail.entry.now state.now → ⊥)
        (IsBodyOf tail.entry.now state.now) }
{
    let left_over = match left_over_in(&state.left) {
        Some(left_over) => left_over,
        None => return None,
    };
    Body::resume(tail, state.is_base64 != 0, state.from, left_over)
}

/// Decodes the next part of a body.
pub(crate) fn next(state: &mut DataUrlBody, tail: &[u8], out: &mut [u8]) -> DataUrlStep
    ensures { StepsBody tail.now state.old state.new out.old out.new result }
{
    let Some(body) = body_of(state, tail) else {
        return DataUrlStep {
            status: BAD_STATE,
            len: 0,
        };
    };
    if out.len() < SMALLEST_OUTPUT {
        return DataUrlStep {
            status: OUTPUT_TOO_SMALL,
            len: 0,
        };
    }
    let part = body.next_part(out);
    let len = part.len;
    match part.progress {
        Progress::More(body) => {
            state.from = body.place();
            state.left = state_with(body.left_over());
            DataUrlStep { status: MORE, len }
        }
        Progress::End(place) => {
            state.from = place;
            state.left = SPENT;
            DataUrlStep { status: DONE, len }
        }
        Progress::Fault(details) => {
            state.left = SPENT;
            let status = status_of_details(details);
            DataUrlStep { status, len }
        }
    }
}
