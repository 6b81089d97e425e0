//! Opening a URL: its MIME type, its tail and whether its body is base64, from its header.

ghost use Rattle.std.specs.Prelude.{◌≡◌, ◌-◌, Some, length};
ghost use Rattle.std.specs.List.{suffix_len};
ghost use Rattle.data_url.specs.{Fetch.{tail_of}, Url.{is_c0_control_or_space}};
ghost use Rattle.data_url_c.specs.Opens.{Opens, OpensInParts};
ghost use Rattle.data_url_c.specs.Steps.Opening.{IsRefused};

use crate::answer::{DataUrlAnswer, Refusal, answer, show, written};
use crate::mime::printed_of;
use crate::status::DONE;
use crate::url::{refusal_of, url_of};
use data_url::parts::{Body, read_header};
use std::alloc::Global;

/// What opening a URL returns.
#[repr(C)]
#[derive(Clone, Copy)]
pub struct DataUrlOpened {
    /// How the call ended: 0 if the URL was opened.
    pub status: u32,
    /// Whether the body is base64.
    pub is_base64: bool,
    /// How many bytes the MIME type has, as it is written, whether or not they fit the output.
    pub len: usize,
    /// Where the tail begins, in bytes of the URL: after its first comma.
    pub tail: usize,
    /// How many bytes the tail has.
    pub tail_len: usize,
}

/// Returns how many bytes at the end are C0 controls or spaces.
fn low_end_len(bytes: &[u8]) -> usize
    ensures { result ≡ suffix_len is_c0_control_or_space bytes.now }
{
    bytes.iter().rev().take_while(|byte| **byte <= b' ').count()
}

/// Returns the result for a text that is not a data: URL.
#[inline(always)]
pub(crate) fn refused(refusal: Refusal, out: &mut [u8]) -> DataUrlOpened
    ensures { IsRefused refusal out.old out.new result }
{
    let DataUrlAnswer { status, len } = answer(Err(refusal), out);
    DataUrlOpened {
        status,
        is_base64: false,
        len,
        tail: 0,
        tail_len: 0,
    }
}

/// Returns where the tail of a URL begins, in bytes of its text.
#[inline(always)]
fn tail_place(text: &str, tail: &[u8]) -> usize
    requires { tail_of text.now ≡ Some tail.now }
    ensures { result
        ≡ length text.now - suffix_len is_c0_control_or_space text.now - length tail.now }
{
    text.len() - low_end_len(text.as_bytes()) - tail.len()
}

/// Opens the URL of a text. Its MIME type is written as it is printed.
pub(crate) fn open(alloc: Global, text: &str, out: &mut [u8]) -> DataUrlOpened
    ensures { Opens text.now out.old out.new result }
{
    let url = match url_of(alloc, text) {
        Ok(url) => url,
        Err(refusal) => return refused(refusal, out),
    };
    let mime = match printed_of(alloc, url.mime_type()) {
        Ok(mime) => mime,
        Err(refusal) => return refused(refusal, out),
    };
    let answer = show(DONE, &mime, out);
    let body = Body::new(&url);
    DataUrlOpened {
        status: answer.status,
        is_base64: body.is_base64(),
        len: answer.len,
        tail: tail_place(text, body.tail()),
        tail_len: body.tail().len(),
    }
}

/// Opens the URL of a text. Its MIME type is written in parts. It is compiled into its one caller, so that the result
/// is not copied.
#[inline(always)]
pub(crate) fn open_in_parts(alloc: Global, text: &str, out: &mut [u8]) -> DataUrlOpened
    ensures { OpensInParts text.now out.old out.new result }
{
    let header = match read_header(alloc, text, out) {
        Ok(header) => header,
        Err(error) => return refused(refusal_of(error), out),
    };
    let answer = written(header.len, out);
    DataUrlOpened {
        status: answer.status,
        is_base64: header.base64,
        len: answer.len,
        tail: tail_place(text, header.tail.as_bytes()),
        tail_len: header.tail.len(),
    }
}
