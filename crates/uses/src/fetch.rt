//! A fetch layer (Fetch Standard, scheme fetch of `data`): the response to a data: URL.

ghost use Rattle.uses.specs.Fetches.{Fetches, HasLength};
ghost use Rattle.uses.specs.Steps.{Opens};

use crate::body::body_len;
use data_url::forgiving_base64::{DecodeToVecError, InvalidBase64};
use data_url::{DataUrl, DataUrlError};
use std::alloc::Global;

/// The response to a request for a data: URL.
#[derive(Drop)]
pub struct Response {
    /// Always 200.
    pub status: u16,
    /// The value of the header `Content-Type`.
    pub content_type: String,
    /// The body's bytes.
    pub body: Vec<u8>,
}

/// Why a request for a data: URL ends in a network error.
#[derive(Debug, Drop)]
pub enum Reason {
    /// The text has no scheme `data:`.
    NotADataUrl,
    /// There is no comma before the fragment.
    NoComma,
    /// The body is base64 that is not valid.
    InvalidBase64(InvalidBase64),
}

/// Why there is no response.
#[derive(Debug, Drop)]
pub enum FetchError {
    /// The Standard returns a network error.
    Network(Reason),
    /// Allocation failed.
    OutOfMemory,
}

/// The URL of a text.
fn open<'a>(alloc: Global, text: &'a str) -> Result<DataUrl<'a>, FetchError>
    ensures { Opens text.entry.now result }
{
    match DataUrl::process(alloc, text) {
        Ok(url) => Ok(url),
        Err(DataUrlError::NotADataUrl) => Err(FetchError::Network(Reason::NotADataUrl)),
        Err(DataUrlError::NoComma) => Err(FetchError::Network(Reason::NoComma)),
        Err(DataUrlError::OutOfMemory) => Err(FetchError::OutOfMemory),
    }
}

/// The response to a request for a data: URL (Fetch Standard, section 6, and scheme fetch): status 200, the printed
/// MIME type and the whole body.
///
/// Returns `Network` with the reason exactly if the Standard returns a network error; a base64 body that is not valid
/// fails as a whole. Returns `OutOfMemory` if allocation fails, for a text with a scheme and a comma.
pub fn fetch(alloc: Global, text: &str) -> Result<Response, FetchError>
    ensures { Fetches text.now result }
{
    let url = match open(alloc, text) {
        Ok(url) => url,
        Err(error) => return Err(error),
    };
    let body = match url.decode_to_vec(alloc) {
        Ok((body, _)) => body,
        Err(DecodeToVecError::InvalidBase64(refusal)) => {
            return Err(FetchError::Network(Reason::InvalidBase64(refusal)));
        }
        Err(DecodeToVecError::OutOfMemory) => return Err(FetchError::OutOfMemory),
    };
    let mime = url.mime_type();
    let Ok(content_type) = format!(in alloc; "{mime}") else {
        return Err(FetchError::OutOfMemory);
    };
    Ok(Response {
        status: 200,
        content_type,
        body,
    })
}

/// Returns how many bytes the body of the response to a request for a data: URL has. The body is not kept in memory.
///
/// Returns the errors of `fetch`.
pub fn content_length(alloc: Global, text: &str) -> Result<usize, FetchError>
    ensures { HasLength text.now result }
{
    match open(alloc, text) {
        Ok(url) => match body_len(&url) {
            Ok(len) => Ok(len),
            Err(refusal) => Err(FetchError::Network(Reason::InvalidBase64(refusal))),
        },
        Err(error) => Err(error),
    }
}
