//! MIME types, as they are printed and in parts.

ghost use Rattle.data_url.specs.MimeType.{record_of};
ghost use Rattle.data_url_c.specs.Answers.{Answers};
ghost use Rattle.data_url_c.specs.{Gives.{GivesMime, GivesType, GivesTypeInParts}, Steps.{HasText}};

use crate::answer::{DataUrlAnswer, Refusal, answer, written};
use crate::url::{text_of, url_of_bytes};
use data_url::mime::{Mime, MimeFromStrError};
use data_url::parts::read_mime_type;
use std::alloc::Global;

/// The printed text of a record.
pub(crate) fn printed_of(alloc: Global, mime: &Mime) -> Result<Vec<u8>, Refusal>
    ensures { HasText (record_of mime.now) result }
{
    match format!(in alloc; "{mime}") {
        Ok(text) => Ok(text.into_bytes()),
        Err(_) => Err(Refusal::OutOfMemory),
    }
}

/// Returns the printed MIME type of the URL that bytes are.
pub(crate) fn mime(alloc: Global, url: &[u8]) -> Result<Vec<u8>, Refusal>
    ensures { GivesMime url.now result }
{
    match url_of_bytes(alloc, url) {
        Ok(url) => printed_of(alloc, url.mime_type()),
        Err(refusal) => Err(refusal),
    }
}

/// Returns the printed text of the MIME type that bytes are.
pub(crate) fn type_(alloc: Global, text: &[u8]) -> Result<Vec<u8>, Refusal>
    ensures { GivesType text.now result }
{
    let Some(text) = text_of(text) else {
        return Err(Refusal::NotUtf8);
    };
    match Mime::from_str(alloc, text) {
        Ok(mime) => printed_of(alloc, &mime),
        Err(MimeFromStrError::Parsing(_)) => Err(Refusal::NotAMimeType),
        Err(MimeFromStrError::OutOfMemory) => Err(Refusal::OutOfMemory),
    }
}

/// Writes the MIME type of a text in parts to the start of an output.
pub(crate) fn type_in_parts(alloc: Global, text: &str, out: &mut [u8]) -> DataUrlAnswer
    ensures { Answers (GivesTypeInParts text.now) out.old out.new result }
{
    match read_mime_type(alloc, text, out) {
        Ok(len) => written(len, out),
        Err(MimeFromStrError::Parsing(_)) => answer(Err(Refusal::NotAMimeType), out),
        Err(MimeFromStrError::OutOfMemory) => answer(Err(Refusal::OutOfMemory), out),
    }
}
