//! MIME types, bodies, base64 and fragments in parts. Each call writes what comes next to an output that the caller
//! lends, and returns values from which the next call goes on. No closure is called. Nothing is allocated, but
//! for a header that has to be serialised and for a MIME type of more than eight parameters.
//!
//! For callers that cannot pass a closure, or that stop between two parts and go on later: a receiver that is full, a
//! reader, C.

mod base64;
mod body;
mod fragment;
mod header;
mod output;

pub use crate::forgiving_base64::{InvalidBase64Details, LeftOver};
pub use crate::mime::read_mime_type;
pub use base64::Fed;
pub use body::{Body, Part, Progress};
pub use fragment::{Encoded, encode_fragment};
pub use header::{Header, read_header};
