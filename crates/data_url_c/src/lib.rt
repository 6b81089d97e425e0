//! The functions of `data_url` for C and for languages that call C. They read a data: URL, a MIME type or base64, and
//! write the result to an output that the caller owns. `bindings/rust/include/data_url.h` declares them.
//!
//! A slice is passed as a pointer, which is not null, and a length; `Global` is not passed. The bytes may be any bytes.
//! Each function returns a status and a length:
//!
//! | Status | Meaning | Length |
//! |---|---|---|
//! | 0 | success | of the result, which is at the start of the output |
//! | 1 | no scheme `data:` | 0 |
//! | 2 | no comma before the fragment | 0 |
//! | 3 | allocation failed | 0 |
//! | 4 | the text is not UTF-8 | 0 |
//! | 5 | the output is too small, and unchanged | that is needed; 0 from those whose names end in `_next` or `_feed` |
//! | 6 | the text is not a MIME type | 0 |
//! | 7 | the URL has no fragment | 0 |
//! | 8 | base64 with padding that does not fit | of the bytes before the fault, at the start of the output |
//! | 9 | base64 with a lone symbol | the same |
//! | 10 | base64 with a symbol after padding | the same |
//! | 256 and a byte | base64 with that unexpected byte | the same |
//! | 11 | the body or fragment goes on (from `_next`) | of the part that was written |
//! | 12 | a state that is not good, or whose text has ended | 0 |
//!
//! The output after the bytes of a result is unchanged; if the length is 0, all of it is.
//!
//! How often each function allocates for a short text, whose MIME type has no parameter or one:
//!
//! | Function | Allocations | With a parameter |
//! |---|---|---|
//! | those whose names end in `_next`, `_feed` or `_finish` | 0, for any text | |
//! | `dataurl_open_parts`, `dataurl_type_parts`, and with `_utf8` | 0, up to eight parameters | 0 |
//! | `dataurl_base64` | 1 | |
//! | `dataurl_body` into a large output | 2 | 5 |
//! | the others | 3 | 6 |
//!
//! A header with a `?`, a tab, a newline or a byte to percent-encode takes one more. Without a MIME type it counts as
//! one with a parameter.
#![tactic(auto)]

ghost use Rattle.std.specs.Prelude.{IsUtf8};
ghost use Rattle.data_url_c.specs.Answers.{Answers};
ghost use Rattle.data_url_c.specs.Bodies.{StepsBody};
ghost use Rattle.data_url_c.specs.Gives.{GivesBase64, GivesBody, GivesFragment, GivesMime};
ghost use Rattle.data_url_c.specs.Gives.{GivesType, GivesTypeInParts};
ghost use Rattle.data_url_c.specs.Opens.{Opens, OpensInParts};
ghost use Rattle.data_url_c.specs.Parts.{EncodesFragment, FeedsPart, FinishesPart};

mod answer;
mod base64;
mod body;
mod fragment;
mod mime;
mod open;
mod status;
mod url;

use answer::answer;
pub use answer::{DataUrlAnswer, DataUrlFed, DataUrlStep, Refusal};
pub use base64::DataUrlBase64;
pub use body::DataUrlBody;
pub use open::DataUrlOpened;
use std::alloc::Global;

/// The body of a data: URL ([Fetch Standard, section 6](https://fetch.spec.whatwg.org/#data-url-processor)). If its
/// base64 is not valid, the output has the bytes before the first fault. If the output is at least as long as the text
/// after the comma, the body is decoded straight into it, and otherwise into a vector first.
#[unsafe(no_mangle)]
pub extern "C" fn dataurl_body(alloc: Global, url: &[u8], out: &mut [u8]) -> DataUrlAnswer
    ensures { Answers (GivesBody url.now) out.old out.new result }
{
    match url::text_of(url) {
        Some(text) => body::body(alloc, text, out),
        None => answer(Err(Refusal::NotUtf8), out),
    }
}

/// The MIME type of a data: URL, as it is printed
/// ([MIME Sniffing Standard, section 4.5](https://mimesniff.spec.whatwg.org/#serializing-a-mime-type)). Its body is not
/// decoded.
#[unsafe(no_mangle)]
pub extern "C" fn dataurl_mime(alloc: Global, url: &[u8], out: &mut [u8]) -> DataUrlAnswer
    ensures { Answers (GivesMime url.now) out.old out.new result }
{
    answer(mime::mime(alloc, url), out)
}

/// The fragment of a data: URL, percent-encoded
/// ([URL Standard, section 4.4, fragment state](https://url.spec.whatwg.org/#fragment-state)). If the body is base64
/// that is not valid, there is no fragment, and nothing is written to the output.
#[unsafe(no_mangle)]
pub extern "C" fn dataurl_fragment(alloc: Global, url: &[u8], out: &mut [u8]) -> DataUrlAnswer
    ensures { Answers (GivesFragment url.now) out.old out.new result }
{
    answer(fragment::fragment(alloc, url), out)
}

/// A MIME type, parsed and printed
/// ([MIME Sniffing Standard, sections 4.4 and 4.5](https://mimesniff.spec.whatwg.org/#parsing-a-mime-type)).
#[unsafe(no_mangle)]
pub extern "C" fn dataurl_type(alloc: Global, text: &[u8], out: &mut [u8]) -> DataUrlAnswer
    ensures { Answers (GivesType text.now) out.old out.new result }
{
    answer(mime::type_(alloc, text), out)
}

/// A MIME type, parsed ([MIME Sniffing Standard, section
/// 4.4](https://mimesniff.spec.whatwg.org/#parsing-a-mime-type)), in parts: the type, the subtype, and the name and
/// the value of each parameter. Each part comes after its length, which takes eight bytes, the lowest first.
#[unsafe(no_mangle)]
pub extern "C" fn dataurl_type_parts(alloc: Global, text: &[u8], out: &mut [u8]) -> DataUrlAnswer
    ensures { Answers (GivesTypeInParts text.now) out.old out.new result }
{
    match url::text_of(text) {
        Some(text) => mime::type_in_parts(alloc, text, out),
        None => answer(Err(Refusal::NotUtf8), out),
    }
}

/// A MIME type, parsed, in parts as from `dataurl_type_parts`. The text is UTF-8, and is not checked.
#[unsafe(no_mangle)]
pub extern "C" fn dataurl_type_parts_utf8(
    alloc: Global,
    text: &[u8],
    out: &mut [u8],
) -> DataUrlAnswer
    requires { IsUtf8 text.now }
    ensures { Answers (GivesTypeInParts text.now) out.old out.new result }
{
    mime::type_in_parts(alloc, unsafe { str::from_utf8_unchecked(text) }, out)
}

/// Decodes base64
/// ([Infra Standard, forgiving-base64 decode](https://infra.spec.whatwg.org/#forgiving-base64-decode)). If it is not
/// valid, the output has the bytes before the first fault. The text may be any bytes.
#[unsafe(no_mangle)]
pub extern "C" fn dataurl_base64(alloc: Global, text: &[u8], out: &mut [u8]) -> DataUrlAnswer
    ensures { Answers (GivesBase64 text.now) out.old out.new result }
{
    answer(base64::base64(alloc, text), out)
}

/// Opens a data: URL ([Fetch Standard, section 6](https://fetch.spec.whatwg.org/#data-url-processor)): its printed
/// MIME type, where its tail begins, and whether its body is base64. The body is not decoded.
#[unsafe(no_mangle)]
pub extern "C" fn dataurl_open(alloc: Global, url: &[u8], out: &mut [u8]) -> DataUrlOpened
    ensures { Opens url.now out.old out.new result }
{
    match url::text_of(url) {
        Some(text) => open::open(alloc, text, out),
        None => open::refused(Refusal::NotUtf8, out),
    }
}

/// Opens a data: URL that is known to be UTF-8. Of its body at most the end is read, to remove C0 controls and spaces.
#[unsafe(no_mangle)]
pub extern "C" fn dataurl_open_utf8(alloc: Global, url: &[u8], out: &mut [u8]) -> DataUrlOpened
    requires { IsUtf8 url.now }
    ensures { Opens url.now out.old out.new result }
{
    open::open(alloc, unsafe { str::from_utf8_unchecked(url) }, out)
}

/// Opens a data: URL as `dataurl_open` does, but writes its MIME type in parts, as `dataurl_type_parts` does.
#[unsafe(no_mangle)]
pub extern "C" fn dataurl_open_parts(alloc: Global, url: &[u8], out: &mut [u8]) -> DataUrlOpened
    ensures { OpensInParts url.now out.old out.new result }
{
    match url::text_of(url) {
        Some(text) => dataurl_open_parts_utf8(alloc, text.as_bytes(), out),
        None => open::refused(Refusal::NotUtf8, out),
    }
}

/// Opens a data: URL as `dataurl_open_parts` does. The URL is UTF-8, and is not checked.
#[unsafe(no_mangle)]
pub extern "C" fn dataurl_open_parts_utf8(
    alloc: Global,
    url: &[u8],
    out: &mut [u8],
) -> DataUrlOpened
    requires { IsUtf8 url.now }
    ensures { OpensInParts url.now out.old out.new result }
{
    open::open_in_parts(alloc, unsafe { str::from_utf8_unchecked(url) }, out)
}

/// Feeds a part of base64 ([Infra Standard, forgiving-base64
/// decode](https://infra.spec.whatwg.org/#forgiving-base64-decode)), cut anywhere, and writes the bytes of the groups
/// that it completes. It reads the whole part if that has at most three bytes less than the output, and otherwise at
/// least one byte. After a fault, calls reject the state.
#[unsafe(no_mangle)]
pub extern "C" fn dataurl_base64_feed(
    state: &mut DataUrlBase64,
    input: &[u8],
    out: &mut [u8],
) -> DataUrlFed
    ensures { FeedsPart state.old state.new input.now out.old out.new result }
{
    base64::feed(state, input, out)
}

/// Ends base64 that was fed in parts, and writes its last bytes, of which there are at most two. After that, calls
/// reject the state; but if the output has no room for the last bytes, the state is unchanged.
#[unsafe(no_mangle)]
pub extern "C" fn dataurl_base64_finish(state: &mut DataUrlBase64, out: &mut [u8]) -> DataUrlStep
    ensures { FinishesPart state.old state.new out.old out.new result }
{
    base64::finish(state, out)
}

/// Decodes the next part of a body into the output, without allocation ([Fetch Standard, section
/// 6](https://fetch.spec.whatwg.org/#data-url-processor)). The state begins with `from` at 0 and nothing left over.
/// Each call is passed the same tail, which may be any bytes. While the status is 11, the body goes on. With status 0
/// it has ended, and `from` is the place of the `#` before the fragment, or the length of the tail.
#[unsafe(no_mangle)]
pub extern "C" fn dataurl_body_next(
    state: &mut DataUrlBody,
    tail: &[u8],
    out: &mut [u8],
) -> DataUrlStep
    ensures { StepsBody tail.now state.old state.new out.old out.new result }
{
    body::next(state, tail, out)
}

/// Percent-encodes the start of a fragment into the output, without allocation
/// ([URL Standard, section 4.4, fragment state](https://url.spec.whatwg.org/#fragment-state)). The text is what follows
/// the `#`, and may be any bytes. Returns how many bytes were read and written, with status 0 if the whole text was
/// read. With status 11 the fragment goes on: encode what is left of the text next. The output needs three bytes: with
/// fewer, the status is 5, and nothing is read or written.
#[unsafe(no_mangle)]
pub extern "C" fn dataurl_fragment_next(text: &[u8], out: &mut [u8]) -> DataUrlFed
    ensures { EncodesFragment text.now out.old out.new result }
{
    fragment::next(text, out)
}
