//! Each caller on texts that are valid and texts that are not.

use data_url::DataUrl;
use data_url::forgiving_base64::Decoder;
use data_url::mime::Mime;
use std::alloc::{AllocError, Global};
use std::io::{self, Write};
use std::process::Abort;
use std::test::Fail;
use uses::body::{append_body, body_len};
use uses::chunks::feed_chunks;
use uses::fetch::{FetchError, Reason, Response, content_length, fetch};
use uses::inliner::{Part, inline};
use uses::loader::{LoadError, load};
use uses::negotiation::best;
use uses::reader::{BodyReader, Rest};

/// Asserts a fact about a text. A call is cheaper to prove than `assert!`.
fn assert_that(rt: &impl Abort, about: &str, is_right: bool) {
    let about = about.get(..60).unwrap_or(about);
    assert!(rt; is_right, "{about}");
}

/// Asserts that bytes are as wanted.
fn assert_same(rt: &impl Abort, about: &str, found: &[u8], wanted: &[u8]) {
    assert_that(rt, about, found == wanted);
}

/// A sink that has room for a number of bytes, takes one at a time, and then fails.
#[derive(Drop)]
struct FailingSink {
    taken: Vec<u8>,
    room: usize,
}

impl Write for FailingSink {
    fn write(&mut self, buf: &[u8]) -> io::Result<usize> {
        if self.room == 0 || buf.is_empty() {
            return Err(io::Error::from(io::ErrorKind::Other));
        }
        self.room -= 1;
        self.taken.push(buf[0])?;
        Ok(1)
    }

    fn flush(&mut self) -> io::Result<()> {
        Ok(())
    }
}

/// Returns whether a URL's body has a length, and whether it is this one.
fn has_len(url: &DataUrl, len: usize) -> (bool, bool) {
    match body_len(url) {
        Ok(found) => (true, found == len),
        Err(_) => (false, false),
    }
}

/// Returns whether a URL's body is appended.
fn is_appended(url: &DataUrl, bytes: &mut Vec<u8>) -> bool {
    append_body(url, bytes).is_ok()
}

/// Asserts the length of a URL's body, and what is appended.
fn assert_body(rt: &impl Abort, alloc: Global, text: &str, body: &[u8]) -> Result<(), Fail> {
    let url = DataUrl::process(alloc, text)?;
    assert_that(rt, text, has_len(&url, body.len()).1);
    let mut bytes = Vec::new(alloc);
    assert_that(rt, text, is_appended(&url, &mut bytes));
    assert_same(rt, text, bytes.as_slice(), body);
    Ok(())
}

#[test]
fn bodies_are_counted_and_appended(rt: HostRuntime) -> Result<(), Fail> {
    assert_body(&rt, rt.alloc(), "data:,Hello%20World!", b"Hello World!")?;
    let text = "data:;charset=x;base64,Y%51%3D=#x y";
    assert_body(&rt, rt.alloc(), text, b"a")?;
    assert_body(&rt, rt.alloc(), "data:,", b"")
}

#[test]
fn a_body_with_a_fault(rt: HostRuntime) -> Result<(), Fail> {
    let text = "data:;base64,QUJD!";
    let url = DataUrl::process(rt.alloc(), text)?;
    assert_that(&rt, text, !has_len(&url, 0).0);
    let mut bytes = Vec::new(rt.alloc());
    bytes.push(b'x')?;
    assert_that(&rt, text, !is_appended(&url, &mut bytes));
    assert_same(&rt, text, bytes.as_slice(), b"xABC");
    Ok(())
}

/// Reads a URL's body with an output of some bytes, again and again, and appends what is written. Returns what is
/// left of the body.
fn read_with<'a>(
    url: &DataUrl<'a>,
    output: &mut [u8],
    bytes: &mut Vec<u8>,
) -> Result<Rest<'a>, Fail> {
    let mut reader = BodyReader::new(url);
    for _ in 0..99 {
        if !matches!(reader.rest(), Rest::More(_)) {
            return Ok(reader.rest());
        }
        let len = reader.fill(output);
        bytes.extend_from_slice(&output[..len])?;
    }
    Ok(reader.rest())
}

/// Asserts what is read of a URL's body with outputs of 4, 5 and 64 bytes, and whether it is valid.
fn assert_read(
    rt: &impl Abort,
    alloc: Global,
    text: &str,
    is_valid: bool,
    wanted: &[u8],
) -> Result<(), Fail> {
    let url = DataUrl::process(alloc, text)?;
    let mut output = [0; 64];
    for size in [4, 5, 64] {
        let mut bytes = Vec::new(alloc);
        let rest = read_with(&url, &mut output[..size], &mut bytes)?;
        assert_that(rt, text, matches!(rest, Rest::Ended) == is_valid);
        assert_that(rt, text, matches!(rest, Rest::Faulty(_)) != is_valid);
        assert_same(rt, text, bytes.as_slice(), wanted);
    }
    Ok(())
}

#[test]
fn a_body_is_read_with_outputs_of_any_size(rt: HostRuntime) -> Result<(), Fail> {
    let text = "data:,Hello%20%0AWo\trld%21#x";
    assert_read(&rt, rt.alloc(), text, true, b"Hello \nWorld!")?;
    let text = "data:;base64,SGVs%62G8g V29ybGQh#x";
    assert_read(&rt, rt.alloc(), text, true, b"Hello World!")?;
    assert_read(&rt, rt.alloc(), "data:,", true, b"")?;
    assert_read(&rt, rt.alloc(), "data:;base64,QUJDQUJD!", false, b"ABCABC")
}

/// Feeds chunks, and returns whether they are all taken, and whether the decoder has failed.
fn feed(chunks: &[&[u8]], bytes: &mut Vec<u8>) -> (bool, bool) {
    let mut decoder = Decoder::new(|piece: &[u8]| -> Result<(), AllocError> {
        bytes.extend_from_slice(piece)
    });
    let is_fed = feed_chunks(&mut decoder, chunks);
    let has_failed = decoder.has_failed();
    let _closure = decoder.into_closure();
    (is_fed, has_failed)
}

/// Asserts whether chunks are all taken, and their bytes before the first fault.
fn assert_fed(rt: &impl Abort, alloc: Global, chunks: &[&[u8]], is_valid: bool, decoded: &[u8]) {
    let mut bytes = Vec::new(alloc);
    let (is_fed, has_failed) = feed(chunks, &mut bytes);
    assert_that(rt, "chunks", is_fed == is_valid && has_failed != is_valid);
    assert_same(rt, "chunks", bytes.as_slice(), decoded);
}

#[test]
fn chunks_are_fed_up_to_a_fault(rt: HostRuntime) {
    assert_fed(
        &rt,
        rt.alloc(),
        &[b"QU".as_slice(), b"JD", b"QUI"],
        true,
        b"ABC",
    );
    assert_fed(
        &rt,
        rt.alloc(),
        &[b"QUJD".as_slice(), b"Q!", b"QUJD"],
        false,
        b"ABC",
    );
    assert_fed(
        &rt,
        rt.alloc(),
        &[b"QUJD=".as_slice(), b"QUJD", b"QUJD"],
        false,
        b"ABC",
    );
    assert_fed(&rt, rt.alloc(), &[b"".as_slice(), b"", b""], true, b"");
}

#[test]
fn a_resource_within_its_limit(rt: HostRuntime) -> Result<(), Fail> {
    let mut sink = Vec::new(rt.alloc());
    let text = "data:A/B;C=D,Hello%20World!";
    let Ok(mime) = load(rt.alloc(), text, 12, &mut sink) else {
        panic!(rt; "not loaded");
    };
    assert_that(&rt, text, mime.matches("a", "b"));
    assert_that(&rt, text, mime.get_parameter("c") == Some("D"));
    assert_same(&rt, text, sink.as_slice(), b"Hello World!");
    Ok(())
}

/// Loads a text, and returns the name of the error, or nothing if it is loaded.
fn refused<W: Write>(alloc: Global, text: &str, limit: usize, sink: &mut W) -> &'static str {
    match load(alloc, text, limit, sink) {
        Ok(_) => "",
        Err(LoadError::NotADataUrl) => "not a data: URL",
        Err(LoadError::NoComma) => "no comma",
        Err(LoadError::InvalidBase64(_)) => "invalid base64",
        Err(LoadError::OverLimit) => "over the limit",
        Err(LoadError::SinkFailed) => "the sink failed",
        Err(LoadError::OutOfMemory) => "out of memory",
    }
}

/// Asserts that a body is over its limit, and how many bytes are written at most.
fn assert_over_limit(rt: &impl Abort, alloc: Global, text: &str, limit: usize) {
    let mut sink = Vec::new(alloc);
    let error = refused(alloc, text, limit, &mut sink);
    assert_that(rt, text, error == "over the limit" && sink.len() <= limit);
}

#[test]
fn a_resource_over_its_limit(rt: HostRuntime) {
    assert_over_limit(&rt, rt.alloc(), "data:,Hello%20World!", 11);
    assert_over_limit(&rt, rt.alloc(), "data:;base64,QUJDQUJD", 5);
}

/// Asserts why a text is not loaded, and what was written.
fn assert_not_loaded(rt: &impl Abort, alloc: Global, text: &str, error: &str, written: &[u8]) {
    let mut sink = Vec::new(alloc);
    assert_that(rt, text, refused(alloc, text, 9, &mut sink) == error);
    assert_same(rt, text, sink.as_slice(), written);
}

#[test]
fn texts_that_are_not_loaded(rt: HostRuntime) {
    assert_not_loaded(&rt, rt.alloc(), "date:,x", "not a data: URL", b"");
    assert_not_loaded(&rt, rt.alloc(), "data:#,x", "no comma", b"");
    let text = "data:;base64,QUJD!";
    assert_not_loaded(&rt, rt.alloc(), text, "invalid base64", b"ABC");
}

#[test]
fn a_sink_that_fails(rt: HostRuntime) -> Result<(), Fail> {
    let text = "data:,Hello%20World!";
    for room in 0..12 {
        let mut sink = FailingSink {
            taken: Vec::new(rt.alloc()),
            room,
        };
        let error = refused(rt.alloc(), text, 99, &mut sink);
        assert_that(&rt, text, error == "the sink failed");
        assert_same(&rt, text, sink.taken.as_slice(), &b"Hello World!"[..room]);
    }
    Ok(())
}

/// The type of a URL whose header has none.
const DEFAULT: &str = "text/plain;charset=US-ASCII";

/// Asserts the response to a text, and the length of its body.
fn assert_response(rt: &impl Abort, alloc: Global, text: &str, type_: &str, body: &[u8]) {
    let Ok(response) = fetch(alloc, text) else {
        panic!(rt; "not fetched");
    };
    let content_type = response.content_type.as_bytes();
    assert_that(rt, text, response.status == 200);
    assert_same(rt, text, content_type, type_.as_bytes());
    assert_same(rt, text, response.body.as_slice(), body);
    assert_that(rt, text, is_content_length(alloc, text, body.len()));
}

/// Returns whether a text has a content length, and it is this one.
fn is_content_length(alloc: Global, text: &str, wanted: usize) -> bool {
    matches!(content_length(alloc, text), Ok(len) if len == wanted)
}

#[test]
fn responses(rt: HostRuntime) {
    assert_response(
        &rt,
        rt.alloc(),
        "data:,Hello%20World!",
        DEFAULT,
        b"Hello World!",
    );
    let text = "data:;charset=x;base64,Y%51%3D=#x y";
    assert_response(&rt, rt.alloc(), text, "text/plain;charset=x", b"a");
    let text = "data:a/b;c=\"d e\",Y";
    assert_response(&rt, rt.alloc(), text, "a/b;c=\"d e\"", b"Y");
}

/// Fetches a text, and returns the name of the error, or nothing if it is fetched.
fn network_error(alloc: Global, text: &str) -> &'static str {
    match fetch(alloc, text) {
        Ok(_) => "",
        Err(FetchError::Network(Reason::NotADataUrl)) => "not a data: URL",
        Err(FetchError::Network(Reason::NoComma)) => "no comma",
        Err(FetchError::Network(Reason::InvalidBase64(_))) => "invalid base64",
        Err(FetchError::OutOfMemory) => "out of memory",
    }
}

#[test]
fn network_errors(rt: HostRuntime) {
    let error = network_error(rt.alloc(), "da ta:,x");
    assert_that(&rt, "da ta:,x", error == "not a data: URL");
    let error = network_error(rt.alloc(), "data:#,x");
    assert_that(&rt, "data:#,x", error == "no comma");
    let error = network_error(rt.alloc(), "data:;base64,=");
    assert_that(&rt, "data:;base64,=", error == "invalid base64");
}

/// Returns the records of texts.
fn records_of(alloc: Global, texts: &[&str; 4]) -> Result<Vec<Mime>, Fail> {
    let mut records = Vec::new(alloc);
    for text in texts {
        records.push(Mime::from_str(alloc, text)?)?;
    }
    Ok(records)
}

/// Returns the place of the best of the accepted types for this one.
fn place_of(alloc: Global, accepted: &[Mime], text: &str) -> Result<Option<usize>, Fail> {
    let mime = Mime::from_str(alloc, text)?;
    Ok(best(accepted, &mime))
}

/// Asserts the place of the best of four accepted types, for each type of a table.
fn assert_best(
    rt: &impl Abort,
    alloc: Global,
    texts: &[&str; 4],
    rows: &[(&str, Option<usize>)],
) -> Result<(), Fail> {
    let accepted = records_of(alloc, texts)?;
    for (text, place) in rows {
        let found = place_of(alloc, accepted.as_slice(), text)?;
        assert_that(rt, text, found == *place);
    }
    Ok(())
}

#[test]
fn the_best_accepted_type(rt: HostRuntime) -> Result<(), Fail> {
    let texts = ["*/*", "text/*", "text/plain", "text/plain;format=flowed"];
    let rows = [
        ("text/plain;format=flowed", Some(3)),
        ("TEXT/plain;charset=x", Some(2)),
        ("text/html", Some(1)),
        ("image/png", Some(0)),
    ];
    assert_best(&rt, rt.alloc(), &texts, &rows)
}

#[test]
fn the_first_of_equals_or_none(rt: HostRuntime) -> Result<(), Fail> {
    let texts = ["text/html;a=b", "image/*", "image/*", "text/html;c=d"];
    let rows = [("image/png", Some(1)), ("text/html", None)];
    assert_best(&rt, rt.alloc(), &texts, &rows)
}

/// Writes a resource: its text, its type and its body.
fn write_inlined(
    alloc: Global,
    all: &mut Vec<u8>,
    text: &str,
    response: &Response,
) -> Result<(), AllocError> {
    let front = format!(in alloc; "[{text}, {}, ", response.content_type)?;
    all.extend_from_slice(front.as_bytes())?;
    all.extend_from_slice(response.body.as_slice())?;
    all.extend_from_slice(b"]")
}

/// Writes the part of a page: its text, a resource in brackets, with its type and body, or a refused reference in
/// parentheses, with the reason.
fn write_part(alloc: Global, all: &mut Vec<u8>, part: &Part) -> Result<(), AllocError> {
    match part {
        Part::Text(text) => all.extend_from_slice(text.as_bytes()),
        Part::Inlined(text, response) => write_inlined(alloc, all, text, response),
        Part::Refused(text, reason) => {
            let whole = format!(in alloc; "({text}, {reason:?})")?;
            all.extend_from_slice(whole.as_bytes())
        }
    }
}

/// Returns the parts of a page as they are written one after another.
fn written(alloc: Global, parts: &[Part]) -> Result<Vec<u8>, AllocError> {
    let mut all = Vec::new(alloc);
    for part in parts {
        write_part(alloc, &mut all, part)?;
    }
    Ok(all)
}

/// Asserts the parts of a page, as they are written one after another.
fn assert_parts(
    rt: &impl Abort,
    alloc: Global,
    page: &str,
    count: usize,
    wanted: &[u8],
) -> Result<(), Fail> {
    let parts = inline(alloc, page)?;
    assert_that(rt, page, parts.len() == count);
    let all = written(alloc, parts.as_slice())?;
    assert_same(rt, page, all.as_slice(), wanted);
    Ok(())
}

#[test]
fn a_page_with_references(rt: HostRuntime) -> Result<(), Fail> {
    let page = "<img src=\"data:image/png;base64,QUJD\"><a href=\"data:x\">\u{e9}";
    let wanted =
        "<img src=\"[data:image/png;base64,QUJD, image/png, ABC]\"><a href=\"(data:x, NoComma)\">\u{e9}";
    assert_parts(&rt, rt.alloc(), page, 5, wanted.as_bytes())
}

/// Asserts that each page of a table is one part.
fn assert_plain(rt: &impl Abort, alloc: Global, pages: &[&str]) -> Result<(), Fail> {
    for page in pages {
        assert_parts(rt, alloc, page, 1, page.as_bytes())?;
    }
    Ok(())
}

#[test]
fn a_page_without_references(rt: HostRuntime) -> Result<(), Fail> {
    let pages = ["", "src=\"http:x\"", "src=\"data:,x", "src='data:,x'\""];
    assert_plain(&rt, rt.alloc(), &pages)
}
