//! data: URLs: records, bodies and fragments.

use super::recorder::{Source, fragment_text};
use super::{assert_printed, assert_same, assert_that};
use data_url::DataUrl;
use data_url::laws::{encoding_first, fragment_again};
use std::alloc::{AllocError, Global};
use std::process::Abort;
use std::test::Fail;

/// The record of a header without a valid type.
const DEFAULT: &str = "text/plain;charset=US-ASCII";

/// The message for a text without the scheme.
const NO_SCHEME: &str = "not a valid data url";

/// The message for a text without a comma.
const NO_COMMA: &str = "data url is missing comma delimiting attributes and body";

/// Texts, their printed records, the bytes of their bodies before the first fault, and the message of the error, or `#`
/// and the fragment, or nothing.
const URLS: [[&str; 4]; 10] = [
    ["data:,Hello%20World!", DEFAULT, "Hello World!", ""],
    ["data:,a%41b\tc#d e", DEFAULT, "aAbc", "#d%20e"],
    ["data:a/b;c=?x ,Y", "a/b;c=\"?x%20\"", "Y", ""],
    ["data:,#", DEFAULT, "", "#"],
    [
        "data:;charset=x;base64,Y%51%3D=#x y",
        "text/plain;charset=x",
        "a",
        "#x%20y",
    ],
    [
        "data:;base64,QUJD!",
        DEFAULT,
        "ABC",
        "base64 not valid: symbol with codepoint 33 not expected",
    ],
    [
        "data:;base64,QUJDQ#x",
        DEFAULT,
        "ABC",
        "base64 not valid: lone alphabet symbol present",
    ],
    ["da ta:,x", "", "", NO_SCHEME],
    ["date:,x", "", "", NO_SCHEME],
    ["data:#,x", "", "", NO_COMMA],
];

/// Asserts the body of a URL as a whole, and the message or the fragment after it.
pub fn assert_whole_body(
    rt: &impl Abort,
    alloc: Global,
    about: &str,
    url: &DataUrl,
    body: &[u8],
    answer: &str,
) -> Result<(), AllocError> {
    match url.decode_to_vec(alloc) {
        Ok((bytes, fragment)) => {
            assert_same(rt, about, bytes.as_slice(), body);
            let fragment = fragment_text(alloc, fragment)?;
            assert_same(rt, about, fragment.as_bytes(), answer.as_bytes());
            Ok(())
        }
        Err(error) => {
            let printed = format_args!("base64 not valid: {error}");
            assert_printed(rt, alloc, about, &printed, answer)
        }
    }
}

/// Asserts the body of a URL, by each call that decodes it, and the message or the fragment after it.
pub fn assert_body(
    rt: &impl Abort,
    alloc: Global,
    about: &str,
    url: &DataUrl,
    body: &[u8],
    answer: &str,
) -> Result<(), AllocError> {
    assert_whole_body(rt, alloc, about, url, body, answer)?;
    Source::Body(url).assert_is(rt, alloc, about, body, answer)?;
    Ok(())
}

/// Asserts the record, the body and the fragment of a text, or the message for a text that is not a data: URL.
fn assert_url(rt: &impl Abort, alloc: Global, row: [&str; 4]) -> Result<(), Fail> {
    let [text, record, body, answer] = row;
    let url = match DataUrl::process(alloc, text) {
        Ok(url) => url,
        Err(error) => {
            assert_printed(rt, alloc, text, &error, answer)?;
            return Ok(());
        }
    };
    assert_printed(rt, alloc, text, url.mime_type(), record)?;
    assert_body(rt, alloc, text, &url, body.as_bytes(), answer)?;
    Ok(())
}

/// Asserts the record, the body and the fragment of each text of a table.
fn assert_urls(rt: &impl Abort, alloc: Global, rows: &[[&str; 4]]) -> Result<(), Fail> {
    for row in rows {
        assert_url(rt, alloc, *row)?;
    }
    Ok(())
}

#[test]
fn texts(rt: HostRuntime) -> Result<(), Fail> {
    assert_urls(&rt, rt.alloc(), &URLS)
}

#[test]
fn the_record_of_an_empty_header(rt: HostRuntime) -> Result<(), Fail> {
    let url = DataUrl::process(rt.alloc(), "data:,Hello%20World!")?;
    let mime = url.mime_type();
    assert_that(&rt, "type", mime.matches("text", "plain"));
    let charset = mime.get_parameter("charset");
    assert_that(&rt, "charset", charset == Some("US-ASCII"));
    encoding_first("Hello%20World!".as_bytes());
    fragment_again("a\t`\u{e9}");
    Ok(())
}
