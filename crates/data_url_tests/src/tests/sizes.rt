//! Texts of many sizes. There is memory for all of them, so no call may say that there is none.

use super::urls::assert_whole_body;
use super::{assert_printed, assert_same, assert_that};
use data_url::DataUrl;
use data_url::forgiving_base64::decode_to_vec;
use data_url::mime::Mime;
use std::alloc::Global;
use std::process::Abort;
use std::test::Fail;

/// The greatest size is two to this power.
const MOST: u32 = 20;

/// Asserts the record, the body and the fragment of a URL with `count` letters in each.
fn assert_plain(rt: &impl Abort, alloc: Global, count: usize) -> Result<(), Fail> {
    let value = "d".repeat(alloc, count)?;
    let body = "e".repeat(alloc, count)?;
    let fragment = "f".repeat(alloc, count)?;
    let text = format!(in alloc; "data:a/b;c={value},{body}#{fragment}")?;
    let url = DataUrl::process(alloc, text.as_str())?;
    let record = format!(in alloc; "a/b;c={value}")?;
    assert_printed(rt, alloc, "record", url.mime_type(), record.as_str())?;
    let answer = format!(in alloc; "#{fragment}")?;
    assert_whole_body(rt, alloc, "body", &url, body.as_bytes(), answer.as_str())?;
    Ok(())
}

/// Asserts the record of a URL whose header has to be encoded: `count` letters that are not ASCII are in its path, and
/// as many in its query.
fn assert_encoded_header(rt: &impl Abort, alloc: Global, count: usize) -> Result<(), Fail> {
    let letters = "\u{e9}".repeat(alloc, count)?;
    let encoded = "%C3%A9".repeat(alloc, count)?;
    let text = format!(in alloc; "data:a/b;c={letters} ?{letters} ,e")?;
    let url = DataUrl::process(alloc, text.as_str())?;
    let record = format!(in alloc; "a/b;c=\"{encoded}%20?{encoded}%20\"")?;
    assert_printed(rt, alloc, "header", url.mime_type(), record.as_str())?;
    assert_whole_body(rt, alloc, "body", &url, b"e", "")?;
    Ok(())
}

/// Asserts the bytes of `count` groups, as the body of a URL and as a text.
fn assert_base64(rt: &impl Abort, alloc: Global, count: usize) -> Result<(), Fail> {
    let symbols = "QUJD".repeat(alloc, count)?;
    let bytes = "ABC".repeat(alloc, count)?;
    let text = format!(in alloc; "data:;base64,{symbols}")?;
    let url = DataUrl::process(alloc, text.as_str())?;
    assert_whole_body(rt, alloc, "base64", &url, bytes.as_bytes(), "")?;
    let found = decode_to_vec(alloc, symbols.as_bytes())?;
    assert_same(rt, "text", found.as_slice(), bytes.as_bytes());
    Ok(())
}

/// Asserts a MIME type with a value of `count` letters, and one with a type of `count` letters. Both are printed and
/// cloned.
fn assert_mime(rt: &impl Abort, alloc: Global, count: usize) -> Result<(), Fail> {
    let letters = "d".repeat(alloc, count)?;
    let text = format!(in alloc; "a/b;c={letters}")?;
    let mime = Mime::from_str(alloc, text.as_str())?;
    assert_printed(rt, alloc, "parsed", &mime, text.as_str())?;
    let copy = mime.clone()?;
    assert_that(rt, "copy", copy == mime);
    let named = Mime::new(alloc, letters.as_str(), "b")?;
    let text = format!(in alloc; "{letters}/b")?;
    assert_printed(rt, alloc, "made", &named, text.as_str())?;
    let copy = named.clone()?;
    assert_that(rt, "copy", copy == named);
    Ok(())
}

#[test]
fn urls_of_each_size(rt: HostRuntime) -> Result<(), Fail> {
    for power in 0..=MOST {
        assert_plain(&rt, rt.alloc(), 1 << power)?;
    }
    Ok(())
}

#[test]
fn headers_of_each_size(rt: HostRuntime) -> Result<(), Fail> {
    for power in 0..MOST {
        assert_encoded_header(&rt, rt.alloc(), 1 << power)?;
    }
    Ok(())
}

#[test]
fn base64_of_each_size(rt: HostRuntime) -> Result<(), Fail> {
    for power in 0..=MOST {
        assert_base64(&rt, rt.alloc(), 1 << power)?;
    }
    Ok(())
}

#[test]
fn types_of_each_size(rt: HostRuntime) -> Result<(), Fail> {
    for power in 0..=MOST {
        assert_mime(&rt, rt.alloc(), 1 << power)?;
    }
    Ok(())
}
