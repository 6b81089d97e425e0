//! A decoder of base64 that is fed parts of a text, with the calls of its closure recorded.

use super::assert_that;
use super::recorder::Source;
use std::alloc::{AllocError, Global};
use std::process::Abort;
use std::test::Fail;

/// Texts of base64 in parts, the bytes that the closure is called with, and the message of the error.
const TEXTS: [(&[&[u8]], &str, &str); 11] = [
    (&[b"ab="], "", "base64 not valid: incorrect padding"),
    (&[b"Y", b"W", b" ", b"J", b"="], "ab", ""),
    (
        &[b"QUJD!"],
        "ABC",
        "base64 not valid: symbol with codepoint 33 not expected",
    ),
    (&[b"QUJDQUJD"], "ABCABC", ""),
    (
        &[b"QUJDQUJDQUJDQUJDQUJDQUJDQUJDQUJDQUJDQUJDQUJDQUJDQUJDQUJDQUJDQUJDQUJD!"],
        "ABCABCABCABCABCABCABCABCABCABCABCABCABCABCABCABCABC",
        "base64 not valid: symbol with codepoint 33 not expected",
    ),
    (&[b"YWJ"], "ab", ""),
    (&[], "", ""),
    (&[b""], "", ""),
    (&[b"", b"Y", b"", b"", b"WJ", b"=", b""], "ab", ""),
    (&[b"QUJD", b"", b"QUI"], "ABCAB", ""),
    (
        &[b"Y", b"", b"=", b""],
        "",
        "base64 not valid: lone alphabet symbol present",
    ),
];

/// Asserts what a decoder does with a text, by `finish` and by `finish_with`, and what an error of each call does.
fn assert_text(
    rt: &impl Abort,
    alloc: Global,
    row: &(&[&[u8]], &str, &str),
) -> Result<(), AllocError> {
    let (parts, bytes, answer) = row;
    Source::Base64(parts).assert_is(rt, alloc, bytes, bytes.as_bytes(), answer)?;
    Ok(())
}

#[test]
fn each_call_of_the_closure_is_refused(rt: HostRuntime) -> Result<(), Fail> {
    for row in &TEXTS {
        assert_text(&rt, rt.alloc(), row)?;
    }
    Ok(())
}

/// Asserts that the closure is called with the bytes of sixteen groups at a time.
#[test]
fn seventeen_groups_are_two_calls(rt: HostRuntime) -> Result<(), Fail> {
    let (parts, _, _) = &TEXTS[4];
    let record = Source::Base64(parts).record_both(&rt, rt.alloc(), "seventeen groups", 0)?;
    assert_that(
        &rt,
        "calls",
        record.lengths.as_slice() == [48, 3].as_slice(),
    );
    Ok(())
}

#[test]
fn spaces_between_symbols(rt: HostRuntime) -> Result<(), Fail> {
    let text = "Q U J D".repeat(rt.alloc(), 1000)?;
    let bytes = "ABC".repeat(rt.alloc(), 1000)?;
    let source = Source::Base64(&[text.as_bytes()]);
    source.assert_is(&rt, rt.alloc(), "spaces", bytes.as_bytes(), "")?;
    Ok(())
}

/// Feeds `QQ` and 258 `=` byte by byte. In eight bits, 258 is counted as two, which would fit.
#[test]
fn padding_signs_fed_one_by_one(rt: HostRuntime) -> Result<(), Fail> {
    let signs = "=".repeat(rt.alloc(), 258)?;
    let text = format!(in rt.alloc(); "QQ{signs}")?;
    let mut bytes = Vec::new(rt.alloc());
    for byte in text.as_bytes().chunks(1) {
        bytes.push(byte)?;
    }
    let source = Source::Base64(bytes.as_slice());
    let padding = "base64 not valid: incorrect padding";
    source.assert_is(&rt, rt.alloc(), "signs", b"", padding)?;
    Ok(())
}

/// A text with 121 calls, of which the last is also refused.
#[test]
fn more_calls_than_a_hundred(rt: HostRuntime) -> Result<(), Fail> {
    let text = "QUJD".repeat(rt.alloc(), 1921)?;
    let bytes = "ABC".repeat(rt.alloc(), 1921)?;
    let source = Source::Base64(&[text.as_bytes()]);
    let record = source.assert_is(&rt, rt.alloc(), "calls", bytes.as_bytes(), "")?;
    assert_that(&rt, "calls", record.lengths.len() == 121);
    Ok(())
}
