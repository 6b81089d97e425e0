//! Closures that return an error, and the text of each error.

use super::recorder::{Closure, Source};
use super::urls::assert_body;
use super::{assert_printed, assert_that};
use data_url::forgiving_base64::{DecodeError, DecodeToVecError, decode_to_vec};
use data_url::mime::{Mime, MimeFromStrError};
use data_url::{DataUrl, DataUrlError};
use std::alloc::{AllocError, Global};
use std::convert::Infallible;
use std::process::Abort;
use std::test::Fail;

/// The error of a closure.
const REFUSED: usize = 7;

/// Appends a piece, and returns an error if there are then two bytes or more.
fn take_below_two(bytes: &mut Vec<u8>, piece: &[u8]) -> Result<(), usize> {
    let kept = bytes.extend_from_slice(piece).is_ok();
    if kept && bytes.len() < 2 {
        Ok(())
    } else {
        Err(REFUSED)
    }
}

/// Asserts that the last piece of a body is the one for which the closure returns an error.
fn assert_ends(rt: &impl Abort, alloc: Global, url: &DataUrl, closure: &Closure) {
    let mut bytes = Vec::new(alloc);
    let write = |piece: &[u8]| -> Result<(), usize> { take_below_two(&mut bytes, piece) };
    let answer = match closure {
        Closure::Dropped => url.decode(write),
        Closure::Returned => url.decode_with(write).0,
    };
    let is_refused = matches!(answer, Err(DecodeError::WriteError(REFUSED)));
    assert_that(rt, "refused", is_refused);
    assert_that(
        rt,
        "bytes",
        [b"aA".as_slice(), b"aAb"].contains(&bytes.as_slice()),
    );
}

#[test]
fn the_piece_with_the_second_byte(rt: HostRuntime) -> Result<(), Fail> {
    let url = DataUrl::process(rt.alloc(), "data:,a%41b")?;
    assert_ends(&rt, rt.alloc(), &url, &Closure::Dropped);
    assert_ends(&rt, rt.alloc(), &url, &Closure::Returned);
    Ok(())
}

/// Twenty groups of base64, and their bytes.
const GROUPS: [&str; 2] = [
    "QUJDQUJDQUJDQUJDQUJDQUJDQUJDQUJDQUJDQUJDQUJDQUJDQUJDQUJDQUJDQUJDQUJDQUJDQUJDQUJD",
    "ABCABCABCABCABCABCABCABCABCABCABCABCABCABCABCABCABCABCABCABC",
];

/// Twenty groups of base64 and a fault, in two parts.
#[test]
fn each_piece_of_base64_is_refused(rt: HostRuntime) -> Result<(), Fail> {
    let [symbols, bytes] = GROUPS;
    let source = Source::Base64(&[symbols.as_bytes(), b"Q"]);
    let lone = "base64 not valid: lone alphabet symbol present";
    source.assert_is(&rt, rt.alloc(), symbols, bytes.as_bytes(), lone)?;
    Ok(())
}

#[test]
fn a_refusal_before_a_fault(rt: HostRuntime) -> Result<(), Fail> {
    let text = "QUJD!";
    let record = Source::Base64(&[text.as_bytes()]).record_both(&rt, rt.alloc(), text, 1)?;
    record.assert_is(&rt, text, b"ABC", "write error: 1");
    Ok(())
}

/// URLs of the body `aAb` with an escape, and what follows it: `#` and the fragment, or nothing.
const ESCAPED: [(&str, &str); 5] = [
    ("data:,a%41b", ""),
    ("data:,a\t%41b", ""),
    ("data:,a%4\t1b#c d", "#c%20d"),
    ("data:,\ta%\n4\r1\tb\t", ""),
    ("data:,a%41\tb#", "#"),
];

/// Each call of the closure is refused in turn.
#[test]
fn each_piece_around_an_escape_is_refused(rt: HostRuntime) -> Result<(), Fail> {
    for (text, answer) in &ESCAPED {
        let url = DataUrl::process(rt.alloc(), text)?;
        assert_body(&rt, rt.alloc(), text, &url, b"aAb", answer)?;
    }
    Ok(())
}

/// Texts of base64 that are not valid, and the text of the error.
const FAULTS: [(&str, &str); 4] = [
    ("QUJD!", "symbol with codepoint 33 not expected"),
    ("ab==c", "alphabet symbol present after padding"),
    ("a", "lone alphabet symbol present"),
    ("ab=", "incorrect padding"),
];

/// Asserts the text of a fault, and those of the errors that hold it.
fn assert_fault(rt: &impl Abort, alloc: Global, text: &str, wanted: &str) -> Result<(), Fail> {
    let Err(DecodeToVecError::InvalidBase64(refusal)) = decode_to_vec(alloc, text.as_bytes()) else {
        assert_that(rt, text, false);
        return Ok(());
    };
    assert_printed(rt, alloc, text, &refusal, wanted)?;
    let error: DecodeError<Infallible> = DecodeError::InvalidBase64(refusal);
    let longer = format!(in alloc; "base64 not valid: {wanted}")?;
    assert_printed(rt, alloc, text, &error, longer.as_str())?;
    if let Err(error) = decode_to_vec(alloc, text.as_bytes()) {
        assert_printed(rt, alloc, text, &error, wanted)?;
    }
    Ok(())
}

/// Asserts the texts of the errors without base64.
fn assert_other_texts(rt: &impl Abort, alloc: Global) -> Result<(), AllocError> {
    let scheme = "not a valid data url";
    assert_printed(rt, alloc, scheme, &DataUrlError::NotADataUrl, scheme)?;
    let comma = "data url is missing comma delimiting attributes and body";
    assert_printed(rt, alloc, comma, &DataUrlError::NoComma, comma)?;
    let memory = "out of memory";
    assert_printed(rt, alloc, memory, &DataUrlError::OutOfMemory, memory)?;
    assert_printed(rt, alloc, memory, &DecodeToVecError::OutOfMemory, memory)?;
    assert_printed(rt, alloc, memory, &MimeFromStrError::OutOfMemory, memory)?;
    let refused: DecodeError<usize> = DecodeError::WriteError(REFUSED);
    assert_printed(rt, alloc, "write error", &refused, "write error: 7")
}

/// Each line of the table of errors and their texts.
#[test]
fn the_text_of_each_error(rt: HostRuntime) -> Result<(), Fail> {
    for (text, wanted) in &FAULTS {
        assert_fault(&rt, rt.alloc(), text, wanted)?;
    }
    assert_other_texts(&rt, rt.alloc())?;
    let parsed = Mime::from_str(rt.alloc(), "text");
    assert_that(&rt, "text", parsed.is_err());
    if let Err(error) = parsed {
        assert_printed(&rt, rt.alloc(), "text", &error, "invalid mime type")?;
        if let MimeFromStrError::Parsing(inner) = error {
            assert_printed(&rt, rt.alloc(), "text", &inner, "invalid mime type")?;
        }
    }
    Ok(())
}
