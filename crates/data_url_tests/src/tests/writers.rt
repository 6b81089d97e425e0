//! Printing to a writer that fails, and under options.

use super::{assert_printed, assert_that};
use data_url::DataUrlError;
use data_url::forgiving_base64::{DecodeError, DecodeToVecError, decode_to_vec};
use data_url::mime::{Mime, MimeFromStrError};
use std::alloc::{AllocError, Global};
use std::fmt::{self, Write};
use std::process::Abort;
use std::test::Fail;

/// More writes than any of the values makes.
const PLENTY: usize = 1_000_000;

/// A writer that fails once, after this number of writes.
#[derive(Drop)]
struct FailingWriter {
    left: usize,
}

impl Write for FailingWriter {
    fn write_str(&mut self, _text: &str) -> fmt::Result {
        let answer = if self.left == 0 {
            Err(fmt::Error)
        } else {
            Ok(())
        };
        self.left = self.left.wrapping_sub(1);
        answer
    }
}

/// Returns whether a value is printed to a writer that fails after `left` writes, and how many of those were not used.
fn write_to<D: fmt::Display>(value: &D, left: usize) -> (bool, usize) {
    let mut writer = FailingWriter { left };
    let is_written = write!(writer, "{value}").is_ok();
    (is_written, writer.left)
}

/// Asserts how a value is printed, that options of the format change nothing, and that printing fails if any of its
/// writes fails.
fn assert_display<D: fmt::Display>(
    rt: &impl Abort,
    alloc: Global,
    value: &D,
    wanted: &str,
) -> Result<(), AllocError> {
    assert_printed(rt, alloc, wanted, value, wanted)?;
    assert_printed(rt, alloc, wanted, &format_args!("{value:#}"), wanted)?;
    assert_printed(rt, alloc, wanted, &format_args!("{value:>99.1}"), wanted)?;
    let (is_written, left) = write_to(value, PLENTY);
    assert_that(rt, wanted, is_written & (left < PLENTY));
    for fewer in left..PLENTY {
        let (is_written, _) = write_to(value, PLENTY - fewer - 1);
        assert_that(rt, wanted, !is_written);
    }
    Ok(())
}

/// Returns a MIME type with `count` parameters.
fn with_parameters(alloc: Global, count: u32) -> Result<String, AllocError> {
    let mut text = String::from_str(alloc, "x/x")?;
    for number in 1..count.saturating_add(1) {
        write!(text, ";p{number}=v")?;
    }
    Ok(text)
}

#[test]
fn records(rt: HostRuntime) -> Result<(), Fail> {
    let many = with_parameters(rt.alloc(), 100)?;
    for text in [
        "a/b",
        "x/x;a=\"q\\\"r\\\\\";b=\"\";c=d;e=\"f g\"",
        many.as_str(),
    ] {
        let mime = Mime::from_str(rt.alloc(), text)?;
        assert_display(&rt, rt.alloc(), &mime, text)?;
    }
    Ok(())
}

#[test]
fn errors_of_urls_and_closures(rt: HostRuntime) -> Result<(), Fail> {
    let alloc = rt.alloc();
    let comma = "data url is missing comma delimiting attributes and body";
    assert_display(
        &rt,
        alloc,
        &DataUrlError::NotADataUrl,
        "not a valid data url",
    )?;
    assert_display(&rt, alloc, &DataUrlError::NoComma, comma)?;
    assert_display(&rt, alloc, &DataUrlError::OutOfMemory, "out of memory")?;
    let refused: DecodeError<usize> = DecodeError::WriteError(7);
    assert_display(&rt, alloc, &refused, "write error: 7")?;
    assert_display(&rt, alloc, &DecodeToVecError::OutOfMemory, "out of memory")?;
    Ok(())
}

/// Asserts how the fault of a text of base64 is printed, alone and in a decoder's error.
fn assert_fault(
    rt: &impl Abort,
    alloc: Global,
    text: &str,
    message: &str,
) -> Result<(), AllocError> {
    let whole = format!(in alloc; "base64 not valid: {message}")?;
    match decode_to_vec(alloc, text.as_bytes()) {
        Err(DecodeToVecError::InvalidBase64(fault)) => {
            assert_display(rt, alloc, &fault, message)?;
            let error: DecodeError<usize> = DecodeError::InvalidBase64(fault);
            assert_display(rt, alloc, &error, whole.as_str())
        }
        _ => {
            assert_that(rt, text, false);
            Ok(())
        }
    }
}

/// Texts of base64, and the messages for their faults.
const FAULTS: [(&str, &str); 4] = [
    ("!", "symbol with codepoint 33 not expected"),
    ("=a", "alphabet symbol present after padding"),
    ("a", "lone alphabet symbol present"),
    ("=", "incorrect padding"),
];

/// Asserts how the faults of the texts of a table are printed.
fn assert_faults(rt: &impl Abort, alloc: Global, rows: &[(&str, &str)]) -> Result<(), AllocError> {
    for (text, message) in rows {
        assert_fault(rt, alloc, text, message)?;
        if let Err(error) = decode_to_vec(alloc, text.as_bytes()) {
            assert_display(rt, alloc, &error, message)?;
        }
    }
    Ok(())
}

#[test]
fn faults_of_base64(rt: HostRuntime) -> Result<(), Fail> {
    assert_faults(&rt, rt.alloc(), &FAULTS)?;
    Ok(())
}

#[test]
fn errors_of_mime_types(rt: HostRuntime) -> Result<(), Fail> {
    let alloc = rt.alloc();
    assert_display(&rt, alloc, &MimeFromStrError::OutOfMemory, "out of memory")?;
    match Mime::from_str(alloc, "text") {
        Err(MimeFromStrError::Parsing(error)) => {
            assert_display(&rt, alloc, &error, "invalid mime type")?;
            let error = MimeFromStrError::Parsing(error);
            assert_display(&rt, alloc, &error, "invalid mime type")?;
        }
        _ => assert_that(&rt, "text", false),
    }
    Ok(())
}
