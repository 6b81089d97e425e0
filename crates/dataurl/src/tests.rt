//! Worked examples of the program: words of a command line, an input, what is written, the line for standard error,
//! and the status.

use crate::fault::Fault;
use crate::program::execute;
use std::alloc::{AllocError, Global};
use std::process::Abort;
use std::test::Fail;

/// The line on how to call the program.
const USAGE: &str = "usage: dataurl body, mime, fragment, type or base64\n";

/// Words of a command line and an input, what is written, the line for standard error, and the status.
const ROWS: [([&str; 1], &[u8], [&str; 2], u8); 9] = [
    (["body"], b"data:,Hello%20World!", ["Hello World!", ""], 0),
    (["mime"], b"data:A/B;C=D,x\n", ["a/b;c=D\n", ""], 0),
    (["fragment"], b"data:,x#\n", ["\n", ""], 0),
    (["fragment"], b"data:,x", ["", ""], 0),
    (
        ["type"],
        b"TEXT/HTML;a=\"b;c\";d=;e=\"\"",
        ["text/html;a=\"b;c\";e=\"\"\n", ""],
        0,
    ),
    (
        ["base64"],
        b"QUJD!",
        [
            "ABC",
            "base64 not valid: symbol with codepoint 33 not expected\n",
        ],
        1,
    ),
    (["bodies"], b"data:,x", ["", USAGE], 2),
    (["type"], b"text", ["", "invalid mime type\n"], 1),
    (["body"], b"\xff", ["", "input is not UTF-8\n"], 1),
];

/// Asserts that bytes are as wanted.
fn assert_same(rt: &impl Abort, about: &str, found: &[u8], wanted: &[u8]) {
    assert!(rt; found == wanted, "{about}");
}

/// Asserts what a command line writes for an input, and its status. The input is read exactly if a command is run.
fn assert_run(
    rt: &impl Abort,
    alloc: Global,
    words: &[&str],
    given: &[u8],
    texts: [&str; 2],
    status: u8,
) -> Result<(), AllocError> {
    let [written, line] = texts;
    let mut owned = Vec::new(alloc);
    for word in words {
        owned.push(String::from_str(alloc, word)?)?;
    }
    let mut input = given;
    let mut output = Vec::new(alloc);
    let mut errors = Vec::new(alloc);
    let found = execute(alloc, Ok(owned), &mut input, &mut output, &mut errors);
    assert!(rt; found == status, "the status");
    assert_same(rt, "the output", output.as_slice(), written.as_bytes());
    assert_same(rt, "the line", errors.as_slice(), line.as_bytes());
    let is_unread = input.len() == given.len();
    assert!(rt; is_unread == (status == 2), "what is read");
    Ok(())
}

#[test]
fn commands(rt: HostRuntime) -> Result<(), Fail> {
    for (words, input, texts, status) in &ROWS {
        assert_run(&rt, rt.alloc(), words, input, *texts, *status)?;
    }
    Ok(())
}

#[test]
fn lines_without_a_command(rt: HostRuntime) -> Result<(), Fail> {
    let texts = ["", USAGE];
    assert_run(&rt, rt.alloc(), &[], b"data:,x", texts, 2)?;
    assert_run(&rt, rt.alloc(), &["body", "body"], b"data:,x", texts, 2)?;
    Ok(())
}

/// Words that cannot be read are a failed read. Nothing else is read or written.
#[test]
fn words_that_cannot_be_read(rt: HostRuntime) -> Result<(), Fail> {
    let mut input: &[u8] = b"data:,x";
    let mut output = Vec::new(rt.alloc());
    let mut errors = Vec::new(rt.alloc());
    let words = Err(Fault::Read);
    let status = execute(rt.alloc(), words, &mut input, &mut output, &mut errors);
    assert!(&rt; status == 3, "the status");
    assert!(&rt; output.is_empty() & (input.len() == 7), "nothing");
    assert_same(&rt, "the line", errors.as_slice(), b"read failed\n");
    Ok(())
}
