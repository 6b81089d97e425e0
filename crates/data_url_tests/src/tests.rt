//! Worked examples, through the public calls of the library: tables of texts and results, over few helpers, since each
//! function is proved before it runs. A helper takes a table by reference, which is much cheaper to prove than a loop
//! over its rows by value. Small helpers with few fallible calls are cheaper to prove than one function with many.

mod capacity;
mod decoder;
mod errors;
mod fragments;
mod gaps;
mod lines;
mod mime;
mod parts;
mod recorder;
mod sizes;
mod urls;
mod writers;

use std::alloc::{AllocError, Global};
use std::fmt;
use std::process::Abort;

/// Returns the front of the text that an assertion is about, as it is shown if that fails.
fn shown(about: &str) -> &str {
    about.get(..60).unwrap_or(about)
}

/// Asserts a fact about a text. A call is cheaper to prove than `assert!`.
fn assert_that(rt: &impl Abort, about: &str, is_right: bool) {
    let about = shown(about);
    assert!(rt; is_right, "{about}");
}

/// Asserts that bytes are as wanted.
fn assert_same(rt: &impl Abort, about: &str, found: &[u8], wanted: &[u8]) {
    assert_that(rt, about, found == wanted);
}

/// Asserts that a value is printed as wanted.
fn assert_printed<D: fmt::Display>(
    rt: &impl Abort,
    alloc: Global,
    about: &str,
    value: &D,
    wanted: &str,
) -> Result<(), AllocError> {
    let printed = format!(in alloc; "{value}")?;
    assert_same(rt, about, printed.as_bytes(), wanted.as_bytes());
    Ok(())
}

/// Returns the three parts joined, the middle one repeated `count` times.
fn with_run(alloc: Global, parts: [&str; 3], count: usize) -> Result<String, AllocError> {
    let [front, part, back] = parts;
    let run = part.repeat(alloc, count)?;
    format!(in alloc; "{front}{run}{back}")
}
