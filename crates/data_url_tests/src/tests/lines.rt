//! Base64 of a URL, clean and in lines. It is decoded where it is up to the first `#` or `%`, with its newlines.

use super::recorder::Source;
use super::urls::{assert_body, assert_whole_body};
use super::with_run;
use data_url::DataUrl;
use std::alloc::{AllocError, Global};
use std::process::Abort;
use std::test::Fail;

/// A line of 76 symbols, and its bytes.
const LINE: [&str; 2] = [
    "VGhlIHF1aWNrIGJyb3duIGZveCA+Pj4ganVtcHMgb3ZlciA/Pz8gdGhlIGxhenkgZG9ncyAxMjM0\n",
    "The quick brown fox >>> jumps over ??? the lazy dogs 1234",
];

/// Parts of a text between symbols of base64, and the message for the fault. It is empty for parts that are skipped.
const PARTS: [[&str; 2]; 7] = [
    ["\t", ""],
    ["%0A", ""],
    ["%\n2\t0", ""],
    [
        "!",
        "base64 not valid: symbol with codepoint 33 not expected",
    ],
    [
        "%z",
        "base64 not valid: symbol with codepoint 37 not expected",
    ],
    [
        "%21",
        "base64 not valid: symbol with codepoint 33 not expected",
    ],
    [
        "=",
        "base64 not valid: alphabet symbol present after padding",
    ],
];

/// Returns a part of a text.
pub fn part_of(text: &str, start: usize, end: usize) -> &str {
    text.get(start..end).unwrap_or("")
}

/// Returns how many bytes the whole groups before a place in lines of 76 symbols encode, or in a text without newlines.
fn bytes_before(symbols: &str, place: usize) -> usize {
    let newlines = part_of(symbols, 0, place)
        .bytes()
        .filter(|byte| *byte == b'\n');
    (place.saturating_sub(newlines.count()) / 4).saturating_mul(3)
}

/// Asserts the body of a URL of lines with a part at a place.
fn assert_part(
    rt: &impl Abort,
    alloc: Global,
    lines: [&str; 2],
    place: usize,
    row: [&str; 2],
) -> Result<(), Fail> {
    let [symbols, bytes] = lines;
    let [part, message] = row;
    let front = part_of(symbols, 0, place);
    let back = part_of(symbols, place, symbols.len());
    let text = format!(in alloc; "data:;base64,{front}{part}{back}")?;
    let url = DataUrl::process(alloc, text.as_str())?;
    let end = if message.is_empty() {
        bytes.len()
    } else {
        bytes_before(symbols, place)
    };
    let body = part_of(bytes, 0, end).as_bytes();
    assert_whole_body(rt, alloc, text.as_str(), &url, body, message)?;
    let record = Source::Body(&url).record_both(rt, alloc, text.as_str(), 0)?;
    record.assert_is(rt, text.as_str(), body, message);
    Ok(())
}

/// Asserts the body of a URL of lines with the byte at a place as an escape.
fn assert_escape(
    rt: &impl Abort,
    alloc: Global,
    lines: [&str; 2],
    place: usize,
) -> Result<(), Fail> {
    let [symbols, bytes] = lines;
    let next = place.saturating_add(1);
    let front = part_of(symbols, 0, place);
    let back = part_of(symbols, next, symbols.len());
    let byte = part_of(symbols, place, next).bytes().next().unwrap_or(0);
    let text = format!(in alloc; "data:;base64,{front}%{byte:02X}{back}")?;
    let url = DataUrl::process(alloc, text.as_str())?;
    assert_whole_body(rt, alloc, text.as_str(), &url, bytes.as_bytes(), "")?;
    let record = Source::Body(&url).record_both(rt, alloc, text.as_str(), 0)?;
    record.assert_is(rt, text.as_str(), bytes.as_bytes(), "");
    Ok(())
}

/// Asserts the body of the symbols before a place, and the fragment after it. If a symbol is alone before it, the body
/// is not valid.
fn assert_fragment(
    rt: &impl Abort,
    alloc: Global,
    lines: [&str; 2],
    place: usize,
) -> Result<(), Fail> {
    let [symbols, bytes] = lines;
    let front = part_of(symbols, 0, place);
    let text = format!(in alloc; "data:;base64,{front}#c d")?;
    let url = DataUrl::process(alloc, text.as_str())?;
    let newlines = front.bytes().filter(|byte| *byte == b'\n').count();
    let alone = place.saturating_sub(newlines) % 4;
    let answer = if alone == 1 {
        "base64 not valid: lone alphabet symbol present"
    } else {
        "#c%20d"
    };
    let more = alone.saturating_sub(1);
    let end = bytes_before(symbols, place).saturating_add(more);
    let body = part_of(bytes, 0, end).as_bytes();
    assert_whole_body(rt, alloc, text.as_str(), &url, body, answer)?;
    let record = Source::Body(&url).record_both(rt, alloc, text.as_str(), 0)?;
    record.assert_is(rt, text.as_str(), body, answer);
    Ok(())
}

/// Asserts the body of a URL of this many lines with each part, with each byte as an escape, and with a fragment, at
/// each of these places.
fn assert_places(
    rt: &impl Abort,
    alloc: Global,
    line: [&str; 2],
    count: usize,
    places: [usize; 2],
) -> Result<(), Fail> {
    let [line, bytes] = line;
    let symbols = line.repeat(alloc, count)?;
    let bytes = bytes.repeat(alloc, count)?;
    let lines = [symbols.as_str(), bytes.as_str()];
    let [first, last] = places;
    for place in first..last {
        assert_escape(rt, alloc, lines, place)?;
        assert_fragment(rt, alloc, lines, place)?;
        for row in PARTS.as_slice() {
            assert_part(rt, alloc, lines, place, *row)?;
        }
    }
    Ok(())
}

#[test]
fn lines_with_each_part_at_each_place(rt: HostRuntime) -> Result<(), Fail> {
    assert_places(&rt, rt.alloc(), LINE, 4, [32, 306])
}

#[test]
fn long_lines_with_each_part_around_the_end_of_a_stretch(rt: HostRuntime) -> Result<(), Fail> {
    assert_places(&rt, rt.alloc(), LINE, 220, [16448, 16528])
}

#[test]
fn clean_text_with_each_part_at_each_place(rt: HostRuntime) -> Result<(), Fail> {
    let [line, bytes] = LINE;
    let clean = part_of(line, 0, 76);
    assert_places(&rt, rt.alloc(), [clean, bytes], 3, [1, 227])
}

#[test]
fn each_piece_of_lines_is_refused(rt: HostRuntime) -> Result<(), Fail> {
    let [line, bytes] = LINE;
    let text = with_run(rt.alloc(), ["data:;base64,", line, "#"], 60)?;
    let body = bytes.repeat(rt.alloc(), 60)?;
    let url = DataUrl::process(rt.alloc(), text.as_str())?;
    assert_body(&rt, rt.alloc(), "lines", &url, body.as_bytes(), "#")?;
    Ok(())
}
