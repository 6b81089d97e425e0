//! White space between the symbols of base64: gaps in rows of sixteen symbols, which a decoder reads in one step.

use super::lines::part_of;
use super::recorder::Source;
use std::alloc::{AllocError, Global};
use std::process::Abort;
use std::test::Fail;

/// Symbols, and the bytes that they encode.
const SYMBOLS: [&str; 2] = [
    "VGhlIHF1aWNrIGJyb3duIGZveCA+Pj4ganVtcHMgb3ZlciA/Pz8gdGhlIGxhenkgZG9ncyAxMjM0",
    "The quick brown fox >>> jumps over ??? the lazy dogs 1234",
];

/// How many symbols there are.
const ALL: usize = 76;

/// The places of the first three rows of symbols, and the end of the last one.
const PLACES: usize = 49;

/// Each kind of gap.
const GAPS: [&str; 7] = ["\n", "\r\n", "\n ", "\n\t", "   ", "\u{c}", "\r"];

/// Parts that are not white space, and the message for each if a symbol follows.
const FAULTS: [[&str; 2]; 3] = [
    [
        "-",
        "base64 not valid: symbol with codepoint 45 not expected",
    ],
    [
        "\u{f0}",
        "base64 not valid: symbol with codepoint 195 not expected",
    ],
    [
        "=",
        "base64 not valid: alphabet symbol present after padding",
    ],
];

/// The message for a text that ends with the first symbol of a group.
const LONE: &str = "base64 not valid: lone alphabet symbol present";

/// Returns the symbols before a place, with a part at each of two places.
fn text_of(
    alloc: Global,
    end: usize,
    places: [usize; 2],
    parts: [&str; 2],
) -> Result<String, AllocError> {
    let [first, second] = places;
    let [one, other] = parts;
    let front = part_of(SYMBOLS[0], 0, first);
    let middle = part_of(SYMBOLS[0], first, second);
    let back = part_of(SYMBOLS[0], second, end);
    format!(in alloc; "{front}{one}{middle}{other}{back}")
}

/// Returns the bytes that the first `count` symbols encode, or that their whole groups encode if there is a message.
fn bytes_of(count: usize, message: &str) -> &[u8] {
    let len = if message.is_empty() {
        count.saturating_mul(3) / 4
    } else {
        (count / 4).saturating_mul(3)
    };
    part_of(SYMBOLS[1], 0, len).as_bytes()
}

/// Asserts that the parts decode to the bytes of the first `count` symbols, and end with the message, if any.
fn assert_parts(
    rt: &impl Abort,
    alloc: Global,
    about: &str,
    parts: &[&[u8]],
    count: usize,
    message: &str,
) -> Result<(), AllocError> {
    let record = Source::Base64(parts).record_both(rt, alloc, about, 0)?;
    record.assert_is(rt, about, bytes_of(count, message), message);
    Ok(())
}

/// Asserts what the symbols before a place decode to with a gap.
fn assert_gap(
    rt: &impl Abort,
    alloc: Global,
    end: usize,
    place: usize,
    gap: &str,
) -> Result<(), AllocError> {
    let text = text_of(alloc, end, [place, end], [gap, ""])?;
    let message = if end % 4 == 1 { LONE } else { "" };
    assert_parts(rt, alloc, text.as_str(), &[text.as_bytes()], end, message)
}

/// Asserts what the symbols decode to with each kind of gap at a place, if up to twenty symbols follow it, or all.
fn assert_each_end(rt: &impl Abort, alloc: Global, place: usize) -> Result<(), AllocError> {
    for gap in GAPS.as_slice() {
        assert_gap(rt, alloc, ALL, place, gap)?;
        for rest in 0..21 {
            assert_gap(rt, alloc, place.saturating_add(rest), place, gap)?;
        }
    }
    Ok(())
}

#[test]
fn a_gap_at_each_place_before_each_end(rt: HostRuntime) -> Result<(), Fail> {
    for place in 0..PLACES {
        assert_each_end(&rt, rt.alloc(), place)?;
    }
    Ok(())
}

#[test]
fn a_gap_before_and_after_each_block(rt: HostRuntime) -> Result<(), Fail> {
    let [symbols, bytes] = SYMBOLS;
    let block = part_of(symbols, 0, 64);
    let front = part_of(bytes, 0, 48);
    for gap in GAPS.as_slice() {
        let text = format!(in rt.alloc(); "{gap}{block}{gap}{block}{gap}{gap}{symbols}{gap}")?;
        let about = text.as_str();
        let record = Source::Base64(&[text.as_bytes()]).record_both(&rt, rt.alloc(), about, 0)?;
        let all = format!(in rt.alloc(); "{front}{front}{bytes}")?;
        record.assert_is(&rt, about, all.as_bytes(), "");
    }
    Ok(())
}

/// Asserts what the symbols decode to with each kind of gap at two places.
fn assert_two_gaps(rt: &impl Abort, alloc: Global, places: [usize; 2]) -> Result<(), AllocError> {
    for gap in GAPS.as_slice() {
        let text = text_of(alloc, ALL, places, [gap, gap])?;
        assert_parts(rt, alloc, text.as_str(), &[text.as_bytes()], ALL, "")?;
    }
    Ok(())
}

/// Asserts what the symbols decode to with a gap and a fault: the gap at the first of two places and the fault at the
/// second, and the other way round.
fn assert_faults(rt: &impl Abort, alloc: Global, places: [usize; 2]) -> Result<(), AllocError> {
    let [first, second] = places;
    for row in FAULTS.as_slice() {
        let [fault, message] = *row;
        let text = text_of(alloc, ALL, places, ["\n", fault])?;
        assert_parts(
            rt,
            alloc,
            text.as_str(),
            &[text.as_bytes()],
            second,
            message,
        )?;
        let text = text_of(alloc, ALL, places, [fault, "\n"])?;
        assert_parts(rt, alloc, text.as_str(), &[text.as_bytes()], first, message)?;
    }
    Ok(())
}

/// Asserts both for a first place and each of the sixteen places after it.
fn assert_row(rt: &impl Abort, alloc: Global, first: usize) -> Result<(), AllocError> {
    for second in first..first.saturating_add(17) {
        assert_two_gaps(rt, alloc, [first, second])?;
        assert_faults(rt, alloc, [first, second])?;
    }
    Ok(())
}

#[test]
fn two_gaps_and_a_fault_at_each_place(rt: HostRuntime) -> Result<(), Fail> {
    for first in 0..PLACES {
        assert_row(&rt, rt.alloc(), first)?;
    }
    Ok(())
}

/// Asserts what the symbols with a part decode to, cut in two at each place.
fn assert_each_cut(
    rt: &impl Abort,
    alloc: Global,
    parts: [&str; 2],
    count: usize,
    message: &str,
) -> Result<(), AllocError> {
    let text = text_of(alloc, ALL, [19, 26], parts)?;
    let text = text.as_bytes();
    for cut in 0..text.len() {
        let (front, back) = text.split_at(cut);
        assert_parts(rt, alloc, "cut", &[front, back], count, message)?;
    }
    Ok(())
}

#[test]
fn a_gap_and_a_fault_in_two_parts(rt: HostRuntime) -> Result<(), Fail> {
    for gap in GAPS.as_slice() {
        assert_each_cut(&rt, rt.alloc(), [gap, ""], ALL, "")?;
    }
    for row in FAULTS.as_slice() {
        let [fault, message] = *row;
        assert_each_cut(&rt, rt.alloc(), ["\n", fault], 26, message)?;
        assert_each_cut(&rt, rt.alloc(), [fault, "\n"], 19, message)?;
    }
    Ok(())
}

/// Returns the symbols before a place, in lines of a few symbols with a gap between two lines.
fn spaced_text(alloc: Global, end: usize, every: usize, gap: &str) -> Result<String, AllocError> {
    let mut text = String::from_str(alloc, "")?;
    for line in 0..end {
        let start = line.saturating_mul(every);
        let symbols = part_of(SYMBOLS[0], start, start.saturating_add(every).min(end));
        let before = if start == 0 || symbols.is_empty() {
            ""
        } else {
            gap
        };
        write!(text, "{before}{symbols}")?;
    }
    Ok(text)
}

/// Asserts what symbols with a gap after every few of them decode to, at once and in two halves.
fn assert_spaced(
    rt: &impl Abort,
    alloc: Global,
    end: usize,
    every: usize,
    gap: &str,
) -> Result<(), AllocError> {
    let text = spaced_text(alloc, end, every, gap)?;
    let text = text.as_bytes();
    let message = if end % 4 == 1 { LONE } else { "" };
    assert_parts(rt, alloc, "spaced", &[text], end, message)?;
    let (front, back) = text.split_at(text.len() / 2);
    assert_parts(rt, alloc, "spaced, in halves", &[front, back], end, message)
}

#[test]
fn a_gap_after_every_few_symbols(rt: HostRuntime) -> Result<(), Fail> {
    for every in 1..21 {
        for end in 1..50 {
            assert_spaced(&rt, rt.alloc(), end, every, "\n")?;
            assert_spaced(&rt, rt.alloc(), end, every, "\r\n ")?;
        }
    }
    Ok(())
}
