//! Bodies and base64 in parts, beside what decodes them at once.

use super::recorder::Source;
use super::{assert_same, assert_that};
use data_url::DataUrl;
use data_url::forgiving_base64::{DecodeError, decode_to_vec};
use data_url::parts::{Body, Fed, InvalidBase64Details, LeftOver, Part, Progress};
use std::alloc::{AllocError, Global};
use std::process::Abort;
use std::test::Fail;

/// The length of the longest output.
const MOST: usize = 4096;

/// More parts than any of the texts has.
const PLENTY: usize = 100_000;

/// What is in an output before a call.
const UNTOUCHED: u8 = 0xAA;

/// The number for a text that is valid, above those of faults: the unexpected byte, and 256 to 258.
const VALID: u16 = 999;

/// Tails of bodies that are not base64.
const PLAIN: [&str; 9] = [
    "",
    "#a#%41",
    "Hello%20World!",
    "%e2%82%AC%C3%A4\u{20ac}\u{e4}\u{10348}",
    "%4\t1%\n\r\t4\n1b%\r#%41",
    "\t\n\r\t\n\r\t#",
    "%%%%4%41%4%zz%",
    "%41%42%43%44%45%46%47%48%49%4A%4B%4C%4D%4E%4F%50%51%52%53%54%55%56%57#x",
    "letters alone, seventy of them, so that each output is shorter: abcdefg%",
];

/// Tails of bodies of base64, and the number of the fault.
const BASE64: [(&str, u16); 14] = [
    ("", VALID),
    ("QQ==#x", VALID),
    ("QUI=", VALID),
    ("QUJD\r\nREVG\r\nR0hJ\r\n\r\nSksg", VALID),
    ("%2B%2B%2b+%2F/%2f%2F#", VALID),
    ("QUJDRA%3D%3D#y", VALID),
    ("Q%4\n1 Q\t%0A %3D%20", VALID),
    ("QUJDREVGR0hJSktMTU5PUFFSU1RVVldYWVo!QUJD#x", 33),
    ("QUJDREVG%", 37),
    ("QUJDREVG\u{e9}", 195),
    ("QUJDRA==QUJD", 256),
    ("QUJDREVG%3D\nQ", 256),
    ("QUJDREVGR#x", 257),
    ("QUJDRA=%20", 258),
];

/// Tails that are not UTF-8, whether they are base64, their bytes, and the place where they end with the number of the
/// fault.
const BYTES: [(&[u8], bool, &[u8], (usize, u16)); 3] = [
    (
        b"a\xff%41%\xc3\tb%4\x801#\xfe",
        false,
        b"a\xffA%\xc3b%4\x801",
        (13, VALID),
    ),
    (b"QUJD#\xff", true, b"ABC", (4, VALID)),
    (b"QUJDREV\xffQUJD", true, b"ABC", (0, 255)),
];

/// Texts of base64, and the number of the fault.
const TEXTS: [(&str, u16); 9] = [
    ("QUI =", VALID),
    ("QUJDREVGR0hJSktMTU5PUFFSU1RVVldYWVphYmNkZWZnaGlqaw", VALID),
    ("Q U\nJ\tD\r\n\r\n R E V G=", 258),
    ("QUJDQUJDQUJDQUJD-QUJD", 45),
    ("QUJDQQ=\u{e9}", 195),
    ("QUJDQQ== Q", 256),
    ("QUJDREVGR", 257),
    ("QUJDRA=", 258),
    ("QUJDRA== =", 258),
];

/// Returns the number for a fault.
fn number_of(details: InvalidBase64Details) -> u16 {
    match details {
        InvalidBase64Details::UnexpectedSymbol(byte) => u16::from(byte),
        InvalidBase64Details::AlphabetSymbolAfterPadding => 256,
        InvalidBase64Details::LoneAlphabetSymbol => 257,
        InvalidBase64Details::Padding => 258,
    }
}

/// Appends the first `len` bytes of an output. Asserts that the rest of it is untouched.
fn take_front(
    rt: &impl Abort,
    output: &[u8],
    len: usize,
    bytes: &mut Vec<u8>,
) -> Result<(), AllocError> {
    let (front, rest) = output.split_at(len.min(output.len()));
    assert_that(rt, "output", rest.iter().all(|byte| *byte == UNTOUCHED));
    bytes.extend_from_slice(front)
}

/// Appends the next part of a body that an output of this length gets. Returns the rest of the body, or the place where
/// it ended and the number of its fault.
fn next_part<'a>(
    rt: &impl Abort,
    body: Body<'a>,
    size: usize,
    bytes: &mut Vec<u8>,
) -> Result<Result<Body<'a>, (usize, u16)>, AllocError> {
    let mut room = [UNTOUCHED; MOST];
    let (output, _) = room.split_at_mut(size.min(MOST));
    let Part { len, progress } = body.next_part(output);
    let step = match progress {
        Progress::More(rest) => Ok(rest),
        Progress::End(place) => Err((place, VALID)),
        Progress::Fault(details) => Err((0, number_of(details))),
    };
    take_front(rt, output, len, bytes)?;
    Ok(step)
}

/// Appends a body in parts, by outputs of this length, or of four bytes after one that got nothing. If its tail is
/// given, with whether it is base64, it goes on each time from its place there, and an output that is as long as the
/// rest is enough. Returns the place where it ended and the number of its fault.
fn read_in<'a>(
    rt: &impl Abort,
    mut body: Body<'a>,
    from: Option<(&'a [u8], bool)>,
    size: usize,
    bytes: &mut Vec<u8>,
) -> Result<(usize, u16), AllocError> {
    let mut room = size;
    for _ in 0..PLENTY {
        let rest = match next_part(rt, body, room, bytes)? {
            Ok(rest) => rest,
            Err(end) => return Ok(end),
        };
        let left = from.map_or(0, |from| from.0.len().saturating_sub(body.place()));
        assert_that(rt, "one part", (room < left.max(6)) | from.is_none());
        let is_further = body.place() < rest.place();
        assert_that(rt, "further", is_further | (room < 4));
        room = if is_further { size } else { 4 };
        let resumed = match from {
            Some((tail, base64)) => Body::resume(tail, base64, rest.place(), rest.left_over()),
            None => Some(rest),
        };
        body = resumed.unwrap_or(body);
    }
    Ok((0, 0))
}

/// Appends a body by `decode`. Returns the number of its fault.
fn decode(url: &DataUrl, bytes: &mut Vec<u8>) -> u16 {
    match url.decode(|piece: &[u8]| -> Result<(), AllocError> { bytes.extend_from_slice(piece) }) {
        Ok(_) => VALID,
        Err(DecodeError::InvalidBase64(refusal)) => number_of(refusal.details()),
        Err(DecodeError::WriteError(AllocError)) => 0,
    }
}

/// Asserts the bytes of a body in parts of this length, with the place where it ends and the number of its fault.
fn assert_parts(
    rt: &impl Abort,
    alloc: Global,
    url: &DataUrl,
    from: (&str, bool),
    size: usize,
    wanted: &[u8],
    end: (usize, u16),
) -> Result<(), AllocError> {
    let (tail, base64) = from;
    for from in [None, Some((tail.as_bytes(), base64))] {
        let mut bytes = Vec::new(alloc);
        let found = read_in(rt, Body::new(url), from, size, &mut bytes)?;
        assert_that(rt, tail, found == end);
        assert_same(rt, tail, bytes.as_slice(), wanted);
    }
    Ok(())
}

/// Asserts the body of a tail in parts of each length: it is that of `decode` and, if it is valid, of `decode_to_vec`.
fn assert_tail(
    rt: &impl Abort,
    alloc: Global,
    tail: &str,
    base64: bool,
    number: u16,
) -> Result<(), Fail> {
    let header = if base64 { ";base64" } else { "" };
    let text = format!(in alloc; "data:{header},{tail}")?;
    let url = DataUrl::process(alloc, text.as_str())?;
    let mut bytes = Vec::new(alloc);
    assert_that(rt, tail, decode(&url, &mut bytes) == number);
    let wanted = bytes.as_slice();
    let mut end = (0, number);
    if let Ok((body, _)) = url.decode_to_vec(alloc) {
        assert_same(rt, tail, body.as_slice(), wanted);
        end = (tail.find('#').unwrap_or(tail.len()), VALID);
    }
    for size in 2..71 {
        assert_parts(rt, alloc, &url, (tail, base64), size, wanted, end)?;
    }
    for size in [511, 512, 513, MOST] {
        assert_parts(rt, alloc, &url, (tail, base64), size, wanted, end)?;
    }
    Ok(())
}

#[test]
fn short_bodies_in_parts(rt: HostRuntime) -> Result<(), Fail> {
    for tail in PLAIN.as_slice() {
        assert_tail(&rt, rt.alloc(), tail, false, VALID)?;
    }
    for (tail, number) in BASE64.as_slice() {
        assert_tail(&rt, rt.alloc(), tail, true, *number)?;
    }
    Ok(())
}

#[test]
fn long_bodies_in_parts(rt: HostRuntime) -> Result<(), Fail> {
    for part in ["abcdefgh", "%41%c3%A9", "a%4\n2\tb%", "x%41 twelve more"].as_slice() {
        let tail = part.repeat(rt.alloc(), 520)?;
        assert_tail(&rt, rt.alloc(), tail.as_str(), false, VALID)?;
    }
    for part in ["QUJDREVG", "QUJD\nQ%55JD", " Q%2BR%2f\t+%4\t1"].as_slice() {
        let tail = part.repeat(rt.alloc(), 520)?;
        assert_tail(&rt, rt.alloc(), tail.as_str(), true, VALID)?;
    }
    Ok(())
}

/// Returns the sum of the bytes of a body. They are read into a buffer of 64 bytes, part by part.
fn sum_of_body(url: &DataUrl) -> Result<u32, InvalidBase64Details> {
    let mut buffer = [0; 64];
    let mut sum: u32 = 0;
    let mut body = Body::new(url);
    for _ in 0..u64::MAX {
        let Part { len, progress } = body.next_part(&mut buffer);
        for byte in buffer.iter().take(len) {
            sum = sum.wrapping_add(u32::from(*byte));
        }
        match progress {
            Progress::More(rest) => body = rest,
            Progress::End(_) => return Ok(sum),
            Progress::Fault(details) => return Err(details),
        }
    }
    Ok(sum)
}

/// URLs, and the sums of the bytes of their bodies, or None if the base64 is not valid.
const SUMS: [(&str, Option<u32>); 4] = [
    ("data:,Hello%20World!#x", Some(1085)),
    ("data:;base64,SGVsbG8gV29ybGQh", Some(1085)),
    ("data:;base64,SGVsbG8gV29ybGQ", Some(1052)),
    ("data:;base64,SGVsbG8gV29yb", None),
];

#[test]
fn sums_of_bodies(rt: HostRuntime) -> Result<(), Fail> {
    for (text, sum) in SUMS.as_slice() {
        let url = DataUrl::process(rt.alloc(), text)?;
        assert_that(&rt, text, sum_of_body(&url).ok() == *sum);
    }
    Ok(())
}

#[test]
fn tails_that_are_not_text(rt: HostRuntime) -> Result<(), Fail> {
    for (tail, base64, wanted, end) in BYTES.as_slice() {
        for size in 2..20 {
            let mut bytes = Vec::new(rt.alloc());
            if let Some(body) = Body::resume(tail, *base64, 0, LeftOver::new()) {
                let found = read_in(&rt, body, Some((*tail, *base64)), size, &mut bytes)?;
                assert_that(&rt, "end", found == *end);
            }
            assert_same(&rt, "bytes", bytes.as_slice(), wanted);
        }
    }
    Ok(())
}

/// The longest output that base64 is fed to.
const LONGEST_OUTPUT: usize = 20;

/// Feeds a part of base64 to an output of this length, after what is left over, which is taken apart and made again.
/// Appends the bytes. Returns how much was read, and what is left over or the number of the fault.
fn feed(
    rt: &impl Abort,
    left_over: LeftOver,
    part: &[u8],
    size: usize,
    bytes: &mut Vec<u8>,
) -> Result<(usize, Result<LeftOver, u16>), AllocError> {
    let (symbols, pending, padding) = left_over.into_parts();
    let same = LeftOver::from_parts(symbols, pending, padding);
    let mut room = [UNTOUCHED; LONGEST_OUTPUT];
    let (output, _) = room.split_at_mut(size.min(LONGEST_OUTPUT));
    let Fed {
        read,
        len,
        left_over,
    } = same.unwrap_or(LeftOver::new()).feed(part, output);
    let groups = (size / 3).saturating_mul(4);
    let symbols = part.len().saturating_add(pending);
    let expected = if symbols <= groups.saturating_add(size % 3).saturating_add(1) {
        part.len()
    } else {
        groups.saturating_sub(pending)
    };
    assert_that(rt, "read", read == expected);
    take_front(rt, output, len, bytes)?;
    Ok((read, left_over.map_err(number_of)))
}

/// Appends the bytes of base64 that is fed in parts of a length, to outputs of a length. Returns the number of its
/// fault.
fn feed_in(
    rt: &impl Abort,
    text: &[u8],
    sizes: [usize; 2],
    bytes: &mut Vec<u8>,
) -> Result<u16, AllocError> {
    let [part_len, size] = sizes;
    let mut left_over = LeftOver::new();
    let mut rest = text;
    for _ in 0..text.len() {
        let part = rest.get(..part_len).unwrap_or(rest);
        let (read, fed) = feed(rt, left_over, part, size, bytes)?;
        rest = rest.get(read..).unwrap_or(&[]);
        match fed {
            Ok(fed) => left_over = fed,
            Err(number) => return Ok(number),
        }
    }
    let mut last = [UNTOUCHED; 2];
    let finished = left_over.finish(&mut last);
    take_front(rt, &last, finished.unwrap_or(0), bytes)?;
    Ok(match finished {
        Ok(_) => VALID,
        Err(details) => number_of(details),
    })
}

/// Feeds the bytes of a text one by one, and an empty part before each and at the end, to an output with room for a
/// group and its rest.
#[test]
fn empty_parts_and_many_padding_signs(rt: HostRuntime) -> Result<(), Fail> {
    let signs = "=".repeat(rt.alloc(), 258)?;
    let many = format!(in rt.alloc(); "QQ{signs}")?;
    for (text, number, wanted) in [
        (many.as_str(), 258, ""),
        ("QUJDQUI=", VALID, "ABCAB"),
    ].as_slice()
    {
        let mut bytes = Vec::new(rt.alloc());
        let mut left_over = LeftOver::new();
        for byte in text.as_bytes().chunks(1) {
            let (_, kept) = feed(&rt, left_over, b"", 5, &mut bytes)?;
            let (_, kept) = feed(&rt, kept.unwrap_or(LeftOver::new()), byte, 5, &mut bytes)?;
            left_over = kept.unwrap_or(LeftOver::new());
        }
        let (read, kept) = feed(&rt, left_over, b"", 0, &mut bytes)?;
        assert_that(&rt, text, (read == 0) & kept.is_ok());
        let mut last = [UNTOUCHED; 2];
        let finished = left_over.finish(&mut last);
        take_front(&rt, &last, finished.unwrap_or(0), &mut bytes)?;
        let found = finished.map_or_else(number_of, |_| VALID);
        assert_that(&rt, text, found == *number);
        assert_same(&rt, text, bytes.as_slice(), wanted.as_bytes());
    }
    Ok(())
}

/// Lengths of outputs: some have a byte for each symbol of a part, and some have not.
const OUTPUTS: [usize; 10] = [3, 4, 5, 6, 7, 8, 9, 15, 16, LONGEST_OUTPUT];

#[test]
fn base64_in_parts(rt: HostRuntime) -> Result<(), Fail> {
    for (text, number) in TEXTS.as_slice() {
        let pieces = [text.as_bytes()];
        let whole = Source::Base64(&pieces).record_both(&rt, rt.alloc(), text, 0)?;
        let decoded = decode_to_vec(rt.alloc(), text.as_bytes());
        assert_that(&rt, text, decoded.is_ok() == (*number == VALID));
        // Parts of 1 to 18 bytes: some are longer than a row.
        for sizes in 0..18 * OUTPUTS.len() {
            let sizes = [sizes % 18 + 1, OUTPUTS[sizes / 18]];
            let mut bytes = Vec::new(rt.alloc());
            let found = feed_in(&rt, text.as_bytes(), sizes, &mut bytes)?;
            assert_that(&rt, text, found == *number);
            assert_same(&rt, text, bytes.as_slice(), whole.bytes.as_slice());
        }
    }
    Ok(())
}

#[test]
fn values_that_no_call_returned(rt: HostRuntime) -> Result<(), Fail> {
    let made = |pending, padding| LeftOver::from_parts([b'Q', b'+', b'!'], pending, padding);
    assert_that(&rt, "a byte", made(2, 3).is_some() & made(3, 0).is_none());
    assert_that(&rt, "numbers", made(4, 0).is_none() & made(2, 4).is_none());
    let tail = b"QUJD";
    let none = LeftOver::new();
    let resumed = |base64, place, left_over| Body::resume(tail, base64, place, left_over);
    assert_that(
        &rt,
        "at the end",
        resumed(true, 4, none).is_some() & resumed(false, 4, none).is_some(),
    );
    assert_that(
        &rt,
        "past it",
        resumed(true, 5, none).is_none() & resumed(false, 5, none).is_none(),
    );
    let symbol = made(1, 0).unwrap_or(none);
    let sign = made(0, 1).unwrap_or(none);
    assert_that(
        &rt,
        "base64",
        resumed(true, 0, symbol).is_some() & resumed(true, 0, sign).is_some(),
    );
    assert_that(
        &rt,
        "plain",
        resumed(false, 0, symbol).is_none() & resumed(false, 0, sign).is_none(),
    );
    Ok(())
}
