//! Fragments in parts, beside what encodes them at once.

use super::recorder::fragment_text;
use super::{assert_same, assert_that};
use data_url::DataUrl;
use data_url::parts::{Encoded, encode_fragment};
use std::alloc::{AllocError, Global};
use std::convert::Infallible;
use std::process::Abort;
use std::test::Fail;

/// The length of the longest output.
const MOST: usize = 1024;

/// What is in an output before a call.
const UNTOUCHED: u8 = 0xAA;

/// Texts after `#`, and how they are encoded.
const FRAGMENTS: [(&str, &str); 6] = [
    ("", ""),
    ("a\t`\u{e9} b", "a%60%C3%A9%20b"),
    (
        "x y\"<>`\u{7f}\u{20ac}%41%#\n",
        "x%20y%22%3C%3E%60%7F%E2%82%AC%41%#",
    ),
    ("\t\r\n\t", ""),
    (
        "letters alone, without spaces_and-so-on",
        "letters%20alone,%20without%20spaces_and-so-on",
    ),
    ("\0\u{1f} ~\u{10348}", "%00%1F%20~%F0%90%8D%88"),
];

/// Appends what is encoded of a text in parts, by outputs of this length.
fn encode_in(
    rt: &impl Abort,
    text: &[u8],
    size: usize,
    bytes: &mut Vec<u8>,
) -> Result<(), AllocError> {
    let mut rest = text;
    for _ in 0..text.len() {
        let mut room = [UNTOUCHED; MOST];
        let (output, _) = room.split_at_mut(size.min(MOST));
        let Encoded { read, len } = encode_fragment(rest, output);
        let (front, untouched) = output.split_at(len.min(output.len()));
        assert_that(
            rt,
            "output",
            untouched.iter().all(|byte| *byte == UNTOUCHED),
        );
        let is_all = read == rest.len();
        assert_that(rt, "full", is_all | (untouched.len() < 3));
        assert_that(rt, "further", (read > 0) | rest.is_empty());
        assert_that(rt, "all", is_all | (size / 3 < rest.len()));
        bytes.extend_from_slice(front)?;
        rest = rest.get(read..).unwrap_or(&[]);
    }
    assert_that(rt, "end", rest.is_empty());
    Ok(())
}

/// Asserts that a fragment is encoded so, at once and in parts of each length.
fn assert_encoded(rt: &impl Abort, alloc: Global, text: &str, encoded: &str) -> Result<(), Fail> {
    let url = format!(in alloc; "data:,#{text}x")?;
    let decoded = DataUrl::process(alloc, url.as_str())?;
    let Ok(Some(fragment)) = decoded.decode(|_: &[u8]| -> Result<(), Infallible> { Ok(()) }) else {
        assert_that(rt, text, false);
        return Ok(());
    };
    let whole = fragment.to_percent_encoded(alloc)?;
    let wanted = format!(in alloc; "{encoded}x")?;
    assert_same(rt, text, whole.as_bytes(), wanted.as_bytes());
    for size in 3..40 {
        let mut bytes = Vec::new(alloc);
        encode_in(rt, text.as_bytes(), size, &mut bytes)?;
        assert_same(rt, text, bytes.as_slice(), encoded.as_bytes());
    }
    let mut bytes = Vec::new(alloc);
    encode_in(rt, text.as_bytes(), MOST, &mut bytes)?;
    assert_same(rt, text, bytes.as_slice(), encoded.as_bytes());
    Ok(())
}

#[test]
fn short_fragments(rt: HostRuntime) -> Result<(), Fail> {
    for (text, encoded) in FRAGMENTS.as_slice() {
        assert_encoded(&rt, rt.alloc(), text, encoded)?;
    }
    Ok(())
}

#[test]
fn long_fragments(rt: HostRuntime) -> Result<(), Fail> {
    for (part, encoded) in [
        ("abcdefg", "abcdefg"),
        ("\u{e9}`", "%C3%A9%60"),
        ("\ta", "a"),
    ]
    .as_slice()
    {
        let text = part.repeat(rt.alloc(), 300)?;
        let wanted = encoded.repeat(rt.alloc(), 300)?;
        assert_encoded(&rt, rt.alloc(), text.as_str(), wanted.as_str())?;
    }
    Ok(())
}

#[test]
fn outputs_without_room(rt: HostRuntime) -> Result<(), Fail> {
    for size in 0..3 {
        let mut room = [UNTOUCHED; 2];
        let (output, _) = room.split_at_mut(size);
        let Encoded { read, len } = encode_fragment(b"a", output);
        assert_that(&rt, "nothing", (read == 0) & (len == 0));
        assert_that(&rt, "output", room.iter().all(|byte| *byte == UNTOUCHED));
    }
    Ok(())
}

/// Returns `#` and the fragment of a URL with this text after its `#`, percent-encoded.
fn encoded_of(alloc: Global, text: &str) -> Result<String, Fail> {
    let url = format!(in alloc; "data:,#{text}")?;
    let url = DataUrl::process(alloc, url.as_str())?;
    let Ok(fragment) = url.decode(|_: &[u8]| -> Result<(), Infallible> { Ok(()) }) else {
        return Ok(String::new(alloc));
    };
    Ok(fragment_text(alloc, fragment)?)
}

/// Asserts that a fragment, encoded, is read again and encoded to itself.
fn assert_encoded_again(rt: &impl Abort, alloc: Global, text: &str) -> Result<(), Fail> {
    let once = encoded_of(alloc, text)?;
    assert_that(rt, text, once.as_str().starts_with('#'));
    let again = encoded_of(alloc, once.as_str().get(1..).unwrap_or(""))?;
    assert_same(rt, text, again.as_bytes(), once.as_bytes());
    Ok(())
}

#[test]
fn fragments_are_encoded_and_read_again(rt: HostRuntime) -> Result<(), Fail> {
    for (text, _) in FRAGMENTS.as_slice() {
        assert_encoded_again(&rt, rt.alloc(), text)?;
    }
    for byte in 0..=u8::MAX {
        let c = char::from(byte);
        let text = format!(in rt.alloc(); "{c}a{c}{c}%{c}4#{c}z")?;
        assert_encoded_again(&rt, rt.alloc(), text.as_str())?;
        let text = text.as_str().repeat(rt.alloc(), 40)?;
        assert_encoded_again(&rt, rt.alloc(), text.as_str())?;
    }
    Ok(())
}

/// What is encoded of an empty text is empty, whatever the output.
#[test]
fn an_empty_text(rt: HostRuntime) -> Result<(), Fail> {
    for size in 0..4 {
        let mut room = [UNTOUCHED; 3];
        let (output, _) = room.split_at_mut(size);
        let Encoded { read, len } = encode_fragment(b"", output);
        assert_that(&rt, "nothing", (read == 0) & (len == 0));
        assert_that(&rt, "output", room.iter().all(|byte| *byte == UNTOUCHED));
    }
    Ok(())
}
