//! Texts that `encodeURIComponent` wrote: HTML, JSON, CSV and texts in several languages, some with a fragment that
//! names a part of the text.

use crate::bench::Bench;
use std::alloc::AllocError;

/// How many rows a pool has.
const ROWS: usize = 512;

/// Words of texts in several languages.
const WORDS: [&str; 32] = [
    "the",
    "quick",
    "brown",
    "fox",
    "jumps",
    "over",
    "lazy",
    "dogs",
    "and",
    "reads",
    "a",
    "long",
    "book",
    "about",
    "fonts",
    "in",
    "Größe",
    "für",
    "Übung",
    "schön",
    "straße",
    "été",
    "garçon",
    "déjà",
    "naïve",
    "où",
    "книга",
    "читает",
    "быстрая",
    "日本語",
    "本文",
    "文字",
];

/// The headers of texts.
const HEADERS: [&str; 6] = [
    "data:text/html,",
    "data:text/html;charset=utf-8,",
    "data:text/csv;charset=utf-8,",
    "data:application/json;charset=utf-8,",
    "data:application/json,",
    "data:text/plain;charset=UTF-8,",
];

/// Adds a text as `encodeURIComponent` writes it.
fn push_encoded(row: &mut String, text: &str) -> Result<(), AllocError> {
    let digits = b"0123456789ABCDEF";
    for byte in text.as_bytes() {
        match *byte {
            b'A'..=b'Z' | b'a'..=b'z' | b'0'..=b'9' => row.push(char::from(*byte))?,
            b'-' | b'_' | b'.' | b'!' | b'~' | b'*' | b'\'' | b'(' | b')' => {
                row.push(char::from(*byte))?
            }
            _ => {
                row.push('%')?;
                row.push(char::from(digits[(*byte / 16) as usize]))?;
                row.push(char::from(digits[(*byte % 16) as usize]))?;
            }
        }
    }
    Ok(())
}

/// Adds some words, with a text between them.
fn push_words(
    bench: &mut Bench,
    row: &mut String,
    words: &[&str],
    count: usize,
    between: &str,
) -> Result<(), AllocError> {
    for number in 0..count {
        if number > 0 {
            push_encoded(row, between)?;
        }
        push_encoded(row, bench.random.choose(words))?;
    }
    Ok(())
}

/// Returns an element of HTML, a record of JSON, or a line of CSV.
fn row(bench: &mut Bench, kind: usize) -> Result<String, AllocError> {
    let english = &WORDS[..16];
    let european = &WORDS[8..26];
    let other = &WORDS[26..];
    let mut row = String::new(bench.alloc);
    match kind {
        0 => {
            push_encoded(&mut row, "<p class=\"note\">")?;
            push_words(bench, &mut row, english, 12, " ")?;
            push_encoded(&mut row, ", <a href=\"/pages/index.html?page=")?;
            push_words(bench, &mut row, english, 2, "-")?;
            push_encoded(&mut row, "\">more</a>.</p>\n")?;
        }
        1 => {
            push_encoded(&mut row, "{\"name\":\"")?;
            push_words(bench, &mut row, english, 2, " ")?;
            push_encoded(&mut row, "\",\"mappings\":[")?;
            let number = bench.random.below(100_000);
            row.push_str(format!(in bench.alloc; "{number}")?.as_str())?;
            push_encoded(&mut row, "],\"tags\":[\"")?;
            push_words(bench, &mut row, english, 4, "\",\"")?;
            push_encoded(&mut row, "\"]},\n")?;
        }
        2 => {
            push_words(bench, &mut row, english, 6, ";")?;
            let number = bench.random.below(1_000_000);
            row.push_str(format!(in bench.alloc; "%2C{number}.50%2C{number}")?.as_str())?;
            push_encoded(&mut row, "\r\n")?;
        }
        3 => {
            push_words(bench, &mut row, european, 14, " ")?;
            push_encoded(&mut row, ". ")?;
        }
        _ => push_words(bench, &mut row, other, 10, " ")?,
    }
    Ok(row)
}

/// Returns the rows of a kind of text.
fn rows(bench: &mut Bench, kind: usize) -> Result<Vec<String>, AllocError> {
    let mut rows = Vec::new(bench.alloc);
    for _ in 0..ROWS {
        rows.push(row(bench, kind)?)?;
    }
    Ok(rows)
}

/// Adds a fragment that names a part of the text.
fn push_fragment(bench: &mut Bench) -> Result<(), AllocError> {
    bench.push("#:~:text=")?;
    for _ in 0..bench.random.size(2, 9) {
        let word = bench.random.choose(&WORDS);
        bench.push(word)?;
        let between = bench
            .random
            .choose(&[" ", " ", " ", "%20", ", ", " \"", "> <"]);
        bench.push(between)?;
    }
    Ok(())
}

/// Decodes texts of 1 KiB to 1 MiB; small ones are more frequent.
pub(crate) fn run(bench: &mut Bench, count: u64) -> Result<(), AllocError> {
    let html = rows(bench, 0)?;
    let json = rows(bench, 1)?;
    let csv = rows(bench, 2)?;
    let european = rows(bench, 3)?;
    let other = rows(bench, 4)?;
    for _ in 0..count {
        let header = bench.random.choose(&HEADERS);
        bench.begin(header)?;
        let doublings = match bench.random.below(40) {
            0 => 10,
            _ => 6,
        };
        let len = bench.random.size(1024, doublings);
        match bench.random.below(10) {
            0..=2 => bench.push_rows(&html, len)?,
            3..=5 => bench.push_rows(&json, len)?,
            6 => bench.push_rows(&csv, len)?,
            7..=8 => bench.push_rows(&european, len)?,
            _ => bench.push_rows(&other, len)?,
        }
        bench.push_number()?;
        if bench.random.happens(30) {
            push_fragment(bench)?;
        }
        if bench.random.happens(33) {
            bench.read_url_in_pieces()?;
        } else {
            bench.read_url()?;
        }
    }
    Ok(())
}
