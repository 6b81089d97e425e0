//! Icons of a style sheet: SVG, percent-encoded by hand or by a tool that leaves most marks as they are.

use crate::bench::Bench;
use std::alloc::AllocError;

/// How many rows a pool has.
const ROWS: usize = 1024;

/// What a tool writes at the start of an icon.
const HEADERS: [&str; 4] = [
    "data:image/svg+xml,%3Csvg xmlns='http://www.w3.org/2000/svg' viewBox='0 0 24 24'%3E",
    "data:image/svg+xml;charset=utf8,%3Csvg xmlns='http://www.w3.org/2000/svg' width='16' height='16'%3E",
    "data:image/svg+xml;charset=utf-8,%3Csvg%20xmlns%3D%22http%3A%2F%2Fwww.w3.org%2F2000%2Fsvg%22%3E",
    "data:image/svg+xml;utf8,%3Csvg xmlns='http://www.w3.org/2000/svg' fill='none'%3E",
];

/// Returns a path of an icon, with a text for each space and each quote.
fn path(bench: &mut Bench, space: &str, quote: &str) -> Result<String, AllocError> {
    let mut row = String::from_str(bench.alloc, "%3Cpath")?;
    row.push_str(space)?;
    row.push_str("fill=")?;
    row.push_str(quote)?;
    let colour = bench.random.below(0x100_0000);
    row.push_str(format!(in bench.alloc; "%23{colour:06x}")?.as_str())?;
    row.push_str(quote)?;
    row.push_str(space)?;
    row.push_str("d=")?;
    row.push_str(quote)?;
    for _ in 0..bench.random.size(4, 3) {
        row.push_str(bench.random.choose(&["M", "l", "h", "v", "c", "a", "z"]))?;
        let whole = bench.random.below(24);
        let tenths = bench.random.below(100);
        row.push_str(format!(in bench.alloc; "{whole}.{tenths}")?.as_str())?;
        row.push_str(bench.random.choose(&[space, space, "-", ","]))?;
        row.push_str(format!(in bench.alloc; "{tenths}.{whole}")?.as_str())?;
    }
    row.push_str(quote)?;
    row.push_str("/%3E")?;
    Ok(row)
}

/// Returns rows of paths.
fn rows(bench: &mut Bench, space: &str, quote: &str) -> Result<Vec<String>, AllocError> {
    let mut rows = Vec::new(bench.alloc);
    for _ in 0..ROWS {
        rows.push(path(bench, space, quote)?)?;
    }
    Ok(rows)
}

/// Decodes icons of 0.3 to 4 KiB.
pub(crate) fn run(bench: &mut Bench, count: u64) -> Result<(), AllocError> {
    let plain = rows(bench, " ", "'")?;
    let encoded = rows(bench, "%20", "%22")?;
    for _ in 0..count {
        let header = bench.random.choose(&HEADERS);
        bench.begin(header)?;
        let len = bench.random.size(300, 4);
        if bench.random.happens(60) {
            bench.push_rows(&plain, len)?;
        } else {
            bench.push_rows(&encoded, len)?;
        }
        bench.push("%3C!--")?;
        bench.push_number()?;
        bench.push("--%3E%3C/svg%3E")?;
        if bench.random.happens(15) {
            bench.push("#icon-name")?;
        }
        if bench.random.happens(33) {
            bench.read_url_in_pieces()?;
        } else {
            bench.read_url()?;
        }
    }
    Ok(())
}
