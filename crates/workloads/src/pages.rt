//! Saved pages and style sheets: icons, pictures and fonts in base64, of all sizes. Most are clean, some are in lines
//! or have escapes for `+`, `/` and `=`.

use crate::bench::Bench;
use std::alloc::AllocError;

/// How many rows a pool has.
const ROWS: usize = 512;

/// The headers of icons, pictures and fonts, from the scheme on.
const HEADERS: [&str; 12] = [
    "data:image/png;base64,",
    "data:image/png;base64,",
    "data:image/jpeg;base64,",
    "data:image/gif;base64,",
    "data:image/svg+xml;base64,",
    "data:image/svg+xml;charset=utf-8;base64,",
    "data:application/font-woff;charset=utf-8;base64,",
    "data:font/woff2;base64,",
    "data:application/x-font-ttf;base64,",
    "data:application/octet-stream;base64,",
    "DATA:image/PNG;base64,",
    "data:image/webp; base64,",
];

/// Symbols of base64 as a text has them.
#[derive(Clone, Copy)]
struct Shape {
    /// How many symbols a line has.
    width: usize,
    /// What comes after each line.
    end: &'static str,
    /// Whether `+` and `/` are written as escapes.
    is_escaped: bool,
}

/// Returns a row of some lines.
fn row(bench: &mut Bench, shape: Shape, lines: usize) -> Result<String, AllocError> {
    let mut row = String::new(bench.alloc);
    for _ in 0..lines {
        for _ in 0..shape.width {
            match bench.random.symbol() {
                b'+' if shape.is_escaped => row.push_str("%2B")?,
                b'/' if shape.is_escaped => row.push_str("%2F")?,
                symbol => row.push(char::from(symbol))?,
            }
        }
        row.push_str(shape.end)?;
    }
    Ok(row)
}

/// Returns rows of some lines each.
pub(crate) fn rows(
    bench: &mut Bench,
    width: usize,
    end: &'static str,
    lines: usize,
) -> Result<Vec<String>, AllocError> {
    let is_escaped = false;
    let shape = Shape {
        width,
        end,
        is_escaped,
    };
    rows_of(bench, shape, lines)
}

/// Returns rows of a shape.
fn rows_of(bench: &mut Bench, shape: Shape, lines: usize) -> Result<Vec<String>, AllocError> {
    let mut rows = Vec::new(bench.alloc);
    for _ in 0..ROWS {
        rows.push(row(bench, shape, lines)?)?;
    }
    Ok(rows)
}

/// Decodes URLs of pages: of ten, six are icons, three pictures, and one is a font.
pub(crate) fn run(bench: &mut Bench, count: u64) -> Result<(), AllocError> {
    let clean = rows(bench, 512, "", 1)?;
    let lines = rows(bench, 76, "\n", 4)?;
    let escaped = Shape {
        width: 256,
        end: "",
        is_escaped: true,
    };
    let escaped = rows_of(bench, escaped, 1)?;
    for _ in 0..count {
        let header = bench.random.choose(&HEADERS);
        bench.begin(header)?;
        let len = match bench.random.below(10) {
            0..=5 => bench.random.size(300, 4),
            6..=8 => bench.random.size(2 * 1024, 6),
            _ => bench.random.size(20 * 1024, 2),
        };
        match bench.random.below(10) {
            0..=6 => bench.push_rows(&clean, len)?,
            7..=8 => bench.push_rows(&lines, len)?,
            _ => bench.push_rows(&escaped, len)?,
        }
        bench.push_number()?;
        let end = bench.random.choose(&["", "", "AA==", "AA%3D%3D", "AAA="]);
        bench.push(end)?;
        if bench.random.happens(5) {
            bench.push("#icon-name")?;
        }
        if bench.random.happens(33) {
            bench.read_url_in_pieces()?;
        } else {
            bench.read_url()?;
        }
    }
    Ok(())
}
