//! Types alone, as crawlers and content policies read them: the headers of URLs, and the values of `Content-Type`.

use crate::bench::Bench;
use std::alloc::AllocError;

/// Types and subtypes.
const TYPES: [&str; 12] = [
    "text/html",
    "text/plain",
    "text/css",
    "application/json",
    "application/octet-stream",
    "application/vnd.ms-excel",
    "image/svg+xml",
    "image/png",
    "Image/PNG",
    "multipart/form-data",
    "TEXT/HTML",
    "font/woff2",
];

/// Parameters.
const PARAMETERS: [&str; 12] = [
    ";charset=utf-8",
    ";charset=utf-8",
    "; charset=utf-8",
    ";charset=UTF-8",
    "; charset=\"utf-8\"",
    ";charset=iso-8859-1",
    ";Charset=windows-1252",
    "; boundary=----WebKitFormBoundary7MA4YWxkTrZu0gW",
    "; boundary=\"=_Part 1; of \\\"two\\\"\"",
    ";q=0.9",
    "; name=\"report 2026.xls\"",
    ";utf8",
];

/// Reads the types of URLs, and values of `Content-Type`: with no parameter, one or two.
pub(crate) fn run(bench: &mut Bench, count: u64) -> Result<(), AllocError> {
    for _ in 0..count {
        let is_url = bench.random.happens(50);
        bench.begin(if is_url { "data:" } else { "" })?;
        let is_empty = is_url && bench.random.happens(10);
        if !is_empty {
            let name = bench.random.choose(&TYPES);
            bench.push(name)?;
            let parameters = match bench.random.below(10) {
                0..=2 => 0,
                3..=7 => 1,
                _ => 2,
            };
            for _ in 0..parameters {
                let parameter = bench.random.choose(&PARAMETERS);
                bench.push(parameter)?;
            }
            if bench.random.happens(3) {
                bench.push(";name=Überblick")?;
            }
            bench.push(";v=")?;
            bench.push_number()?;
        }
        if is_url {
            let end = bench.random.choose(&[";base64,", ",", ","]);
            bench.push(end)?;
            bench.push_number()?;
            bench.read_url_type()?;
        } else {
            bench.read_type()?;
        }
    }
    Ok(())
}
