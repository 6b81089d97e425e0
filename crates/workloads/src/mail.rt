//! Mail attachments, PEM, secrets and `atob`: base64 in lines of several kinds, short and long, whole and in parts.

use crate::bench::Bench;
use crate::pages::rows;
use std::alloc::AllocError;

/// Decodes texts of base64: of twenty, fourteen are short, three are whole attachments, and three come in parts.
pub(crate) fn run(bench: &mut Bench, count: u64) -> Result<(), AllocError> {
    let clean = rows(bench, 512, "", 1)?;
    let short = rows(bench, 20, "", 1)?;
    let mime = rows(bench, 76, "\r\n", 4)?;
    let pem = rows(bench, 64, "\n", 4)?;
    let indented = rows(bench, 76, "\n    ", 4)?;
    for _ in 0..count {
        bench.begin("")?;
        let kind = bench.random.below(20);
        if kind < 14 {
            let len = bench.random.size(12, 3);
            bench.push_rows(&short, len)?;
            bench.push_number()?;
            let end = bench.random.choose(&["", "", "\n", "AA==", "AAA="]);
            bench.push(end)?;
            bench.read_base64()?;
            continue;
        }
        let len = match bench.random.below(20) {
            0 => bench.random.size(256 * 1024, 2),
            _ => bench.random.size(1024, 6),
        };
        let start = bench.random.choose(&["", "\n", "    "]);
        bench.push(start)?;
        match bench.random.below(10) {
            0..=3 => bench.push_rows(&mime, len)?,
            4..=5 => bench.push_rows(&pem, len)?,
            6 => bench.push_rows(&indented, len)?,
            _ => bench.push_rows(&clean, len)?,
        }
        bench.push_number()?;
        let end = bench.random.choose(&["", "\n", "\r\n", "AA==\n"]);
        bench.push(end)?;
        if kind < 17 {
            bench.read_base64()?;
        } else {
            let size = bench.random.size(1024, 6);
            bench.feed_base64(size)?;
        }
    }
    Ok(())
}
