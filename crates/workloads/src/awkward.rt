//! Inputs that are awkward to read: many parameters, a space after each symbol, tabs and newlines inside escapes, runs
//! of `%` that begin no escape, and base64 with a fault near its end.

use crate::bench::Bench;
use crate::pages::rows;
use std::alloc::AllocError;

/// Returns parameters whose names are alike and whose values are quoted.
fn parameters(bench: &mut Bench) -> Result<Vec<String>, AllocError> {
    let mut rows = Vec::new(bench.alloc);
    for number in 0..512 {
        let name = bench.random.choose(&["name", "Name", "file-name", "part"]);
        rows.push(format!(in bench.alloc; ";{name}{number}=\"C:\\\\a\\\\b {number}.txt\\\"\"")?)?;
    }
    Ok(rows)
}

/// Returns rows of text with tabs and newlines in its escapes, or with lone percent signs.
fn broken_rows(bench: &mut Bench, is_cut: bool) -> Result<Vec<String>, AllocError> {
    let cut = ["%4\n1", "%\t41", "%C\t3%A\r4", "%20", "ab\ncd", "e", "\t"];
    let lone = ["100%", "%%%", "%zz", "50% of ", "%2", "%41", "%-", "abc"];
    let mut rows = Vec::new(bench.alloc);
    for _ in 0..512 {
        let mut row = String::new(bench.alloc);
        for _ in 0..16 {
            let unit = bench
                .random
                .choose(if is_cut { &cut[..] } else { &lone[..] });
            row.push_str(unit)?;
            row.push(char::from(bench.random.symbol()))?;
        }
        rows.push(row)?;
    }
    Ok(rows)
}

/// Reads awkward inputs: of thirteen, one is a MIME type of many parameters, and three are of each other kind.
pub(crate) fn run(bench: &mut Bench, count: u64) -> Result<(), AllocError> {
    let parameters = parameters(bench)?;
    let spaced = rows(bench, 1, " ", 64)?;
    let clean = rows(bench, 64, "", 1)?;
    let cut = broken_rows(bench, true)?;
    let lone = broken_rows(bench, false)?;
    for number in 0..count {
        match number % 13 {
            0 => {
                bench.begin("multipart/form-data")?;
                let len = bench.random.size(2 * 1024, 3);
                bench.push_rows(&parameters, len)?;
                bench.push(";v=")?;
                bench.push_number()?;
                bench.read_type()?;
            }
            1..=3 => {
                bench.begin("")?;
                let len = bench.random.size(512, 4);
                bench.push_rows(&spaced, len)?;
                bench.push_number()?;
                bench.read_base64()?;
            }
            4..=6 => {
                bench.begin("\tDa\nta:text/\nhtml;charset=\tutf-8,")?;
                let len = bench.random.size(512, 4);
                bench.push_rows(&cut, len)?;
                bench.push_number()?;
                bench.read_url()?;
            }
            7..=9 => {
                bench.begin("data:text/plain,")?;
                let len = bench.random.size(512, 4);
                bench.push_rows(&lone, len)?;
                bench.push_number()?;
                bench.read_url_in_pieces()?;
            }
            _ => {
                bench.begin("data:image/png;base64,")?;
                let len = bench.random.size(2 * 1024, 5);
                bench.push_rows(&clean, len)?;
                bench.push_number()?;
                bench.push("A*==")?;
                bench.read_url()?;
            }
        }
    }
    Ok(())
}
