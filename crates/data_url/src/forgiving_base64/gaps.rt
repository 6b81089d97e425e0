//! White space between the symbols of base64 (Infra Standard, forgiving-base64 decode, step 1). A gap is the white
//! space between two symbols. A unit is the symbols of several rows, without the gaps between them.

ghost use Rattle.std.specs.Prelude.{◌≡◌, ◌*◌, ◌+◌, ◌%◌, ◌≤◌, ◌++◌};
ghost use Rattle.std.specs.Prelude.{IfSome, IsTrue, drop, filter, length, map, slice_index, take, ℕ};
ghost use Rattle.std.specs.{Char.{is_ascii_whitespace}, List.{list_all, prefix_len}};
ghost use Rattle.data_url.specs.Base64.{groups, is_symbol, symbol_value};
ghost use Rattle.data_url.specs.Steps.Groups.{IsOverGap, is_symbol_or_space};

use super::alphabet::{
    decode_row, is_of_symbols, is_spaced, is_symbol, non_symbols, spaced_ahead, symbols_ahead,
};
use crate::classes::lanes::{BLOCK, first_row, put, repeated, row, spliced, spliced_blocks};
use crate::packing::pack_row;
use std::simd::prelude::*;

/// Returns how many bytes of white space a text begins with.
#[inline(always)]
pub(crate) fn spaces_len(text: &[u8]) -> usize
    ensures within { result ≤ length text.now }
    ensures spaces { result ≡ prefix_len is_ascii_whitespace text.now }
{
    text.len() - text.trim_ascii_start().len()
}

/// Returns how many bytes of white space a text of at least three bytes begins with. The ends of lines that are most
/// frequent are tested first.
#[inline(always)]
pub(crate) fn spaces_ahead(text: &[u8]) -> usize
    requires { 3 ≤ length text.now }
    ensures within { result ≤ length text.now }
    ensures spaces { result ≡ prefix_len is_ascii_whitespace text.now }
{
    match (text[0], text[1]) {
        (b'\n', second) if second > b' ' => 1,
        (b'\r', b'\n') if text[2] > b' ' => 2,
        (b'\n', b' ') => 2 + spaces_len(&text[2..]),
        _ => spaces_len(text),
    }
}

/// Returns how many bytes of white space follow the first twelve bytes of a text. `row` is the row that it begins with.
#[inline(always)]
pub(crate) fn spaces_after_twelve(text: &[u8], row: u8x16) -> usize
    requires { (16 ≤ length text.now) × (row ≡ take 16 text.now) }
    ensures within { 12 + result ≤ length text.now }
    ensures spaces { result ≡ prefix_len is_ascii_whitespace (drop 12 text.now) }
{
    // Byte 12 is the only byte of the row that is not a symbol. If it is a newline, it is all the white space.
    if non_symbols(row) == 1 << 12 && text[12] == b'\n' {
        return 1;
    }
    spaces_ahead(&text[12..])
}

/// Returns the first sixteen symbols of a text that has one gap before the last of them, and the length of the gap.
/// Returns None if there are several gaps, or a byte that is neither a symbol nor white space. Returns None too if the
/// text has fewer than 19 bytes or fewer than sixteen symbols.
#[inline(always)]
pub(crate) fn row_over_gap(text: &[u8]) -> Option<(u8x16, usize)>
    ensures { IfSome result (λ r. IsOverGap 16 text.now r.0 r.1) }
{
    if text.len() < 19 {
        return None;
    }
    let first = row(text, 0);
    let before = symbols_ahead(first);
    let spaces = spaces_ahead(&text[before..]);
    if text.len() - 16 < spaces {
        return None;
    }
    let symbols = spliced(first, row(text, spaces), before);
    if !is_of_symbols(repeated(symbols)) {
        return None;
    }
    Some((symbols, spaces))
}

/// Where a line of a text begins, and where it is expected to end: where it does if it is as long as the line before.
#[derive(Clone, Copy)]
pub(crate) struct Line {
    start: usize,
    end: usize,
}

impl Line {
    /// Returns the line that begins at a place, of which no end is expected.
    #[inline(always)]
    pub(crate) fn first(start: usize) -> Line {
        Line {
            start,
            end: usize::MAX,
        }
    }

    /// Returns how many bytes are expected from a place on before the line ends. If no end is expected after the place,
    /// returns more than a text has.
    #[inline(always)]
    pub(crate) fn rest_len(&self, at: usize) -> usize {
        self.end.wrapping_sub(at)
    }

    /// Returns the line after one that ends at a place, with so much white space after it.
    #[inline(always)]
    pub(crate) fn next(&self, end: usize, spaces: usize) -> Line {
        let len = end.wrapping_sub(self.start);
        let start = end.wrapping_add(spaces);
        Line {
            start,
            end: start.wrapping_add(len),
        }
    }
}

/// Returns the first 64 symbols of a text that has one gap before the last of them, after `before` symbols, and the
/// length of the gap, which may be 0. Returns None if there is another gap, or a byte that is neither a symbol nor
/// white space. Returns None too if the text has fewer than 64 symbols, or fewer than three bytes after the first
/// `before` ones.
#[inline(always)]
pub(crate) fn block_over_gap(text: &[u8], before: usize) -> Option<(u8x64, usize)>
    requires { (64 ≤ length text.now) × (before ≤ 64) }
    ensures { IfSome result (λ r. IsOverGap 64 text.now r.0 r.1) }
{
    if text.len() < before + 3 {
        return None;
    }
    let gap = spaces_ahead(&text[before..]);
    if text.len() - BLOCK < gap {
        return None;
    }
    let first = u8x64::from_slice(text);
    let symbols = spliced_blocks(first, u8x64::from_slice(&text[gap..]), before);
    if !is_of_symbols(symbols) {
        return None;
    }
    Some((symbols, gap))
}

/// Packs the symbols of the rows that a text begins with. It ends before a row with a byte that is neither a symbol nor
/// white space, or after the row with which there are at least `enough` symbols. Returns how many symbols are packed,
/// and how many bytes the rows have.
#[inline(always)]
pub(crate) fn pack_rows(text: &[u8], symbols: &mut [u8], enough: usize) -> (usize, usize)
    requires { enough + 32 ≤ length symbols.old }
    ensures sizes { (result.0 ≤ enough + 15) × (result.1 ≤ length text.now) }
    ensures spaced { IsTrue (list_all is_symbol_or_space (take result.1 text.now)) }
    ensures symbols { filter is_symbol (take result.1 text.now) ≡ take result.0 symbols.new }
{
    let mut have = 0;
    let mut at = 0;
    while have < enough && text.len() - at >= 16 {
        let row = row(text, at);
        if !is_spaced(repeated(row)) {
            break;
        }
        have = pack_row(row, non_symbols(row) as usize, symbols, have);
        at += 16;
    }
    (have, at)
}

/// Packs the symbols among the symbols and the white space that a text begins with. Returns how many symbols are
/// packed, and how many bytes of the text were read.
#[inline(always)]
pub(crate) fn pack_spaced(text: &[u8], symbols: &mut [u8]) -> (usize, usize)
    requires some { (1 ≤ length text.now) × IsTrue (is_symbol (slice_index text.now 0)) }
    requires room { length text.now + 48 ≤ length symbols.old }
    ensures sizes { (result.0 ≤ result.1) × ((1 ≤ result.1) × (result.1 ≤ length text.now)) }
    ensures spaced { IsTrue (list_all is_symbol_or_space (take result.1 text.now)) }
    ensures symbols { filter is_symbol (take result.1 text.now) ≡ take result.0 symbols.new }
{
    let (have, at) = pack_rows(text, symbols, text.len());
    let row = first_row(&text[at..]);
    let end = spaced_ahead(row);
    let front = spliced(row, u8x16::splat(0), end);
    let have = pack_row(front, non_symbols(front) as usize, symbols, have);
    (have, at + end)
}

/// Goes back in a text to the end of a whole group, from the place `at`, before which there are `have` symbols. Returns
/// how many symbols come before the new place, and that place.
#[inline(always)]
pub(crate) fn before_partial(text: &[u8], have: usize, at: usize) -> (usize, usize)
    requires within { at ≤ length text.now }
    requires symbols { have ≡ length (filter is_symbol (take at text.now)) }
    ensures sizes { (result.0 % 4 ≡ 0) × ((result.0 ≤ have) × (result.1 ≤ at)) }
    ensures symbols { result.0 ≡ length (filter is_symbol (take result.1 text.now)) }
{
    let mut have = have;
    let mut at = at;
    while have % 4 != 0 {
        at -= 1;
        if is_symbol(text[at]) {
            have -= 1;
        }
    }
    (have, at)
}

/// Decodes the groups of the first `count` symbols of a unit, and writes their bytes from the place `at` on. Up to
/// sixteen bytes after these may be overwritten.
#[inline(always)]
pub(crate) fn decode_unit(symbols: &[u8], count: usize, bytes: &mut [u8], at: usize)
    requires long { count + 16 ≤ length symbols.now }
    requires room { 4 * at + 3 * count + 64 ≤ 4 * length bytes.old }
    ensures { (m : ℕ) → 4 * m ≤ count → IsTrue (list_all is_symbol (take (4 * m) symbols.now))
        → take (at + 3 * m) bytes.new
        ≡ take at bytes.old ++ groups (map symbol_value (take (4 * m) symbols.now)) }
{
    for index in 0..(count + 15) / 16 {
        put(bytes, at + 12 * index, decode_row(row(symbols, 16 * index)));
    }
}
