//! Rows of sixteen bytes: reads and writes them, and tests whether their bytes are in a class. Blocks of 64 bytes are
//! tested in the same way.

ghost use Rattle.std.specs.Prelude.{◌≡◌, ◌+◌, ◌-◌, ◌++◌, ◌<◌, ◌≤◌};
ghost use Rattle.std.specs.Prelude.{drop, length, map, not, replicate, take};
ghost use Rattle.std.specs.{List.{list_all}, Simd.Lanes.{mask_l}};
ghost use Rattle.data_url.specs.Steps.Classes.{AreOf, classified, may_be_outside};

use std::simd::prelude::*;

/// How many bytes a row has.
pub(crate) const ROW: usize = 16;

/// How many bytes a block has.
pub(crate) const BLOCK: usize = 64;

/// For each high half of a byte, the bit of its column. The high halves 1 and 8 to 15 share a column, so that a table
/// of a class needs only eight bits for each low half.
const COLUMNS: [u8; 16] = [
    1, 128, 2, 4, 8, 16, 32, 64, 128, 128, 128, 128, 128, 128, 128, 128,
];

/// Returns the row of a text that begins at a place.
#[inline(always)]
pub(crate) fn row(text: &[u8], at: usize) -> u8x16
    requires { at + 16 ≤ length text.now }
    ensures { result ≡ take 16 (drop at text.now) }
{
    u8x16::from_slice(&text[at..])
}

/// Writes a row at a place.
#[inline(always)]
pub(crate) fn put(bytes: &mut [u8], at: usize, row: u8x16)
    requires { at + 16 ≤ length bytes.old }
    ensures { take (at + 16) bytes.new ≡ take at bytes.old ++ row }
{
    row.copy_to_slice(&mut bytes[at..]);
}

/// The places in a row, twice.
const PLACES: [u8; 32] = [
    0, 1, 2, 3, 4, 5, 6, 7, 8, 9, 10, 11, 12, 13, 14, 15, 0, 1, 2, 3, 4, 5, 6, 7, 8, 9, 10, 11, 12,
    13, 14, 15,
];

/// Returns the first `at` bytes of a row, and then those of another one from there on.
#[inline(always)]
pub(crate) fn spliced(first: u8x16, second: u8x16, at: usize) -> u8x16
    requires { at ≤ 16 }
    ensures { result ≡ take at first ++ drop at second }
{
    row(&PLACES, 0)
        .simd_lt(u8x16::splat(at as u8))
        .select(first, second)
}

/// The places in a block.
const BLOCK_PLACES: [u8; 64] = [
    0, 1, 2, 3, 4, 5, 6, 7, 8, 9, 10, 11, 12, 13, 14, 15, 16, 17, 18, 19, 20, 21, 22, 23, 24, 25,
    26, 27, 28, 29, 30, 31, 32, 33, 34, 35, 36, 37, 38, 39, 40, 41, 42, 43, 44, 45, 46, 47, 48, 49,
    50, 51, 52, 53, 54, 55, 56, 57, 58, 59, 60, 61, 62, 63,
];

/// Returns the first `at` bytes of a block, and then those of another one from there on.
#[inline(always)]
pub(crate) fn spliced_blocks(first: u8x64, second: u8x64, at: usize) -> u8x64
    requires { at ≤ 64 }
    ensures { result ≡ take at first ++ drop at second }
{
    u8x64::from_array(BLOCK_PLACES)
        .simd_lt(u8x64::splat(at as u8))
        .select(first, second)
}

/// Returns the bytes of a row from a place on, and then those before it.
#[inline(always)]
pub(crate) fn rotated(bytes: u8x16, at: usize) -> u8x16
    requires { at ≤ 16 }
    ensures { result ≡ drop at bytes ++ take at bytes }
{
    bytes.swizzle_dyn(row(&PLACES, at))
}

/// Returns the row of a text of at least sixteen bytes that begins at a place. If the text ends before the row does,
/// zeros follow.
#[inline(always)]
fn row_from(text: &[u8], at: usize) -> u8x16
    requires { (16 ≤ length text.now) × (at ≤ length text.now) }
    ensures { result ≡ take 16 (drop at text.now ++ replicate 16 0) }
{
    let last = text.len() - ROW;
    if at <= last {
        return row(text, at);
    }
    let rest = rotated(row(text, last), at - last);
    spliced(rest, u8x16::splat(0), text.len() - at)
}

/// Returns a row of the first `count` bytes of a row, and then the first bytes of another one.
#[inline(always)]
pub(crate) fn joined(first: u8x16, second: u8x16, count: usize) -> u8x16
    requires { count ≤ 16 }
    ensures { result ≡ take count first ++ take (16 - count) second }
{
    if count == 0 {
        return second;
    }
    spliced(first, rotated(second, ROW - count), count)
}

/// Returns a row of the first `count` bytes of a row, and then the bytes of a text from a place on. The text has at
/// least sixteen bytes. If it ends before the row does, zeros follow.
#[inline(always)]
pub(crate) fn continued(first: u8x16, count: usize, text: &[u8], at: usize) -> u8x16
    requires within { (16 ≤ length text.now) × (at ≤ length text.now) }
    requires few { count ≤ 16 }
    ensures { result ≡ take count first
        ++ take (16 - count) (drop at text.now ++ replicate 16 0) }
{
    match count {
        0 => row_from(text, at),
        _ if count > at => joined(first, row_from(text, at), count),
        // The row that begins `count` bytes earlier has the bytes from `at` on in their places.
        _ => spliced(first, row_from(text, at - count), count),
    }
}

/// The places in a quarter of a row, four times.
const QUARTER_FOUR_TIMES: [usize; 16] = [0, 1, 2, 3, 0, 1, 2, 3, 0, 1, 2, 3, 0, 1, 2, 3];

/// The places in half a row, twice.
const HALF_TWICE: [usize; 16] = [0, 1, 2, 3, 4, 5, 6, 7, 0, 1, 2, 3, 4, 5, 6, 7];

/// Returns a row of the four bytes of a text from a place on, and then zeros.
#[inline(always)]
fn quarter(text: &[u8], at: usize) -> u8x16
    requires { at + 4 ≤ length text.now }
    ensures { result ≡ take 4 (drop at text.now) ++ replicate 12 0 }
{
    let bytes = u8x4::from_slice(&text[at..]);
    spliced(bytes.swizzle(QUARTER_FOUR_TIMES), u8x16::splat(0), 4)
}

/// Returns a row of the eight bytes of a text from a place on, and then zeros.
#[inline(always)]
fn half(text: &[u8], at: usize) -> u8x16
    requires { at + 8 ≤ length text.now }
    ensures { result ≡ take 8 (drop at text.now) ++ replicate 8 0 }
{
    let bytes = u8x8::from_slice(&text[at..]);
    spliced(bytes.swizzle(HALF_TWICE), u8x16::splat(0), 8)
}

/// Returns the row that a text begins with. If the text is shorter, zeros follow it.
#[inline(always)]
pub(crate) fn first_row(text: &[u8]) -> u8x16
    ensures { result ≡ take 16 (text.now ++ replicate 16 0) }
{
    let len = text.len();
    if len >= ROW {
        return row(text, 0);
    }
    if len >= 8 {
        return spliced(half(text, 0), rotated(half(text, len - 8), 24 - len), 8);
    }
    if len >= 4 {
        return spliced(
            quarter(text, 0),
            rotated(quarter(text, len - 4), 20 - len),
            4,
        );
    }
    let mut bytes = [0; ROW];
    bytes[..len].copy_from_slice(text);
    u8x16::from_array(bytes)
}

/// The places in a row, four times.
const FOUR_TIMES: [usize; 64] = [
    0, 1, 2, 3, 4, 5, 6, 7, 8, 9, 10, 11, 12, 13, 14, 15, 0, 1, 2, 3, 4, 5, 6, 7, 8, 9, 10, 11, 12,
    13, 14, 15, 0, 1, 2, 3, 4, 5, 6, 7, 8, 9, 10, 11, 12, 13, 14, 15, 0, 1, 2, 3, 4, 5, 6, 7, 8, 9,
    10, 11, 12, 13, 14, 15,
];

/// Returns a block that has a row four times. What is computed from these rows is the same, so the compiler computes it
/// once.
#[inline(always)]
pub(crate) fn repeated(row: u8x16) -> u8x64
    ensures { result ≡ row ++ row ++ row ++ row }
{
    row.swizzle(FOUR_TIMES)
}

/// Looks up both halves of each byte of a block, and returns the bits that the two entries have in common: the entry of
/// `class_table` for the low half, and that of `COLUMNS` for the high half. If there are none, the byte is in the
/// class. Otherwise it may be outside the class.
#[inline(always)]
fn classified(class_table: &[u8], block: u8x64) -> u8x64
    requires { 16 ≤ length class_table.now }
    ensures { result ≡ map (classified class_table.now) block }
{
    let low = repeated(row(class_table, 0)).swizzle_dyn_within::<16>(block & u8x64::splat(15));
    let high = repeated(row(&COLUMNS, 0)).swizzle_dyn_within::<16>(block >> u8x64::splat(4));
    low & high
}

/// Returns a bit for each byte of a row, which is set if the byte may be outside the class of a table.
#[inline(always)]
pub(crate) fn outside(class_table: &[u8], row: u8x16) -> u64
    requires { 16 ≤ length class_table.now }
    ensures { result ≡ mask_l (map (may_be_outside class_table.now) row) }
{
    let found = classified(class_table, repeated(row)).extract::<0, 16>();
    found.simd_ne(u8x16::splat(0)).to_bitmask()
}

/// Returns a bit for each byte of a block, which is set if the byte may be outside the class of a table.
#[inline(always)]
pub(crate) fn outside_in_block(class_table: &[u8], block: u8x64) -> u64
    requires { 16 ≤ length class_table.now }
    ensures { result ≡ mask_l (map (may_be_outside class_table.now) block) }
{
    classified(class_table, block)
        .simd_ne(u8x64::splat(0))
        .to_bitmask()
}

/// Returns whether no byte of a block may be outside the class of a table. As a test for a branch, this takes fewer
/// instructions than `outside_in_block`.
#[inline(always)]
pub(crate) fn none_outside(class_table: &[u8], block: u8x64) -> bool
    requires { 16 ≤ length class_table.now }
    ensures { result ≡ list_all (λ b. not (may_be_outside class_table.now b)) block }
{
    classified(class_table, block).reduce_or() == 0
}

/// Returns how many bytes come before the first one that may be outside the class of a table. All these bytes are in
/// the class. Only whole rows are tested: if none of their bytes may be outside, returns the length of these rows.
#[inline(always)]
pub(crate) fn rows_len(class_table: [u8; 16], bytes: &[u8]) -> usize
    ensures within { result ≤ length bytes.now }
    ensures prefix { AreOf class_table bytes.now result }
{
    let end = bytes.len().saturating_sub(ROW - 1);
    let mut at = 0;
    while at < end {
        let row = row(bytes, at);
        // This comes before the test, so that the compiler puts the test at the end of the loop, which is faster.
        at += ROW;
        if !none_outside(&class_table, repeated(row)) {
            return at - ROW + outside(&class_table, row).trailing_zeros() as usize;
        }
    }
    at
}
