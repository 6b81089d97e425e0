//! Blocks of 64 bytes in lanes: finds the marked bytes of a text, which its body does not hold as they are, decodes
//! escapes, and finds where that has to stop.

ghost use Rattle.std.specs.Prelude.{◌≡◌, ◌==◌, ◌++◌, ◌-◌, ◌<◌, length, map, replicate};
ghost use Rattle.std.specs.Simd.Lanes.{mask_l};
ghost use Rattle.data_url.specs.Steps.Escapes.{escape_starts, place_values, stops};
ghost use Rattle.data_url.specs.Steps.Window.{is_marked};
ghost use Rattle.data_url.specs.Url.{is_tab_or_newline, percent_sign};

use crate::classes::lanes::{BLOCK, ROW, first_row, repeated, row};
use std::simd::prelude::*;

/// For each low half of a byte, the marked byte that has this low half. If there is none, the entry has another low
/// half, so it matches no byte that is looked up there.
const MARKED: [u8; 16] = [1, 0, 0, 35, 0, 37, 0, 0, 0, 9, 10, 0, 0, 13, 0, 0];

/// Returns the marks of a block: bit k is set if byte k is marked. `sparse` says that most blocks have no marks. Then
/// one comparison first tests whether all bytes are greater than `%`, as the symbols of base64 are. Such a block has no
/// marks.
#[inline(always)]
pub(super) fn marks_of(bytes: u8x64, sparse: bool) -> u64
    ensures { result ≡ mask_l (map is_marked bytes) }
{
    if sparse && !bytes.simd_le(u8x64::splat(b'%')).any() {
        return 0;
    }
    repeated(row(&MARKED, 0))
        .swizzle_dyn_within::<16>(bytes & u8x64::splat(15))
        .simd_eq(bytes)
        .to_bitmask()
}

/// Returns fewer than 64 bytes, and then zeros.
#[inline(always)]
#[tactic(auto, using(crate::proofs::escapes::BlockMarks::padding))]
pub(super) fn padded(rest: &[u8]) -> u8x64
    requires { length rest.now < 64 }
    ensures { result ≡ rest.now ++ replicate (64 - length rest.now) 0 }
{
    let mut block = [0; BLOCK];
    block[..rest.len()].copy_from_slice(rest);
    u8x64::from_array(block)
}

/// Returns the marks of a row: bit k is set if byte k is marked.
#[inline(always)]
fn row_marks(bytes: u8x16) -> u64
    ensures { result ≡ mask_l (map is_marked bytes) }
{
    marks_of(repeated(bytes), false) % 65536
}

/// Returns the marks of fewer than 64 bytes: bit k is set if byte k is marked. The bytes are read in rows. The last row
/// ends where the bytes end, and the marks of those that an earlier row has are shifted out. If there are fewer than
/// sixteen bytes, zeros, which are not marked, follow them in their row.
#[inline(never)]
pub(super) fn last_marks(rest: &[u8]) -> u64
    requires { length rest.now < 64 }
    ensures { result ≡ mask_l (map is_marked rest.now) }
{
    if rest.len() < ROW {
        return row_marks(first_row(rest));
    }
    let last = rest.len() - ROW;
    let mut marks = 0;
    let mut at = 0;
    while at <= last {
        marks += row_marks(row(rest, at)) << at;
        at += ROW;
    }
    if at == rest.len() {
        return marks;
    }
    marks + (row_marks(row(rest, last)) >> (at - last) << at)
}

/// For each place of a block, the next one.
const NEXT: [usize; 64] = [
    1, 2, 3, 4, 5, 6, 7, 8, 9, 10, 11, 12, 13, 14, 15, 16, 17, 18, 19, 20, 21, 22, 23, 24, 25, 26,
    27, 28, 29, 30, 31, 32, 33, 34, 35, 36, 37, 38, 39, 40, 41, 42, 43, 44, 45, 46, 47, 48, 49, 50,
    51, 52, 53, 54, 55, 56, 57, 58, 59, 60, 61, 62, 63, 64,
];

/// For each place of a block, the next but one.
const SECOND: [usize; 64] = [
    2, 3, 4, 5, 6, 7, 8, 9, 10, 11, 12, 13, 14, 15, 16, 17, 18, 19, 20, 21, 22, 23, 24, 25, 26, 27,
    28, 29, 30, 31, 32, 33, 34, 35, 36, 37, 38, 39, 40, 41, 42, 43, 44, 45, 46, 47, 48, 49, 50, 51,
    52, 53, 54, 55, 56, 57, 58, 59, 60, 61, 62, 63, 64, 65,
];

/// Decodes the escapes of a block, without those that go on after its end. Returns a block that has, at the place of
/// each `%` that begins an escape, the value of the escape, and all other bytes as they are. Also returns a bit for
/// each of these `%`. `percents` has a bit for each `%` of the block.
#[inline(always)]
pub(super) fn decode_escapes(bytes: u8x64, percents: u64) -> (u8x64, u64)
    requires { percents ≡ mask_l (map (λ b. b == percent_sign) bytes) }
    ensures values { result.0 ≡ place_values bytes }
    ensures starts { result.1 ≡ mask_l (escape_starts bytes) }
{
    if percents == 0 {
        return (bytes, 0);
    }
    // In `digits` only the digits from 0 to 9 have less than 16, and in `letters` only the letters from A to F, in
    // either case. In `codes` each hexadecimal digit has its value, and any other byte has 16 or more.
    let last = bytes + u8x64::splat(255 - b'9');
    let digits = last.saturating_sub(u8x64::splat(6)) - u8x64::splat(240);
    let upper = (bytes & u8x64::splat(223)) - u8x64::splat(b'A');
    let letters = upper.simd_min(u8x64::splat(245)) + u8x64::splat(10);
    let codes = digits.simd_min(letters);
    let high = codes.shuffle(u8x64::splat(255), NEXT);
    let low = codes.shuffle(u8x64::splat(255), SECOND);
    let starts = bytes
        .simd_eq(u8x64::splat(b'%'))
        .select(high | low, u8x64::splat(255))
        .simd_lt(u8x64::splat(16));
    let values = (high << u8x64::splat(4)) + low;
    (starts.select(values, bytes), starts.to_bitmask())
}

/// The bits of the last two bytes of a block.
const LAST_TWO: u64 = 3 << 62;

/// Returns a bit for each tab and newline of a block, and a bit for each stop. A stop is a byte of which the lanes of
/// the block cannot tell what begins there: a `#`, a `%` with a tab or newline among the two bytes after it, and a `%`
/// that is one of the last two bytes. `marks` has a bit for each mark, and `percents` one for each `%`.
#[inline(always)]
#[tactic(auto, using(crate::proofs::escapes::StopBits::stop_bits))]
pub(super) fn stops_of(bytes: u8x64, marks: u64, percents: u64) -> (u64, u64)
    requires marks { marks ≡ mask_l (map is_marked bytes) }
    requires percents { percents ≡ mask_l (map (λ b. b == percent_sign) bytes) }
    ensures passed { result.0 ≡ mask_l (map is_tab_or_newline bytes) }
    ensures stops { result.1 ≡ mask_l (stops bytes) }
{
    let other_marks = marks - percents;
    if other_marks == 0 {
        return (0, percents & LAST_TWO);
    }
    let hashes = bytes.simd_eq(u8x64::splat(b'#')).to_bitmask();
    let passed = other_marks - hashes;
    let near = passed >> 1 | passed >> 2;
    (passed, hashes + (percents & (near | LAST_TWO)))
}
