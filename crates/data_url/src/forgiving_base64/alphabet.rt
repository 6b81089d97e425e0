//! The alphabet of base64 (RFC 4648, section 4): which bytes are symbols, and the bytes of their groups. Both are
//! computed for single bytes, for rows of sixteen bytes and for blocks of 64.

ghost use Rattle.std.specs.Prelude.{◌≡◌, ◌≤◌, IsTrue, length, map, not, take};
ghost use Rattle.std.specs.List.{list_all, prefix_len};
ghost use Rattle.std.specs.Simd.Lanes.{mask_l};
ghost use Rattle.data_url.specs.Base64.{group_bytes, group_number, groups, is_symbol, symbol_value};
ghost use Rattle.data_url.specs.Steps.Groups.{is_symbol_or_space};
ghost use Rattle.data_url.specs.Steps.Lanes.{DecodesFront, lane_value, number_bytes, numbers, twelves};

use crate::classes::lanes::{none_outside, outside, outside_in_block, repeated, row};
use std::simd::prelude::*;

/// For each byte, its value if it is a symbol, and 64 otherwise.
const VALUES: [u8; 256] = [
    64, 64, 64, 64, 64, 64, 64, 64, 64, 64, 64, 64, 64, 64, 64, 64, 64, 64, 64, 64, 64, 64, 64, 64,
    64, 64, 64, 64, 64, 64, 64, 64, 64, 64, 64, 64, 64, 64, 64, 64, 64, 64, 64, 62, 64, 64, 64, 63,
    52, 53, 54, 55, 56, 57, 58, 59, 60, 61, 64, 64, 64, 64, 64, 64, 64, 0, 1, 2, 3, 4, 5, 6, 7, 8,
    9, 10, 11, 12, 13, 14, 15, 16, 17, 18, 19, 20, 21, 22, 23, 24, 25, 64, 64, 64, 64, 64, 64, 26,
    27, 28, 29, 30, 31, 32, 33, 34, 35, 36, 37, 38, 39, 40, 41, 42, 43, 44, 45, 46, 47, 48, 49, 50,
    51, 64, 64, 64, 64, 64, 64, 64, 64, 64, 64, 64, 64, 64, 64, 64, 64, 64, 64, 64, 64, 64, 64, 64,
    64, 64, 64, 64, 64, 64, 64, 64, 64, 64, 64, 64, 64, 64, 64, 64, 64, 64, 64, 64, 64, 64, 64, 64,
    64, 64, 64, 64, 64, 64, 64, 64, 64, 64, 64, 64, 64, 64, 64, 64, 64, 64, 64, 64, 64, 64, 64, 64,
    64, 64, 64, 64, 64, 64, 64, 64, 64, 64, 64, 64, 64, 64, 64, 64, 64, 64, 64, 64, 64, 64, 64, 64,
    64, 64, 64, 64, 64, 64, 64, 64, 64, 64, 64, 64, 64, 64, 64, 64, 64, 64, 64, 64, 64, 64, 64, 64,
    64, 64, 64, 64, 64, 64, 64, 64, 64, 64, 64, 64, 64, 64,
];

/// The table of the class of symbols, for `classified`. For each low half of a byte, it has the bits of the columns in
/// which a byte with that half is not a symbol.
const SYMBOLS: [u8; 16] = [
    171, 131, 131, 131, 131, 131, 131, 131, 131, 131, 135, 213, 215, 215, 215, 213,
];

/// The table of the class of symbols and white space.
const SPACED: [u8; 16] = [
    169, 131, 131, 131, 131, 131, 131, 131, 131, 130, 134, 213, 214, 214, 215, 213,
];

/// For each high half of a symbol, the number that is added to the symbol to get its value, modulo 256. The entry of
/// `/` is at 1, since `+` has the same high half, 2.
const OFFSETS: [u8; 16] = [0, 16, 19, 4, 191, 191, 185, 185, 0, 0, 0, 0, 0, 0, 0, 0];

/// The weights with which the first two of four values add up to the upper half of a group's number.
const UPPER_WEIGHTS: [u8; 16] = [64, 1, 0, 0, 64, 1, 0, 0, 64, 1, 0, 0, 64, 1, 0, 0];

/// The weights with which the last two of four values add up to the lower half of a group's number.
const LOWER_WEIGHTS: [u8; 16] = [0, 0, 64, 1, 0, 0, 64, 1, 0, 0, 64, 1, 0, 0, 64, 1];

/// Whether a byte is a symbol.
pub(crate) fn is_symbol(byte: u8) -> bool
    ensures { result ≡ is_symbol byte }
{
    VALUES[byte as usize] < 64
}

/// The three bytes of a group of four symbols.
pub(crate) fn group_of(first: u8, second: u8, third: u8, fourth: u8) -> [u8; 3]
    requires { IsTrue (is_symbol first) × IsTrue (is_symbol second) × IsTrue (is_symbol third)
        × IsTrue (is_symbol fourth) }
    ensures { let number = group_number (symbol_value first) (symbol_value second)
        (symbol_value third) (symbol_value fourth) in
        result ≡ group_bytes number }
{
    let upper = VALUES[first as usize] as u32 * 64 + VALUES[second as usize] as u32;
    let number = (upper * 64 + VALUES[third as usize] as u32) * 64 + VALUES[fourth as usize] as u32;
    [
        (number / 65536) as u8,
        (number / 256 % 256) as u8,
        (number % 256) as u8,
    ]
}

/// A bit for each byte of a row, which is set if the byte is not a symbol.
#[inline(always)]
pub(crate) fn non_symbols(bytes: u8x16) -> u64
    ensures { result ≡ mask_l (map (λ b. not (is_symbol b)) bytes) }
{
    outside(&SYMBOLS, bytes)
}

/// Returns how many symbols a row begins with.
#[inline(always)]
pub(crate) fn symbols_ahead(bytes: u8x16) -> usize
    ensures few { result ≤ 16 }
    ensures starts { result ≡ prefix_len is_symbol bytes }
{
    (non_symbols(bytes) as u16).trailing_zeros() as usize
}

/// Returns how many symbols a block begins with.
#[inline(always)]
pub(crate) fn symbols_in_block(bytes: u8x64) -> usize
    ensures few { result ≤ 64 }
    ensures starts { result ≡ prefix_len is_symbol bytes }
{
    outside_in_block(&SYMBOLS, bytes).trailing_zeros() as usize
}

/// Returns how many bytes that are symbols or white space a row begins with.
#[inline(always)]
pub(crate) fn spaced_ahead(bytes: u8x16) -> usize
    ensures few { result ≤ 16 }
    ensures starts { result ≡ prefix_len is_symbol_or_space bytes }
{
    (outside(&SPACED, bytes) as u16).trailing_zeros() as usize
}

/// Whether all bytes of a block are symbols.
#[inline(always)]
pub(crate) fn is_of_symbols(bytes: u8x64) -> bool
    ensures { result ≡ list_all is_symbol bytes }
{
    none_outside(&SYMBOLS, bytes)
}

/// Whether all bytes of a block are symbols or white space.
#[inline(always)]
pub(crate) fn is_spaced(bytes: u8x64) -> bool
    ensures { result ≡ list_all is_symbol_or_space bytes }
{
    none_outside(&SPACED, bytes)
}

/// The value of each symbol of a block. A byte that is no symbol gets a value too, which is of no use.
#[inline(always)]
fn values_of(bytes: u8x64) -> u8x64
    ensures { result ≡ map lane_value bytes }
{
    let is_slash = bytes.simd_eq(u8x64::splat(b'/'));
    let rows = (bytes >> u8x64::splat(4)) + is_slash.select(u8x64::splat(255), u8x64::splat(0));
    bytes + repeated(row(&OFFSETS, 0)).swizzle_dyn_within::<16>(rows)
}

/// The number of each group of a block, from the values of its four symbols: 24 bits.
#[inline(always)]
fn numbers_of(values: u8x64) -> u32x16
    ensures { result ≡ numbers values }
{
    let upper = values.dot4(repeated(row(&UPPER_WEIGHTS, 0)));
    let lower = values.dot4(repeated(row(&LOWER_WEIGHTS, 0)));
    (upper << u32x16::splat(12)) + lower
}

/// Where the bytes of the groups are in a block of their numbers, whose lowest byte comes first. For each row these are
/// the places of the three bytes of each of four groups, and then four places whose bytes are of no use.
const GROUP_BYTES: [usize; 64] = [
    2, 1, 0, 6, 5, 4, 10, 9, 8, 14, 13, 12, 15, 15, 15, 15, 18, 17, 16, 22, 21, 20, 26, 25, 24, 30,
    29, 28, 31, 31, 31, 31, 34, 33, 32, 38, 37, 36, 42, 41, 40, 46, 45, 44, 47, 47, 47, 47, 50, 49,
    48, 54, 53, 52, 58, 57, 56, 62, 61, 60, 63, 63, 63, 63,
];

/// The three lowest bytes of each number of a block, the most significant one first. A row has twelve of them, and then
/// four bytes that are of no use.
#[inline(always)]
fn bytes_of(numbers: u32x16) -> u8x64
    ensures len { length result ≡ 64 }
    ensures bytes { twelves result ≡ number_bytes numbers }
{
    numbers.to_le_bytes().swizzle(GROUP_BYTES)
}

/// The bytes of the groups of symbols that a row begins with, and then bytes that are of no use.
#[inline(always)]
pub(crate) fn decode_row(bytes: u8x16) -> u8x16
    ensures len { length result ≡ 16 }
    ensures bytes { DecodesFront bytes result }
{
    bytes_of(numbers_of(values_of(repeated(bytes)))).extract::<0, 16>()
}

/// The places of the first three quarters of each row of a block, and then places of quarters that are of no use. A
/// quarter has four bytes.
const THREE_QUARTERS: [usize; 16] = [0, 1, 2, 4, 5, 6, 8, 9, 10, 12, 13, 14, 15, 15, 15, 15];

/// The first twelve bytes of each row of a block, and then bytes that are of no use. To move quarters takes fewer
/// instructions than to move bytes.
#[inline(always)]
fn twelves_of(bytes: u8x64) -> u8x64
    ensures len { length result ≡ 64 }
    ensures bytes { take 48 result ≡ twelves bytes }
{
    u32x16::from_le_bytes(bytes)
        .swizzle(THREE_QUARTERS)
        .to_le_bytes()
}

/// The bytes of the sixteen groups of a block of symbols, and then bytes that are of no use.
#[inline(always)]
pub(crate) fn decode_block(bytes: u8x64) -> u8x64
    requires { IsTrue (list_all is_symbol bytes) }
    ensures len { length result ≡ 64 }
    ensures bytes { take 48 result ≡ groups (map symbol_value bytes) }
{
    twelves_of(bytes_of(numbers_of(values_of(bytes))))
}
