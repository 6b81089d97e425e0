//! Percent-encoding (URL Standard, section 1.3), by tables. A table has an entry of four bytes for each byte. The entry
//! begins with what the byte is written as: the byte itself, `%` and its two digits or, for a tab or newline, nothing.
//! Its last byte is the length of that.
#![tactic(auto, using(crate::proofs::percent::Encoding::parts))]

ghost use Rattle.std.specs.Prelude.{◌≡◌, ◌<◌, ◌≤◌, ◌+◌, ◌*◌, ◌-◌, ◌++◌, ◌∷◌, []};
ghost use Rattle.std.specs.Prelude.{OnOk, drop, false, length, string_bytes, take, ℕ};
ghost use Rattle.std.specs.Str.{IsUtf8};
ghost use Rattle.data_url.specs.Url.{without_tabs_and_newlines, percent_encoding};
ghost use Rattle.data_url.specs.Steps.{Classes.{may_be_outside}, Sets.{IsEntry, byte_encoding, in_set}};

use crate::classes::lanes::rows_len;
use std::alloc::AllocError;
use std::str;

/// A percent-encode set.
#[derive(Clone, Copy)]
pub(crate) enum EncodeSet {
    /// Of a path: the C0 control percent-encode set.
    Path,
    /// Of a query.
    Query,
    /// Of a fragment.
    Fragment,
}

/// How many bytes are tested at most before they are copied. They are still in the processor's first cache then.
const TESTED_AT_ONCE: usize = 16 * 1024;

/// How many bytes are encoded by a table at a time.
pub(crate) const PART: usize = 128;

/// The most bytes that one byte is written as: `%` and two digits.
pub(crate) const WIDEST: usize = 3;

/// The length of the buffer. It is more than what `PART` bytes are written as.
pub(crate) const BUFFER_LEN: usize = 512;

/// How many bytes are encoded between two tests for the end. With a test after every second byte, a fragment takes a
/// quarter longer.
const UNROLLED: usize = 8;

/// Writes bytes to a buffer from a place on, percent-encoded and without tabs and newlines. Returns the place after
/// what is written. Up to four bytes after that may be overwritten.
#[inline(always)]
fn put_encoded(set: EncodeSet, bytes: &[u8], buffer: &mut [u8; BUFFER_LEN], start: usize) -> usize
    requires room { start + 3 * length bytes.now < 512 }
    ensures few { result ≤ start + 3 * length bytes.now }
    ensures written { take result buffer.new ≡ take start buffer.old
        ++ percent_encoding (in_set set) (without_tabs_and_newlines bytes.now) }
{
    let mut at = start;
    for byte in bytes {
        let entry = entry(set, *byte);
        buffer[at..at + 4].copy_from_slice(entry);
        at += usize::from(entry[3]);
    }
    at
}

/// Returns what the next bytes are written as, without tabs and newlines and percent-encoded, and the bytes after them.
/// If at least the first 64 bytes, or the first half of fewer than 128, are written as they are, these are returned
/// without a copy. Otherwise up to 128 bytes are encoded into the buffer.
#[inline(always)]
pub(crate) fn encode_next<'a: 'r, 'r>(
    set: EncodeSet,
    bytes: &'a [u8],
    buffer: &'r mut [u8; BUFFER_LEN],
) -> (&'r [u8], &'a [u8])
    ensures written { result.0.now
        ++ percent_encoding (in_set set) (without_tabs_and_newlines result.1.now)
        ≡ percent_encoding (in_set set) (without_tabs_and_newlines bytes.now) }
    ensures text { IsUtf8 result.0.now }
    ensures after { result.1.now ≡ drop (length bytes.now - length result.1.now) bytes.now }
    ensures less { 0 < length bytes.now → length result.1.now < length bytes.now }
{
    let (part, after_part) = bytes.split_at(bytes.len().min(PART));
    let tested = &bytes[..bytes.len().min(TESTED_AT_ONCE)];
    let (kept, after) = bytes.split_at(rows_len(unencoded_table(set), tested));
    if 2 * kept.len() >= part.len() {
        return (kept, after);
    }
    let mut at = 0;
    let mut read = 0;
    while part.len() - read >= UNROLLED {
        at = put_encoded(set, &part[read..read + UNROLLED], buffer, at);
        read += UNROLLED;
    }
    at = put_encoded(set, &part[read..], buffer, at);
    (&buffer[..at], after_part)
}

/// Writes bytes at the end of a text, without their tabs and newlines and percent-encoded.
#[inline(always)]
pub(crate) fn push_encoded(
    text: &mut String,
    set: EncodeSet,
    bytes: &[u8],
) -> Result<(), AllocError>
    ensures { OnOk result (string_bytes text.new
        ≡ string_bytes text.old
        ++ percent_encoding (in_set set) (without_tabs_and_newlines bytes.now)) }
{
    if bytes.is_empty() {
        return Ok(());
    }
    let mut buffer = [0; BUFFER_LEN];
    let mut rest = bytes;
    while !rest.is_empty() {
        let (written, after) = encode_next(set, rest, &mut buffer);
        text.push_str(unsafe { str::from_utf8_unchecked(written) })?;
        rest = after;
    }
    Ok(())
}

/// The entries of the C0 control percent-encode set.
#[rattlefmt::skip]
const PATH: [u8; 1024] = *b"\
  %00\x03%01\x03%02\x03%03\x03%04\x03%05\x03%06\x03%07\x03%08\x03%09\x00%0A\x00%0B\x03%0C\x03%0D\x00%0E\x03%0F\x03\
  %10\x03%11\x03%12\x03%13\x03%14\x03%15\x03%16\x03%17\x03%18\x03%19\x03%1A\x03%1B\x03%1C\x03%1D\x03%1E\x03%1F\x03\
  \x2020\x01!21\x01\"22\x01#23\x01$24\x01%25\x01&26\x01'27\x01(28\x01)29\x01*2A\x01+2B\x01,2C\x01-2D\x01.2E\x01/2F\x01\
  030\x01131\x01232\x01333\x01434\x01535\x01636\x01737\x01838\x01939\x01:3A\x01;3B\x01<3C\x01=3D\x01>3E\x01?3F\x01\
  @40\x01A41\x01B42\x01C43\x01D44\x01E45\x01F46\x01G47\x01H48\x01I49\x01J4A\x01K4B\x01L4C\x01M4D\x01N4E\x01O4F\x01\
  P50\x01Q51\x01R52\x01S53\x01T54\x01U55\x01V56\x01W57\x01X58\x01Y59\x01Z5A\x01[5B\x01\\5C\x01]5D\x01^5E\x01_5F\x01\
  `60\x01a61\x01b62\x01c63\x01d64\x01e65\x01f66\x01g67\x01h68\x01i69\x01j6A\x01k6B\x01l6C\x01m6D\x01n6E\x01o6F\x01\
  p70\x01q71\x01r72\x01s73\x01t74\x01u75\x01v76\x01w77\x01x78\x01y79\x01z7A\x01{7B\x01|7C\x01}7D\x01~7E\x01%7F\x03\
  %80\x03%81\x03%82\x03%83\x03%84\x03%85\x03%86\x03%87\x03%88\x03%89\x03%8A\x03%8B\x03%8C\x03%8D\x03%8E\x03%8F\x03\
  %90\x03%91\x03%92\x03%93\x03%94\x03%95\x03%96\x03%97\x03%98\x03%99\x03%9A\x03%9B\x03%9C\x03%9D\x03%9E\x03%9F\x03\
  %A0\x03%A1\x03%A2\x03%A3\x03%A4\x03%A5\x03%A6\x03%A7\x03%A8\x03%A9\x03%AA\x03%AB\x03%AC\x03%AD\x03%AE\x03%AF\x03\
  %B0\x03%B1\x03%B2\x03%B3\x03%B4\x03%B5\x03%B6\x03%B7\x03%B8\x03%B9\x03%BA\x03%BB\x03%BC\x03%BD\x03%BE\x03%BF\x03\
  %C0\x03%C1\x03%C2\x03%C3\x03%C4\x03%C5\x03%C6\x03%C7\x03%C8\x03%C9\x03%CA\x03%CB\x03%CC\x03%CD\x03%CE\x03%CF\x03\
  %D0\x03%D1\x03%D2\x03%D3\x03%D4\x03%D5\x03%D6\x03%D7\x03%D8\x03%D9\x03%DA\x03%DB\x03%DC\x03%DD\x03%DE\x03%DF\x03\
  %E0\x03%E1\x03%E2\x03%E3\x03%E4\x03%E5\x03%E6\x03%E7\x03%E8\x03%E9\x03%EA\x03%EB\x03%EC\x03%ED\x03%EE\x03%EF\x03\
  %F0\x03%F1\x03%F2\x03%F3\x03%F4\x03%F5\x03%F6\x03%F7\x03%F8\x03%F9\x03%FA\x03%FB\x03%FC\x03%FD\x03%FE\x03%FF\x03\
  ";

/// The entries of the query percent-encode set.
#[rattlefmt::skip]
const QUERY: [u8; 1024] = *b"\
  %00\x03%01\x03%02\x03%03\x03%04\x03%05\x03%06\x03%07\x03%08\x03%09\x00%0A\x00%0B\x03%0C\x03%0D\x00%0E\x03%0F\x03\
  %10\x03%11\x03%12\x03%13\x03%14\x03%15\x03%16\x03%17\x03%18\x03%19\x03%1A\x03%1B\x03%1C\x03%1D\x03%1E\x03%1F\x03\
  %20\x03!21\x01%22\x03%23\x03$24\x01%25\x01&26\x01'27\x01(28\x01)29\x01*2A\x01+2B\x01,2C\x01-2D\x01.2E\x01/2F\x01\
  030\x01131\x01232\x01333\x01434\x01535\x01636\x01737\x01838\x01939\x01:3A\x01;3B\x01%3C\x03=3D\x01%3E\x03?3F\x01\
  @40\x01A41\x01B42\x01C43\x01D44\x01E45\x01F46\x01G47\x01H48\x01I49\x01J4A\x01K4B\x01L4C\x01M4D\x01N4E\x01O4F\x01\
  P50\x01Q51\x01R52\x01S53\x01T54\x01U55\x01V56\x01W57\x01X58\x01Y59\x01Z5A\x01[5B\x01\\5C\x01]5D\x01^5E\x01_5F\x01\
  `60\x01a61\x01b62\x01c63\x01d64\x01e65\x01f66\x01g67\x01h68\x01i69\x01j6A\x01k6B\x01l6C\x01m6D\x01n6E\x01o6F\x01\
  p70\x01q71\x01r72\x01s73\x01t74\x01u75\x01v76\x01w77\x01x78\x01y79\x01z7A\x01{7B\x01|7C\x01}7D\x01~7E\x01%7F\x03\
  %80\x03%81\x03%82\x03%83\x03%84\x03%85\x03%86\x03%87\x03%88\x03%89\x03%8A\x03%8B\x03%8C\x03%8D\x03%8E\x03%8F\x03\
  %90\x03%91\x03%92\x03%93\x03%94\x03%95\x03%96\x03%97\x03%98\x03%99\x03%9A\x03%9B\x03%9C\x03%9D\x03%9E\x03%9F\x03\
  %A0\x03%A1\x03%A2\x03%A3\x03%A4\x03%A5\x03%A6\x03%A7\x03%A8\x03%A9\x03%AA\x03%AB\x03%AC\x03%AD\x03%AE\x03%AF\x03\
  %B0\x03%B1\x03%B2\x03%B3\x03%B4\x03%B5\x03%B6\x03%B7\x03%B8\x03%B9\x03%BA\x03%BB\x03%BC\x03%BD\x03%BE\x03%BF\x03\
  %C0\x03%C1\x03%C2\x03%C3\x03%C4\x03%C5\x03%C6\x03%C7\x03%C8\x03%C9\x03%CA\x03%CB\x03%CC\x03%CD\x03%CE\x03%CF\x03\
  %D0\x03%D1\x03%D2\x03%D3\x03%D4\x03%D5\x03%D6\x03%D7\x03%D8\x03%D9\x03%DA\x03%DB\x03%DC\x03%DD\x03%DE\x03%DF\x03\
  %E0\x03%E1\x03%E2\x03%E3\x03%E4\x03%E5\x03%E6\x03%E7\x03%E8\x03%E9\x03%EA\x03%EB\x03%EC\x03%ED\x03%EE\x03%EF\x03\
  %F0\x03%F1\x03%F2\x03%F3\x03%F4\x03%F5\x03%F6\x03%F7\x03%F8\x03%F9\x03%FA\x03%FB\x03%FC\x03%FD\x03%FE\x03%FF\x03\
  ";

/// The entries of the fragment percent-encode set.
#[rattlefmt::skip]
const FRAGMENT: [u8; 1024] = *b"\
  %00\x03%01\x03%02\x03%03\x03%04\x03%05\x03%06\x03%07\x03%08\x03%09\x00%0A\x00%0B\x03%0C\x03%0D\x00%0E\x03%0F\x03\
  %10\x03%11\x03%12\x03%13\x03%14\x03%15\x03%16\x03%17\x03%18\x03%19\x03%1A\x03%1B\x03%1C\x03%1D\x03%1E\x03%1F\x03\
  %20\x03!21\x01%22\x03#23\x01$24\x01%25\x01&26\x01'27\x01(28\x01)29\x01*2A\x01+2B\x01,2C\x01-2D\x01.2E\x01/2F\x01\
  030\x01131\x01232\x01333\x01434\x01535\x01636\x01737\x01838\x01939\x01:3A\x01;3B\x01%3C\x03=3D\x01%3E\x03?3F\x01\
  @40\x01A41\x01B42\x01C43\x01D44\x01E45\x01F46\x01G47\x01H48\x01I49\x01J4A\x01K4B\x01L4C\x01M4D\x01N4E\x01O4F\x01\
  P50\x01Q51\x01R52\x01S53\x01T54\x01U55\x01V56\x01W57\x01X58\x01Y59\x01Z5A\x01[5B\x01\\5C\x01]5D\x01^5E\x01_5F\x01\
  %60\x03a61\x01b62\x01c63\x01d64\x01e65\x01f66\x01g67\x01h68\x01i69\x01j6A\x01k6B\x01l6C\x01m6D\x01n6E\x01o6F\x01\
  p70\x01q71\x01r72\x01s73\x01t74\x01u75\x01v76\x01w77\x01x78\x01y79\x01z7A\x01{7B\x01|7C\x01}7D\x01~7E\x01%7F\x03\
  %80\x03%81\x03%82\x03%83\x03%84\x03%85\x03%86\x03%87\x03%88\x03%89\x03%8A\x03%8B\x03%8C\x03%8D\x03%8E\x03%8F\x03\
  %90\x03%91\x03%92\x03%93\x03%94\x03%95\x03%96\x03%97\x03%98\x03%99\x03%9A\x03%9B\x03%9C\x03%9D\x03%9E\x03%9F\x03\
  %A0\x03%A1\x03%A2\x03%A3\x03%A4\x03%A5\x03%A6\x03%A7\x03%A8\x03%A9\x03%AA\x03%AB\x03%AC\x03%AD\x03%AE\x03%AF\x03\
  %B0\x03%B1\x03%B2\x03%B3\x03%B4\x03%B5\x03%B6\x03%B7\x03%B8\x03%B9\x03%BA\x03%BB\x03%BC\x03%BD\x03%BE\x03%BF\x03\
  %C0\x03%C1\x03%C2\x03%C3\x03%C4\x03%C5\x03%C6\x03%C7\x03%C8\x03%C9\x03%CA\x03%CB\x03%CC\x03%CD\x03%CE\x03%CF\x03\
  %D0\x03%D1\x03%D2\x03%D3\x03%D4\x03%D5\x03%D6\x03%D7\x03%D8\x03%D9\x03%DA\x03%DB\x03%DC\x03%DD\x03%DE\x03%DF\x03\
  %E0\x03%E1\x03%E2\x03%E3\x03%E4\x03%E5\x03%E6\x03%E7\x03%E8\x03%E9\x03%EA\x03%EB\x03%EC\x03%ED\x03%EE\x03%EF\x03\
  %F0\x03%F1\x03%F2\x03%F3\x03%F4\x03%F5\x03%F6\x03%F7\x03%F8\x03%F9\x03%FA\x03%FB\x03%FC\x03%FD\x03%FE\x03%FF\x03\
  ";

/// Returns the table of a class of bytes that are written as they are, for `rows_len`.
#[inline(always)]
#[rattlefmt::skip]
fn unencoded_table(set: EncodeSet) -> [u8; 16]
    ensures { (b : ℕ) → b < 256 → may_be_outside result b ≡ false
        → byte_encoding (in_set set) b ≡ b ∷ [] }
{
    match set {
        EncodeSet::Path => [129, 129, 129, 129, 129, 129, 129, 129, 129, 129, 129, 129, 129, 129, 129, 193],
        EncodeSet::Query => [131, 129, 131, 131, 129, 129, 129, 129, 129, 129, 129, 129, 133, 129, 133, 193],
        EncodeSet::Fragment => [163, 129, 131, 129, 129, 129, 129, 129, 129, 129, 129, 129, 133, 129, 133, 193],
    }
}

/// Returns the entry of a byte.
#[inline(always)]
fn entry(set: EncodeSet, byte: u8) -> &'static [u8]
    ensures { IsEntry (in_set set) byte result.now }
{
    let at = 4 * (byte as usize);
    match set {
        EncodeSet::Path => &PATH[at..at + 4],
        EncodeSet::Query => &QUERY[at..at + 4],
        EncodeSet::Fragment => &FRAGMENT[at..at + 4],
    }
}
