//! Decodes the groups of a text of base64 (RFC 4648, section 4), in rows of sixteen bytes. White space, `=` and faults
//! that the rows do not pass over are read byte by byte.

ghost use Rattle.std.specs.Prelude.{◌≡◌, ◌<◌, ◌≤◌, ◌++◌, ◌+◌, ◌-◌, ◌*◌, ◌/◌, ◌%◌, IsTrue};
ghost use Rattle.std.specs.Prelude.{MatchOption, MatchResult, []};
ghost use Rattle.std.specs.Prelude.{drop, length, replicate, slice_index, take};
ghost use Rattle.std.specs.List.{list_all};
ghost use Rattle.data_url.specs.Base64.{is_symbol};

use super::InvalidBase64Details;
use super::alphabet::{decode_row, is_of_symbols, is_symbol, symbols_ahead};
use super::gaps::{
    before_partial, decode_unit, pack_rows, pack_spaced, row_over_gap, spaces_after_twelve,
    spaces_len,
};
use super::held::{FULL, HeldGroups};
use super::left_over::LeftOver;
use crate::classes::lanes::{
    BLOCK, ROW, continued, first_row, joined, put, repeated, rotated, row,
};
use std::simd::prelude::*;

impl HeldGroups {
    ghost use Rattle.data_url.specs.Steps.Groups.{AddsGroups, held_bytes};

    /// Decodes the groups that a text begins with, and adds their bytes. Skips white space. It may stop before the last
    /// fifteen bytes. Returns how many bytes of the text were decoded.
    #[inline(always)]
    pub(crate) fn decode_ahead(&mut self, text: &[u8]) -> usize
        requires room { self.old.len < 384 }
        ensures within { result ≤ length text.now }
        ensures added { AddsGroups (held_bytes self.old) (take result text.now)
            (held_bytes self.new) }
    {
        let taken = self.decode_rows(text);
        if self.len >= FULL || text.len() - taken < ROW {
            return taken;
        }
        taken + self.decode_spaced_rows(&text[taken..])
    }

    /// Decodes rows of sixteen symbols, which may each have one gap, until 128 groups are held, and adds their bytes.
    /// Returns how many bytes of the text the rows take.
    #[inline(never)]
    fn decode_rows(&mut self, text: &[u8]) -> usize
        requires room { self.old.len < 384 }
        ensures within { result ≤ length text.now }
        ensures added { AddsGroups (held_bytes self.old) (take result text.now)
            (held_bytes self.new) }
    {
        let rows_end = text.len().saturating_sub(15);
        let mut len = self.len;
        // While the place is before `end`, fewer than 128 groups are held. The bytes that are missing have 4 / 3 as
        // many symbols, and 85 / 64 is a little less than 4 / 3.
        let mut end = rows_end.min((FULL - len) * 85 / 64);
        let mut at = 0;
        while at < end {
            let row = row(text, at);
            if is_of_symbols(repeated(row)) {
                put(&mut self.bytes, len, decode_row(row));
                len += 12;
                at += 16;
            } else if symbols_ahead(row) == 12 {
                let spaces = spaces_after_twelve(&text[at..], row);
                put(&mut self.bytes, len, decode_row(row));
                len += 9;
                at += 12 + spaces;
                end = rows_end.min(end + spaces);
            } else {
                let Some(found) = row_over_gap(&text[at..]) else {
                    self.len = len;
                    return at;
                };
                let symbols = found.0;
                put(&mut self.bytes, len, decode_row(symbols));
                len += 12;
                at += 16 + found.1;
                end = rows_end.min(end + found.1);
            }
        }
        self.len = len;
        at
    }

    /// Decodes rows of symbols with white space anywhere, until 128 groups are held, and adds the bytes of their whole
    /// groups. Returns how many bytes of the text these groups take.
    #[inline(never)]
    fn decode_spaced_rows(&mut self, text: &[u8]) -> usize
        requires room { self.old.len < 384 }
        ensures within { result ≤ length text.now }
        ensures added { AddsGroups (held_bytes self.old) (take result text.now)
            (held_bytes self.new) }
    {
        let mut symbols = [0; 544];
        let (have, at) = pack_rows(text, &mut symbols, (FULL - self.len) / 3 * 4);
        let (have, taken) = before_partial(text, have, at);
        decode_unit(&symbols, have, &mut self.bytes, self.len);
        self.len += have / 4 * 3;
        taken
    }
}

impl LeftOver {
    ghost use Rattle.data_url.specs.Steps.Groups.{held_bytes};
    ghost use Rattle.data_url.specs.Steps.Holding.{Completes, Gains, Refuses, left_state};

    /// Returns a row that has the symbols left over, then the bytes that a text begins with and, if the text is shorter
    /// than the row, zeros.
    #[inline(always)]
    fn row_with(&self, text: &[u8]) -> u8x16
        ensures { result ≡ take self.now.pending self.now.symbols
            ++ take (16 - self.now.pending) (text.now ++ replicate 16 0) }
    {
        joined(self.symbols, first_row(text), self.pending)
    }

    /// Keeps the symbols after the last whole group among the first `count` symbols of a row.
    #[inline(always)]
    fn keep_after_groups(&mut self, row: u8x16, count: usize)
        requires few { count ≤ 16 }
        requires symbols { IsTrue (list_all is_symbol (take count row)) }
        ensures left { left_state self.new ≡ record (left_state self.old)
            { symbols = drop (count / 4 * 4) (take count row) } }
        ensures pending { self.new.pending ≡ count % 4 }
    {
        let symbols = if count % 4 > 0 {
            rotated(row, count / 4 * 4)
        } else {
            self.symbols
        };
        *self = LeftOver {
            symbols,
            pending: count % 4,
            padding: self.padding,
        };
    }

    /// Reads the symbol that a text of up to 64 bytes begins with, and the symbols and the white space after it. Writes
    /// the bytes of the groups that are complete then to `bytes`, and after them bytes that are of no use. Returns how
    /// many bytes of the text were read, and how many bytes the groups have.
    #[inline(always)]
    fn decode_spaced(&mut self, text: &[u8], bytes: &mut [u8]) -> (usize, usize)
        requires some { (1 ≤ length text.now) × IsTrue (is_symbol (slice_index text.now 0)) }
        requires few { length text.now ≤ 64 }
        requires no_padding { self.old.padding ≡ 0 }
        requires room { 3 * (self.old.pending + length text.now) + 64 ≤ 4 * length bytes.old }
        ensures sizes { (result.1 % 3 ≡ 0) × (4 * result.1 ≤ 3 * (self.old.pending + result.0)) }
        ensures read { Gains (left_state self.old) [] text.now result.0 (left_state self.new)
            (take result.1 bytes.new) }
    {
        let mut symbols = [0; 128];
        put(&mut symbols, 0, self.symbols);
        let (packed, read) = pack_spaced(text, &mut symbols[self.pending..]);
        let count = self.pending + packed;
        decode_unit(&symbols, count, bytes, 0);
        self.keep_after_groups(row(&symbols, count / 4 * 4), count % 4);
        (read, count / 4 * 3)
    }

    /// Reads the symbols that a text begins with, as many as have room in a row after those left over. Writes the bytes
    /// of the groups that are complete then to `bytes`, and after them bytes that are of no use. Returns how many
    /// symbols were read, and how many bytes the groups have.
    #[inline(always)]
    fn decode_first_row(&mut self, text: &[u8], bytes: &mut [u8]) -> (usize, usize)
        requires no_padding { self.old.padding ≡ 0 }
        requires room { 16 ≤ length bytes.old }
        ensures sizes { (result.0 ≤ length text.now) × ((result.1 ≤ 12) × (result.1 % 3 ≡ 0)) }
        ensures read { Completes (left_state self.old) (take result.0 text.now)
            (take result.1 bytes.new) (left_state self.new) }
    {
        let row = self.row_with(text);
        let count = symbols_ahead(row);
        let taken = count - self.pending;
        put(bytes, 0, decode_row(row));
        self.keep_after_groups(row, count);
        (taken, count / 4 * 3)
    }

    /// Reads the symbols and the white space that a text of at least sixteen bytes begins with, in rows of sixteen
    /// symbols. Stops after a line of few symbols. Writes the bytes of the groups that are complete then to `bytes`,
    /// and after them bytes that are of no use. Returns how many bytes of the text were read, and how many bytes the
    /// groups have.
    #[inline(always)]
    fn decode_lines(&mut self, text: &[u8], bytes: &mut [u8; BLOCK]) -> (usize, usize)
        requires no_padding { self.old.padding ≡ 0 }
        requires long { 16 ≤ length text.now }
        requires few { self.old.pending + length text.now ≤ 67 }
        ensures sizes { (result.0 ≤ length text.now) × (result.1 % 3 ≡ 0) }
        ensures size { 4 * result.1 ≤ 3 * (self.old.pending + result.0) }
        ensures read { Completes (left_state self.old) (take result.0 text.now)
            (take result.1 bytes.new) (left_state self.new) }
    {
        let mut row = self.symbols;
        let mut have = self.pending;
        let mut at = 0;
        let mut len = 0;
        let mut line = 0;
        'rows: while at < text.len() {
            row = continued(row, have, text, at);
            let count = symbols_ahead(row);
            if count == ROW {
                put(bytes, len, decode_row(row));
                len += 12;
                at += ROW - have;
                have = 0;
            } else {
                at += count - have;
                have = count;
                let spaces = spaces_len(&text[at..]);
                at += spaces;
                // Shorter lines are packed, which costs less.
                if spaces == 0 || at - line < 10 {
                    break 'rows;
                }
                line = at;
            }
        }
        put(bytes, len, decode_row(row));
        self.keep_after_groups(row, have);
        (at, len + have / 4 * 3)
    }

    /// Reads the padding and the white space that a text begins with. Returns how many bytes they have.
    #[inline(always)]
    fn read_end(&mut self, text: &[u8]) -> usize
        ensures within { result ≤ length text.now }
        ensures read { Completes (left_state self.old) (take result text.now) [] (left_state self.new) }
    {
        let mut at = 0;
        while at < text.len() {
            let byte = text[at];
            match byte {
                b'=' => self.padding = (self.padding + 1).min(3),
                _ if byte.is_ascii_whitespace() => {}
                _ => return at,
            }
            at += 1;
        }
        at
    }

    /// Reads the symbols that a short text begins with, and white space among them, and then padding and white space.
    /// Writes the bytes of the groups that are complete then to `bytes`, and after them bytes that are of no use.
    /// Returns how many bytes of the text were read, and how many bytes the groups have.
    #[inline(always)]
    pub(super) fn decode_short(&mut self, text: &[u8], bytes: &mut [u8; BLOCK]) -> (usize, usize)
        requires few { self.old.pending + length text.now ≤ 67 }
        ensures sizes { (result.0 ≤ length text.now) × ((result.1 ≤ 48) × (result.1 % 3 ≡ 0)) }
        ensures read { Completes (left_state self.old) (take result.0 text.now)
            (take result.1 bytes.new) (left_state self.new) }
    {
        let (at, len) = if self.padding > 0 {
            (0, 0)
        } else if text.len() < ROW {
            self.decode_first_row(text, bytes)
        } else {
            self.decode_lines(text, bytes)
        };
        (at + self.read_end(&text[at..]), len)
    }

    /// Reads the symbols that a text begins with, as many as have room in a row after those left over. If another byte
    /// comes before, reads symbols and white space, as `decode_spaced` does. Adds the bytes of the groups that are
    /// complete then. Returns how many bytes of the text were read.
    #[inline(always)]
    fn read_symbols(&mut self, text: &[u8], groups: &mut HeldGroups) -> usize
        requires some { (1 ≤ length text.now) × IsTrue (is_symbol (slice_index text.now 0)) }
        requires no_padding { self.old.padding ≡ 0 }
        requires room { groups.old.len < 384 }
        ensures { Gains (left_state self.old) (held_bytes groups.old) text.now result
            (left_state self.new) (held_bytes groups.new) }
    {
        let row = self.row_with(text);
        let count = symbols_ahead(row);
        let read = count - self.pending;
        if count < ROW && read < text.len() {
            let front = &text[..text.len().min(BLOCK)];
            let (read, len) = self.decode_spaced(front, &mut groups.bytes[groups.len..]);
            groups.len += len;
            return read;
        }
        put(&mut groups.bytes, groups.len, decode_row(row));
        groups.len += count / 4 * 3;
        self.keep_after_groups(row, count);
        read
    }

    /// Reads whole groups, or symbols and white space, or one other byte that a text begins with, after what
    /// is left over of the text before. Adds the bytes of the groups that are complete then. Returns how many bytes of
    /// the text were read, or the kind of the fault if the first byte is one.
    #[inline(always)]
    pub(super) fn read_groups_or_byte(
        &mut self,
        text: &[u8],
        groups: &mut HeldGroups,
    ) -> Result<usize, InvalidBase64Details>
        requires some { 1 ≤ length text.now }
        requires room { groups.old.len < 384 }
        ensures { MatchResult result
            (λ taken. Gains (left_state self.old) (held_bytes groups.old) text.now taken
            (left_state self.new) (held_bytes groups.new))
            (λ details. Refuses (left_state self.old) (slice_index text.now 0) details
            (left_state self.new) × (held_bytes groups.new ≡ held_bytes groups.old)) }
    {
        if text.len() >= BLOCK && self.is_between_groups() {
            let taken = groups.decode_ahead(text);
            if taken > 0 {
                return Ok(taken);
            }
        }
        let byte = text[0];
        if byte == b'=' {
            self.padding = (self.padding + 1).min(3);
        } else if !is_symbol(byte) {
            if !byte.is_ascii_whitespace() {
                return Err(InvalidBase64Details::UnexpectedSymbol(byte));
            }
        } else if self.padding > 0 {
            return Err(InvalidBase64Details::AlphabetSymbolAfterPadding);
        } else {
            return Ok(self.read_symbols(text, groups));
        }
        Ok(1)
    }
}
