//! The parameters that are kept while a MIME type is read: of each name the first.

ghost use Rattle.std.specs.Prelude.{false, ◌≡◌, ◌==◌, ◌<◌, ◌≤◌, ◌+◌, ◌++◌, ◌∷◌, [], IsTrue, OnOk};
ghost use Rattle.std.specs.Prelude.{drop, length, map, take, true};
ghost use Rattle.std.specs.{Char.{to_ascii_lowercase}, Simd.Lanes.{mask_l}, Str.{chars}};
ghost use Rattle.data_url.specs.{Mime.{has_name, is_lowercase_name, is_token_text}, MimeType.{code_points}};
ghost use Rattle.data_url.specs.Steps.Parsing.{unless_named};
ghost use Rattle.data_url.specs.Steps.Kept.{AreUnnamed, IsIndexed, fingerprint_of, first_of, pairs_of};

use crate::classes::lanes::{ROW, row};
use std::alloc::AllocError;
use std::collections::BTreeSet;
use std::simd::prelude::*;

/// How many pairs are searched by their fingerprints. For this few, that is faster than a search in a set.
const LOOKED_THROUGH: usize = 128;

/// The size of the array of fingerprints, so that a row can be read from the place of each.
pub(super) const FINGERPRINTS_LEN: usize = 144;

/// The bit in which the two cases of an ASCII letter differ.
const CASE: u8 = 32;

/// The pairs that are kept. The first ones have fingerprints, by which they are found. The names of the later ones
/// are in a set.
#[derive(Drop)]
pub(super) struct KeptParameters {
    pub(super) pairs: Vec<(String, String)>,
    pub(super) fingerprints: [u8; FINGERPRINTS_LEN],
    pub(super) later_names: BTreeSet<String>,
}

impl KeptParameters {
    /// Whether one of the first pairs has the name, in any ASCII case.
    #[tactic(auto, using(crate::proofs::mime::FirstNames::some_byte))]
    pub(super) fn is_among_first(&self, name: &str) -> bool
        requires indexed { IsIndexed self.now }
        requires token { IsTrue (is_token_text (chars name.now)) }
        ensures { result ≡ has_name (map to_ascii_lowercase (chars name.now))
            (first_of (pairs_of self.now)) }
    {
        let len = LOOKED_THROUGH.min(self.pairs.len());
        let fingerprint = fingerprint(name);
        let mut at = 0;
        while at < len {
            let row = row(&self.fingerprints, at);
            let bits = row.simd_eq(u8x16::splat(fingerprint)).to_bitmask();
            if self.is_in_row(name, at, bits) {
                return true;
            }
            at += ROW;
        }
        false
    }

    /// Whether one of the pairs of a row has the name, in any ASCII case. The row begins at `at`, and `bits` are
    /// those of its pairs whose fingerprint is that of the name.
    #[inline(always)]
    fn is_in_row(&self, name: &str, at: usize, bits: u64) -> bool
        requires indexed { IsIndexed self.now }
        requires token { IsTrue (is_token_text (chars name.now)) }
        requires within { at + 16 ≤ length self.now.fingerprints }
        requires bits { bits ≡ mask_l (map
            (λ b. b == fingerprint_of (map to_ascii_lowercase name.now))
            (take 16 (drop at self.now.fingerprints))) }
        ensures found { result ≡ true → has_name (map to_ascii_lowercase (chars name.now))
            (first_of (pairs_of self.now)) ≡ true }
        ensures none { result ≡ false → AreUnnamed (map to_ascii_lowercase (chars name.now))
            (first_of (pairs_of self.now)) at (at + 16) }
    {
        let end = LOOKED_THROUGH.min(self.pairs.len());
        let mut left = bits;
        while left != 0 {
            let place = at + left.trailing_zeros() as usize;
            if place >= end {
                return false;
            }
            if self.pairs[place].0.eq_ignore_ascii_case(name) {
                return true;
            }
            left &= left - 1;
        }
        false
    }

    /// Adds a pair whose name none of the first ones has, unless a later one has it.
    #[tactic(auto, using(crate::proofs::mime::FirstNames::not_pushed))]
    pub(super) fn push(&mut self, name: String, value: String) -> Result<(), AllocError>
        requires indexed { IsIndexed self.old }
        requires lower { IsTrue (is_lowercase_name (code_points name)) }
        requires new { has_name (code_points name) (first_of (pairs_of self.old)) ≡ false }
        ensures pairs { OnOk result (pairs_of self.new ≡ pairs_of self.old
            ++ unless_named (pairs_of self.old) ((code_points name, code_points value) ∷ [])) }
        ensures indexed { OnOk result (IsIndexed self.new) }
    {
        let place = self.pairs.len();
        if place < LOOKED_THROUGH {
            self.fingerprints[place] = fingerprint(name.as_str());
            self.pairs.push((name, value))?;
        } else if self.later_names.insert(name.clone()?)? {
            self.pairs.push((name, value))?;
        }
        Ok(())
    }
}

/// Returns a hash of the last three bytes of a name. It is the same in any ASCII case. Names that end in a number
/// differ in these bytes.
#[inline(always)]
fn fingerprint(name: &str) -> u8
    requires { 0 < length name.now }
    ensures { result ≡ fingerprint_of (map to_ascii_lowercase name.now) }
{
    let bytes = name.as_bytes();
    let last = bytes.len() - 1;
    let ones = u32::from(bytes[last] | CASE);
    let tens = u32::from(bytes[last.saturating_sub(1)] | CASE);
    let hundreds = u32::from(bytes[last.saturating_sub(2)] | CASE);
    let sum = ones + 10 * tens + 100 * hundreds;
    (sum % 256) as u8
}
