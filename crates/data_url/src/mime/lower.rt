//! Types and names in ASCII lower case.
#![tactic(auto, using(crate::proofs::mime::FirstNames::lower_chars))]

ghost use Rattle.std.specs.Prelude.{◌≡◌, IfOk, IsTrue, length, map};
ghost use Rattle.std.specs.{Char.{to_ascii_lowercase}, Str.{chars}};
ghost use Rattle.data_url.specs.{Mime.{is_token_text}, MimeType.{code_points}};

use std::alloc::{AllocError, Global};
use std::simd::prelude::*;

/// How many bytes are put into lower case at once.
const WORD: usize = 4;

/// Returns a text of token code points in ASCII lower case, or an error if allocation fails.
pub(super) fn lowercased(alloc: Global, text: &str) -> Result<String, AllocError>
    requires { IsTrue (is_token_text (chars text.now)) }
    ensures { IfOk result (λ lower. code_points lower ≡ map to_ascii_lowercase (chars text.now)) }
{
    let mut lower = String::from_str(alloc, text)?;
    lower.make_ascii_lowercase();
    Ok(lower)
}

/// Copies bytes, in ASCII lower case, to an output of the same length. The last word may overlap the one before it,
/// which is faster than to copy the last bytes one by one.
#[inline(always)]
pub(super) fn copy_lowercase(bytes: &[u8], output: &mut [u8])
    requires { length output.old ≡ length bytes.now }
    ensures { output.new ≡ map to_ascii_lowercase bytes.now }
{
    if bytes.len() < WORD {
        return copy_short(bytes, output);
    }
    let last = bytes.len() - WORD;
    let mut copied = 0;
    while copied < bytes.len() {
        let from = copied.min(last);
        let word = u8x4::from_slice(&bytes[from..]);
        lowercase_word(word).copy_to_slice(&mut output[from..]);
        copied = from + WORD;
    }
}

/// Copies bytes one by one, in ASCII lower case. It is used for fewer bytes than a word has.
#[inline(always)]
fn copy_short(bytes: &[u8], output: &mut [u8])
    requires { length output.old ≡ length bytes.now }
    ensures { output.new ≡ map to_ascii_lowercase bytes.now }
{
    for (place, byte) in bytes.iter().enumerate() {
        output[place] = byte.to_ascii_lowercase();
    }
}

/// Returns the bytes of a word in ASCII lower case.
#[inline(always)]
fn lowercase_word(word: u8x4) -> u8x4
    ensures { result ≡ map to_ascii_lowercase word }
{
    let is_upper = (word - u8x4::splat(b'A')).simd_lt(u8x4::splat(26));
    word + is_upper.select(u8x4::splat(b'a' - b'A'), u8x4::splat(0))
}
