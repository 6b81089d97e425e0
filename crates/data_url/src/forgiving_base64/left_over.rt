//! What a text of base64 leaves over for the next part (Infra Standard, forgiving-base64 decode).

ghost use Rattle.std.specs.Prelude.{◌≡◌, ◌≤◌, IsTrue, MatchOption, [], false, length, take, true};
ghost use Rattle.std.specs.List.{list_all};
ghost use Rattle.data_url.specs.Base64.{is_symbol};

use super::alphabet::is_symbol;
use std::simd::prelude::*;

/// What a text of base64 leaves over, from which decoding goes on: the symbols after its last group of four, up to
/// three, and the number of `=` ([Infra Standard, forgiving-base64
/// decode](https://infra.spec.whatwg.org/#forgiving-base64-decode)). It is a value that may be stored and
/// copied.
#[derive(Clone, Copy)]
pub struct LeftOver {
    // A row that begins with the symbols, `pending` of them. Its other bytes are of no use.
    pub(super) symbols: u8x16,
    pub(super) pending: usize,
    // The number of `=`; 3 means three or more.
    pub(super) padding: u8,
    ghost few_pending: { pending ≤ 3 },
    ghost pending_symbols: { IsTrue (list_all is_symbol (take pending symbols)) },
    ghost few_padding: { padding ≤ 3 },
    ghost sized: { length symbols ≡ 16 },
}

impl LeftOver {
    ghost use Rattle.data_url.specs.Parts.{HasParts, is_left_over, left_over_text};
    ghost use Rattle.data_url.specs.Steps.Holding.{IsBetweenGroups, left_state};

    /// Returns that nothing is left over, as at the start of a text.
    pub fn new() -> LeftOver
        ensures { left_over_text result ≡ [] }
    {
        LeftOver {
            symbols: u8x16::splat(0),
            pending: 0,
            padding: 0,
        }
    }

    /// Returns what is left over, from its parts as `into_parts` returns them. Returns None for other values: for more
    /// than three symbols, a byte that is no symbol, and a padding above three.
    pub fn from_parts(symbols: [u8; 3], pending: usize, padding: u8) -> Option<LeftOver>
        ensures { MatchOption result (is_left_over symbols pending padding ≡ false)
            (λ s. HasParts s symbols pending padding) }
    {
        if pending > 3 || padding > 3 {
            return None;
        }
        if !symbols[..pending].iter().all(|byte| is_symbol(*byte)) {
            return None;
        }
        let [first, second, third] = symbols;
        Some(LeftOver {
            symbols: u8x16::from_array([
                first, second, third, 0, 0, 0, 0, 0, 0, 0, 0, 0, 0, 0, 0, 0,
            ]),
            pending,
            padding,
        })
    }

    /// Returns the parts: the symbols left over are the first bytes of the array, and their number comes next; then the
    /// number of `=`, where three means three or more.
    pub fn into_parts(self) -> ([u8; 3], usize, u8)
        ensures { HasParts self result.0 result.1 result.2 }
    {
        let row = self.symbols.to_array();
        // Copied together, since the next call from C reads two of them at once.
        let mut symbols = [0; 3];
        symbols.copy_from_slice(&row[..3]);
        (symbols, self.pending, self.padding)
    }

    /// Returns how many symbols are left over, at most three.
    #[inline(always)]
    pub(crate) fn pending(&self) -> usize
        ensures few { result ≤ 3 }
        ensures pending { result ≡ self.now.pending }
    {
        self.pending
    }

    /// Whether the next symbol begins a group.
    #[inline(always)]
    pub(super) fn is_between_groups(&self) -> bool
        ensures { result ≡ true → IsBetweenGroups (left_state self.now) }
    {
        self.pending == 0 && self.padding == 0
    }
}
