//! Pseudo-random numbers, by SplitMix64 (Steele, Lea and Flood, 2014).

/// The symbols of base64.
pub(crate) const SYMBOLS: &[u8; 64] =
    b"ABCDEFGHIJKLMNOPQRSTUVWXYZabcdefghijklmnopqrstuvwxyz0123456789+/";

/// A sequence of numbers that look random, and are the same for each seed.
#[derive(Drop)]
pub(crate) struct Random {
    state: u64,
}

impl Random {
    /// Returns the sequence of a seed.
    pub(crate) fn new(seed: u64) -> Random {
        Random { state: seed }
    }

    /// Returns the next number.
    pub(crate) fn next(&mut self) -> u64 {
        self.state = self.state.wrapping_add(0x9E37_79B9_7F4A_7C15);
        let first = (self.state ^ (self.state >> 30)).wrapping_mul(0xBF58_476D_1CE4_E5B9);
        let second = (first ^ (first >> 27)).wrapping_mul(0x94D0_49BB_1331_11EB);
        second ^ (second >> 31)
    }

    /// Returns a number below a bound, or 0 if the bound is 0.
    pub(crate) fn below(&mut self, bound: usize) -> usize {
        if bound == 0 {
            return 0;
        }
        self.next() as usize % bound
    }

    /// Returns a number from a range of sizes, in which small ones are as frequent as large ones: from `least` on,
    /// doubled up to `doublings` times.
    pub(crate) fn size(&mut self, least: usize, doublings: usize) -> usize {
        let mut size = least;
        for _ in 0..self.below(doublings) {
            size = size.saturating_mul(2);
        }
        size.saturating_add(self.below(size))
    }

    /// Returns whether something happens that does so in `percent` of a hundred cases.
    pub(crate) fn happens(&mut self, percent: usize) -> bool {
        self.below(100) < percent
    }

    /// Returns a symbol of base64.
    pub(crate) fn symbol(&mut self) -> u8 {
        SYMBOLS[(self.next() % 64) as usize]
    }

    /// Returns one of some texts.
    pub(crate) fn choose<'a>(&mut self, texts: &[&'a str]) -> &'a str {
        match texts.get(self.below(texts.len())) {
            Some(text) => *text,
            None => "",
        }
    }
}
