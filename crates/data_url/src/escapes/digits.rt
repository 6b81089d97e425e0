//! Hexadecimal digits after a `%`, past tabs and newlines.

#![tactic(auto, using(crate::proofs::escapes::EscapeDigits::digits))]

ghost use Rattle.std.specs.Prelude.{◌≡◌, ◌+◌, ◌<◌, ◌≤◌};
ghost use Rattle.std.specs.Prelude.{IsTrue, MatchOption, drop, false, length, slice_index};
ghost use Rattle.data_url.specs.Percent.{begins_with_escape};
ghost use Rattle.data_url.specs.Steps.Digits.{EscapeAt, IsCode, IsDigitFrom, NoEscape};
ghost use Rattle.data_url.specs.Url.{percent_sign};

use super::source::Source;
use std::mem::replace;

/// What the table `DIGITS` has for a tab or a newline.
const PASSED: u8 = 16;

/// For each byte, its value if it is a hexadecimal digit, `PASSED` if it is a tab or a newline, and a greater number
/// otherwise.
const DIGITS: [u8; 256] = [
    32, 32, 32, 32, 32, 32, 32, 32, 32, 16, 16, 32, 32, 16, 32, 32, 32, 32, 32, 32, 32, 32, 32, 32,
    32, 32, 32, 32, 32, 32, 32, 32, 32, 32, 32, 32, 32, 32, 32, 32, 32, 32, 32, 32, 32, 32, 32, 32,
    0, 1, 2, 3, 4, 5, 6, 7, 8, 9, 32, 32, 32, 32, 32, 32, 32, 10, 11, 12, 13, 14, 15, 32, 32, 32,
    32, 32, 32, 32, 32, 32, 32, 32, 32, 32, 32, 32, 32, 32, 32, 32, 32, 32, 32, 32, 32, 32, 32, 10,
    11, 12, 13, 14, 15, 32, 32, 32, 32, 32, 32, 32, 32, 32, 32, 32, 32, 32, 32, 32, 32, 32, 32, 32,
    32, 32, 32, 32, 32, 32, 32, 32, 32, 32, 32, 32, 32, 32, 32, 32, 32, 32, 32, 32, 32, 32, 32, 32,
    32, 32, 32, 32, 32, 32, 32, 32, 32, 32, 32, 32, 32, 32, 32, 32, 32, 32, 32, 32, 32, 32, 32, 32,
    32, 32, 32, 32, 32, 32, 32, 32, 32, 32, 32, 32, 32, 32, 32, 32, 32, 32, 32, 32, 32, 32, 32, 32,
    32, 32, 32, 32, 32, 32, 32, 32, 32, 32, 32, 32, 32, 32, 32, 32, 32, 32, 32, 32, 32, 32, 32, 32,
    32, 32, 32, 32, 32, 32, 32, 32, 32, 32, 32, 32, 32, 32, 32, 32, 32, 32, 32, 32, 32, 32, 32, 32,
    32, 32, 32, 32, 32, 32, 32, 32, 32, 32, 32, 32, 32, 32,
];

/// Returns what the table `DIGITS` has for a byte.
#[inline(always)]
fn digit_code(byte: u8) -> u8
    ensures { IsCode byte result }
{
    DIGITS[byte as usize]
}

impl<'a> Source<'a> {
    /// Returns the value of the escape whose `%` is at a place, and the place after the escape. Tabs and newlines in it
    /// are skipped. `two_follow` says that at least two bytes follow the `%`. Then no test for the end of the text
    /// precedes a digit that follows at once, which is faster.
    #[inline(always)]
    pub(super) fn escape(&mut self, place: usize, two_follow: bool) -> Option<(u8, usize)>
        requires within { place < length self.old.text.now }
        requires room { IsTrue two_follow → place + 3 ≤ length self.old.text.now }
        requires percent { slice_index self.old.text.now place ≡ percent_sign }
        ensures text { self.new.text.now ≡ self.old.text.now }
        ensures looks { self.old.looks ≤ self.new.looks }
        ensures found { MatchOption result
            (NoEscape self.old.text.now place self.old.looks self.new.looks)
            (λ found. EscapeAt self.old.text.now place found.0 found.1
            × (self.new.looks + place + 1 ≡ self.old.looks + found.1)) }
    {
        let (high, after) = self.digit(place + 1, two_follow)?;
        let (low, end) = self.digit(after, two_follow && after == place + 2)?;
        Some((high * 16 + low, end))
    }

    /// Returns the value of the escape at a place, or None if none begins there that has no tabs and newlines.
    #[inline(always)]
    pub(super) fn escape_here(&mut self, place: usize) -> Option<u8>
        requires { place + 3 ≤ length self.old.text.now }
        ensures text { self.new.text.now ≡ self.old.text.now }
        ensures looks { self.old.looks ≤ self.new.looks }
        ensures few { self.new.looks ≤ self.old.looks + 3 }
        ensures found { MatchOption result
            (begins_with_escape (drop place self.old.text.now) ≡ false)
            (λ value. EscapeAt self.old.text.now place value (place + 3)) }
    {
        if self.look(place) != b'%' {
            return None;
        }
        let high = digit_code(self.look(place + 1));
        let low = digit_code(self.look(place + 2));
        if (high | low) >= PASSED {
            return None;
        }
        Some(high * 16 + low)
    }

    /// Returns the value of the hexadecimal digit that comes at a place or after tabs and newlines there, and the place
    /// after the digit. `inside` says that the place is before the end of the text, which is not tested then.
    #[inline(always)]
    fn digit(&mut self, place: usize, inside: bool) -> Option<(u8, usize)>
        requires within { place ≤ length self.old.text.now }
        requires some { IsTrue inside → place < length self.old.text.now }
        ensures text { self.new.text.now ≡ self.old.text.now }
        ensures found { IsDigitFrom self.old.text.now place self.old.looks self.new.looks result }
    {
        if !inside && place >= self.len() {
            return None;
        }
        match digit_code(self.look(place)) {
            value if value < PASSED => Some((value, place + 1)),
            PASSED => self.digit_further(place + 1),
            _ => None,
        }
    }

    /// Does what `digit_by_loop` does, with a local copy of the `Source`. That function is not inlined: if it got a
    /// reference to the `Source` of the walk itself, the compiler could not keep that one in registers.
    #[inline(always)]
    fn digit_further(&mut self, place: usize) -> Option<(u8, usize)>
        requires { place ≤ length self.old.text.now }
        ensures text { self.new.text.now ≡ self.old.text.now }
        ensures found { IsDigitFrom self.old.text.now place self.old.looks self.new.looks result }
    {
        let mut source = replace(self, Source::new(&[]));
        let found = source.digit_by_loop(place);
        *self = source;
        found
    }

    /// Does what `digit` does, with a loop over tabs and newlines.
    #[inline(never)]
    fn digit_by_loop(&mut self, place: usize) -> Option<(u8, usize)>
        requires { place ≤ length self.old.text.now }
        ensures text { self.new.text.now ≡ self.old.text.now }
        ensures found { IsDigitFrom self.old.text.now place self.old.looks self.new.looks result }
    {
        for at in place..self.len() {
            match digit_code(self.look(at)) {
                value if value < PASSED => return Some((value, at + 1)),
                PASSED => {}
                _ => return None,
            }
        }
        None
    }
}
