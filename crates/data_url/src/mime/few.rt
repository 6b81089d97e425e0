//! The first parameters of each name, as slices of the text, as long as they are few.

ghost use Rattle.std.specs.Prelude.{◌≡◌, IsTrue, MatchBool, map};
ghost use Rattle.std.specs.{Char.{to_ascii_lowercase}, Str.{bytes_eq, chars}};
ghost use Rattle.data_url.specs.Mime.{BeginsParameters, has_name, is_token_text};
ghost use Rattle.data_url.specs.Steps.Few.{AreMany, AreTokens, IsAdded, IsKept, sliced_pairs};

use super::cuts::after_semicolon;
use super::parse::{Parameter, read_parameter};
use super::values::Value;

/// How many parameters are kept at most.
const MOST_SLICES: usize = 8;

/// The name and the value of a parameter, as slices of the text.
#[derive(Clone, Copy)]
pub(super) struct NameAndValue<'a> {
    pub(super) name: &'a str,
    pub(super) value: Value<'a>,
}

/// The parameters that are kept: the first `len` of these.
#[derive(Clone, Copy)]
pub(super) struct FewParameters<'a> {
    pub(super) slices: [NameAndValue<'a>; MOST_SLICES],
    pub(super) len: usize,
}

impl<'a> FewParameters<'a> {
    /// Returns no parameters.
    #[inline(always)]
    pub(super) fn new() -> FewParameters<'a>
        ensures none { result.len ≡ 0 }
        ensures tokens { AreTokens result }
    {
        FewParameters {
            slices: [NameAndValue {
                name: "",
                value: Value::Missing,
            }; MOST_SLICES],
            len: 0,
        }
    }

    /// Keeps the parameters of a text that is empty or begins with `;`. Returns false if there is no room for them.
    #[tactic(auto, using(crate::proofs::mime::FirstNames::parameters))]
    pub(super) fn read(&mut self, text: &'a str) -> bool
        requires none { self.old.len ≡ 0 }
        requires tokens { AreTokens self.old }
        requires begins { BeginsParameters (chars text.now) }
        ensures { MatchBool result (IsKept (chars text.now) self.new) (AreMany (chars text.now)) }
    {
        let mut rest = text;
        while !rest.is_empty() {
            let parameter = read_parameter(after_semicolon(rest));
            rest = parameter.rest;
            if !self.add(&parameter) {
                return false;
            }
        }
        true
    }

    /// Returns whether a parameter that is kept has the name, in any ASCII case.
    fn has_name(&self, name: &str) -> bool
        requires tokens { AreTokens self.now }
        requires token { IsTrue (is_token_text (chars name.now)) }
        ensures { result ≡ has_name (map to_ascii_lowercase (chars name.now)) (sliced_pairs self.now) }
    {
        for slice in &self.slices[..self.len] {
            if is_same_name(slice.name, name) {
                return true;
            }
        }
        false
    }

    /// Keeps a parameter, if it is valid and its name is not there yet. Returns false if there is no room for it.
    fn add(&mut self, parameter: &Parameter<'a>) -> bool
        requires tokens { AreTokens self.old }
        requires token { parameter.now.is_token ≡ is_token_text (chars parameter.now.name.now) }
        ensures { IsAdded self.old parameter.now result self.new }
    {
        if !parameter.is_token || self.has_name(parameter.name) || !parameter.value.is_valid() {
            return true;
        }
        if self.len == MOST_SLICES {
            return false;
        }
        self.slices[self.len] = NameAndValue {
            name: parameter.name,
            value: parameter.value,
        };
        self.len += 1;
        true
    }
}

/// Returns whether two token texts are equal in any ASCII case.
#[inline(always)]
fn is_same_name(one: &str, other: &str) -> bool
    requires one { IsTrue (is_token_text (chars one.now)) }
    requires other { IsTrue (is_token_text (chars other.now)) }
    ensures { result ≡ bytes_eq (map to_ascii_lowercase (chars one.now))
        (map to_ascii_lowercase (chars other.now)) }
{
    one.eq_ignore_ascii_case(other)
}
