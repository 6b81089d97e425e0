//! Fragments of data: URLs (URL Standard, section 4.4, fragment state).

ghost use Rattle.std.specs.Prelude.{◌≡◌, IfOk};

use crate::percent::{EncodeSet, push_encoded};
use std::alloc::{AllocError, Global};

/// The text after the first `#` of a data: URL
/// ([URL Standard, section 4.4, fragment state](https://url.spec.whatwg.org/#fragment-state)), as it was given, tabs
/// and newlines included.
#[derive(Drop)]
pub struct FragmentIdentifier<'a> {
    text: &'a str,
}

impl<'a> FragmentIdentifier<'a> {
    ghost use Rattle.std.specs.Prelude.{string_bytes};
    ghost use Rattle.data_url.specs.{Url.{encoded_fragment}, DataUrl.{fragment_text}};

    /// Returns the fragment with this text.
    pub(crate) fn new(text: &'a str) -> Self
        ensures { fragment_text result ≡ text.entry.now }
    {
        FragmentIdentifier { text }
    }

    /// Returns the fragment as the URL parser leaves it
    /// ([URL Standard, section 4.4, fragment state](https://url.spec.whatwg.org/#fragment-state)): without tabs and
    /// newlines, each byte of the fragment percent-encode set as `%` and two upper-case hexadecimal digits. A `%`
    /// stays as it is. Room for a text as long as the fragment is allocated first, and grows if more is written.
    ///
    /// Returns an error if allocation fails.
    pub fn to_percent_encoded(&self, alloc: Global) -> Result<String, AllocError>
        ensures { IfOk result (λ text.
            string_bytes text ≡ encoded_fragment (fragment_text self.now)) }
    {
        let bytes = self.text.as_bytes();
        let mut text = String::with_capacity(alloc, bytes.len())?;
        push_encoded(&mut text, EncodeSet::Fragment, bytes)?;
        Ok(text)
    }
}
