//! MIME types (MIME Sniffing Standard, section 4).

ghost use Rattle.std.specs.Prelude.{◌≡◌, ◌↔◌, IfOk, IsTrue, [], Some, codes};

mod cuts;
mod few;
mod in_parts;
mod kept;
mod lower;
mod parse;
mod print;
mod print_buffer;
mod values;

pub(crate) use cuts::without_trailing_whitespace;
pub use in_parts::read_mime_type;
pub(crate) use in_parts::write_default;
use parse::read_head;
pub(crate) use parse::{Head, read_trimmed_head, text_plain_head};
use print::push_parameter;
use print_buffer::PrintBuffer;
use std::alloc::{AllocError, Global};
use std::error::Error;
use std::fmt;

/// A MIME type record: a type, a subtype and parameters in order. Its fields may have any text. In a record that was
/// parsed, the type, the subtype and the names are in ASCII lower case.
///
/// Contracts see a record as three lists of code points, `record_of` of it.
#[derive(Debug, Drop)]
pub struct Mime {
    /// The type, as `text` of `text/html`.
    pub type_: String,
    /// The subtype, as `html` of `text/html`.
    pub subtype: String,
    /// Names and values.
    pub parameters: Vec<(String, String)>,
}

/// Records are equal exactly if their texts are, byte for byte, and their parameters are in the same order.
impl PartialEq for Mime {
    ghost use Rattle.std.specs.Cmp.{partial_equiv_from_equiv};
    ghost use Rattle.data_url.specs.MimeType.{SameTexts, same_texts, same_texts_equiv};

    ghost eq = { same_texts };

    ghost laws = { partial_equiv_from_equiv same_texts_equiv };

    fn eq(&self, other: &Mime) -> bool
        ensures value { result ≡ same_texts self.now other.now }
        ensures same { IsTrue result ↔ SameTexts self.now other.now }
    {
        self.type_ == other.type_
            && self.subtype == other.subtype
            && self.parameters == other.parameters
    }
}

impl Eq for Mime {
    ghost use Rattle.data_url.specs.MimeType.{same_texts_equiv};

    ghost laws = { same_texts_equiv };
}

/// Writes a record ([MIME Sniffing Standard, section 4.5](https://mimesniff.spec.whatwg.org/#serializing-a-mime-type)),
/// valid or not. A value that is empty, or has a code point that is not a token code point, is in quotes, with a `\`
/// before each `"` and each `\`.
impl fmt::Display for Mime {
    ghost use Rattle.std.specs.Str.{encode_utf8_all};
    ghost use Rattle.data_url.specs.{Mime.{printed}, MimeType.{record_of}};

    ghost output = { λ mime. Some (encode_utf8_all (printed (record_of mime))) };

    ghost styled_output = { λ mime spec. Some (encode_utf8_all (printed (record_of mime))) };

    fn fmt<W: fmt::Write>(&self, f: &mut fmt::Formatter<W>) -> fmt::Result {
        let mut buffer = PrintBuffer::new();
        buffer.push(f, &self.type_)?;
        buffer.push(f, "/")?;
        buffer.push(f, &self.subtype)?;
        for (name, value) in &self.parameters {
            push_parameter(&mut buffer, f, name, value)?;
        }
        buffer.flush(f)
    }
}

/// The text is not a MIME type
/// ([MIME Sniffing Standard, section 4.4](https://mimesniff.spec.whatwg.org/#parsing-a-mime-type)).
#[derive(Debug, Drop)]
pub struct MimeParsingError(());

impl fmt::Display for MimeParsingError {
    ghost output = { λ _. Some (codes "invalid mime type") };

    ghost styled_output = { λ _ spec. Some (codes "invalid mime type") };

    fn fmt<W: fmt::Write>(&self, f: &mut fmt::Formatter<W>) -> fmt::Result {
        f.write_str("invalid mime type")
    }
}

impl Error for MimeParsingError {}

/// Why a text has no record
/// ([MIME Sniffing Standard, section 4.4](https://mimesniff.spec.whatwg.org/#parsing-a-mime-type)).
#[derive(Debug, Drop)]
pub enum MimeFromStrError {
    /// The text is not a MIME type
    /// ([MIME Sniffing Standard, section 4.4](https://mimesniff.spec.whatwg.org/#parsing-a-mime-type)).
    Parsing(MimeParsingError),
    /// Allocation failed. `read_mime_type` also returns it if the MIME type has 2 to the power of 63 bytes or more in
    /// parts.
    OutOfMemory,
}

impl fmt::Display for MimeFromStrError {
    ghost use Rattle.data_url.specs.Errors.{mime_error_text};

    ghost output = { λ error. Some (mime_error_text error) };

    ghost styled_output = { λ error spec. Some (mime_error_text error) };

    fn fmt<W: fmt::Write>(&self, f: &mut fmt::Formatter<W>) -> fmt::Result {
        match self {
            MimeFromStrError::Parsing(inner) => fmt::Display::fmt(inner, f),
            MimeFromStrError::OutOfMemory => f.write_str("out of memory"),
        }
    }
}

impl Error for MimeFromStrError {}

impl Mime {
    ghost use Rattle.std.specs.{Prelude.{string_bytes}, Str.{chars}};
    ghost use Rattle.data_url.specs.{Mime.{HasNoRecord, IsWellformed, Parses}, Errors.{IsParsingError}};
    ghost use Rattle.data_url.specs.MimeType.{SameTexts, as_option, record_of, value_of_name};

    /// Returns the record of a type and a subtype as they are given, with no parameters. Allocates the two texts.
    ///
    /// Returns an error if allocation fails.
    pub fn new(alloc: Global, type_: &str, subtype: &str) -> Result<Mime, AllocError>
        ensures type_ { IfOk result (λ mime. string_bytes mime.type_ ≡ type_.now) }
        ensures subtype { IfOk result (λ mime. string_bytes mime.subtype ≡ subtype.now) }
        ensures parameters { IfOk result (λ mime. mime.parameters.items ≡ []) }
    {
        Ok(Mime {
            type_: String::from_str(alloc, type_)?,
            subtype: String::from_str(alloc, subtype)?,
            parameters: Vec::new(alloc),
        })
    }

    /// Returns a record of the same texts, byte for byte, on this record's own allocator. Returns an error if
    /// allocation fails.
    pub fn clone(&self) -> Result<Mime, AllocError>
        ensures texts { IfOk result (λ copy. SameTexts copy self.now) }
        ensures seen { IfOk result (λ copy. record_of copy ≡ record_of self.now) }
    {
        Ok(Mime {
            type_: self.type_.clone()?,
            subtype: self.subtype.clone()?,
            parameters: self.parameters.clone()?,
        })
    }

    /// Parses a MIME type
    /// ([MIME Sniffing Standard, section 4.4](https://mimesniff.spec.whatwg.org/#parsing-a-mime-type)).
    ///
    /// Returns `Parsing` exactly if the text is not a MIME type, before anything is allocated. Returns `OutOfMemory`
    /// only for a text that is one, if allocation fails.
    ///
    /// Not proved: the time is in proportion to the length of the text, times the logarithm of the number of names
    /// that are kept, and the memory in proportion to the text.
    #[tactic(auto, using(crate::proofs::mime::FirstNames::records))]
    pub fn from_str(alloc: Global, s: &str) -> Result<Mime, MimeFromStrError>
        ensures parsed { IfOk result (λ mime. Parses (chars s.now) (record_of mime)) }
        ensures wellformed { IfOk result (λ mime. IsWellformed (record_of mime)) }
        ensures refused { IsParsingError result ↔ HasNoRecord (chars s.now) }
    {
        let Some(head) = read_head(s) else {
            return Err(MimeFromStrError::Parsing(MimeParsingError(())));
        };
        match head.record(alloc) {
            Ok(mime) => Ok(mime),
            Err(AllocError) => Err(MimeFromStrError::OutOfMemory),
        }
    }

    /// Returns whether type and subtype are exactly these texts, whatever the parameters are.
    pub fn matches(&self, type_: &str, subtype: &str) -> bool
        ensures { IsTrue result
            ↔ ((string_bytes self.now.type_ ≡ type_.now)
            × (string_bytes self.now.subtype ≡ subtype.now)) }
    {
        self.type_.as_str() == type_ && self.subtype.as_str() == subtype
    }

    /// Returns the value of the first parameter whose name is exactly this text, or None if there is none.
    pub fn get_parameter(&self, name: &str) -> Option<&str>
        ensures { as_option result ≡ value_of_name name.now self.now.parameters.items }
    {
        for (key, value) in self.parameters.iter() {
            if key.as_str() == name {
                return Some(value.as_str());
            }
        }
        None
    }
}
