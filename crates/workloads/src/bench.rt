//! What each workload needs: where inputs are made, the calls of the library on them, and the digest of the results.

use crate::digest::Digest;
use crate::random::{Random, SYMBOLS};
use data_url::forgiving_base64::{Decoder, decode_to_vec};
use data_url::mime::Mime;
use data_url::{DataUrl, FragmentIdentifier};
use std::alloc::{AllocError, Global};
use std::fmt::Display;
use std::mem::replace;

/// The input that is made, and what is kept over all calls.
#[derive(Drop)]
pub(crate) struct Bench {
    pub(crate) alloc: Global,
    pub(crate) random: Random,
    pub(crate) digest: Digest,
    /// The input.
    pub(crate) text: String,
    /// The bytes of a body that came in pieces.
    body: Vec<u8>,
    /// How many inputs were made.
    made: u64,
}

impl Bench {
    /// Returns what workloads begin with.
    pub(crate) fn new(alloc: Global, seed: u64) -> Bench {
        Bench {
            alloc,
            random: Random::new(seed),
            digest: Digest::new(),
            text: String::new(alloc),
            body: Vec::new(alloc),
            made: 0,
        }
    }

    /// Begins a new input.
    pub(crate) fn begin(&mut self, text: &str) -> Result<(), AllocError> {
        self.text.clear();
        self.text.push_str(text)
    }

    /// Adds to the input.
    pub(crate) fn push(&mut self, text: &str) -> Result<(), AllocError> {
        self.text.push_str(text)
    }

    /// Adds eight letters and digits that no other input has at its end. They are two groups of base64.
    pub(crate) fn push_number(&mut self) -> Result<(), AllocError> {
        self.made = self.made.wrapping_add(1);
        let mut rest = self.made;
        for _ in 0..8 {
            self.text.push(char::from(SYMBOLS[(rest % 32) as usize]))?;
            rest /= 32;
        }
        Ok(())
    }

    /// Adds rows of a pool, from one of them on, until the input has some length.
    pub(crate) fn push_rows(&mut self, rows: &[String], len: usize) -> Result<(), AllocError> {
        if rows.is_empty() {
            return Ok(());
        }
        let mut row = self.random.below(rows.len());
        let end = self.text.len().saturating_add(len);
        for _ in 0..len {
            if self.text.len() >= end {
                break;
            }
            if let Some(found) = rows.get(row) {
                self.text.push_str(found)?;
                row += 1;
            } else {
                row = 0;
            }
        }
        Ok(())
    }

    /// Adds the text of an error to the digest.
    fn add_error<D: Display>(&mut self, error: &D) -> Result<(), AllocError> {
        let line = format!(in self.alloc; "{error}")?;
        self.digest.bytes(line.as_bytes());
        Ok(())
    }

    /// Adds a fragment to the digest, percent-encoded.
    fn add_fragment(&mut self, fragment: Option<FragmentIdentifier>) -> Result<(), AllocError> {
        if let Some(fragment) = fragment {
            let encoded = fragment.to_percent_encoded(self.alloc)?;
            self.digest.bytes(encoded.as_bytes());
        }
        Ok(())
    }

    /// Adds a record to the digest, after a look at it as a crawler takes it: its type, its character set, and how it
    /// is printed.
    fn add_record(&mut self, mime: &Mime) -> Result<(), AllocError> {
        let is_html = mime.matches("text", "html") || mime.matches("application", "xhtml+xml");
        self.digest.number(u64::from(is_html));
        if let Some(charset) = mime.get_parameter("charset") {
            self.digest.bytes(charset.as_bytes());
        }
        let printed = format!(in self.alloc; "{mime}")?;
        self.digest.bytes(printed.as_bytes());
        Ok(())
    }

    /// Reads the input as a data: URL, decodes its body into a vector, and percent-encodes its fragment.
    pub(crate) fn read_url(&mut self) -> Result<(), AllocError> {
        let text = replace(&mut self.text, String::new(self.alloc));
        match DataUrl::process(self.alloc, &text) {
            Ok(url) => match url.decode_to_vec(self.alloc) {
                Ok((body, fragment)) => {
                    self.digest.bytes(&body);
                    self.add_fragment(fragment)?;
                }
                Err(error) => self.add_error(&error)?,
            },
            Err(error) => self.add_error(&error)?,
        }
        self.text = text;
        Ok(())
    }

    /// Reads the input as a data: URL, decodes its body by a closure, and percent-encodes its fragment.
    pub(crate) fn read_url_in_pieces(&mut self) -> Result<(), AllocError> {
        let text = replace(&mut self.text, String::new(self.alloc));
        let mut body = replace(&mut self.body, Vec::new(self.alloc));
        body.clear();
        match DataUrl::process(self.alloc, &text) {
            Ok(url) => {
                let ended = url.decode(|piece: &[u8]| -> Result<(), AllocError> {
                    body.extend_from_slice(piece)
                });
                match ended {
                    Ok(fragment) => self.add_fragment(fragment)?,
                    Err(error) => self.add_error(&error)?,
                }
                self.digest.bytes(&body);
            }
            Err(error) => self.add_error(&error)?,
        }
        self.text = text;
        self.body = body;
        Ok(())
    }

    /// Reads the input as a data: URL, and looks at its MIME type alone.
    pub(crate) fn read_url_type(&mut self) -> Result<(), AllocError> {
        let text = replace(&mut self.text, String::new(self.alloc));
        match DataUrl::process(self.alloc, &text) {
            Ok(url) => self.add_record(url.mime_type())?,
            Err(error) => self.add_error(&error)?,
        }
        self.text = text;
        Ok(())
    }

    /// Reads the input as a MIME type.
    pub(crate) fn read_type(&mut self) -> Result<(), AllocError> {
        match Mime::from_str(self.alloc, &self.text) {
            Ok(mime) => self.add_record(&mime),
            Err(error) => self.add_error(&error),
        }
    }

    /// Reads the input as base64, into a vector.
    pub(crate) fn read_base64(&mut self) -> Result<(), AllocError> {
        match decode_to_vec(self.alloc, self.text.as_bytes()) {
            Ok(bytes) => self.digest.bytes(&bytes),
            Err(error) => self.add_error(&error)?,
        }
        Ok(())
    }

    /// Feeds the input to a decoder of base64, in parts of some size.
    pub(crate) fn feed_base64(&mut self, size: usize) -> Result<(), AllocError> {
        let text = replace(&mut self.text, String::new(self.alloc));
        let mut body = replace(&mut self.body, Vec::new(self.alloc));
        body.clear();
        let mut decoder = Decoder::new(|piece: &[u8]| -> Result<(), AllocError> {
            body.extend_from_slice(piece)
        });
        for part in text.as_bytes().chunks(size.max(1)) {
            if !decoder.has_failed() && decoder.feed(part).is_err() {
                break;
            }
        }
        if !decoder.has_failed() {
            self.digest.number(u64::from(decoder.finish().is_ok()));
        }
        self.digest.bytes(&body);
        self.text = text;
        self.body = body;
        Ok(())
    }
}
