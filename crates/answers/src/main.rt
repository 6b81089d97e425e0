//! Makes the public calls of the library on many texts, and writes what they return. A check compares that with the
//! answers of the standards.
//!
//! Each line of standard input is a word, a space and a text in hexadecimal. The word is `url`, `mime` or `base64`. For
//! each line this writes a line for each call: its name, a space, and what it returned. Bytes are written in
//! hexadecimal, and those of different calls of a closure are separated by commas.
#![tactic(auto)]

ghost use Rattle.std.specs.Prelude.{◌<◌};

use data_url::forgiving_base64::{Decoder, decode_to_vec};
use data_url::mime::Mime;
use data_url::parts::{read_header, read_mime_type};
use data_url::{DataUrl, FragmentIdentifier};
use std::alloc::{AllocError, Global};
use std::fmt::Display;
use std::io::{self, BufRead, BufReader, BufWriter, Write};
use std::str;

/// Writes bytes in hexadecimal.
fn write_bytes<W: Write>(bytes: &[u8], out: &mut W) -> io::Result<()> {
    for byte in bytes {
        write!(out, "{byte:02x}")?;
    }
    Ok(())
}

/// Writes an error, in place of what a call returns.
fn write_error<W: Write, D: Display>(error: &D, out: &mut W) -> io::Result<()> {
    writeln!(out, " error: {error}")
}

/// Writes the fragment of a URL, encoded, or that there is none.
fn write_fragment<W: Write>(
    alloc: Global,
    fragment: Option<FragmentIdentifier<'_>>,
    out: &mut W,
) -> io::Result<()> {
    let Some(fragment) = fragment else {
        return writeln!(out, " no fragment");
    };
    match fragment.to_percent_encoded(alloc) {
        Ok(encoded) => writeln!(out, " fragment: {encoded}"),
        Err(_) => writeln!(out, " out of memory"),
    }
}

/// Writes a piece of a body, and a comma.
fn write_piece<W: Write>(piece: &[u8], out: &mut W) -> io::Result<()> {
    write_bytes(piece, out)?;
    write!(out, ",")
}

/// Calls `decode`, and writes the bytes that its closure is called with.
fn write_decode<W: Write>(alloc: Global, url: &DataUrl<'_>, out: &mut W) -> io::Result<()> {
    write!(out, "decode ")?;
    match url.decode(|piece: &[u8]| -> io::Result<()> { write_piece(piece, out) }) {
        Ok(fragment) => write_fragment(alloc, fragment, out),
        Err(error) => write_error(&error, out),
    }
}

/// Calls `decode_with`, and writes the bytes that its closure is called with.
fn write_decode_with<W: Write>(alloc: Global, url: &DataUrl<'_>, out: &mut W) -> io::Result<()> {
    write!(out, "decode_with ")?;
    let (answer, _) = url.decode_with(|piece: &[u8]| -> io::Result<()> { write_piece(piece, out) });
    match answer {
        Ok(fragment) => write_fragment(alloc, fragment, out),
        Err(error) => write_error(&error, out),
    }
}

/// Calls `decode_to_vec`, and writes its bytes.
fn write_decode_to_vec<W: Write>(alloc: Global, url: &DataUrl<'_>, out: &mut W) -> io::Result<()> {
    write!(out, "decode_to_vec ")?;
    match url.decode_to_vec(alloc) {
        Ok((bytes, fragment)) => {
            write_bytes(&bytes, out)?;
            write_fragment(alloc, fragment, out)
        }
        Err(error) => write_error(&error, out),
    }
}

/// Calls `read_header`, for the length and then for the parts. Writes the parts, whether the body is base64, and the
/// tail.
fn write_header<W: Write>(alloc: Global, text: &str, out: &mut W) -> io::Result<()> {
    write!(out, "read_header")?;
    let len = match read_header(alloc, text, &mut []) {
        Ok(header) => header.len,
        Err(error) => return write_error(&error, out),
    };
    let mut parts = vec![in alloc; 0; len]?;
    match read_header(alloc, text, &mut parts) {
        Ok(header) => {
            write!(out, " ")?;
            write_bytes(&parts, out)?;
            write!(out, " {} ", header.base64)?;
            write_bytes(header.tail.as_bytes(), out)?;
            writeln!(out)
        }
        Err(error) => write_error(&error, out),
    }
}

/// Calls `read_mime_type`, for the length and then for the parts, and writes these.
fn write_mime_parts<W: Write>(alloc: Global, text: &str, out: &mut W) -> io::Result<()> {
    write!(out, "read_mime_type")?;
    let len = match read_mime_type(alloc, text, &mut []) {
        Ok(len) => len,
        Err(error) => return write_error(&error, out),
    };
    let mut parts = vec![in alloc; 0; len]?;
    match read_mime_type(alloc, text, &mut parts) {
        Ok(_) => {
            write!(out, " ")?;
            write_bytes(&parts, out)?;
            writeln!(out)
        }
        Err(error) => write_error(&error, out),
    }
}

/// Makes the calls on a URL. Its body is decoded four times, twice by `decode`.
fn write_url<W: Write>(alloc: Global, text: &str, out: &mut W) -> io::Result<()> {
    write_header(alloc, text, out)?;
    write!(out, "process")?;
    let url = match DataUrl::process(alloc, text) {
        Ok(url) => url,
        Err(error) => return write_error(&error, out),
    };
    writeln!(out, " {}", url.mime_type())?;
    write_decode(alloc, &url, out)?;
    write_decode_with(alloc, &url, out)?;
    write_decode_to_vec(alloc, &url, out)?;
    write_decode(alloc, &url, out)
}

/// Makes the calls on a MIME type: it is written in parts, parsed, printed and copied.
fn write_mime<W: Write>(alloc: Global, text: &str, out: &mut W) -> io::Result<()> {
    write_mime_parts(alloc, text, out)?;
    write!(out, "from_str")?;
    let mime = match Mime::from_str(alloc, text) {
        Ok(mime) => mime,
        Err(error) => return write_error(&error, out),
    };
    writeln!(out, " {mime}")?;
    match mime.clone() {
        Ok(copy) if copy == mime => writeln!(out, "clone {copy}"),
        Ok(_) => writeln!(out, "clone differs"),
        Err(_) => writeln!(out, "clone out of memory"),
    }
}

/// Calls `decode_to_vec` on base64, and writes its bytes.
fn write_base64_to_vec<W: Write>(alloc: Global, text: &[u8], out: &mut W) -> io::Result<()> {
    write!(out, "base64 ")?;
    match decode_to_vec(alloc, text) {
        Ok(bytes) => {
            write_bytes(&bytes, out)?;
            writeln!(out)
        }
        Err(error) => write_error(&error, out),
    }
}

/// Feeds a decoder two parts of a text of base64 and ends it, and writes the bytes that its closure is called with.
fn write_decoder<W: Write>(text: &[u8], cut: usize, out: &mut W) -> io::Result<()> {
    write!(out, "decoder ")?;
    let (front, back) = text.split_at(cut.min(text.len()));
    let mut decoder = Decoder::new(|piece: &[u8]| -> io::Result<()> { write_piece(piece, out) });
    let mut ended = decoder.feed(front);
    if ended.is_ok() {
        ended = decoder.feed(back);
    }
    if ended.is_ok() {
        ended = decoder.finish();
    }
    match ended {
        Ok(()) => writeln!(out),
        Err(error) => write_error(&error, out),
    }
}

/// Makes the calls on base64: whole, and cut in two at the start, in the middle and at the end.
fn write_base64<W: Write>(alloc: Global, text: &[u8], out: &mut W) -> io::Result<()> {
    write_base64_to_vec(alloc, text, out)?;
    for cut in [0, text.len() / 2, text.len()] {
        write_decoder(text, cut, out)?;
    }
    Ok(())
}

/// The number of a hexadecimal digit in lower case, or 0.
fn digit(byte: u8) -> u8
    ensures { result < 16 }
{
    match byte {
        b'0'..=b'9' => byte - b'0',
        b'a'..=b'f' => byte - b'a' + 10,
        _ => 0,
    }
}

/// Returns the bytes of a text in hexadecimal.
fn bytes_of(alloc: Global, text: &str) -> Result<Vec<u8>, AllocError> {
    let digits = text.as_bytes();
    let mut bytes = Vec::new(alloc);
    for at in 0..digits.len() / 2 {
        bytes.push(16 * digit(digits[2 * at]) + digit(digits[2 * at + 1]))?;
    }
    Ok(bytes)
}

/// Makes the calls that a word names on a text.
fn write_calls<W: Write>(alloc: Global, word: &str, bytes: &[u8], out: &mut W) -> io::Result<()> {
    match (word, str::from_utf8(bytes)) {
        ("url", Ok(text)) => write_url(alloc, text, out),
        ("mime", Ok(text)) => write_mime(alloc, text, out),
        ("base64", _) => write_base64(alloc, bytes, out),
        _ => writeln!(out, "no such call"),
    }
}

fn main(rt: HostRuntime) -> io::Result<()> {
    let alloc = rt.alloc();
    let mut out = BufWriter::new(alloc, rt.stdout())?;
    for line in BufReader::new(alloc, rt.stdin())?.lines(alloc) {
        let line = line?;
        let (word, text) = line.split_once(' ').unwrap_or((line.as_str(), ""));
        let bytes = bytes_of(alloc, text)?;
        write_calls(alloc, word, &bytes, &mut out)?;
    }
    out.flush()
}
