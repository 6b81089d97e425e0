//! Makes one public call of the library, named by the first line of standard input, on the text after it, and writes
//! what it returns. It allocates nothing itself, so that a check can make each allocation of the call fail in turn.
#![tactic(auto)]

ghost use Rattle.std.specs.Prelude.{◌≤◌, IfOk, IsTrue, length};

use data_url::DataUrl;
use data_url::escapes::{Piece, Pieces};
use data_url::forgiving_base64::{Decoder, decode_to_vec};
use data_url::mime::Mime;
use std::alloc::Global;
use std::fmt::Display;
use std::io::{self, Read, Write};
use std::str;

/// Room for the name of the call and its text.
const BUFFER_LEN: usize = 64 * 1024;

/// Writes a line.
fn write_line<W: Write, D: Display>(out: &mut W, value: &D) -> io::Result<()> {
    writeln!(out, "{value}")
}

/// The line of a call whose allocation failed, and which has no error of its own.
const OUT_OF_MEMORY: &str = "out of memory";

/// `process`: the record of a URL.
fn write_record<W: Write>(alloc: Global, text: &str, out: &mut W) -> io::Result<()> {
    match DataUrl::process(alloc, text) {
        Ok(url) => write_line(out, url.mime_type()),
        Err(error) => write_line(out, &error),
    }
}

/// `decode_to_vec`: the body of a URL.
fn write_body<W: Write>(alloc: Global, text: &str, out: &mut W) -> io::Result<()> {
    let url = match DataUrl::process(alloc, text) {
        Ok(url) => url,
        Err(error) => return write_line(out, &error),
    };
    match url.decode_to_vec(alloc) {
        Ok((bytes, _)) => out.write_all(&bytes),
        Err(error) => write_line(out, &error),
    }
}

/// `decode`: the body of a URL, piece by piece, and then the fragment, unchanged.
fn write_pieces<W: Write>(alloc: Global, text: &str, out: &mut W) -> io::Result<()> {
    let url = match DataUrl::process(alloc, text) {
        Ok(url) => url,
        Err(error) => return write_line(out, &error),
    };
    match url.decode(|piece: &[u8]| -> io::Result<()> { out.write_all(piece) }) {
        Ok(_) => Ok(()),
        Err(_) => Ok(()),
    }
}

/// `to_percent_encoded`: the fragment of a URL.
fn write_fragment<W: Write>(alloc: Global, text: &str, out: &mut W) -> io::Result<()> {
    let url = match DataUrl::process(alloc, text) {
        Ok(url) => url,
        Err(error) => return write_line(out, &error),
    };
    let Ok(Some(fragment)) = url.decode(|_piece: &[u8]| -> io::Result<()> { Ok(()) }) else {
        return Ok(());
    };
    match fragment.to_percent_encoded(alloc) {
        Ok(encoded) => write_line(out, &encoded),
        Err(_) => write_line(out, &OUT_OF_MEMORY),
    }
}

/// `from_str`: a MIME type.
fn write_mime<W: Write>(alloc: Global, text: &str, out: &mut W) -> io::Result<()> {
    match Mime::from_str(alloc, text) {
        Ok(mime) => write_line(out, &mime),
        Err(error) => write_line(out, &error),
    }
}

/// `clone`: a MIME type, copied.
fn write_clone<W: Write>(alloc: Global, text: &str, out: &mut W) -> io::Result<()> {
    let mime = match Mime::from_str(alloc, text) {
        Ok(mime) => mime,
        Err(error) => return write_line(out, &error),
    };
    match mime.clone() {
        Ok(copy) => write_line(out, &copy),
        Err(_) => write_line(out, &OUT_OF_MEMORY),
    }
}

/// `new`: a record of the type `text` and a subtype.
fn write_new<W: Write>(alloc: Global, text: &str, out: &mut W) -> io::Result<()> {
    match Mime::new(alloc, "text", text) {
        Ok(mime) => write_line(out, &mime),
        Err(_) => write_line(out, &OUT_OF_MEMORY),
    }
}

/// `base64`: the bytes of a text of base64.
fn write_base64<W: Write>(alloc: Global, text: &str, out: &mut W) -> io::Result<()> {
    match decode_to_vec(alloc, text.as_bytes()) {
        Ok(bytes) => out.write_all(&bytes),
        Err(error) => write_line(out, &error),
    }
}

/// `decoder`: the bytes of a text of base64, group by group.
fn write_groups<W: Write>(text: &str, out: &mut W) -> io::Result<()> {
    let mut decoder = Decoder::new(|piece: &[u8]| -> io::Result<()> { out.write_all(piece) });
    if decoder.feed(text.as_bytes()).is_ok() {
        let _ended = decoder.finish();
    }
    Ok(())
}

/// `decoder_lengths`: the lengths of the pieces of a text of base64.
fn write_group_lengths<W: Write>(text: &str, out: &mut W) -> io::Result<()> {
    let mut decoder = Decoder::new(|piece: &[u8]| -> io::Result<()> {
        write_line(out, &piece.len())
    });
    if decoder.feed(text.as_bytes()).is_ok() {
        let _ended = decoder.finish();
    }
    Ok(())
}

/// `decode_lengths`: the lengths of the pieces of the body of a URL.
fn write_lengths<W: Write>(alloc: Global, text: &str, out: &mut W) -> io::Result<()> {
    let url = match DataUrl::process(alloc, text) {
        Ok(url) => url,
        Err(error) => return write_line(out, &error),
    };
    match url.decode(|piece: &[u8]| -> io::Result<()> { write_line(out, &piece.len()) }) {
        Ok(_) => Ok(()),
        Err(_) => Ok(()),
    }
}

/// Writes a piece: a slice in brackets, or the number of an escape.
fn write_piece<W: Write>(piece: &Piece, out: &mut W) -> io::Result<()> {
    match piece {
        Piece::Slice(slice) => {
            out.write_all(b"[")?;
            out.write_all(slice)?;
            out.write_all(b"]")
        }
        Piece::Byte(byte) => write!(out, "{byte}"),
    }
}

/// Writes `#` and the fragment after a body, if there is one, and what comes after the end, if anything does.
fn write_end<W: Write>(pieces: &mut Pieces<'_>, out: &mut W) -> io::Result<()>
    requires { IsTrue pieces.old.ended }
{
    if pieces.next().is_some() {
        return write!(out, " a piece after the end");
    }
    match pieces.fragment() {
        Some(fragment) => write!(out, "#{fragment}"),
        None => Ok(()),
    }
}

/// `pieces`: the pieces of a body, and `#` and the fragment, if there is one. It says if a piece comes after the end.
fn write_walk<W: Write>(text: &str, out: &mut W) -> io::Result<()> {
    let mut pieces = Pieces::new(text);
    for _ in 0..=text.len() {
        match pieces.next() {
            Some(piece) => write_piece(&piece, out)?,
            None => return write_end(&mut pieces, out),
        }
    }
    Ok(())
}

/// Makes the call of a name on a text.
fn write_call<W: Write>(alloc: Global, name: &str, text: &str, out: &mut W) -> io::Result<()> {
    match name {
        "process" => write_record(alloc, text, out),
        "decode_to_vec" => write_body(alloc, text, out),
        "decode" => write_pieces(alloc, text, out),
        "to_percent_encoded" => write_fragment(alloc, text, out),
        "from_str" => write_mime(alloc, text, out),
        "clone" => write_clone(alloc, text, out),
        "new" => write_new(alloc, text, out),
        "base64" => write_base64(alloc, text, out),
        "decoder" => write_groups(text, out),
        "decoder_lengths" => write_group_lengths(text, out),
        "decode_lengths" => write_lengths(alloc, text, out),
        "pieces" => write_walk(text, out),
        _ => write_line(out, &"no such call"),
    }
}

/// Reads an input to its end, or until the buffer is full. Returns how many bytes were read.
fn read_all<R: Read>(input: &mut R, buffer: &mut [u8]) -> io::Result<usize>
    ensures { IfOk result (λ len. len ≤ length buffer.new) }
{
    let mut len = 0;
    while len < buffer.len() {
        let more = input.read(&mut buffer[len..])?;
        if more == 0 {
            break;
        }
        len += more;
    }
    Ok(len)
}

fn main(rt: HostRuntime) -> io::Result<()> {
    let mut buffer = [0; BUFFER_LEN];
    let len = read_all(&mut rt.stdin(), &mut buffer)?;
    let Ok(input) = str::from_utf8(&buffer[..len]) else {
        return Ok(());
    };
    match input.split_once('\n') {
        Some((name, text)) => write_call(rt.alloc(), name, text, &mut rt.stdout()),
        None => Ok(()),
    }
}
