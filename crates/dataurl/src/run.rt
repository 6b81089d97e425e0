//! Runs a command: reads an input, and writes the output for it.

ghost use Rattle.std.specs.Prelude.{◌+◌, length};
ghost use Rattle.std.specs.Fn.{CalledAt};
ghost use Rattle.data_url.specs.DataUrl.{Decodes, url_body, url_tail};
ghost use Rattle.data_url.specs.MimeType.{record_of};
ghost use Rattle.dataurl.specs.Command.{TakesText};
ghost use Rattle.dataurl.specs.Output.{IsBodyOutput, IsFragmentOutput, IsTextOutput, record_line};
ghost use Rattle.dataurl.specs.Runs.{Runs};
ghost use Rattle.dataurl.specs.Steps.Gathering.{Streams};
ghost use Rattle.dataurl.specs.Steps.Parts.{AnyAnswer, IsExactly, IsUrlFor, WritesOf};
ghost use Rattle.dataurl.specs.Steps.Parts.{fragment_line, url_fragment};

use crate::command::Command;
use crate::fault::{Fault, WriteFailed};
use crate::gather::Gathered;
use crate::input::read_text;
use crate::output::write_all;
use crate::stream::write_base64;
use data_url::forgiving_base64::DecodeError;
use data_url::mime::{Mime, MimeFromStrError};
use data_url::{DataUrl, DataUrlError, FragmentIdentifier};
use std::alloc::Global;
use std::convert::Infallible;
use std::io::{Read, Write};

/// The URL of a text.
fn url_of<'a>(alloc: Global, text: &'a str) -> Result<DataUrl<'a>, Fault>
    ensures { IsUrlFor text.entry.now result }
{
    match DataUrl::process(alloc, text) {
        Ok(url) => Ok(url),
        Err(DataUrlError::NotADataUrl) => Err(Fault::NotADataUrl),
        Err(DataUrlError::NoComma) => Err(Fault::NoComma),
        Err(DataUrlError::OutOfMemory) => Err(Fault::Memory),
    }
}

/// Calls a closure with the body of a URL. Returns the closure as well. The fragment is dropped.
fn hand_out<F, E>(url: &DataUrl, answer: &mut Result<(), DecodeError<E>>, write: F) -> F
where
    F: FnMut(&[u8]) -> Result<(), E>,
    E: Drop,
    requires { F.IsAlwaysCallable write }
    ensures { Decodes (CalledAt F.FnMut) write (length (url_tail url.now) + 1) (url_body url.now)
        AnyAnswer answer.new result }
{
    let (answered, write) = url.decode_with(write);
    *answer = match answered {
        Ok(_) => Ok(()),
        Err(error) => Err(error),
    };
    write
}

/// Writes bytes that make a whole output.
fn write_output<W: Write>(writer: &mut W, bytes: &[u8]) -> Result<(), Fault>
    ensures { WritesOf (IsExactly bytes.now) (W.contents writer.old) (W.contents writer.new)
        result }
{
    match write_all(writer, bytes) {
        Ok(()) => Ok(()),
        Err(WriteFailed) => Err(Fault::Write),
    }
}

/// Writes the body of a URL as it is decoded. Nothing is allocated: short pieces are gathered in a buffer, and long
/// ones are written directly.
fn write_body_of<W: Write>(url: &DataUrl, writer: &mut W) -> Result<(), Fault>
    ensures { Streams (IsBodyOutput (url_body url.now)) (W.contents writer.old)
        (W.contents writer.new) result }
{
    let mut gathered = Gathered::new();
    let mut answer = Ok(());
    hand_out(
        url,
        &mut answer,
        |piece: &[u8]| -> Result<(), WriteFailed> { gathered.take(piece, writer) },
    );
    gathered.settle(answer, writer)
}

/// Writes the line of a record.
fn write_record<W: Write>(alloc: Global, mime: &Mime, writer: &mut W) -> Result<(), Fault>
    ensures { WritesOf (IsExactly (record_line (record_of mime.now))) (W.contents writer.old)
        (W.contents writer.new) result }
{
    let Ok(line) = format!(in alloc; "{mime}\n") else {
        return Err(Fault::Memory);
    };
    write_output(writer, line.as_bytes())
}

/// Decodes the whole body of a URL, and then writes its encoded fragment and a line feed, or nothing if there is no
/// fragment.
fn write_fragment_of<W: Write>(alloc: Global, url: &DataUrl, writer: &mut W) -> Result<(), Fault>
    ensures { WritesOf (IsFragmentOutput (url_body url.now) (url_fragment url.now))
        (W.contents writer.old) (W.contents writer.new) result }
{
    match url.decode(|_piece: &[u8]| -> Result<(), Infallible> { Ok(()) }) {
        Ok(Some(fragment)) => write_encoded(alloc, &fragment, writer),
        Ok(None) => Ok(()),
        Err(DecodeError::InvalidBase64(refusal)) => Err(Fault::Base64(refusal)),
        Err(DecodeError::WriteError(never)) => match never {},
    }
}

/// Writes a fragment, encoded, and a line feed.
fn write_encoded<W: Write>(
    alloc: Global,
    fragment: &FragmentIdentifier,
    writer: &mut W,
) -> Result<(), Fault>
    ensures { WritesOf (IsExactly (fragment_line fragment.now)) (W.contents writer.old)
        (W.contents writer.new) result }
{
    let Ok(mut line) = fragment.to_percent_encoded(alloc) else {
        return Err(Fault::Memory);
    };
    let Ok(()) = line.push('\n') else {
        return Err(Fault::Memory);
    };
    write_output(writer, line.as_bytes())
}

/// Writes the body of the URL of a text.
fn write_body<W: Write>(alloc: Global, text: &str, writer: &mut W) -> Result<(), Fault>
    ensures { WritesOf (IsTextOutput text.now Command.Body) (W.contents writer.old)
        (W.contents writer.new) result }
{
    write_body_of(&url_of(alloc, text)?, writer)
}

/// Writes the line of the record of the URL of a text. Its body is not decoded.
fn write_mime<W: Write>(alloc: Global, text: &str, writer: &mut W) -> Result<(), Fault>
    ensures { WritesOf (IsTextOutput text.now Command.MimeType) (W.contents writer.old)
        (W.contents writer.new) result }
{
    write_record(alloc, url_of(alloc, text)?.mime_type(), writer)
}

/// Writes the line of the fragment of the URL of a text.
fn write_fragment<W: Write>(alloc: Global, text: &str, writer: &mut W) -> Result<(), Fault>
    ensures { WritesOf (IsTextOutput text.now Command.Fragment) (W.contents writer.old)
        (W.contents writer.new) result }
{
    write_fragment_of(alloc, &url_of(alloc, text)?, writer)
}

/// Writes the line of the record of a text.
fn write_type<W: Write>(alloc: Global, text: &str, writer: &mut W) -> Result<(), Fault>
    ensures { WritesOf (IsTextOutput text.now Command.Canonical) (W.contents writer.old)
        (W.contents writer.new) result }
{
    match Mime::from_str(alloc, text) {
        Ok(mime) => write_record(alloc, &mime, writer),
        Err(MimeFromStrError::Parsing(_)) => Err(Fault::Mime),
        Err(MimeFromStrError::OutOfMemory) => Err(Fault::Memory),
    }
}

/// Writes the output of a command that takes a text.
fn write_text<W: Write>(
    alloc: Global,
    command: Command,
    text: &str,
    writer: &mut W,
) -> Result<(), Fault>
    requires { TakesText command }
    ensures { WritesOf (IsTextOutput text.now command)
        (W.contents writer.old) (W.contents writer.new)
        result }
{
    match command {
        Command::Body => write_body(alloc, text, writer),
        Command::MimeType => write_mime(alloc, text, writer),
        Command::Fragment => write_fragment(alloc, text, writer),
        Command::Canonical => write_type(alloc, text, writer),
        Command::Base64 => unreachable!(),
    }
}

/// Reads an input, and writes the output of a command for it. All commands but `base64` read the whole input into
/// memory, and then check that it is UTF-8. `base64` allocates nothing: it decodes pieces of at most 4,096 bytes as
/// they are read, up to the first fault.
///
/// If the input is not valid, the error is one of these:
///
/// - `NotUtf8`: the command takes a text, and the input is not UTF-8.
/// - `NotADataUrl` or `NoComma`: the Fetch Standard (section 6) finds no scheme or no comma.
/// - `Mime`: the command is `type`, and the text is not a MIME type
///   ([MIME Sniffing Standard, section 4.4](https://mimesniff.spec.whatwg.org/#parsing-a-mime-type)).
/// - `Base64`: the base64 has a fault. `body` and `base64` have written the bytes before it.
///
/// Except for `Base64`, nothing is written before these errors.
///
/// Otherwise it is one of these:
///
/// - `Memory`: allocation failed, before anything was written.
/// - `Read`: a read failed, or the reader had no end after 2^64 - 1 reads. Only `base64` has written anything: the
/// bytes of the complete groups that were read.
/// - `Write`: a write failed or wrote nothing. A part of the output was written, but not all.
///
/// A read or write that fails is not tried again.
pub fn run<R: Read, W: Write>(
    alloc: Global,
    command: Command,
    reader: &mut R,
    writer: &mut W,
) -> Result<(), Fault>
    ensures { Runs command (R.remaining reader.old) (R.remaining reader.new) (W.contents writer.old)
        (W.contents writer.new) result }
{
    match command {
        Command::Base64 => write_base64(reader, writer),
        _ => write_text(alloc, command, read_text(alloc, reader)?.as_str(), writer),
    }
}
