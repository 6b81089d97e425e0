//! Writes a MIME type (MIME Sniffing Standard, section 4.5).

ghost use Rattle.std.specs.{Fmt.{WritesStyledOnOk}, List.{flat_map}, Str.{chars, encode_utf8_all}};
ghost use Rattle.data_url.specs.{Mime.{escaped_code_point, printed_pair}, Steps.Printing.{AddsOnOk, IsHeld}};

use super::cuts::is_token_text;
use super::print_buffer::PrintBuffer;
use crate::classes::{Class, long_span};
use std::fmt;

/// Adds `;`, a name, `=` and a value: as it is if it is not empty and has only token code points, and
/// otherwise in quotes.
pub(super) fn push_parameter<W: fmt::Write>(
    buffer: &mut PrintBuffer,
    f: &mut fmt::Formatter<W>,
    name: &str,
    value: &str,
) -> fmt::Result
    requires { IsHeld buffer.old }
    ensures added { AddsOnOk W.write_str_gives f.old buffer.old result
        (encode_utf8_all (printed_pair (chars name.now, chars value.now))) f.new buffer.new }
    ensures held { IsHeld buffer.new }
{
    buffer.push(f, ";")?;
    buffer.push(f, name)?;
    buffer.push(f, "=")?;
    if is_token_text(value) {
        return buffer.push(f, value);
    }
    buffer.push(f, "\"")?;
    push_escaped(buffer, f, value)?;
    buffer.push(f, "\"")
}

/// Adds a text with a `\` before each `"` and each `\`.
#[tactic(auto, using(crate::proofs::mime::RoundTrips::escaping))]
fn push_escaped<W: fmt::Write>(
    buffer: &mut PrintBuffer,
    f: &mut fmt::Formatter<W>,
    text: &str,
) -> fmt::Result
    requires { IsHeld buffer.old }
    ensures added { AddsOnOk W.write_str_gives f.old buffer.old result
        (encode_utf8_all (flat_map escaped_code_point (chars text.now))) f.new buffer.new }
    ensures held { IsHeld buffer.new }
{
    if long_span(Class::Unescaped, text.as_bytes()) == text.len() {
        return buffer.push(f, text);
    }
    buffer.flush(f)?;
    write_each_escaped(f, text)
}

/// Writes a text with a `\` before each `"` and each `\`.
fn write_each_escaped<W: fmt::Write>(f: &mut fmt::Formatter<W>, text: &str) -> fmt::Result
    ensures { WritesStyledOnOk W.write_str_gives f.old result
        (encode_utf8_all (flat_map escaped_code_point (chars text.now))) f.new }
{
    for c in text.chars() {
        write_escaped_char(f, c)?;
    }
    Ok(())
}

/// Writes a code point, with a `\` before a `"` or a `\`, by one call of the writer. The length of an ASCII one is a
/// constant.
fn write_escaped_char<W: fmt::Write>(f: &mut fmt::Formatter<W>, c: char) -> fmt::Result
    ensures { WritesStyledOnOk W.write_str_gives f.old result
        (encode_utf8_all (escaped_code_point c)) f.new }
{
    match c {
        '"' => f.write_str("\\\""),
        '\\' => f.write_str("\\\\"),
        '\0'..='\x7f' => f.write_str(c.encode_utf8(&mut [0])),
        _ => f.write_str(c.encode_utf8(&mut [0; 4])),
    }
}
