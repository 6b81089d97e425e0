//! Classes of bytes: six are looked up in one table, the others are compared.

ghost use Rattle.std.specs.Prelude.{◌≡◌, ◌≤◌, length};
ghost use Rattle.std.specs.List.{prefix_len, suffix_len};
ghost use Rattle.data_url.specs.Steps.Classes.{in_class};

pub(crate) mod lanes;

use lanes::rows_len;

/// A class of bytes.
#[derive(Clone, Copy)]
pub(crate) enum Class {
    /// Token code points: an ASCII letter, a digit or one of fifteen marks.
    Token,
    /// The bytes of the UTF-8 of quoted-string code points: U+0080 to U+00FF begin with 0xC2 or 0xC3, and every later
    /// code point begins with a greater byte.
    Quotable,
    /// The bytes of an unquoted value that is kept: those of `Quotable` without `;`.
    Unquoted,
    /// The bytes of a path that are serialised as they are and end neither the path nor the header: printable ASCII
    /// and spaces, except `#`, `,` and `?`.
    UnencodedPath,
    /// HTTP whitespace (Fetch Standard, section 2.2).
    Whitespace,
    /// The bytes before which no `\` is written in a quoted string.
    Unescaped,
    /// C0 controls and spaces, which a URL is trimmed of (URL Standard, section 4.4, step 1).
    Control,
    /// ASCII tabs and newlines, which the URL parser skips (Infra Standard, section 4.6).
    TabOrNewline,
    /// The bytes that do not end a path: not `?`.
    Path,
    /// The bytes that do not end a header: neither `,` nor `#`.
    Header,
    /// The bytes that do not end the name of a parameter: neither `;` nor `=`.
    Name,
    /// The bytes that do not end the value of a parameter: not `;`.
    Value,
}

/// For each byte, the bits of those of the six classes that it is in. `has` says which bit stands for which class.
const CLASSES: [u8; 256] = [
    32, 32, 32, 32, 32, 32, 32, 32, 32, 54, 48, 32, 32, 48, 32, 32, 32, 32, 32, 32, 32, 32, 32, 32,
    32, 32, 32, 32, 32, 32, 32, 32, 62, 47, 14, 39, 47, 47, 47, 47, 46, 46, 47, 47, 38, 47, 47, 46,
    47, 47, 47, 47, 47, 47, 47, 47, 47, 47, 46, 42, 46, 46, 46, 38, 46, 47, 47, 47, 47, 47, 47, 47,
    47, 47, 47, 47, 47, 47, 47, 47, 47, 47, 47, 47, 47, 47, 47, 47, 47, 47, 47, 46, 14, 46, 47, 47,
    47, 47, 47, 47, 47, 47, 47, 47, 47, 47, 47, 47, 47, 47, 47, 47, 47, 47, 47, 47, 47, 47, 47, 47,
    47, 47, 47, 46, 47, 46, 47, 32, 38, 38, 38, 38, 38, 38, 38, 38, 38, 38, 38, 38, 38, 38, 38, 38,
    38, 38, 38, 38, 38, 38, 38, 38, 38, 38, 38, 38, 38, 38, 38, 38, 38, 38, 38, 38, 38, 38, 38, 38,
    38, 38, 38, 38, 38, 38, 38, 38, 38, 38, 38, 38, 38, 38, 38, 38, 38, 38, 38, 38, 38, 38, 38, 38,
    38, 38, 38, 38, 32, 32, 32, 32, 32, 32, 32, 32, 32, 32, 32, 32, 32, 32, 32, 32, 32, 32, 32, 32,
    32, 32, 32, 32, 32, 32, 32, 32, 32, 32, 32, 32, 32, 32, 32, 32, 32, 32, 32, 32, 32, 32, 32, 32,
    32, 32, 32, 32, 32, 32, 32, 32, 32, 32, 32, 32, 32, 32, 32, 32,
];

/// The table of the class `Unescaped`, for `classified`. For each low half of a byte, it has the bits of the columns in
/// which a byte with that half is outside the class.
pub(crate) const UNESCAPED: [u8; 16] = [0, 0, 2, 0, 0, 0, 0, 0, 0, 0, 0, 0, 16, 0, 0, 0];

/// Returns whether a byte is in a class.
#[inline(always)]
pub(crate) fn has(class: Class, byte: u8) -> bool
    ensures { result ≡ in_class class byte }
{
    let bit = match class {
        Class::Token => 1,
        Class::Quotable => 2,
        Class::Unquoted => 4,
        Class::UnencodedPath => 8,
        Class::Whitespace => 16,
        Class::Unescaped => 32,
        Class::Control => return byte <= b' ',
        Class::TabOrNewline => return matches!(byte, b'\t' | b'\n' | b'\r'),
        Class::Path => return byte != b'?',
        Class::Header => return byte != b',' && byte != b'#',
        Class::Name => return byte != b';' && byte != b'=',
        Class::Value => return byte != b';',
    };
    CLASSES[byte as usize] & bit != 0
}

/// Returns how many bytes at the start are in a class.
#[inline(always)]
pub(crate) fn span(class: Class, bytes: &[u8]) -> usize
    ensures prefix { result ≡ prefix_len (in_class class) bytes.now }
    ensures within { result ≤ length bytes.now }
{
    bytes.iter().take_while(|byte| has(class, **byte)).count()
}

/// Returns how many bytes at the end are in a class.
#[inline(always)]
pub(crate) fn end_span(class: Class, bytes: &[u8]) -> usize
    ensures { result ≡ suffix_len (in_class class) bytes.now }
{
    let mut end = bytes.len();
    while end > 0 && has(class, bytes[end - 1]) {
        end -= 1;
    }
    bytes.len() - end
}

/// Returns how many bytes at the start are in a class. It tests rows of sixteen bytes, which is faster than `span` if
/// there are many.
#[inline(always)]
pub(crate) fn long_span(class: Class, bytes: &[u8]) -> usize
    ensures prefix { result ≡ prefix_len (in_class class) bytes.now }
    ensures within { result ≤ length bytes.now }
{
    // The table of the class, for `classified`. If a class has only short runs in most texts, its table has all bits.
    // Then no row passes the test, and `span` counts.
    let class_table = match class {
        Class::Quotable => [
            129, 129, 129, 129, 129, 129, 129, 129, 129, 129, 129, 129, 129, 129, 129, 193,
        ],
        Class::Unquoted => [
            129, 129, 129, 129, 129, 129, 129, 129, 129, 129, 129, 133, 129, 129, 129, 193,
        ],
        Class::UnencodedPath => [
            129, 129, 129, 131, 129, 129, 129, 129, 129, 129, 129, 129, 131, 129, 129, 197,
        ],
        Class::Path => [0, 0, 0, 0, 0, 0, 0, 0, 0, 0, 0, 0, 0, 0, 0, 4],
        Class::Unescaped => UNESCAPED,
        _ => [255; 16],
    };
    let rows = rows_len(class_table, bytes);
    rows + span(class, &bytes[rows..])
}

/// Returns how many bytes at the start are in a class. This is faster than `long_span` if there often is none.
#[inline(always)]
pub(crate) fn span_if_any(class: Class, bytes: &[u8]) -> usize
    ensures prefix { result ≡ prefix_len (in_class class) bytes.now }
    ensures within { result ≤ length bytes.now }
{
    if bytes.is_empty() || !has(class, bytes[0]) {
        return 0;
    }
    long_span(class, bytes)
}
