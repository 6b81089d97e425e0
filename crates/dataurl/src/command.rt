//! The commands, and the words that name them.

ghost use Rattle.std.specs.Prelude.{◌≡◌, map, string_bytes};
ghost use Rattle.dataurl.specs.Command.{command_of_words};

/// What the program does with standard input.
#[derive(Clone, Copy)]
pub enum Command {
    /// `body`: writes the body of a data: URL.
    Body,
    /// `mime`: writes the MIME type of a data: URL, and a line feed.
    MimeType,
    /// `fragment`: writes the encoded fragment of a data: URL, and a line feed.
    Fragment,
    /// `type`: writes a serialised MIME type, and a line feed.
    Canonical,
    /// `base64`: writes the bytes of forgiving base64.
    Base64,
}

/// Returns the command of the words after the program's name: there has to be exactly one, and it has to be `body`,
/// `mime`, `fragment`, `type` or `base64`, letter for letter. Any other list of words has none.
pub fn command_of(words: &[String]) -> Option<Command>
    ensures { result ≡ command_of_words (map string_bytes words.now) }
{
    let [word] = words else {
        return None;
    };
    match word.as_str() {
        "body" => Some(Command::Body),
        "mime" => Some(Command::MimeType),
        "fragment" => Some(Command::Fragment),
        "type" => Some(Command::Canonical),
        "base64" => Some(Command::Base64),
        _ => None,
    }
}
