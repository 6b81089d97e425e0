//! Laws of the definitions that the contracts of this crate cite. Each is the contract of a function that does nothing.
#![tactic(auto, using(crate::proofs::fragment::Encoded::laws))]

ghost use Rattle.std.specs.Prelude.{◌≡◌, ◌↔◌, None};
ghost use Rattle.data_url.specs.Base64.{first_fault};
ghost use Rattle.data_url.specs.Laws.{IsReadAgain, TwoFeeds, is_fragment_byte};
ghost use Rattle.data_url.specs.Mime.{Every, IsWellformed, Parses, Record, printed};
ghost use Rattle.data_url.specs.Percent.{percent_decoding};
ghost use Rattle.data_url.specs.MimeType.{SameTexts, record_of};
ghost use Rattle.data_url.specs.Url.{encoded_fragment, in_path_set, in_query_set, percent_encoding};

use crate::mime::Mime;

/// A record that parsing can return is printed as a text that is a MIME type
/// ([MIME Sniffing Standard, sections 4.4 and 4.5](https://mimesniff.spec.whatwg.org/#parsing-a-mime-type)), and that
/// text has the record and no other.
pub fn canonical(mime: &Mime)
    requires { IsWellformed (record_of mime.now) }
    ensures parses { Parses (printed (record_of mime.now)) (record_of mime.now) }
    ensures only { (other : Record) → Parses (printed (record_of mime.now)) other
        → other ≡ record_of mime.now }
{}

/// Two records that parsing can return are equal, as by `==`, exactly if their printed texts are equal
/// ([MIME Sniffing Standard, section 4.5](https://mimesniff.spec.whatwg.org/#serializing-a-mime-type)).
pub fn same_text(first: &Mime, second: &Mime)
    requires first { IsWellformed (record_of first.now) }
    requires second { IsWellformed (record_of second.now) }
    ensures { SameTexts first.now second.now ↔
        (printed (record_of first.now) ≡ printed (record_of second.now)) }
{}

/// The encoded text of a fragment, read again after `data:,#`, is encoded to itself
/// ([Fetch Standard, section 6](https://fetch.spec.whatwg.org/#data-url-processor), and
/// [URL Standard, section 4.4, fragment state](https://url.spec.whatwg.org/#fragment-state)). It has U+0021 to U+007E
/// alone, without `"`, `<`, `>` and the backquote.
pub fn fragment_again(fragment: &str)
    ensures again { IsReadAgain (encoded_fragment fragment.now) }
    ensures bytes { Every is_fragment_byte (encoded_fragment fragment.now) }
{}

/// A text of base64 can be fed in two parts
/// ([Infra Standard, forgiving-base64 decode](https://infra.spec.whatwg.org/#forgiving-base64-decode)). If the first
/// part has no fault, decoding what is left over of it with the second part gives the same as decoding the whole text:
/// the same bytes, the same fault or the same rest, and the same validity.
pub fn two_feeds(first: &[u8], second: &[u8])
    requires { first_fault first.now ≡ None }
    ensures { TwoFeeds first.now second.now }
{}

/// Percent-encoding bytes before they are percent-decoded changes nothing
/// ([URL Standard, section 1.3](https://url.spec.whatwg.org/#percent-encoded-bytes)): bytes decode to the same bytes as
/// their encoded form does, with the set of a path and with that of a query.
pub fn encoding_first(bytes: &[u8])
    ensures path { percent_decoding bytes.now
        ≡ percent_decoding (percent_encoding in_path_set bytes.now) }
    ensures query { percent_decoding bytes.now
        ≡ percent_decoding (percent_encoding in_query_set bytes.now) }
{}
