//! A reader of a body: it fills outputs of any size, one after another, and nothing is allocated.

ghost use Rattle.std.specs.Prelude.{◌≡◌, ◌<◌, ◌≤◌, length};
ghost use Rattle.data_url.specs.DataUrl.{url_body};
ghost use Rattle.uses.specs.{Reads.{Fills, WritesNext, rest_body}, Steps.{bytes_left}};
ghost use Rattle.uses.specs.declared.reader.Rest.TheVariants.{More};

use data_url::DataUrl;
use data_url::forgiving_base64::InvalidBase64Details;
use data_url::parts::{Body, Part, Progress};

/// What is left of a body.
#[derive(Clone, Copy)]
pub enum Rest<'a> {
    /// There may be more bytes.
    More(Body<'a>),
    /// The body has ended.
    Ended,
    /// The base64 is not valid. The bytes before its first fault were read.
    Faulty(InvalidBase64Details),
}

/// Writes the next part of a body to the start of an output. Returns its length, and what is left of the body.
fn read_part<'a>(body: Body<'a>, output: &mut [u8]) -> (usize, Rest<'a>)
    ensures reads { WritesNext (More body.entry) output.old result.1 output.new result.0 }
    ensures forward { 4 ≤ length output.old → bytes_left result.1 < bytes_left (More body.entry) }
{
    let Part { len, progress } = body.next_part(output);
    match progress {
        Progress::More(body) => (len, Rest::More(body)),
        Progress::End(_) => (len, Rest::Ended),
        Progress::Fault(details) => (len, Rest::Faulty(details)),
    }
}

/// A reader of the body of a URL.
#[derive(Drop)]
pub struct BodyReader<'a> {
    rest: Rest<'a>,
}

impl<'a> BodyReader<'a> {
    /// Returns the reader of a URL's body, of which nothing was read yet.
    pub fn new(url: &DataUrl<'a>) -> BodyReader<'a>
        ensures { rest_body result.rest ≡ url_body url.now }
    {
        BodyReader {
            rest: Rest::More(Body::new(url)),
        }
    }

    /// Returns what is left of the body.
    pub fn rest(&self) -> Rest<'a>
        ensures { result ≡ self.now.rest }
    {
        self.rest
    }

    /// Writes the next bytes of the body to the start of an output, and returns their number. It goes on until fewer
    /// than four bytes of the output are left, or the body has ended, or has a fault. The bytes before a fault are
    /// written.
    pub fn fill(&mut self, output: &mut [u8]) -> usize
        ensures { Fills self.old.rest output.old self.new.rest output.new result }
    {
        let mut len = 0;
        while let Rest::More(body) = self.rest {
            if output.len() - len < 4 {
                return len;
            }
            let (written, rest) = read_part(body, &mut output[len..]);
            len += written;
            self.rest = rest;
        }
        len
    }
}
