//! Base64 that comes in chunks, as from a connection.

ghost use Rattle.std.specs.Prelude.{◌≡◌, not};
ghost use Rattle.std.specs.Fn.{CalledAt};
ghost use Rattle.data_url.specs.Decoder.{state_of};
ghost use Rattle.uses.specs.Chunks.{FeedsChunks};

use data_url::forgiving_base64::Decoder;

/// Feeds a decoder with the chunks of a text in turn, and returns whether it took them all.
///
/// It stops after a chunk with a fault, or one whose bytes the closure refuses: the chunks after it are not fed. A
/// decoder that had failed before is fed with none.
pub fn feed_chunks<F, E>(decoder: &mut Decoder<F, E>, chunks: &[&[u8]]) -> bool
where
    F: FnMut(&[u8]) -> Result<(), E>,
    E: Drop,
    requires { F.IsAlwaysCallable (state_of decoder.old).closure }
    ensures callable { F.IsAlwaysCallable (state_of decoder.new).closure }
    ensures took { result ≡ not (state_of decoder.new).failed }
    ensures fed { FeedsChunks (CalledAt F.FnMut) (state_of decoder.old) chunks.now result
        (state_of decoder.new) }
{
    for chunk in chunks {
        if decoder.has_failed() {
            return false;
        }
        let _answer = decoder.feed(chunk);
    }
    !decoder.has_failed()
}
