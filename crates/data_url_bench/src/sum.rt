//! What a closure adds up that keeps none of its bytes.

/// How many bytes the pieces of a result have, and the sum of every twelfth of the first 48 bytes of each piece. The
/// decoder makes four times twelve bytes, and the compiler may leave out those of which none is used.
#[derive(Drop)]
pub(crate) struct Sum {
    len: usize,
    some_bytes: u8,
}

impl Sum {
    /// The sum of no pieces.
    pub(crate) fn new() -> Self {
        Sum {
            len: 0,
            some_bytes: 0,
        }
    }

    /// Adds a piece.
    #[inline(always)]
    pub(crate) fn add(&mut self, piece: &[u8]) {
        self.len = self.len.wrapping_add(piece.len());
        for twelve in piece[..piece.len().min(48)].chunks(12) {
            self.some_bytes = self.some_bytes.wrapping_add(twelve[0]);
        }
    }

    /// Returns how many bytes the pieces have.
    pub(crate) fn len(&self) -> usize {
        self.len
    }

    /// Returns how many bytes the pieces have. The sum goes to `out`, if that has room.
    pub(crate) fn show(self, out: &mut [u8]) -> usize {
        if let Some(byte) = out.first_mut() {
            *byte = self.some_bytes;
        }
        self.len
    }
}
