//! A buffer that pieces are appended to.

/// Room for bytes, and how many there are.
#[derive(Drop)]
pub(crate) struct Buffer<'a> {
    room: &'a mut [u8],
    len: usize,
}

impl<'a> Buffer<'a> {
    /// A buffer with nothing in it.
    pub(crate) fn new(room: &'a mut [u8]) -> Self {
        Buffer { room, len: 0 }
    }

    /// How many bytes were appended.
    pub(crate) fn len(&self) -> usize {
        self.len
    }

    /// Appends a piece, or returns an error if there is no room.
    #[inline(always)]
    pub(crate) fn append(&mut self, piece: &[u8]) -> Result<(), ()> {
        let end = self.len.saturating_add(piece.len());
        if end > self.room.len() {
            return Err(());
        }
        self.room[self.len..end].copy_from_slice(piece);
        self.len = end;
        Ok(())
    }

    /// Appends a piece, if there is room. Otherwise no later piece is appended either.
    #[inline(always)]
    pub(crate) fn append_if_room(&mut self, piece: &[u8]) {
        if self.append(piece).is_err() {
            self.len = self.room.len();
        }
    }
}
