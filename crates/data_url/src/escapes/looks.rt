//! A count that exists in contracts alone: how many bytes of a text were examined.

ghost use Rattle.std.specs.Prelude.{◌≡◌, ◌+◌};

use std::marker::Model;
use std::mem::{replace, size_of};
use std::snapshot::Snapshot;

/// A look at a number of bytes, and the looks before it.
#[derive(Drop)]
struct Look {
    bytes: usize,
    before: Option<Snapshot<Look>>,
}

/// How many bytes were examined: a number without an upper bound, which only contracts see.
#[derive(Drop)]
pub(super) struct Looks {
    last: Snapshot<Look>,
}

const _: () = prove!(size_of::<Looks>() == 0);

impl Model for Looks {
    ghost use Rattle.std.specs.Prelude.{ℕ};
    ghost use Rattle.data_url.specs.Looks.{bytes_looked_at};

    ghost Value = { ℕ };

    ghost view = { λ looks. bytes_looked_at looks.last.value };
}

impl Looks {
    /// No look yet.
    #[inline(always)]
    pub(super) fn new() -> Looks
        ensures { result ≡ 0 }
    {
        let first = Look {
            bytes: 0,
            before: None,
        };
        Looks {
            last: Snapshot::of(&first),
        }
    }

    /// Counts a look at a number of bytes.
    #[inline(always)]
    pub(super) fn count(&mut self, bytes: usize)
        ensures { self.new ≡ self.old + bytes }
    {
        let before = Some(replace(&mut self.last, Looks::new().last));
        let look = Look { bytes, before };
        self.last = Snapshot::of(&look);
    }
}
