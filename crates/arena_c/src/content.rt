//! `Content`: what an open handle owns.

ghost use Rattle.std.specs.Prelude.{◌≡◌};
ghost use Rattle.arena_c.specs.Shown.{entry_at, entry_found, new_arena};

use crate::entry::{Entry, Pointer};
use sorted_arena::{P0, SortedArena};
use std::alloc::Global;
use std::marker::Model;

/// Values by keys, in the order of the keys.
#[derive(Drop)]
pub struct Content {
    pub pairs: SortedArena<i64, u64>,
}

impl Model for Content {
    ghost use Rattle.std.specs.Prelude.{ℤ, ℕ};
    ghost use Rattle.sorted_arena.specs.Sorted.{Sorted};

    ghost Value = { Sorted ℤ ℕ };

    ghost view = { λ c. c.pairs };
}

impl Content {
    /// No entries.
    pub fn new(alloc: Global) -> Content
        ensures { result ≡ new_arena }
    {
        Content {
            pairs: SortedArena::new(alloc),
        }
    }

    /// The entry at a pointer.
    pub fn entry_at(&self, p: P0) -> Option<Entry>
        ensures { result ≡ entry_at self.now p }
    {
        let (key, value) = self.pairs.get(p)?;
        Some(Entry {
            pointer: Pointer::of(p),
            key: *key,
            value: *value,
        })
    }

    /// The entry that a search found.
    pub fn entry_found(&self, p: Option<P0>) -> Option<Entry>
        ensures { result ≡ entry_found self.now p }
    {
        self.entry_at(p?)
    }
}
