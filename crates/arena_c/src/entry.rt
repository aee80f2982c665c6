//! Pointers and entries as C sees them.

ghost use Rattle.std.specs.Prelude.{◌≡◌};
ghost use Rattle.arena_c.specs.Shown.{numbers_of, shown_entry, shown_pointer};

use sorted_arena::{BasePtr, P0};

/// Names an entry. Index 0 names none.
#[repr(C)]
#[derive(Clone, Copy)]
pub struct Pointer {
    pub index: u32,
    pub generation: u64,
}

/// An entry: its pointer, its key and its value.
#[repr(C)]
#[derive(Clone, Copy)]
pub struct Entry {
    pub pointer: Pointer,
    pub key: i64,
    pub value: u64,
}

impl Pointer {
    /// Names no entry.
    pub const NONE: Pointer = Pointer {
        index: 0,
        generation: 0,
    };

    /// The pointer of an arena, as C sees it.
    pub fn of(p: P0) -> Pointer
        ensures { result ≡ shown_pointer p }
    {
        Pointer {
            index: p.inx(),
            generation: p.generation(),
        }
    }

    /// The pointer of an arena that C means.
    pub fn p0(self) -> P0
        ensures { result ≡ numbers_of self }
    {
        P0::_from_raw(self.index, self.generation)
    }
}

impl Entry {
    /// An entry that an iterator gives.
    pub fn of(shown: (P0, &i64, &u64)) -> Entry
        ensures { result ≡ shown_entry (record {
          index = shown.entry.0.0;
          generation = shown.entry.0.1;
          item = (shown.entry.1.now, shown.entry.2.now);
        }) }
    {
        let (p, key, value) = shown;
        Entry {
            pointer: Pointer::of(p),
            key: *key,
            value: *value,
        }
    }
}
