//! `SortedArena`: entries in the order of their keys.

ghost use Rattle.std.specs.Prelude.{◌≡◌, ◌≢◌, ◌==◌, ◌↔◌, ◌+◌, ◌≤◌, ◌<◌, ℕ, true, [], map, slice_get, None, Err, OnOk, OnErr};
ghost use Rattle.listing.specs.PlainArena.{capacity_for};
ghost use Rattle.listing.specs.Generation.{first_generation, next_generation, IsLawfulGeneration};
ghost use Rattle.listing.specs.Chain.{greatest_index};
ghost use Rattle.sorted_arena.specs.Change.{ChangesCapacity};
ghost use Rattle.sorted_arena.specs.Layout.{AreNumbered, LendsPairs};
ghost use Rattle.sorted_arena.specs.Sorted.{IsSound, count, get, pair_of, with_left, with_numbers};

mod access;
mod append;
mod clone;
mod compare;
mod counted;
mod debug;
mod drain;
mod drain_entries;
mod entry;
mod extend;
mod extract;
mod find;
mod find_by;
mod find_or_insert;
mod find_str;
mod insert;
mod neighbours;
mod place;
mod rekey;
mod remove;
mod remove_entry;
mod retain;
mod retain_entries;
mod split;
mod unsorted;
mod write;

use crate::pairs::Pairs;
use std::alloc::{Allocator, Global};
use std::marker::Model;
use triple_ord::{BasePtr, BasePtrInx, P0, ReallocationError, SimpleOrdArena};

/// Values by their keys, in the order of the keys. Equal keys keep the order of their insertion.
///
/// An insertion returns a pointer, which names the entry until it is removed; [`rekey`](Self::rekey) keeps it. Values can be written,
/// keys can't. In contracts a sorted arena is the list of its entries, each with pointer, key and value, the generation of the next
/// pointer, and the capacity. [`len`](Self::len) promises what holds of every sorted arena (`IsSound`): the keys are in order, no two
/// entries share an index, and all entries fit in the capacity. The searches, the iterators and the changes promise it too.
///
/// Only the insertions and `reserve` take memory. In the docs n is the number of entries. In the examples of the calls `users` is an empty
/// `SortedArena<u64, &str>`, as `SortedArena::new(rt.alloc())` makes it; `names` has `u32`s and `&str`s, `stock` and `scores` have `&str`s
/// and `u32`s, `ids` has `String`s and `u32`s.
#[derive(Drop)]
pub struct SortedArena<K: Ord, V, P: BasePtr = P0, A: Allocator = Global> {
    pairs: Pairs<K, V, P, A>,
    // For the arena that `split_off` makes.
    alloc: A,
    // If it is set, the i-th entry has index i, and iterators step from index to index without reading links.
    is_compact: bool,
}

impl<K: Ord, V, P: BasePtr, A: Allocator> Model for SortedArena<K, V, P, A> {
    ghost use Rattle.sorted_arena.specs.Sorted.{Sorted};

    ghost Value = { Sorted K V };

    ghost use Rattle.sorted_arena.specs.Layout.{sorted_of, IsHeld};

    ghost view = { λ a. sorted_of a.pairs };

    ghost invariant = { λ a. IsHeld K.cmp a.is_compact a.pairs };
}

impl<K: Ord, V, P: BasePtr, A: Allocator> SortedArena<K, V, P, A> {
    /// Creates an empty arena with capacity 0. It takes no memory until an entry is inserted.
    pub fn new(alloc: A) -> Self
    where
        A: Copy,
        ensures entries { result.entries ≡ [] }
        ensures generation { result.generation ≡ first_generation P.Gen.greatest }
        ensures capacity { result.capacity ≡ 0 }
    {
        SortedArena {
            pairs: SimpleOrdArena::new(alloc),
            alloc,
            is_compact: true,
        }
    }

    // The ordered arena.
    pub(crate) fn pairs(&self) -> &Pairs<K, V, P, A>
        ensures { LendsPairs K.cmp P.Inx.most self.now result.now }
    {
        // For the prover: the list is sound.
        let _ = self.pairs.len();
        &self.pairs
    }

    // Whether the i-th entry has index i, as far as it is known.
    pub(crate) fn is_compact(&self) -> bool
        ensures { result ≡ true → AreNumbered 1 self.now.entries }
    {
        self.is_compact
    }

    /// Returns how many entries the arena holds without growing.
    pub fn capacity(&self) -> usize
        ensures { result ≡ self.now.capacity }
    {
        self.pairs.capacity()
    }

    /// Returns the number of entries.
    pub fn len(&self) -> usize
        ensures value { result ≡ count self.now }
        ensures sound { IsSound K.cmp P.Inx.most self.now }
    {
        self.pairs.len()
    }

    /// Returns whether the arena has no entries.
    pub fn is_empty(&self) -> bool
        ensures { result ≡ (count self.now == 0) }
    {
        self.pairs.is_empty()
    }

    /// Makes room for `additional` more entries. If the arena grows, it grows at least as far as an insertion grows it.
    ///
    /// O(capacity) if the arena grows, else O(1). So a `reserve(1)` before each insertion is amortized O(1).
    ///
    /// # Errors
    ///
    /// The arena is unchanged.
    /// - `BeyondMaxCapacity`: there would be more entries than pointers have indexes.
    /// - `AllocError`: growing failed.
    pub fn reserve(&mut self, additional: usize) -> Result<(), ReallocationError>
        ensures kept { ChangesCapacity self.old self.new }
        ensures room { OnOk result (count self.old + additional ≤ self.new.capacity) }
        ensures capacity { OnOk result (self.new.capacity
            ≡ capacity_for P.Inx.most self.old.capacity (count self.old + additional)) }
        ensures full { (result ≡ Err ReallocationError.BeyondMaxCapacity)
            ↔ (P.Inx.most < count self.old + additional) }
        ensures memory { result ≡ Err ReallocationError.AllocError
            → self.old.capacity < count self.old + additional }
        ensures err { OnErr result (self.new ≡ self.old) }
    {
        self.pairs.reserve(additional)
    }

    /// Sets the generation of the next entry, which must be lawful. Entries keep theirs.
    pub fn set_generation(&mut self, generation: P::Gen)
        requires { IsLawfulGeneration P.Gen.greatest (P.Gen.number generation) }
        ensures { self.new ≡ record self.old { generation = P.Gen.number generation } }
    {
        self.pairs.set_generation(generation);
    }

    /// Gives back the memory that no entry needs: the capacity becomes the greatest index of an entry. O(capacity).
    pub fn shrink(&mut self)
        ensures kept { ChangesCapacity self.old self.new }
        ensures capacity { self.new.capacity ≡ greatest_index self.old.entries }
    {
        let _ = self.pairs.reallocate_min_capacity(0);
    }

    /// Gives the entries the indexes from 1 on in their order, under the next generation. All old pointers are stale then. O(capacity).
    ///
    /// Before a [`shrink`](Self::shrink), this leaves just as much capacity as there are entries. Iterators read no links afterwards, until
    /// an entry is inserted before another, one that isn't the last is removed, or one gets another key.
    pub fn compact(&mut self)
        ensures after { self.new ≡ with_numbers P.Gen.greatest self.old }
        ensures items { map pair_of self.new.entries ≡ map pair_of self.old.entries }
        ensures ended { (p : ℕ × ℕ) → p.1 ≢ self.new.generation → get self.new p ≡ None }
        ensures found { (i : ℕ) → get self.new (i + 1, self.new.generation)
            ≡ slice_get (map pair_of self.old.entries) i }
        ensures generation { self.new.generation
            ≡ next_generation P.Gen.greatest self.old.generation }
        ensures capacity { self.new.capacity ≡ self.old.capacity }
        ensures count { count self.new ≡ count self.old }
    {
        let _ = self.pairs.compress_canonical(false);
        self.is_compact = true;
    }
}

impl<K: Ord + Drop, V: Drop, P: BasePtr, A: Allocator> SortedArena<K, V, P, A> {
    /// Removes all entries, in O(capacity). The capacity stays.
    pub fn clear(&mut self)
        ensures count { count self.new ≡ 0 }
        ensures after { self.new ≡ with_left P.Gen.greatest self.old [] }
    {
        let _ = self.pairs.clear();
        self.is_compact = true;
    }
}
