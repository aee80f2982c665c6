//! An arena that is taken apart.

ghost use Rattle.std.specs.Prelude.{◌≡◌, map};
ghost use Rattle.std.specs.Iterator.{YieldsFirstBy, YieldsLastBy, item_count};
ghost use Rattle.sorted_arena.specs.Given.{given_entry};
ghost use Rattle.sorted_arena.specs.Range.{IsChainable};
ghost use Rattle.sorted_arena.specs.Sorted.{key_of, value_of};

use crate::arena::SortedArena;
use std::alloc::{Allocator, Global};
use std::marker::Model;
use triple_ord::{BasePtr, P0};

/// Gives the entries of an arena that it owns, each with the pointer that it had, its key and its value, in order, from both ends. Each
/// step is O(log n), and takes no memory.
#[derive(Drop)]
pub struct IntoEntries<K: Ord, V, P: BasePtr = P0, A: Allocator = Global> {
    arena: SortedArena<K, V, P, A>,
}

impl<K: Ord, V, P: BasePtr, A: Allocator> Model for IntoEntries<K, V, P, A> {
    ghost use Rattle.std.specs.Prelude.{List};
    ghost use Rattle.listing.specs.Chain.{Entry};

    ghost Value = { List (Entry (K × V)) };

    ghost view = { λ i. i.arena.entries };
}

impl<K: Ord + Drop, V: Drop, P: BasePtr, A: Allocator> Iterator for IntoEntries<K, V, P, A> {
    type Item = (P, K, V);

    ghost next_gives = { YieldsFirstBy (given_entry P.numbers) (λ left. left) };

    ghost remaining = { item_count (λ left. left) };

    fn next(&mut self) -> Option<(P, K, V)> {
        self.arena.pop_first_entry()
    }

    fn size_hint(&self) -> (usize, Option<usize>) {
        let left = self.arena.len();
        (left, Some(left))
    }
}

impl<K: Ord + Drop, V: Drop, P: BasePtr, A: Allocator> DoubleEndedIterator
    for IntoEntries<K, V, P, A> {
    ghost next_back_gives = { YieldsLastBy (given_entry P.numbers) (λ left. left) };

    fn next_back(&mut self) -> Option<(P, K, V)> {
        self.arena.pop_last_entry()
    }
}

impl<K: Ord + Drop, V: Drop, P: BasePtr, A: Allocator> ExactSizeIterator
    for IntoEntries<K, V, P, A> {
    fn len(&self) -> usize {
        self.arena.len()
    }
}

/// `for (p, k, v) in arena` takes all entries out, in order.
impl<K: Ord + Drop, V: Drop, P: BasePtr, A: Allocator> IntoIterator for SortedArena<K, V, P, A> {
    type Item = (P, K, V);

    type IntoIter = IntoEntries<K, V, P, A>;

    ghost into_iter_gives = { λ a entries. (entries ≡ a.entries)
        × IsChainable (given_entry {K = K} {V = V} P.numbers) entries };

    fn into_iter(self) -> IntoEntries<K, V, P, A> {
        // For the prover: there are fewer than 2 ^ 64 entries.
        let _ = self.len();
        IntoEntries { arena: self }
    }
}

/// Gives the keys of an arena that it owns, in order, from both ends; the values are dropped. Each step is O(log n), and takes no memory.
#[derive(Drop)]
pub struct IntoKeys<K: Ord, V, P: BasePtr = P0, A: Allocator = Global> {
    entries: IntoEntries<K, V, P, A>,
}

/// Gives the values of an arena that it owns, in the order of the keys, from both ends; the keys are dropped. Each step is O(log n), and
/// takes no memory.
#[derive(Drop)]
pub struct IntoValues<K: Ord, V, P: BasePtr = P0, A: Allocator = Global> {
    entries: IntoEntries<K, V, P, A>,
}

impl<K: Ord, V, P: BasePtr, A: Allocator> Model for IntoKeys<K, V, P, A> {
    ghost use Rattle.std.specs.Prelude.{List, map};
    ghost use Rattle.sorted_arena.specs.Sorted.{key_of};

    ghost Value = { List K };

    ghost view = { λ i. map key_of i.entries };
}

impl<K: Ord, V, P: BasePtr, A: Allocator> Model for IntoValues<K, V, P, A> {
    ghost use Rattle.std.specs.Prelude.{List, map};
    ghost use Rattle.sorted_arena.specs.Sorted.{value_of};

    ghost Value = { List V };

    ghost view = { λ i. map value_of i.entries };
}

impl<K: Ord + Drop, V: Drop, P: BasePtr, A: Allocator> Iterator for IntoKeys<K, V, P, A> {
    type Item = K;

    ghost next_gives = { YieldsFirstBy (λ k. k) (λ left. left) };

    ghost remaining = { item_count (λ left. left) };

    fn next(&mut self) -> Option<K> {
        let (_, k, _) = self.entries.next()?;
        Some(k)
    }

    fn size_hint(&self) -> (usize, Option<usize>) {
        self.entries.size_hint()
    }
}

impl<K: Ord + Drop, V: Drop, P: BasePtr, A: Allocator> DoubleEndedIterator
    for IntoKeys<K, V, P, A> {
    ghost next_back_gives = { YieldsLastBy (λ k. k) (λ left. left) };

    fn next_back(&mut self) -> Option<K> {
        let (_, k, _) = self.entries.next_back()?;
        Some(k)
    }
}

impl<K: Ord + Drop, V: Drop, P: BasePtr, A: Allocator> ExactSizeIterator for IntoKeys<K, V, P, A> {
    fn len(&self) -> usize {
        self.entries.len()
    }
}

impl<K: Ord + Drop, V: Drop, P: BasePtr, A: Allocator> Iterator for IntoValues<K, V, P, A> {
    type Item = V;

    ghost next_gives = { YieldsFirstBy (λ v. v) (λ left. left) };

    ghost remaining = { item_count (λ left. left) };

    fn next(&mut self) -> Option<V> {
        let (_, _, v) = self.entries.next()?;
        Some(v)
    }

    fn size_hint(&self) -> (usize, Option<usize>) {
        self.entries.size_hint()
    }
}

impl<K: Ord + Drop, V: Drop, P: BasePtr, A: Allocator> DoubleEndedIterator
    for IntoValues<K, V, P, A> {
    ghost next_back_gives = { YieldsLastBy (λ v. v) (λ left. left) };

    fn next_back(&mut self) -> Option<V> {
        let (_, _, v) = self.entries.next_back()?;
        Some(v)
    }
}

impl<K: Ord + Drop, V: Drop, P: BasePtr, A: Allocator> ExactSizeIterator
    for IntoValues<K, V, P, A> {
    fn len(&self) -> usize {
        self.entries.len()
    }
}

impl<K: Ord + Drop, V: Drop, P: BasePtr, A: Allocator> SortedArena<K, V, P, A> {
    /// Takes the arena apart, and returns an iterator over its keys in order, from both ends.
    ///
    /// ```
    /// let pairs = Vec::from_array(rt.alloc(), [(100, "Ada"), (120, "Grace")])?;
    /// let users: SortedArena<u64, &str> =
    ///     SortedArena::from_sorted(rt.alloc(), pairs).map_err(|refused| refused.1)?;
    /// assert!(rt; users.into_keys().eq([100, 120]));
    /// ```
    pub fn into_keys(self) -> IntoKeys<K, V, P, A>
        ensures keys { result ≡ map key_of self.entries }
        ensures chains { IsChainable (λ (k : K). k) result }
    {
        IntoKeys {
            entries: self.into_iter(),
        }
    }

    /// Takes the arena apart, and returns an iterator over its values in the order of the keys, from both ends.
    pub fn into_values(self) -> IntoValues<K, V, P, A>
        ensures values { result ≡ map value_of self.entries }
        ensures chains { IsChainable (λ (v : V). v) result }
    {
        IntoValues {
            entries: self.into_iter(),
        }
    }
}
