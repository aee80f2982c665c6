//! The keys, the values, or both, of the entries that an iterator gives.
ghost use Rattle.std.specs.Prelude.{◌≡◌, map, reverse, length};
ghost use Rattle.std.specs.Iterator.{YieldsFirstBy, YieldsLastBy, item_count};
ghost use Rattle.sorted_arena.specs.Range.{shown_item, target_of, GivesInOrder, IsChainable, IsChainableAs};
ghost use Rattle.sorted_arena.specs.Sorted.{key_of, value_of, pair_of};

use crate::arena::SortedArena;
use crate::range::Range;
use std::alloc::{Allocator, Global};
use std::marker::Model;
use triple_ord::{BasePtr, P0};

/// Gives the keys of entries, in order, from both ends.
#[derive(Drop)]
pub struct Keys<'a, K: Ord, V, P: BasePtr = P0, A: Allocator = Global> {
    range: Range<'a, K, V, P, A>,
}

/// Gives the values of entries, in the order of the keys, from both ends.
#[derive(Drop)]
pub struct Values<'a, K: Ord, V, P: BasePtr = P0, A: Allocator = Global> {
    range: Range<'a, K, V, P, A>,
}

/// Gives the keys and the values of entries, in order, from both ends.
#[derive(Drop)]
pub struct Items<'a, K: Ord, V, P: BasePtr = P0, A: Allocator = Global> {
    range: Range<'a, K, V, P, A>,
}

/// Gives the values of entries from the last one to the first.
#[derive(Drop)]
pub struct ValuesDescending<'a, K: Ord, V, P: BasePtr = P0, A: Allocator = Global> {
    range: Range<'a, K, V, P, A>,
}

impl<'a, K: Ord, V, P: BasePtr, A: Allocator> Model for Keys<'a, K, V, P, A> {
    ghost use Rattle.std.specs.Prelude.{List, map};
    ghost use Rattle.sorted_arena.specs.Sorted.{key_of};

    ghost Value = { List K };

    ghost view = { λ k. map key_of k.range };
}

impl<'a, K: Ord, V, P: BasePtr, A: Allocator> Model for Values<'a, K, V, P, A> {
    ghost use Rattle.std.specs.Prelude.{List, map};
    ghost use Rattle.sorted_arena.specs.Sorted.{value_of};

    ghost Value = { List V };

    ghost view = { λ v. map value_of v.range };
}

impl<'a, K: Ord, V, P: BasePtr, A: Allocator> Model for Items<'a, K, V, P, A> {
    ghost use Rattle.std.specs.Prelude.{List, map};
    ghost use Rattle.sorted_arena.specs.Sorted.{pair_of};

    ghost Value = { List (K × V) };

    ghost view = { λ i. map pair_of i.range };
}

impl<'a, K: Ord, V, P: BasePtr, A: Allocator> Model for ValuesDescending<'a, K, V, P, A> {
    ghost use Rattle.std.specs.Prelude.{List, map, reverse};
    ghost use Rattle.sorted_arena.specs.Sorted.{value_of};

    ghost Value = { List V };

    ghost view = { λ i. reverse (map value_of i.range) };
}

impl<'a, K: Ord, V, P: BasePtr, A: Allocator> Range<'a, K, V, P, A> {
    /// Returns an iterator over the keys of these entries.
    pub fn keys(self) -> Keys<'a, K, V, P, A>
        ensures keys { result ≡ map key_of self.entry }
        ensures chains { IsChainableAs (target_of {T = K}) self.entry result }
    {
        Keys { range: self }
    }

    /// Returns an iterator over the values of these entries.
    pub fn values(self) -> Values<'a, K, V, P, A>
        ensures values { result ≡ map value_of self.entry }
        ensures chains { IsChainableAs (target_of {T = V}) self.entry result }
    {
        Values { range: self }
    }

    /// Returns an iterator over the keys and the values of these entries.
    pub fn items(self) -> Items<'a, K, V, P, A>
        ensures items { result ≡ map pair_of self.entry }
        ensures chains { IsChainableAs (shown_item {K = K} {V = V}) self.entry result }
    {
        Items { range: self }
    }

    /// Returns an iterator over the values of these entries from the last one to the first.
    pub fn values_descending(self) -> ValuesDescending<'a, K, V, P, A>
        ensures values { result ≡ reverse (map value_of self.entry) }
        // for chains of iterators
        ensures runs { GivesInOrder (target_of {T = V}) }
        ensures fits { length result ≡ length self.entry }
    {
        ValuesDescending { range: self }
    }
}

impl<'a, K: Ord, V, P: BasePtr, A: Allocator> Iterator for ValuesDescending<'a, K, V, P, A> {
    type Item = &'a V;

    ghost next_gives = { YieldsFirstBy target_of (λ left. left) };

    ghost remaining = { item_count (λ left. left) };

    fn next(&mut self) -> Option<&'a V> {
        let (_, _, v) = self.range.next_back()?;
        Some(v)
    }

    fn size_hint(&self) -> (usize, Option<usize>) {
        self.range.size_hint()
    }
}

impl<'a, K: Ord, V, P: BasePtr, A: Allocator> Iterator for Keys<'a, K, V, P, A> {
    type Item = &'a K;

    ghost next_gives = { YieldsFirstBy target_of (λ left. left) };

    ghost remaining = { item_count (λ left. left) };

    fn next(&mut self) -> Option<&'a K> {
        let (_, k, _) = self.range.next()?;
        Some(k)
    }

    fn size_hint(&self) -> (usize, Option<usize>) {
        self.range.size_hint()
    }
}

impl<'a, K: Ord, V, P: BasePtr, A: Allocator> DoubleEndedIterator for Keys<'a, K, V, P, A> {
    ghost next_back_gives = { YieldsLastBy target_of (λ left. left) };

    fn next_back(&mut self) -> Option<&'a K> {
        let (_, k, _) = self.range.next_back()?;
        Some(k)
    }
}

impl<'a, K: Ord, V, P: BasePtr, A: Allocator> Iterator for Values<'a, K, V, P, A> {
    type Item = &'a V;

    ghost next_gives = { YieldsFirstBy target_of (λ left. left) };

    ghost remaining = { item_count (λ left. left) };

    fn next(&mut self) -> Option<&'a V> {
        let (_, _, v) = self.range.next()?;
        Some(v)
    }

    fn size_hint(&self) -> (usize, Option<usize>) {
        self.range.size_hint()
    }
}

impl<'a, K: Ord, V, P: BasePtr, A: Allocator> DoubleEndedIterator for Values<'a, K, V, P, A> {
    ghost next_back_gives = { YieldsLastBy target_of (λ left. left) };

    fn next_back(&mut self) -> Option<&'a V> {
        let (_, _, v) = self.range.next_back()?;
        Some(v)
    }
}

impl<'a, K: Ord, V, P: BasePtr, A: Allocator> Iterator for Items<'a, K, V, P, A> {
    type Item = (&'a K, &'a V);

    ghost next_gives = { YieldsFirstBy shown_item (λ left. left) };

    ghost remaining = { item_count (λ left. left) };

    fn next(&mut self) -> Option<(&'a K, &'a V)> {
        let (_, k, v) = self.range.next()?;
        Some((k, v))
    }

    fn size_hint(&self) -> (usize, Option<usize>) {
        self.range.size_hint()
    }
}

impl<'a, K: Ord, V, P: BasePtr, A: Allocator> DoubleEndedIterator for Items<'a, K, V, P, A> {
    ghost next_back_gives = { YieldsLastBy shown_item (λ left. left) };

    fn next_back(&mut self) -> Option<(&'a K, &'a V)> {
        let (_, k, v) = self.range.next_back()?;
        Some((k, v))
    }
}

impl<K: Ord, V, P: BasePtr, A: Allocator> SortedArena<K, V, P, A> {
    /// Returns an iterator over all keys in order, from both ends.
    pub fn keys(&self) -> Keys<'_, K, V, P, A>
        ensures keys { result ≡ map key_of self.now.entries }
        ensures chains { IsChainable (target_of {T = K}) result }
    {
        self.iter().keys()
    }

    /// Returns an iterator over all values in the order of the keys, from both ends.
    pub fn values(&self) -> Values<'_, K, V, P, A>
        ensures values { result ≡ map value_of self.now.entries }
        ensures chains { IsChainable (target_of {T = V}) result }
    {
        self.iter().values()
    }
}
