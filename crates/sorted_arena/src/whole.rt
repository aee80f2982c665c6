//! Iterators over all entries of an arena.

ghost use Rattle.std.specs.Prelude.{◌≡◌, ◌<◌, ◌^◌, map, reverse, length};
ghost use Rattle.sorted_arena.specs.Range.{shown_item, target_of, GivesInOrder, IsChainable, IteratesOver};
ghost use Rattle.sorted_arena.specs.Sorted.{value_of, pair_of};

use crate::arena::SortedArena;
use crate::parts::{Items, ValuesDescending};
use crate::range::Range;
use std::alloc::Allocator;
use triple_ord::BasePtr;

/// `for (p, k, v) in &arena` goes over all entries in order.
impl<'a, K: Ord, V, P: BasePtr, A: Allocator> IntoIterator for &'a SortedArena<K, V, P, A> {
    type Item = (P, &'a K, &'a V);

    type IntoIter = Range<'a, K, V, P, A>;

    ghost into_iter_gives = { λ a range. IteratesOver K.cmp P.Inx.most P.numbers a.now range
        (range ≡ a.now.entries) };

    fn into_iter(self) -> Range<'a, K, V, P, A> {
        self.iter()
    }
}

impl<K: Ord, V, P: BasePtr, A: Allocator> SortedArena<K, V, P, A> {
    /// Returns an iterator over all keys and values in order, from both ends.
    pub fn items(&self) -> Items<'_, K, V, P, A>
        ensures items { result ≡ map pair_of self.now.entries }
        ensures chains { IsChainable (shown_item {K = K} {V = V}) result }
    {
        self.iter().items()
    }

    /// Returns an iterator over all values from that of the last entry to that of the first.
    pub fn values_descending(&self) -> ValuesDescending<'_, K, V, P, A>
        ensures values { result ≡ reverse (map value_of self.now.entries) }
        // for chains of iterators
        ensures runs { GivesInOrder (target_of {T = V}) }
        ensures fits { length result < 2 ^ 64 }
    {
        self.iter().values_descending()
    }
}
