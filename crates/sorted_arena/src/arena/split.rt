//! Entries that move into another arena.

ghost use Rattle.std.specs.Prelude.{◌≡◌, ◌+◌, [], length, map, IfOk, IsOk, OnOk, OnErr};
ghost use Rattle.std.specs.declared.ops.Bound.TheVariants.{Included, Excluded, Unbounded};
ghost use Rattle.listing.specs.{Generation.first_generation, PlainArena.capacity_for};
ghost use Rattle.sorted_arena.specs.Range.{entries_between};
ghost use Rattle.sorted_arena.specs.Sorted.{count, pair_of, key_of, with_passing, IsSound};
ghost use Rattle.std.specs.BTreeMap.Range.{range_contains};

use super::SortedArena;
use std::alloc::{AllocError, Allocator};
use std::ops::Bound;
use triple_ord::BasePtr;

impl<K: Ord + Drop, V: Drop, P: BasePtr, A: Allocator> SortedArena<K, V, P, A> {
    /// Moves all entries whose key is at least `from` into a new arena on the same allocator, under new pointers, and returns it. O(log n)
    /// for each.
    ///
    /// ```
    /// users.insert(100, "Ada").map_err(|refused| refused.1)?;
    /// users.insert(120, "Grace").map_err(|refused| refused.1)?;
    /// let later = users.split_off(&110)?;
    /// assert!(rt; users.values().eq(&["Ada"]));
    /// assert!(rt; later.values().eq(&["Grace"]));
    /// ```
    ///
    /// # Errors
    ///
    /// If memory is refused, the arena is unchanged.
    pub fn split_off<'k>(&mut self, from: &'k K) -> Result<Self, AllocError>
    where
        A: Copy,
        ensures moved { IfOk result (λ a. map pair_of a.entries
            ≡ map pair_of (entries_between K.cmp (Included from.now) Unbounded self.old.entries)) }
        ensures generation { IfOk result (λ a. a.generation
            ≡ first_generation P.Gen.greatest) }
        ensures capacity { IfOk result (λ a. a.capacity ≡ capacity_for P.Inx.most 0
            (length (entries_between K.cmp (Included from.now) Unbounded self.old.entries))) }
        ensures after { OnOk result
            (self.new ≡ with_passing P.Gen.greatest self.old
            (λ e. range_contains K.cmp Unbounded (Excluded from.now) (key_of e))) }
        ensures sound { IsSound K.cmp P.Inx.most self.old }
        ensures count { IfOk result (λ a. count self.new + count a ≡ count self.old) }
        ensures none { entries_between K.cmp (Included from.now) Unbounded self.old.entries ≡ []
            → IsOk result }
        ensures err { OnErr result (self.new ≡ self.old) }
    {
        let until: Bound<&'k K> = Bound::Unbounded;
        let (first, count) = self.run_between(Bound::Included(from), until);
        let mut moved = SortedArena::new(self.alloc);
        match moved.reserve(count) {
            Ok(()) => {}
            Err(_) => return Err(AllocError),
        }
        let mut next = first;
        for _ in 0..count {
            let ((k, v), after) = self.take(next);
            next = after;
            let _ = moved.insert_in_room(k, v);
        }
        Ok(moved)
    }
}
