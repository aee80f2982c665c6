//! Insertions of many pairs that are in order.

ghost use Rattle.std.specs.Prelude.{◌≡◌, ◌≢◌, ◌↔◌, ◌<◌, ◌≤◌, ◌+◌, ◌++◌, ℕ, true, [], Err, Some, map, length, vec_len};
ghost use Rattle.std.specs.Prelude.{IfOk, IfErr, IfSome, IfNone, IsOk};
ghost use Rattle.std.specs.{Ordering.is_gt, Option.option_map_or, Prelude.false, List.AllAdjacentBelow};
ghost use Rattle.std.specs.declared.cmp.Ordering.TheVariants.{Greater};
ghost use Rattle.sorted_arena.specs.Change.{ExtendsSorted, ChangesCapacity, refusal_of, sorted_error};
ghost use Rattle.sorted_arena.specs.Sorted.{count, pair_of, last_item, AreSorted, AreInOrder, IsOutOfOrder, IsSound, Keeps};
ghost use Rattle.listing.specs.{Generation.first_generation, Steps.IsStep};

use super::SortedArena;
use crate::error::SortedError;
use std::alloc::Allocator;
use triple_ord::{BasePtr, ReallocationError, SimpleOrdArena};

impl<K: Ord + Drop, V: Drop, P: BasePtr, A: Allocator> SortedArena<K, V, P, A> {
    /// Inserts pairs that are in order behind all entries. One comparison and amortized O(1) for each.
    ///
    /// At least as many pairs as entries are appended at once, and the tree is rebuilt, if all are in order and there is memory for all.
    /// Otherwise they are inserted one after another.
    ///
    /// # Errors
    ///
    /// The pairs before the refused one are inserted; it and the rest come back, in their order. Old pointers stay valid, and the capacity
    /// never falls.
    /// - `OutOfOrder(i)`: the key of the pair at index i is smaller than the one before it, or than the last key.
    /// - `BeyondMaxCapacity`: there are as many entries as pointers have indexes now.
    /// - `AllocError`: the arena is full now, and growing failed. Never if there was room for all pairs, as after a
    ///   [`reserve`](Self::reserve) for them; no memory is taken then.
    pub fn extend_sorted<B: Allocator>(
        &mut self,
        pairs: Vec<(K, V), B>,
    ) -> Result<(), (Vec<(K, V), B>, SortedError)>
        ensures { ExtendsSorted K.cmp P.Inx.most self.old pairs.items result self.new }
    {
        if self.is_made_ready(&pairs) {
            self.append_sorted(pairs);
            return Ok(());
        }
        self.insert_sorted(pairs)
    }

    /// Creates an arena of pairs that are in order, with the capacity that they need. One comparison and amortized O(1) for each.
    ///
    /// ```
    /// let pairs = Vec::from_array(rt.alloc(), [(100, "Ada"), (120, "Grace")])?;
    /// let users: SortedArena<u64, &str> =
    ///     SortedArena::from_sorted(rt.alloc(), pairs).map_err(|refused| refused.1)?;
    /// assert!(rt; users.values().eq(&["Ada", "Grace"]));
    /// ```
    ///
    /// # Errors
    ///
    /// The pairs come back.
    /// - `OutOfOrder(i)`: the key of the pair at index i is smaller than the one before it.
    /// - `BeyondMaxCapacity`: there are more pairs than pointers have indexes, in whatever order.
    /// - `AllocError`: there are pairs, and memory for them is refused.
    pub fn from_sorted<B: Allocator>(
        alloc: A,
        pairs: Vec<(K, V), B>,
    ) -> Result<Self, (Vec<(K, V), B>, SortedError)>
    where
        A: Copy,
        ensures ok { IfOk result (λ a. map pair_of a.entries ≡ pairs.items) }
        ensures generation { IfOk result (λ a. a.generation ≡ first_generation P.Gen.greatest) }
        ensures capacity { IfOk result (λ a. a.capacity ≡ length pairs.items) }
        ensures back { IfErr result (λ e. e.0.items ≡ pairs.items) }
        ensures unsorted { (at : ℕ) → refusal_of result ≡ Some (SortedError.OutOfOrder at)
            → IsOutOfOrder K.cmp [] pairs.items at }
        ensures full { (refusal_of result ≡ Some SortedError.BeyondMaxCapacity)
            ↔ (P.Inx.most < length pairs.items) }
        ensures none { pairs.items ≡ [] → IsOk result }
    {
        let mut arena = match SortedArena::with_room(alloc, pairs.len()) {
            Ok(arena) => arena,
            Err(refusal) => return Err((pairs, sorted_error(refusal))),
        };
        match first_unsorted(&pairs) {
            Some(at) => Err((pairs, SortedError::OutOfOrder(at))),
            None => {
                arena.append_sorted(pairs);
                Ok(arena)
            }
        }
    }

    // An empty arena with room for just so many entries.
    pub(super) fn with_room(alloc: A, n: usize) -> Result<Self, ReallocationError>
    where
        A: Copy,
        ensures entries { IfOk result (λ a. a.entries ≡ []) }
        ensures generation { IfOk result (λ a. a.generation ≡ first_generation P.Gen.greatest) }
        ensures capacity { IfOk result (λ a. a.capacity ≡ n) }
        ensures full { (result ≡ Err ReallocationError.BeyondMaxCapacity) ↔ (P.Inx.most < n) }
        ensures memory { result ≡ Err ReallocationError.AllocError → 0 < n }
    {
        let mut pairs = SimpleOrdArena::new(alloc);
        match pairs.reallocate_min_capacity(n) {
            Ok(()) => Ok(SortedArena {
                pairs,
                alloc,
                is_compact: true,
            }),
            Err(refusal) => Err(refusal),
        }
    }

    // Makes room for pairs that can be appended at once: at least as many as entries, in order, and the first with no smaller key than the
    // last entry. Returns whether they can be, and there is room.
    fn is_made_ready(&mut self, pairs: &[(K, V)]) -> bool
        ensures kept { ChangesCapacity self.old self.new }
        ensures grown { self.old.capacity ≤ self.new.capacity }
        ensures fits { count self.old + length pairs.now ≤ self.old.capacity
            → self.new.capacity ≡ self.old.capacity }
        ensures refused { result ≡ false → self.new ≡ self.old }
        ensures room { result ≡ true → count self.new + length pairs.now ≤ self.new.capacity }
        ensures order { result ≡ true
            → AreInOrder K.cmp (map pair_of self.new.entries ++ pairs.now) }
    {
        self.len() <= pairs.len() && self.is_continued(pairs) && self.reserve(pairs.len()).is_ok()
    }

    // Whether pairs are in order, and the first has no smaller key than the last entry.
    fn is_continued(&self, pairs: &[(K, V)]) -> bool
        ensures { AreSorted K.cmp self.now.entries → result ≡ true
            → AreInOrder K.cmp (map pair_of self.now.entries ++ pairs.now) }
    {
        match pairs.first() {
            Some(first) => !self.is_last_greater(&first.0) && are_sorted(pairs),
            None => true,
        }
    }

    // Appends pairs that are in order behind all entries, where they have room.
    pub(super) fn append_sorted<B: Allocator>(&mut self, pairs: Vec<(K, V), B>)
        requires room { count self.old + vec_len pairs ≤ self.old.capacity }
        requires order { AreInOrder K.cmp (map pair_of self.old.entries ++ pairs.items) }
        ensures items { map pair_of self.new.entries
            ≡ map pair_of self.old.entries ++ pairs.items }
        ensures kept { Keeps self.old self.new }
        ensures step { IsStep self.old self.new }
        ensures generation { self.new.generation ≡ self.old.generation }
        ensures capacity { self.new.capacity ≡ self.old.capacity }
    {
        let _ = self.pairs.append_pairs_within_capacity(pairs);
    }

    // Inserts pairs one after another behind all entries, up to the first that is out of order or has no room. It and the rest come back.
    fn insert_sorted<B: Allocator>(
        &mut self,
        mut pairs: Vec<(K, V), B>,
    ) -> Result<(), (Vec<(K, V), B>, SortedError)>
        ensures { ExtendsSorted K.cmp P.Inx.most self.old pairs.items result self.new }
    {
        let before = self.len();
        // Now the next pair is the last one, which leaves in O(1).
        pairs.reverse();
        while let Some(next) = pairs.last() {
            if self.is_last_greater(&next.0) {
                let at = self.len() - before;
                pairs.reverse();
                return Err((pairs, SortedError::OutOfOrder(at)));
            }
            if let Err(refusal) = self.reserve(1) {
                pairs.reverse();
                return Err((pairs, sorted_error(refusal)));
            }
            if let Some((k, v)) = pairs.pop() {
                let _ = self.insert_in_room(k, v);
            }
        }
        Ok(())
    }

    // Whether the last key is greater than `k`.
    fn is_last_greater(&self, k: &K) -> bool
        ensures value { result
            ≡ option_map_or (λ x. is_gt (K.cmp x.0 k.now)) (last_item self.now.entries) false }
        ensures sound { IsSound K.cmp P.Inx.most self.now }
    {
        let Some(p) = self.last() else {
            return false;
        };
        match self.key(p) {
            Some(last) => last.cmp(k).is_gt(),
            None => false,
        }
    }
}

// A refusal of room as one of pairs that were to be in order.
fn sorted_error(refusal: ReallocationError) -> SortedError
    ensures { result ≡ sorted_error refusal }
{
    match refusal {
        ReallocationError::BeyondMaxCapacity => SortedError::BeyondMaxCapacity,
        ReallocationError::AllocError => SortedError::AllocError,
    }
}

// Whether no key is greater than the next.
fn are_sorted<K: Ord, V>(pairs: &[(K, V)]) -> bool
    ensures { result ≡ true → AllAdjacentBelow (λ x y. K.cmp x.0 y.0 ≢ Greater)
        pairs.now (length pairs.now) }
{
    first_unsorted(pairs).is_none()
}

// The index of the first pair whose key is smaller than the one before it.
fn first_unsorted<K: Ord, V>(pairs: &[(K, V)]) -> Option<usize>
    ensures sorted { IfNone result (AllAdjacentBelow (λ x y. K.cmp x.0 y.0 ≢ Greater)
        pairs.now (length pairs.now)) }
    ensures unsorted { IfSome result (λ at. IsOutOfOrder K.cmp [] pairs.now at) }
{
    for i in 1..pairs.len() {
        if pairs[i - 1].0.cmp(&pairs[i].0).is_gt() {
            return Some(i);
        }
    }
    None
}
