//! Searches by key.
ghost use Rattle.std.specs.Prelude.{◌≡◌, ◌+◌, ◌^◌, ◌≤◌, ◌<◌, true, false, [], length, Some, IfSome, IfNone};
ghost use Rattle.std.specs.Option.{option_map};
ghost use Rattle.std.specs.List.Sorted.{IsPartitionPoint};
ghost use Rattle.leaf_list.specs.Before.{is_passed};
ghost use Rattle.leaf_list.specs.Leaves.{count, entries_of, IsSound};
ghost use Rattle.leaf_list.specs.Parts.{entries_in, HasLeaf};
ghost use Rattle.leaf_list.specs.Place.{position, IsPlace};

use super::LeafList;
use crate::place::Place;
use std::alloc::Allocator;
use triple_ord::BasePtr;

impl<K: Ord, P: BasePtr, A: Allocator> LeafList<K, P, A> {
    /// Returns the place of the first entry with a key ≥ `k`, or > `k` if `with_equals`; `None` if there is none.
    ///
    /// Also returns the number c of keys that it compared with `k`. If there are n > 0 entries, `2^(c+1) <= (n+1)^2`. O(log n).
    #[inline(always)]
    pub fn bound(&self, k: &K, with_equals: bool) -> (Option<Place<P::Inx>>, u128)
        ensures place { IsPlace self.now.leaves
            (option_map (λ p. (P.Inx.number p.leaf, p.at)) result.0) }
        ensures point { IsPartitionPoint
            (λ e. is_passed with_equals (K.cmp k.now e.0) ≡ true)
            (λ e. is_passed with_equals (K.cmp k.now e.0) ≡ false)
            (entries_of self.now.leaves)
            (position self.now.leaves (option_map (λ p. (P.Inx.number p.leaf, p.at)) result.0)) }
        ensures visits { 0 < count self.now → 2 ^ (result.1 + 1) ≤ (count self.now + 1) ^ 2 }
        ensures none { count self.now ≡ 0 → result.1 ≡ 0 }
        ensures sound { IsSound K.cmp self.now }
    {
        // For the prover: the list is sound.
        let _ = self.room();
        let (gap, visits) = self.gap(k, with_equals);
        let Some(gap) = gap else {
            return (None, visits);
        };
        (self.place_at(gap.leaf, gap.at), visits)
    }

    // The index in a leaf behind all entries whose key is less than `k`, or at most it. It is at most the number of the leaf's entries.
    // `None` only if there are no leaves.
    #[inline(always)]
    pub(super) fn gap(&self, k: &K, with_equals: bool) -> (Option<Place<P::Inx>>, u128)
        ensures empty { IfNone result.0 (self.now.leaves ≡ []) }
        ensures leaf { IfSome result.0 (λ p. HasLeaf self.now.leaves (P.Inx.number p.leaf)) }
        ensures within { IfSome result.0
            (λ p. p.at ≤ length (entries_in self.now.leaves (P.Inx.number p.leaf))) }
        ensures point { IfSome result.0 (λ p. IsPartitionPoint
            (λ e. is_passed with_equals (K.cmp k.now e.0) ≡ true)
            (λ e. is_passed with_equals (K.cmp k.now e.0) ≡ false)
            (entries_of self.now.leaves)
            (position self.now.leaves (Some (P.Inx.number p.leaf, p.at)))) }
        ensures visits { 0 < count self.now → 2 ^ (result.1 + 1) ≤ (count self.now + 1) ^ 2 }
        ensures none { count self.now ≡ 0 → result.1 ≡ 0 }
    {
        // For the prover: no two leaves have the same number.
        let _ = self.store.room();
        let (found, visits) = self.store.find(k, with_equals);
        let Some(lead) = found else {
            return (None, visits);
        };
        let leaf = lead.0;
        let is_behind = lead.1;
        if is_behind {
            return (Some(Place { leaf, at: 0 }), visits);
        }
        let (n, compared) = self.store.count_before(leaf, k, with_equals);
        let gap = Place { leaf, at: n + 1 };
        (Some(gap), visits + compared as u128)
    }
}
