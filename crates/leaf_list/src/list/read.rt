//! Entries by their places, and places of entries.
ghost use Rattle.std.specs.Prelude.{◌≡◌, ◌+◌, ◌≤◌, Some, IsSome, IfSome, IfNone, IsSomeAnd, [], length};
ghost use Rattle.std.specs.Option.{option_map};
ghost use Rattle.leaf_list.specs.Leaves.{entries_of, leaf_of};
ghost use Rattle.leaf_list.specs.Parts.{entries_in, HasLeaf};
ghost use Rattle.leaf_list.specs.Place.{entry_at, position, IsPlace, IsPlaceOf};

use super::LeafList;
use crate::place::Place;
use std::alloc::Allocator;
use triple_ord::BasePtr;

impl<K: Ord, P: BasePtr, A: Allocator> LeafList<K, P, A> {
    /// Returns the key and the name of the entry at a place. O(1).
    #[inline(always)]
    pub fn entry(&self, p: Place<P::Inx>) -> (&K, P::Inx)
        requires { IsSome (entry_at self.now.leaves (P.Inx.number p.leaf, p.at)) }
        ensures { entry_at self.now.leaves (P.Inx.number p.leaf, p.at)
            ≡ Some (result.0.now, P.Inx.number result.1) }
    {
        self.store.entry(p.leaf, p.at)
    }

    /// Returns the place of the entry with a name, given the number of its leaf. O(1), without a branch that depends on the names.
    #[inline(always)]
    pub fn place(&self, leaf: P::Inx, name: P::Inx) -> Place<P::Inx>
        requires { leaf_of self.now.leaves (P.Inx.number name) ≡ Some (P.Inx.number leaf) }
        ensures leaf { result.leaf ≡ leaf }
        ensures named { IsSomeAnd (entry_at self.now.leaves (P.Inx.number leaf, result.at))
            (λ e. e.1 ≡ P.Inx.number name) }
    {
        // For the prover: no two leaves have the same number.
        let _ = self.store.room();
        let at = self.store.index_of(leaf, name);
        Place { leaf, at }
    }

    /// Returns the place of the first entry; `None` if there is none. O(1).
    pub fn first(&self) -> Option<Place<P::Inx>>
        ensures { IsPlaceOf self.now.leaves
            (option_map (λ p. (P.Inx.number p.leaf, p.at)) result) 0 }
    {
        // For the prover: no leaf is empty.
        let _ = self.store.room();
        let Some(leaf) = self.store.first() else {
            return None;
        };
        Some(Place { leaf, at: 0 })
    }

    /// Returns the place of the last entry; `None` if there is none. O(1).
    pub fn last(&self) -> Option<Place<P::Inx>>
        ensures place { IsPlace self.now.leaves
            (option_map (λ p. (P.Inx.number p.leaf, p.at)) result) }
        ensures last { IfSome result
            (λ p. position self.now.leaves (Some (P.Inx.number p.leaf, p.at)) + 1
            ≡ length (entries_of self.now.leaves)) }
        ensures none { IfNone result (self.now.leaves ≡ []) }
    {
        // For the prover: no two leaves have the same number.
        let _ = self.store.room();
        let Some(leaf) = self.store.last() else {
            return None;
        };
        let size = self.store.size(leaf);
        Some(Place { leaf, at: size - 1 })
    }

    /// Returns the place of the next entry; `None` at the end. O(1).
    #[inline(always)]
    pub fn after(&self, p: Place<P::Inx>) -> Option<Place<P::Inx>>
        requires { IsSome (entry_at self.now.leaves (P.Inx.number p.leaf, p.at)) }
        ensures { IsPlaceOf self.now.leaves
            (option_map (λ p. (P.Inx.number p.leaf, p.at)) result)
            (position self.now.leaves (Some (P.Inx.number p.leaf, p.at)) + 1) }
    {
        // For the prover: no two leaves have the same number, and they have few entries.
        let _ = self.store.room();
        let _ = self.store.size(p.leaf);
        self.place_at(p.leaf, p.at + 1)
    }

    /// Returns the place of the previous entry; `None` at the beginning. O(1).
    #[inline(always)]
    pub fn before(&self, p: Place<P::Inx>) -> Option<Place<P::Inx>>
        requires { IsSome (entry_at self.now.leaves (P.Inx.number p.leaf, p.at)) }
        ensures place { IsPlace self.now.leaves
            (option_map (λ p. (P.Inx.number p.leaf, p.at)) result) }
        ensures before { IfSome result
            (λ q. position self.now.leaves (Some (P.Inx.number q.leaf, q.at)) + 1
            ≡ position self.now.leaves (Some (P.Inx.number p.leaf, p.at))) }
        ensures none { IfNone result
            (position self.now.leaves (Some (P.Inx.number p.leaf, p.at)) ≡ 0) }
    {
        // For the prover: no two leaves have the same number.
        let _ = self.store.room();
        let at = p.at;
        if at > 0 {
            return Some(Place {
                leaf: p.leaf,
                at: at - 1,
            });
        }
        let Some(leaf) = self.store.before(p.leaf) else {
            return None;
        };
        let size = self.store.size(leaf);
        Some(Place { leaf, at: size - 1 })
    }

    // The place of the entry at an index of a leaf; at the number of its entries, the place of the first entry of the next leaf.
    #[inline(always)]
    pub(super) fn place_at(&self, leaf: P::Inx, at: usize) -> Option<Place<P::Inx>>
        requires leaf { HasLeaf self.now.leaves (P.Inx.number leaf) }
        requires within { at ≤ length (entries_in self.now.leaves (P.Inx.number leaf)) }
        ensures { IsPlaceOf self.now.leaves
            (option_map (λ p. (P.Inx.number p.leaf, p.at)) result)
            (position self.now.leaves (Some (P.Inx.number leaf, at))) }
    {
        // For the prover: no two leaves have the same number.
        let _ = self.store.room();
        let size = self.store.size(leaf);
        if at < size {
            return Some(Place { leaf, at });
        }
        let Some(next) = self.store.after(leaf) else {
            return None;
        };
        Some(Place { leaf: next, at: 0 })
    }
}
