//! The entries of a leaf.
ghost use Rattle.std.specs.Prelude.{◌≡◌, ◌+◌, ◌-◌, ◌≤◌, ◌<◌, ◌∷◌, ℕ, Some, IsSomeAnd, true, false, length, drop, slice_get};
ghost use Rattle.std.specs.List.Sorted.{IsPartitionPoint};
ghost use Rattle.leaf_list.specs.Before.{is_passed, IsWithinHalvings};
ghost use Rattle.leaf_list.specs.Leaves.{times};
ghost use Rattle.leaf_list.specs.Parts.{entries_in, HasLeaf};

use super::LeafStore;
use std::alloc::Allocator;
use triple_ord::{BasePtr, OrdPair};

impl<K, P: BasePtr, A: Allocator> LeafStore<K, P, A> {
    /// Returns the number of entries of a leaf. O(1).
    #[inline(always)]
    pub(crate) fn size(&self, leaf: P::Inx) -> usize
        requires { HasLeaf self.now.leaves (P.Inx.number leaf) }
        ensures value { result ≡ length (entries_in self.now.leaves (P.Inx.number leaf)) }
        ensures few { result ≤ 32 }
    {
        // For the prover: leaves have numbers above 0.
        let _ = self.index.len();
        self.rows[Self::row_of(leaf)].len() + 1
    }

    /// Returns the key and the name of an entry of a leaf. O(1).
    #[inline(always)]
    pub(crate) fn entry(&self, leaf: P::Inx, at: usize) -> (&K, P::Inx)
        requires { at < length (entries_in self.now.leaves (P.Inx.number leaf)) }
        ensures { slice_get (entries_in self.now.leaves (P.Inx.number leaf)) at
            ≡ Some (result.0.now, P.Inx.number result.1) }
    {
        // For the prover: leaves have numbers above 0.
        let _ = self.index.len();
        if at == 0 {
            let (k, name) = self.head(leaf).k_v();
            return (k, *name);
        }
        let row = &self.rows[Self::row_of(leaf)];
        // For the prover: there are few.
        let _ = row.len();
        (&row.keys()[at - 1], row.names()[at - 1])
    }

    // The first entry of a leaf.
    #[inline(always)]
    fn head(&self, leaf: P::Inx) -> &OrdPair<K, P::Inx>
        requires { HasLeaf self.now.leaves (P.Inx.number leaf) }
        ensures { slice_get (entries_in self.now.leaves (P.Inx.number leaf)) 0
            ≡ Some (result.now.0, P.Inx.number result.now.1) }
    {
        self.index.get_inx(leaf).unwrap().1
    }

    /// Returns the index of the entry with a name in its leaf. O(1), without a branch that depends on the names.
    #[inline(always)]
    pub(crate) fn index_of(&self, leaf: P::Inx, name: P::Inx) -> usize
        requires named { 0 < P.Inx.number name }
        requires once { times (P.Inx.number name)
            (entries_in self.now.leaves (P.Inx.number leaf)) ≡ 1 }
        ensures { IsSomeAnd (slice_get (entries_in self.now.leaves (P.Inx.number leaf)) result)
            (λ e. e.1 ≡ P.Inx.number name) }
    {
        // For the prover: leaves have numbers above 0.
        let _ = self.index.len();
        self.rows[Self::row_of(leaf)].place(name)
    }

    /// Returns how many entries of a leaf behind its first have a key less than `k`, or at most it, and how many keys it compared.
    #[inline(always)]
    pub(crate) fn count_before(&self, leaf: P::Inx, k: &K, with_equals: bool) -> (usize, usize)
    where
        K: Ord,
        requires { HasLeaf self.now.leaves (P.Inx.number leaf) }
        ensures within { result.0 + 1 ≤ length (entries_in self.now.leaves (P.Inx.number leaf)) }
        ensures point { (q : ℕ) → q + 1 ≤ length (entries_in self.now.leaves (P.Inx.number leaf))
            → IsPartitionPoint
            (λ e. is_passed with_equals (K.cmp k.now e.0) ≡ true)
            (λ e. is_passed with_equals (K.cmp k.now e.0) ≡ false)
            (drop 1 (entries_in self.now.leaves (P.Inx.number leaf))) q → result.0 ≡ q }
        ensures visits { IsWithinHalvings
            (length (entries_in self.now.leaves (P.Inx.number leaf)) - 1) result.1 }
        ensures few { length (entries_in self.now.leaves (P.Inx.number leaf)) ≤ 32 }
    {
        // For the prover: leaves have numbers above 0.
        let _ = self.index.len();
        let row = &self.rows[Self::row_of(leaf)];
        // For the prover: there are few.
        let _ = row.len();
        row.count_before(k, with_equals)
    }
}
