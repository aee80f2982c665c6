//! Entries of leaves that exist: put, taken out, renamed, moved to another leaf.
ghost use Rattle.std.specs.Prelude.{◌≡◌, ◌≢◌, ◌+◌, ◌≤◌, ◌<◌, ◌++◌, Some, length, take, drop, slice_get};
ghost use Rattle.std.specs.List.{insert, remove};
ghost use Rattle.leaf_list.specs.Parts.{entries_in, with_entries, HasLeaf};
ghost use Rattle.leaf_list.specs.Place.{renamed};

use super::LeafStore;
use crate::rows;
use std::alloc::Allocator;
use std::mem;
use triple_ord::{BasePtr, ItemsMut, OrdPair};

impl<K, P: BasePtr, A: Allocator> LeafStore<K, P, A> {
    /// Puts an entry into a leaf. O(1).
    #[inline(always)]
    pub(crate) fn put(&mut self, leaf: P::Inx, at: usize, k: K, name: P::Inx)
        requires leaf { HasLeaf self.old.leaves (P.Inx.number leaf) }
        requires within { at ≤ length (entries_in self.old.leaves (P.Inx.number leaf)) }
        requires room { length (entries_in self.old.leaves (P.Inx.number leaf)) < 32 }
        ensures { let n = P.Inx.number leaf in self.new ≡ record self.old {
          leaves = with_entries self.old.leaves n
              (insert (entries_in self.old.leaves n) at (k, P.Inx.number name));
        } }
    {
        // For the prover: leaves have numbers above 0.
        let _ = self.index.len();
        let row = Self::row_of(leaf);
        if at == 0 {
            let head = self.index.pair_mut(leaf).1;
            let (old, old_name) = mem::replace(head, OrdPair::new(k, name)).into_k_v();
            self.rows[row].put(0, old, old_name);
        } else {
            self.rows[row].put(at - 1, k, name);
        }
    }

    /// Removes and returns an entry of a leaf that has others. O(1).
    #[inline(always)]
    pub(crate) fn take(&mut self, leaf: P::Inx, at: usize) -> (K, P::Inx)
        requires within { at < length (entries_in self.old.leaves (P.Inx.number leaf)) }
        requires more { 1 < length (entries_in self.old.leaves (P.Inx.number leaf)) }
        ensures entry { slice_get (entries_in self.old.leaves (P.Inx.number leaf)) at
            ≡ Some (result.0, P.Inx.number result.1) }
        ensures rest { let n = P.Inx.number leaf in self.new ≡ record self.old {
          leaves = with_entries self.old.leaves n (remove (entries_in self.old.leaves n) at);
        } }
    {
        // For the prover: leaves have numbers above 0.
        let _ = self.index.len();
        let row = Self::row_of(leaf);
        if at == 0 {
            let (k, name) = self.rows[row].take(0);
            let head = self.index.pair_mut(leaf).1;
            mem::replace(head, OrdPair::new(k, name)).into_k_v()
        } else {
            self.rows[row].take(at - 1)
        }
    }

    /// Gives an entry of a leaf another name. O(1).
    pub(crate) fn set_name(&mut self, leaf: P::Inx, at: usize, name: P::Inx)
        requires { at < length (entries_in self.old.leaves (P.Inx.number leaf)) }
        ensures { let n = P.Inx.number leaf in self.new ≡ record self.old {
          leaves = with_entries self.old.leaves n
              (renamed (entries_in self.old.leaves n) at (P.Inx.number name));
        } }
    {
        // For the prover: leaves have numbers above 0.
        let _ = self.index.len();
        if at == 0 {
            let head = self.index.pair_mut(leaf).1;
            set_value(head, name);
        } else {
            self.rows[Self::row_of(leaf)].set_name(at - 1, name);
        }
    }

    /// Moves the entries of a leaf from an index on to the end of another leaf, which has one.
    pub(crate) fn move_tail(&mut self, from: P::Inx, at: usize, to: P::Inx)
        requires some { 0 < at }
        requires within { at ≤ length (entries_in self.old.leaves (P.Inx.number from)) }
        requires to { length (entries_in self.old.leaves (P.Inx.number to)) ≡ 1 }
        requires other { P.Inx.number from ≢ P.Inx.number to }
        ensures { let n = P.Inx.number from in let m = P.Inx.number to in
            self.new ≡ record self.old {
              leaves = with_entries
                  (with_entries self.old.leaves n (take at (entries_in self.old.leaves n))) m
                  (entries_in self.old.leaves m ++ drop at (entries_in self.old.leaves n));
            } }
    {
        // For the prover: leaves have numbers above 0.
        let _ = self.index.len();
        rows::move_tail(
            self.rows.as_mut_slice(),
            Self::row_of(from),
            at - 1,
            Self::row_of(to),
        );
    }

    /// Moves the entries of a leaf behind its first to the end of another leaf, which has room for them.
    pub(crate) fn move_rest(&mut self, from: P::Inx, to: P::Inx)
        requires from { HasLeaf self.old.leaves (P.Inx.number from) }
        requires to { HasLeaf self.old.leaves (P.Inx.number to) }
        requires other { P.Inx.number from ≢ P.Inx.number to }
        requires room { length (entries_in self.old.leaves (P.Inx.number from))
            + length (entries_in self.old.leaves (P.Inx.number to)) ≤ 33 }
        ensures { let n = P.Inx.number from in let m = P.Inx.number to in
            self.new ≡ record self.old {
              leaves = with_entries
                  (with_entries self.old.leaves n (take 1 (entries_in self.old.leaves n))) m
                  (entries_in self.old.leaves m ++ drop 1 (entries_in self.old.leaves n));
            } }
    {
        // For the prover: leaves have numbers above 0.
        let _ = self.index.len();
        rows::move_all(
            self.rows.as_mut_slice(),
            Self::row_of(from),
            Self::row_of(to),
        );
    }
}

// Gives a pair another value.
#[inline(always)]
fn set_value<K, V: Drop>(pair: &mut OrdPair<K, V>, v: V)
    ensures { pair.new ≡ (pair.old.0, v) }
{
    *pair.v_mut() = v;
}
