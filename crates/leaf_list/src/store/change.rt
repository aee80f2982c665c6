//! Leaves that come and go.
ghost use Rattle.std.specs.Prelude.{◌≡◌, ◌≢◌, ◌*◌, ◌<◌, ◌∷◌, [], Some, length, take, drop, slice_get};
ghost use Rattle.leaf_list.specs.Leaves.{times_numbered};
ghost use Rattle.leaf_list.specs.Parts.{entries_in, with_entries, with_leaf, without_leaf, HasLeaf};

use super::{LEAST, LeafStore};
use std::alloc::Allocator;
use std::cmp::Ordering;
use triple_ord::{BasePtr, OrdPair};

impl<K, P: BasePtr, A: Allocator> LeafStore<K, P, A> {
    /// Adds the only leaf, with one entry, and returns its number. O(1).
    pub(crate) fn add_first(&mut self, k: K, name: P::Inx) -> P::Inx
        requires empty { self.old.leaves ≡ [] }
        requires room { 0 < self.old.room }
        ensures { self.new ≡ record self.old {
          leaves = record {
            number = P.Inx.number result;
            entries = (k, P.Inx.number name) ∷ [];
          } ∷ [];
        } }
    {
        // For the prover: the index is sound.
        let _ = self.index.len();
        self.index.insert_first(OrdPair::new(k, name)).inx()
    }

    /// Adds a leaf with one entry behind another leaf, and returns its number. Amortized O(1), at most O(log n).
    #[inline(never)]
    pub(crate) fn add_after(&mut self, leaf: P::Inx, k: K, name: P::Inx) -> P::Inx
        requires leaf { HasLeaf self.old.leaves (P.Inx.number leaf) }
        requires room { 16 * length self.old.leaves < self.old.room }
        ensures fresh { times_numbered (P.Inx.number result) self.old.leaves ≡ 0 }
        ensures other { P.Inx.number result ≢ P.Inx.number leaf }
        ensures leaves { self.new ≡ record self.old {
          leaves = with_leaf self.old.leaves (P.Inx.number leaf) (record {
            number = P.Inx.number result;
            entries = (k, P.Inx.number name) ∷ [];
          });
        } }
    {
        // For the prover: the index is sound.
        let _ = self.index.len();
        self.index
            .insert_beside(leaf, Ordering::Greater, OrdPair::new(k, name))
            .inx()
    }

    /// Removes a leaf that has one entry, and returns the entry. Amortized O(1), at most O(log n).
    #[inline(never)]
    pub(crate) fn close(&mut self, leaf: P::Inx) -> (K, P::Inx)
        requires { length (entries_in self.old.leaves (P.Inx.number leaf)) ≡ 1 }
        ensures entry { slice_get (entries_in self.old.leaves (P.Inx.number leaf)) 0
            ≡ Some (result.0, P.Inx.number result.1) }
        ensures leaves { self.new ≡ record self.old {
          leaves = without_leaf self.old.leaves (P.Inx.number leaf);
        } }
    {
        // For the prover: the index is sound.
        let _ = self.index.len();
        let (_, head) = self.index.remove_inx(leaf).allow().unwrap();
        head.into_k_v()
    }

    /// Moves the entries of a full leaf from the seventeenth on to a new leaf behind it, and returns its number. Amortized O(1), at most
    /// O(log n).
    #[inline(never)]
    pub(crate) fn split(&mut self, leaf: P::Inx) -> P::Inx
        requires full { length (entries_in self.old.leaves (P.Inx.number leaf)) ≡ 32 }
        requires room { 16 * length self.old.leaves < self.old.room }
        ensures fresh { times_numbered (P.Inx.number result) self.old.leaves ≡ 0 }
        ensures other { P.Inx.number result ≢ P.Inx.number leaf }
        ensures leaves { let n = P.Inx.number leaf in self.new ≡ record self.old {
          leaves = with_leaf
              (with_entries self.old.leaves n (take 16 (entries_in self.old.leaves n))) n
              (record {
                number = P.Inx.number result;
                entries = drop 16 (entries_in self.old.leaves n);
              });
        } }
    {
        let (k, name) = self.take(leaf, LEAST);
        let new = self.add_after(leaf, k, name);
        self.move_tail(leaf, LEAST, new);
        new
    }
}
