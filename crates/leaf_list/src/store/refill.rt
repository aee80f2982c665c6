//! Entries that go from a leaf to the one before it.
ghost use Rattle.std.specs.Prelude.{◌≡◌, ◌≢◌, ◌+◌, ◌≤◌, ◌<◌, ◌++◌, length, take, drop};
ghost use Rattle.leaf_list.specs.Parts.{HasLeaf, entries_in, with_entries, without_leaf};

use super::{CAPACITY, LeafStore};
use std::alloc::Allocator;
use triple_ord::BasePtr;

impl<K, P: BasePtr, A: Allocator> LeafStore<K, P, A> {
    /// Appends entries of another leaf to a leaf with 15 entries, and returns their number. If all of them have room there, the other leaf
    /// is removed. Else each leaf then has at least 16 entries. Amortized O(1), at most O(log n).
    #[inline(never)]
    pub(crate) fn refill(&mut self, leaf: P::Inx, next: P::Inx) -> usize
        requires leaf { length (entries_in self.old.leaves (P.Inx.number leaf)) ≡ 15 }
        requires next { HasLeaf self.old.leaves (P.Inx.number next) }
        requires other { P.Inx.number next ≢ P.Inx.number leaf }
        ensures joined { let n = P.Inx.number leaf in let m = P.Inx.number next in
            result ≡ length (entries_in self.old.leaves m) → self.new ≡ record self.old {
              leaves = without_leaf (with_entries self.old.leaves n
                  (entries_in self.old.leaves n ++ entries_in self.old.leaves m)) m;
            } }
        ensures shared { let n = P.Inx.number leaf in let m = P.Inx.number next in
            result ≢ length (entries_in self.old.leaves m) → self.new ≡ record self.old {
              leaves = with_entries (with_entries self.old.leaves n
                  (entries_in self.old.leaves n ++ take result (entries_in self.old.leaves m))) m
                  (drop result (entries_in self.old.leaves m));
            } }
        ensures least { result ≢ length (entries_in self.old.leaves (P.Inx.number next))
            → (1 ≤ result)
            × (16 + result ≤ length (entries_in self.old.leaves (P.Inx.number next))) }
        ensures few { result ≤ 17 }
    {
        let have = self.size(leaf);
        let size = self.size(next);
        if have + size <= CAPACITY {
            self.join(next, leaf);
            return size;
        }
        let count = (size - have) / 2;
        self.share(next, count, leaf);
        count
    }

    // Appends all entries of a leaf to another one, which has room for them, and removes the leaf.
    fn join(&mut self, from: P::Inx, to: P::Inx)
        requires from { HasLeaf self.old.leaves (P.Inx.number from) }
        requires to { HasLeaf self.old.leaves (P.Inx.number to) }
        requires other { P.Inx.number from ≢ P.Inx.number to }
        requires room { length (entries_in self.old.leaves (P.Inx.number from))
            + length (entries_in self.old.leaves (P.Inx.number to)) ≤ 32 }
        ensures { let n = P.Inx.number from in let m = P.Inx.number to in
            self.new ≡ record self.old {
              leaves = without_leaf (with_entries self.old.leaves m
                  (entries_in self.old.leaves m ++ entries_in self.old.leaves n)) n;
            } }
    {
        let size = self.size(to);
        self.move_rest(from, to);
        let (k, name) = self.close(from);
        self.put(to, size, k, name);
    }

    // Appends the first entries of a leaf, but not all of them, to another leaf, which has room for them.
    fn share(&mut self, from: P::Inx, count: usize, to: P::Inx)
        requires from { count < length (entries_in self.old.leaves (P.Inx.number from)) }
        requires to { HasLeaf self.old.leaves (P.Inx.number to) }
        requires other { P.Inx.number from ≢ P.Inx.number to }
        requires room { length (entries_in self.old.leaves (P.Inx.number to)) + count ≤ 32 }
        ensures { let n = P.Inx.number from in let m = P.Inx.number to in
            self.new ≡ record self.old {
              leaves = with_entries (with_entries self.old.leaves m
                  (entries_in self.old.leaves m ++ take count (entries_in self.old.leaves n))) n
                  (drop count (entries_in self.old.leaves n));
            } }
    {
        let size = self.size(to);
        for i in 0..count {
            let (k, name) = self.take(from, 0);
            self.put(to, size + i, k, name);
        }
    }
}
