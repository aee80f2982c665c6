//! Entries that come and go.
ghost use Rattle.std.specs.Prelude.{◌≡◌, ◌≢◌, ◌≤◌, ◌<◌, ◌++◌, ◌∷◌, [], true, false, length, Some, None, IsSome, IfSome, ◌+◌};
ghost use Rattle.std.specs.List.Sorted.{IsPartitionPoint};
ghost use Rattle.leaf_list.specs.Before.{is_passed};
ghost use Rattle.leaf_list.specs.Parts.{HasLeaf, entries_in};
ghost use Rattle.leaf_list.specs.Place.{entry_at, position};
ghost use Rattle.std.specs.List.{All};
ghost use Rattle.std.specs.Option.{option_map};
ghost use Rattle.std.specs.declared.cmp.Ordering.TheVariants.{Greater};
ghost use Rattle.leaf_list.specs.House.{Houses};
ghost use Rattle.leaf_list.specs.Leaves.{count, entries_of, put_behind, without, IsFree};

use super::LeafList;
use crate::place::{Place, Stretch};
use crate::store::{CAPACITY, LEAST};
use std::alloc::Allocator;
use triple_ord::BasePtr;

impl<K: Ord, P: BasePtr, A: Allocator> LeafList<K, P, A> {
    /// Inserts an entry after every entry with a key ≤ `k`, and returns the number of its leaf. If a full leaf was split, also returns
    /// where the entries are that moved to the new leaf. It allocates nothing.
    ///
    /// O(log n). Compares one key if no key is greater than `k`.
    pub fn enter(&mut self, k: K, name: P::Inx) -> (P::Inx, Option<Stretch<P::Inx>>)
        requires room { count self.old < self.old.room }
        requires free { IsFree self.old (P.Inx.number name) }
        ensures entries { entries_of self.new.leaves
            ≡ put_behind K.cmp (k, P.Inx.number name) (entries_of self.old.leaves) }
        ensures houses { Houses self.old self.new (P.Inx.number name)
            (Some (P.Inx.number result.0))
            (option_map (λ s. (P.Inx.number s.leaf, (s.from, s.until))) result.1) }
    {
        if self.goes_last(&k) {
            return (self.push(k, name), None);
        }
        self.enter_inside(k, name)
    }

    // Whether no key is greater.
    #[inline(always)]
    fn goes_last(&self, k: &K) -> bool
        ensures last { result ≡ true
            → All (λ e. K.cmp e.0 k.now ≢ Greater) (entries_of self.now.leaves) }
        ensures some { result ≡ false → 0 < count self.now }
    {
        // For the prover: the list is sound.
        let _ = self.room();
        match self.last() {
            Some(last) => k.cmp(self.entry(last).0).is_ge(),
            None => true,
        }
    }

    // `enter`, if there are entries.
    fn enter_inside(&mut self, k: K, name: P::Inx) -> (P::Inx, Option<Stretch<P::Inx>>)
        requires some { 0 < count self.old }
        requires room { count self.old < self.old.room }
        requires free { IsFree self.old (P.Inx.number name) }
        ensures entries { entries_of self.new.leaves
            ≡ put_behind K.cmp (k, P.Inx.number name) (entries_of self.old.leaves) }
        ensures houses { Houses self.old self.new (P.Inx.number name)
            (Some (P.Inx.number result.0))
            (option_map (λ s. (P.Inx.number s.leaf, (s.from, s.until))) result.1) }
    {
        let gap = self.gap(&k, true).0.unwrap();
        if self.store.size(gap.leaf) < CAPACITY {
            self.put_at(gap, k, name);
            return (gap.leaf, None);
        }
        self.split_at(gap, k, name)
    }

    // Inserts an entry at the place of its key, in a leaf with room.
    #[inline(always)]
    fn put_at(&mut self, gap: Place<P::Inx>, k: K, name: P::Inx)
        requires leaf { HasLeaf self.old.leaves (P.Inx.number gap.leaf) }
        requires within { gap.at ≤ length (entries_in self.old.leaves (P.Inx.number gap.leaf)) }
        requires roomy { length (entries_in self.old.leaves (P.Inx.number gap.leaf)) < 32 }
        requires free { IsFree self.old (P.Inx.number name) }
        requires point { IsPartitionPoint
            (λ e. is_passed true (K.cmp k e.0) ≡ true)
            (λ e. is_passed true (K.cmp k e.0) ≡ false)
            (entries_of self.old.leaves)
            (position self.old.leaves (Some (P.Inx.number gap.leaf, gap.at))) }
        ensures entries { entries_of self.new.leaves
            ≡ put_behind K.cmp (k, P.Inx.number name) (entries_of self.old.leaves) }
        ensures houses { Houses self.old self.new (P.Inx.number name)
            (Some (P.Inx.number gap.leaf)) None }
    {
        // For the prover: no two leaves have the same number.
        let _ = self.store.room();
        self.store.put(gap.leaf, gap.at, k, name);
    }

    // Splits a full leaf, and inserts an entry at the place of its key.
    #[inline(never)]
    fn split_at(
        &mut self,
        gap: Place<P::Inx>,
        k: K,
        name: P::Inx,
    ) -> (P::Inx, Option<Stretch<P::Inx>>)
        requires leaf { HasLeaf self.old.leaves (P.Inx.number gap.leaf) }
        requires within { gap.at ≤ length (entries_in self.old.leaves (P.Inx.number gap.leaf)) }
        requires full { length (entries_in self.old.leaves (P.Inx.number gap.leaf)) ≡ 32 }
        requires room { count self.old < self.old.room }
        requires free { IsFree self.old (P.Inx.number name) }
        requires point { IsPartitionPoint
            (λ e. is_passed true (K.cmp k e.0) ≡ true)
            (λ e. is_passed true (K.cmp k e.0) ≡ false)
            (entries_of self.old.leaves)
            (position self.old.leaves (Some (P.Inx.number gap.leaf, gap.at))) }
        ensures entries { entries_of self.new.leaves
            ≡ put_behind K.cmp (k, P.Inx.number name) (entries_of self.old.leaves) }
        ensures houses { Houses self.old self.new (P.Inx.number name)
            (Some (P.Inx.number result.0))
            (option_map (λ s. (P.Inx.number s.leaf, (s.from, s.until))) result.1) }
    {
        // For the prover: no two leaves have the same number.
        let _ = self.store.room();
        let new = self.store.split(gap.leaf);
        let at = gap.at;
        if at > LEAST {
            self.store.put(new, at - LEAST, k, name);
            let moved = Stretch {
                leaf: new,
                from: 0,
                until: LEAST + 1,
            };
            return (new, Some(moved));
        }
        self.store.put(gap.leaf, at, k, name);
        let moved = Stretch {
            leaf: new,
            from: 0,
            until: LEAST,
        };
        (gap.leaf, Some(moved))
    }

    /// Removes and returns the entry at a place. If its leaf took entries over from the next leaf, also returns where they are now. It
    /// allocates nothing.
    ///
    /// Amortized O(1), at most O(log n). At most 17 entries move to another leaf.
    pub fn leave(&mut self, p: Place<P::Inx>) -> ((K, P::Inx), Option<Stretch<P::Inx>>)
        requires { IsSome (entry_at self.old.leaves (P.Inx.number p.leaf, p.at)) }
        ensures entry { entry_at self.old.leaves (P.Inx.number p.leaf, p.at)
            ≡ Some (result.0.0, P.Inx.number result.0.1) }
        ensures entries { entries_of self.new.leaves
            ≡ without (P.Inx.number result.0.1) (entries_of self.old.leaves) }
        ensures houses { Houses self.old self.new (P.Inx.number result.0.1) None
            (option_map (λ s. (P.Inx.number s.leaf, (s.from, s.until))) result.1) }
        ensures few { IfSome result.1 (λ s. s.until ≤ s.from + 17) }
    {
        // For the prover: no two leaves have the same number.
        let _ = self.store.room();
        let size = self.store.size(p.leaf);
        if size == 1 {
            return (self.store.close(p.leaf), None);
        }
        let entry = self.store.take(p.leaf, p.at);
        if size > LEAST {
            return (entry, None);
        }
        let Some(next) = self.store.after(p.leaf) else {
            return (entry, None);
        };
        let count = self.store.refill(p.leaf, next);
        let moved = Stretch {
            leaf: p.leaf,
            from: LEAST - 1,
            until: LEAST - 1 + count,
        };
        (entry, Some(moved))
    }

    /// Appends an entry whose key is at least every other key, and returns the number of its leaf. Leaves become full. It allocates
    /// nothing. Amortized O(1).
    pub fn push(&mut self, k: K, name: P::Inx) -> P::Inx
        requires room { count self.old < self.old.room }
        requires free { IsFree self.old (P.Inx.number name) }
        requires last { All (λ e. K.cmp e.0 k ≢ Greater) (entries_of self.old.leaves) }
        ensures entries { entries_of self.new.leaves
            ≡ entries_of self.old.leaves ++ (k, P.Inx.number name) ∷ [] }
        ensures houses { Houses self.old self.new (P.Inx.number name)
            (Some (P.Inx.number result)) None }
    {
        // For the prover: no two leaves have the same number.
        let _ = self.store.room();
        let Some(last) = self.store.last() else {
            return self.store.add_first(k, name);
        };
        let size = self.store.size(last);
        if size < CAPACITY {
            self.store.put(last, size, k, name);
            return last;
        }
        self.store.add_after(last, k, name)
    }
}
