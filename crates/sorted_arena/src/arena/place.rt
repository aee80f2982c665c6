//! Entries with what is found beside them: by a key with its pointer and value, and by places in the order.

ghost use Rattle.std.specs.Prelude.{◌≡◌, Some, None, IfSome, IfNone, count_by, slice_get};
ghost use Rattle.std.specs.Option.{option_map};
ghost use Rattle.std.specs.Ordering.{is_gt};
ghost use Rattle.sorted_arena.specs.Find.{FindsFirstEqual};
ghost use Rattle.sorted_arena.specs.Sorted.{get, key_of, pointer_of};

use super::SortedArena;
use std::alloc::Allocator;
use std::ops::Bound;
use triple_ord::BasePtr;

impl<K: Ord, V, P: BasePtr, A: Allocator> SortedArena<K, V, P, A> {
    /// Returns the first entry whose key equals `k`: its pointer, its key and its value, in O(log n). `None` exactly if no entry has this
    /// key.
    ///
    /// ```
    /// let mut users: SortedArena<u64, &str> = SortedArena::new(rt.alloc());
    /// let ada = users.insert(100, "Ada").map_err(|refused| refused.1)?;
    /// assert_eq!(rt; users.get_by_key(&100), Some((ada, &100, &"Ada")));
    /// ```
    pub fn get_by_key(&self, k: &K) -> Option<(P, &K, &V)>
        ensures finds { FindsFirstEqual K.cmp P.Inx.most P.numbers self.now k.now
            (option_map (λ x. x.0) result) }
        ensures item { IfSome result
            (λ x. get self.now (P.numbers x.0) ≡ Some (x.1.now, x.2.now)) }
    {
        let p = self.find(k)?;
        let (key, value) = self.get(p)?;
        Some((p, key, value))
    }

    /// Returns how many entries have a key smaller than `k`, in O(log n + their number). So an entry with the key `k` has that many before
    /// it, if it is the first with this key.
    pub fn rank<'k>(&self, k: &'k K) -> usize
        ensures { result ≡ count_by (λ e. is_gt (K.cmp k.now (key_of e))) self.now.entries }
    {
        let from: Bound<&'k K> = Bound::Unbounded;
        self.count_between(from, Bound::Excluded(k))
    }

    /// Returns how many entries are before the one at `p`, in O(n). `None` if `p` is stale.
    pub fn rank_of(&self, p: P) -> Option<usize>
        ensures stale { IfNone result (get self.now (P.numbers p) ≡ None) }
        ensures place { IfSome result (λ i.
            option_map pointer_of (slice_get self.now.entries i) ≡ Some (P.numbers p)) }
    {
        let from_there = self.iter_from(p)?.count();
        Some(self.len() - from_there)
    }

    /// Returns the pointer of the entry that has `i` entries before it, in O(i). `None` if there are no more than `i` entries.
    ///
    /// ```
    /// let grace = users.insert(120, "Grace").map_err(|refused| refused.1)?;
    /// users.insert(100, "Ada").map_err(|refused| refused.1)?;
    /// assert_eq!(rt; users.nth(1), Some(grace));
    /// assert_eq!(rt; users.rank_of(grace), Some(1));
    /// assert_eq!(rt; users.rank(&120), 1);
    /// ```
    pub fn nth(&self, i: usize) -> Option<P>
        ensures { option_map P.numbers result
            ≡ option_map pointer_of (slice_get self.now.entries i) }
    {
        let (p, _, _) = self.iter().nth(i)?;
        Some(p)
    }
}
