//! Entries by their keys.

ghost use Rattle.std.specs.Prelude.{◌≡◌, is_some, count_by};
ghost use Rattle.std.specs.Bool.{OnFalse};
ghost use Rattle.std.specs.Ordering.{is_eq};
ghost use Rattle.sorted_arena.specs.Find.{FindsFirstEqual, FindsLowerBound, FindsUpperBound};
ghost use Rattle.sorted_arena.specs.Sorted.{first_where, key_of, IsAbsent};

use super::SortedArena;
use std::alloc::Allocator;
use std::ops::Bound;
use triple_ord::BasePtr;

impl<K: Ord, V, P: BasePtr, A: Allocator> SortedArena<K, V, P, A> {
    /// Returns the pointer of the first entry whose key equals `k`, in O(log n). `None` exactly if no entry has this key.
    ///
    /// ```
    /// let ada = users.insert(100, "Ada").map_err(|refused| refused.1)?;
    /// users.insert(100, "Alan").map_err(|refused| refused.1)?;
    /// assert_eq!(rt; users.find(&100), Some(ada));
    /// assert_eq!(rt; users.find(&101), None);
    /// ```
    pub fn find(&self, k: &K) -> Option<P>
        ensures { FindsFirstEqual K.cmp P.Inx.most P.numbers self.now k.now result }
    {
        self.find_counted(k).0
    }

    /// Returns whether some entry's key equals `k`, in O(log n).
    pub fn contains_key(&self, k: &K) -> bool
        ensures value { result
            ≡ is_some (first_where (λ e. is_eq (K.cmp k.now (key_of e))) self.now.entries) }
        ensures none { OnFalse result (IsAbsent K.cmp self.now k.now) }
    {
        self.find(k).is_some()
    }

    /// Returns the pointer of the first entry whose key is at least `k`, in O(log n). `None` if all keys are smaller.
    ///
    /// ```
    /// let ada = users.insert(100, "Ada").map_err(|refused| refused.1)?;
    /// let grace = users.insert(120, "Grace").map_err(|refused| refused.1)?;
    /// assert_eq!(rt; users.lower_bound(&100), Some(ada));
    /// assert_eq!(rt; users.lower_bound(&101), Some(grace));
    /// assert_eq!(rt; users.lower_bound(&121), None);
    /// ```
    pub fn lower_bound(&self, k: &K) -> Option<P>
        ensures { FindsLowerBound K.cmp P.Inx.most P.numbers self.now k.now result }
    {
        self.lower_bound_counted(k).0
    }

    /// Returns the pointer of the first entry whose key is greater than `k`, in O(log n). `None` if all keys are at most `k`.
    ///
    /// ```
    /// users.insert(100, "Ada").map_err(|refused| refused.1)?;
    /// let grace = users.insert(120, "Grace").map_err(|refused| refused.1)?;
    /// assert_eq!(rt; users.upper_bound(&100), Some(grace));
    /// assert_eq!(rt; users.upper_bound(&120), None);
    /// ```
    pub fn upper_bound(&self, k: &K) -> Option<P>
        ensures { FindsUpperBound K.cmp P.Inx.most P.numbers self.now k.now result }
    {
        self.upper_bound_counted(k).0
    }

    /// Returns how many entries have a key equal to `k`, in O(log n + their number).
    ///
    /// ```
    /// users.insert(100, "Ada").map_err(|refused| refused.1)?;
    /// users.insert(100, "Alan").map_err(|refused| refused.1)?;
    /// assert_eq!(rt; users.count_of(&100), 2);
    /// assert_eq!(rt; users.count_of(&120), 0);
    /// ```
    pub fn count_of(&self, k: &K) -> usize
        ensures { result ≡ count_by (λ e. is_eq (K.cmp k.now (key_of e))) self.now.entries }
    {
        self.count_between(Bound::Included(k), Bound::Included(k))
    }
}
