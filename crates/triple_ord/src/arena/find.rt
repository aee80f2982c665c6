//! Searches by key.
ghost use Rattle.std.specs.Prelude.{◌≡◌};
ghost use Rattle.std.specs.Option.{option_map};
ghost use Rattle.triple_ord.specs.ClosureSearch.{where_equal};
ghost use Rattle.triple_ord.specs.Arena.{FindsEqual, FindsNearest};
ghost use Rattle.triple_ord.specs.PastEquals.{order_past_equals};
ghost use Rattle.triple_ord.specs.Search.{FindsKey, FindsSimilar};
ghost use Rattle.triple_ord.specs.Ties.{taken};
ghost use Rattle.triple_ord.specs.VisitBounds.{IsBoundedSearch};

use super::SimpleOrdArena;
use crate::descent::descend_by_key;
use crate::item::SimpleOrdItem;
use crate::probe::Probe;
use crate::ties::Ties;
use crate::visits::Visits;
use arena_base::BasePtr;
use std::alloc::Allocator;
use std::cmp::Ordering;

impl<P: BasePtr, T: SimpleOrdItem, A: Allocator> SimpleOrdArena<P, T, A> {
    /// Returns the pointer of an entry with an equal key whose predecessor, if any, has a smaller one. If the keys are in order, it is
    /// the first with an equal key.
    ///
    /// `None` means that the search stopped at a gap: the entry before it, if any, has a smaller key, and the one after it, if any, a
    /// greater one. If the keys are in order, no entry has an equal key then. O(log n).
    ///
    /// ```
    /// let (two, _) = pairs.insert(OrdPair::new(2, "two"))?;
    /// assert_eq!(rt; pairs.find_key(&2), Some(two));
    /// assert_eq!(rt; pairs.find_key(&3), None);
    /// ```
    #[inline(always)]
    pub fn find_key(&self, k: &T::Key) -> Option<P>
        ensures { FindsEqual T.key_of T.Key.cmp P.numbers self.now k.now result }
    {
        self.find_key_counted(k).0
    }

    /// `find_key`, with the number c of entries visited. If there are n > 0 entries, `2^(c+1) <= (n+1)^2`, and after only insertions
    /// `fib(c+2) <= n+1`.
    #[inline(always)]
    pub fn find_key_counted(&self, k: &T::Key) -> (Option<P>, Visits)
        ensures { IsBoundedSearch self.now result.1 (FindsKey T.key_of T.Key.cmp
            self.now.list.entries k.now (option_map P.numbers result.0) result.1) }
    {
        let (found, visits) = self.find_similar_key_counted(k);
        (equal_alone(found), visits)
    }

    /// Returns the pointer of an entry, and the order of `k` to its key. It is the entry that `find_key` returns, or else the entry
    /// visited last, which is beside a gap that fits `k`. `None` only if there are no entries.
    ///
    /// A gap fits if the entry before it, if any, has a smaller key, and the one after it, if any, a greater one. O(log n).
    ///
    /// ```
    /// let (two, _) = pairs.insert(OrdPair::new(2, "two"))?;
    /// assert_eq!(rt; pairs.find_similar_key(&3), Some((two, Ordering::Greater)));
    /// assert_eq!(rt; pairs.find_similar_key(&1), Some((two, Ordering::Less)));
    /// ```
    #[inline(always)]
    pub fn find_similar_key(&self, k: &T::Key) -> Option<(P, Ordering)>
        ensures { FindsNearest T.key_of T.Key.cmp P.numbers self.now k.now result }
    {
        self.find_similar_key_counted(k).0
    }

    /// `find_similar_key`, with the number of entries visited, within the bounds of `find_key_counted`.
    #[inline(always)]
    pub fn find_similar_key_counted(&self, k: &T::Key) -> (Option<(P, Ordering)>, Visits)
        ensures { IsBoundedSearch self.now result.1 (FindsSimilar T.key_of T.Key.cmp
            self.now.list.entries k.now
            (option_map (λ a. (P.numbers a.0, a.1)) result.0) result.1) }
    {
        self.search(Ties::Sought, k)
    }

    /// Returns the pointer of an entry beside the gap behind `k`, and the order of `k` to its key, where an equal key counts as smaller.
    ///
    /// The entry before this gap, if any, has a key at most `k`, and the entry after it, if any, a greater one. So `Less` means that the
    /// returned entry is after the gap, and `Greater` that it is before it; `Equal` is never returned. `None` only if there are no
    /// entries. If the keys are in order, this finds the upper bound of `k`. O(log n).
    #[inline(always)]
    pub fn find_behind_key(&self, k: &T::Key) -> Option<(P, Ordering)>
        ensures { FindsNearest T.key_of (order_past_equals T.Key.cmp) P.numbers
            self.now k.now result }
    {
        self.find_behind_key_counted(k).0
    }

    /// `find_behind_key`, with the number of entries visited, within the bounds of `find_key_counted`.
    #[inline(always)]
    pub fn find_behind_key_counted(&self, k: &T::Key) -> (Option<(P, Ordering)>, Visits)
        ensures { IsBoundedSearch self.now result.1 (FindsSimilar T.key_of
            (order_past_equals T.Key.cmp) self.now.list.entries k.now
            (option_map (λ a. (P.numbers a.0, a.1)) result.0) result.1) }
    {
        self.search(Ties::Passed, k)
    }

    // A search from the root, which treats equal keys by `ties`.
    #[inline(always)]
    pub(super) fn search(&self, ties: Ties, k: &T::Key) -> (Option<(P, Ordering)>, Visits)
        ensures { IsBoundedSearch self.now result.1 (FindsSimilar T.key_of (taken ties T.Key.cmp)
            self.now.list.entries k.now
            (option_map (λ a. (P.numbers a.0, a.1)) result.0) result.1) }
    {
        let mut probe = Probe::new(&self.tree);
        let found = descend_by_key(&mut probe, ties, k);
        (found, probe.visits())
    }
}

// The pointer, if the answer was `Equal`.
pub(super) fn equal_alone<P: BasePtr>(found: Option<(P, Ordering)>) -> Option<P>
    ensures { result ≡ where_equal found }
{
    match found {
        Some(similar) if similar.1.is_eq() => Some(similar.0),
        _ => None,
    }
}
