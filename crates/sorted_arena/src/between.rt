//! The entries between two: those of two pointers, or those that a closure tells apart from the others.

ghost use Rattle.std.specs.Prelude.{◌≡◌, ◌⊎◌, None, filter, IsSome, IfSome, IfNone};
ghost use Rattle.std.specs.{Option.option_map, Ordering.is_eq};
ghost use Rattle.std.specs.declared.cmp.Ordering.{Ordering};
ghost use Rattle.std.specs.declared.ops.Bound.TheVariants.{Included};
ghost use Rattle.listing.specs.Chain.{from_index};
ghost use Rattle.sorted_arena.specs.Compare.{ComparesBy, IsMonotone};
ghost use Rattle.sorted_arena.specs.Range.{entries_between, entries_from_to, IteratesOver};
ghost use Rattle.sorted_arena.specs.Sorted.{get, key_of};
ghost use Rattle.sorted_arena.specs.Stretch.{are_in_order, has_index};

use crate::arena::SortedArena;
use crate::met::{first_behind_in, first_from_in};
use crate::range::Range;
use std::alloc::Allocator;
use std::cmp::Ordering;
use triple_ord::BasePtr;

impl<K: Ord, V, P: BasePtr, A: Allocator> SortedArena<K, V, P, A> {
    /// Returns an iterator over the entries from the one at `first` to the one at `last`, both included, in order, from both ends. `None` if
    /// a pointer is stale.
    ///
    /// There are no entries if the one at `last` comes before the one at `first`. O(1) if their keys differ, else O(1) for each entry
    /// between the two.
    ///
    /// ```
    /// let ada = users.insert(100, "Ada").map_err(|refused| refused.1)?;
    /// users.insert(110, "Alan").map_err(|refused| refused.1)?;
    /// let grace = users.insert(120, "Grace").map_err(|refused| refused.1)?;
    /// assert!(rt; users.iter_between(ada, grace).expect(rt, "both").keys().eq(&[100, 110, 120]));
    /// assert!(rt; users.iter_between(grace, ada).expect(rt, "both").next().is_none());
    /// ```
    pub fn iter_between(&self, first: P, last: P) -> Option<Range<'_, K, V, P, A>>
        ensures stale { IfNone result ((get self.now (P.numbers first) ≡ None)
            ⊎ (get self.now (P.numbers last) ≡ None)) }
        ensures entries { IfSome result (λ range. IteratesOver K.cmp P.Inx.most P.numbers self.now range
            (IsSome (get self.now (P.numbers first)) × IsSome (get self.now (P.numbers last))
            × (range ≡ entries_from_to (P.numbers first).0 (P.numbers last).0 self.now.entries))) }
    {
        if !self.contains(first) || !self.contains(last) {
            return None;
        }
        if self.comes_to(first, last) {
            Some(self.from_until(Some(first), self.next(last)))
        } else {
            Some(self.from_until(None, None))
        }
    }

    /// Returns an iterator over the entries for whose keys `f` answers `Equal`, in order, from both ends. O(log n) calls.
    ///
    /// `f` answers as for [`find_by`](Self::find_by). If its answers are in another order along the entries, the iterator gives some entries
    /// that follow one another, or none.
    ///
    /// ```
    /// for (id, name) in [(201, "Ada"), (305, "Alan"), (309, "Grace"), (412, "Kurt")] {
    ///     users.insert(id, name).map_err(|refused| refused.1)?;
    /// }
    /// assert!(rt; users.range_by(|id| (id / 100).cmp(&3)).values().eq(&["Alan", "Grace"]));
    /// ```
    pub fn range_by<F: Fn(&K) -> Ordering + Drop>(&self, f: F) -> Range<'_, K, V, P, A>
        requires { F.IsAlwaysCallable f }
        ensures entries { IteratesOver K.cmp P.Inx.most P.numbers self.now result
            ((order : K → Ordering) → ComparesBy F.Fn f order → IsMonotone order self.now.entries
            → result ≡ filter (λ e. is_eq (order (key_of e))) self.now.entries) }
        ensures equal { (k : K) → ComparesBy F.Fn f (λ x. K.cmp x k)
            → result ≡ entries_between K.cmp (Included k) (Included k) self.now.entries }
    {
        let first = first_from_in(self.pairs(), &f);
        let end = first_behind_in(self.pairs(), &f);
        if self.is_forward_to(first, end) {
            self.from_until(first, end)
        } else {
            self.from_until(None, None)
        }
    }

    // Whether entries from `first` on come to the one at `end`, if there is one; a range from no entry has no end.
    fn is_forward_to(&self, first: Option<P>, end: Option<P>) -> bool
        requires first { IfSome first (λ p. IsSome (get self.now (P.numbers p))) }
        requires end { IfSome end (λ p. IsSome (get self.now (P.numbers p))) }
        ensures { result ≡ are_in_order (option_map (λ q. q.0) (option_map P.numbers first))
            (option_map (λ q. q.0) (option_map P.numbers end)) self.now.entries }
    {
        match (first, end) {
            (Some(p), Some(q)) => self.comes_to(p, q),
            (None, Some(_)) => false,
            (_, None) => true,
        }
    }

    // Whether the entry at `last` is the one at `first`, or comes behind it.
    fn comes_to(&self, first: P, last: P) -> bool
        requires first { IsSome (get self.now (P.numbers first)) }
        requires last { IsSome (get self.now (P.numbers last)) }
        ensures { result ≡ has_index (P.numbers last).0 (from_index self.now.entries (P.numbers first).0) }
    {
        // For the prover: the keys are in order.
        let _ = self.len();
        let end = self.key(last).unwrap();
        let mut next = Some(first);
        while let Some(p) = next {
            if p.inx() == last.inx() {
                return true;
            }
            match self.key(p).unwrap().cmp(end) {
                Ordering::Less => return true,
                Ordering::Equal => next = self.next(p),
                Ordering::Greater => return false,
            }
        }
        false
    }
}
