//! `Range`: entries in order, from both ends.
ghost use Rattle.std.specs.Prelude.{◌≡◌, ◌<◌, ◌≤◌, ◌^◌, true, false, Some, None, IsSome, IfSome, IfNone, length, slice_get};
ghost use Rattle.listing.specs.Chain.{from_index};
ghost use Rattle.std.specs.Iterator.{YieldsFirstBy, YieldsLastBy, item_count};
ghost use Rattle.std.specs.{Option.option_map, Option.option_and_then, Range.Bound.bound_map};
ghost use Rattle.std.specs.BTreeMap.Range.{is_from_start, is_past_end};
ghost use Rattle.std.specs.declared.ops.Bound.TheVariants.{Included, Unbounded};
ghost use Rattle.sorted_arena.specs.Range.{entries_between, shown_entry, IteratesOver};
ghost use Rattle.sorted_arena.specs.Sorted.{get, first_where, key_of, IsSound};
ghost use Rattle.sorted_arena.specs.Stretch.{stretch, is_forward, IsStretch};
ghost use Rattle.sorted_arena.specs.{Layout.AreNumbered, Place.position_of};

use crate::arena::SortedArena;
use crate::pairs::{Pairs, last_before};
use std::alloc::{Allocator, Global};
use std::marker::Model;
use std::ops::{Bound, RangeBounds};
use triple_ord::{BasePtr, BasePtrInx, P0};

/// Gives the pointers, keys and values of the entries in a range, in order, from both ends. Each step is O(1).
#[derive(Drop)]
pub struct Range<'a, K: Ord, V, P: BasePtr = P0, A: Allocator = Global> {
    pairs: &'a Pairs<K, V, P, A>,
    // Whether the i-th entry has index i. Then entries are counted, and no step waits for a link. It never changes, so that a caller's loop
    // tests it once; an enum of both ways is put together anew at each step, which takes twice as long.
    is_numbered: bool,
    // Otherwise: the index of the next entry from the front, and of the entry behind the next one from the back.
    first: Option<P::Inx>,
    end: Option<P::Inx>,
    // If so: the position of the next entry from the front, and how many are left.
    from: usize,
    left: usize,
}

impl<'a, K: Ord, V, P: BasePtr, A: Allocator> Model for Range<'a, K, V, P, A> {
    ghost use Rattle.std.specs.Prelude.{List};
    ghost use Rattle.std.specs.Option.{option_map};
    ghost use Rattle.listing.specs.Chain.{Entry};

    ghost Value = { List (Entry (K × V)) };

    ghost use Rattle.sorted_arena.specs.Place.{left_at, IsPlace};

    ghost view = { λ r. left_at r.pairs.now.list.entries r.is_numbered
        (option_map P.Inx.number r.first) (option_map P.Inx.number r.end) r.from r.left };

    ghost invariant = { λ r. IsPlace P.Inx.most r.pairs.now.list.entries r.is_numbered
        (option_map P.Inx.number r.first) (option_map P.Inx.number r.end) r.from r.left };
}

impl<'a, K: Ord, V, P: BasePtr, A: Allocator> Iterator for Range<'a, K, V, P, A> {
    type Item = (P, &'a K, &'a V);

    ghost next_gives = { YieldsFirstBy (shown_entry P.numbers) (λ left. left) };

    ghost remaining = { item_count (λ left. left) };

    fn next(&mut self) -> Option<(P, &'a K, &'a V)> {
        if self.is_numbered {
            if self.left == 0 {
                return None;
            }
            let position = self.from;
            self.from = position + 1;
            self.left -= 1;
            return Some(entry_at(self.pairs, position));
        }
        if are_same::<P>(self.first, self.end) {
            return None;
        }
        let i = self.first?;
        let entry = self.pairs.get_inx_link_no_gen(i).unwrap();
        let link = entry.1;
        self.first = link.next();
        let (k, v) = link.t.k_v();
        Some((P::_from_raw(i, entry.0), k, v))
    }

    // Exact where entries are counted; links would have to be followed.
    fn size_hint(&self) -> (usize, Option<usize>) {
        if self.is_numbered {
            (self.left, Some(self.left))
        } else {
            (0, None)
        }
    }
}

impl<'a, K: Ord, V, P: BasePtr, A: Allocator> DoubleEndedIterator for Range<'a, K, V, P, A> {
    ghost next_back_gives = { YieldsLastBy (shown_entry P.numbers) (λ left. left) };

    fn next_back(&mut self) -> Option<(P, &'a K, &'a V)> {
        if self.is_numbered {
            if self.left == 0 {
                return None;
            }
            self.left -= 1;
            return Some(entry_at(self.pairs, self.from + self.left));
        }
        if are_same::<P>(self.first, self.end) {
            return None;
        }
        let i = last_before(self.pairs, self.end)?;
        let entry = self.pairs.get_inx(i).unwrap();
        self.end = Some(i);
        let (k, v) = entry.1.k_v();
        Some((P::_from_raw(i, entry.0), k, v))
    }
}

// The entry at a position of a list whose entries have the indexes from 1 on.
#[inline(always)]
fn entry_at<'a, K: Ord, V, P: BasePtr, A: Allocator>(
    pairs: &'a Pairs<K, V, P, A>,
    position: usize,
) -> (P, &'a K, &'a V)
    requires numbered { AreNumbered 1 pairs.now.list.entries }
    requires within { position < length pairs.now.list.entries }
    requires few { length pairs.now.list.entries < 2 ^ 64 }
    requires limited { length pairs.now.list.entries ≤ P.Inx.most }
    ensures { slice_get pairs.now.list.entries position ≡ Some (shown_entry P.numbers result) }
{
    // Both are there, as is proved, so that a caller's loop over entries has one end.
    let i = P::Inx::try_from_usize(position + 1).unwrap();
    let entry = pairs.get_inx(i).unwrap();
    let (k, v) = entry.1.k_v();
    (P::_from_raw(i, entry.0), k, v)
}

// The position of the entry at `p` in an arena of `count` entries whose i-th entry has index i; `count`, if there is no pointer.
fn position<P: BasePtr>(p: Option<P>, count: usize) -> usize
    ensures { result ≡ position_of count (option_map (λ q. q.0) (option_map P.numbers p)) }
{
    let Some(p) = p else {
        return count;
    };
    match p.inx().try_into_usize() {
        Some(i) => i.saturating_sub(1),
        None => 0,
    }
}

/// Whether two indexes are equal, or neither is there.
pub(crate) fn are_same<P: BasePtr>(first: Option<P::Inx>, end: Option<P::Inx>) -> bool
    ensures same { result ≡ true
        → option_map P.Inx.number first ≡ option_map P.Inx.number end }
    ensures apart { result ≡ false
        → option_map P.Inx.number first ≡ option_map P.Inx.number end → ⊥ }
{
    match (first, end) {
        (Some(i), Some(j)) => i == j,
        (None, None) => true,
        _ => false,
    }
}

// The index of a pointer, if there is one.
fn inx_of<P: BasePtr>(p: Option<P>) -> Option<P::Inx>
    ensures { option_map P.Inx.number result ≡ option_map (λ q. q.0) (option_map P.numbers p) }
{
    match p {
        Some(p) => Some(p.inx()),
        None => None,
    }
}

// Whether a key is not before the start of a range.
fn is_key_from<K: Ord>(from: Bound<&K>, k: &K) -> bool
    ensures { result ≡ is_from_start K.cmp (bound_map (λ x. x.now) from.entry) k.now }
{
    match from {
        Bound::Included(start) => start.cmp(k).is_le(),
        Bound::Excluded(start) => start.cmp(k).is_lt(),
        Bound::Unbounded => true,
    }
}

impl<K: Ord, V, P: BasePtr, A: Allocator> SortedArena<K, V, P, A> {
    /// Returns an iterator over all entries in order, from both ends.
    pub fn iter(&self) -> Range<'_, K, V, P, A>
        ensures { IteratesOver K.cmp P.Inx.most P.numbers self.now result
            (result ≡ self.now.entries) }
    {
        self.from_until(self.first(), None)
    }

    /// Returns an iterator over the entries whose keys are in `range`, in order, from both ends. O(log n).
    ///
    /// A range that runs backwards has no entries.
    ///
    /// ```
    /// users.insert(100, "Ada").map_err(|refused| refused.1)?;
    /// users.insert(110, "Alan").map_err(|refused| refused.1)?;
    /// users.insert(120, "Grace").map_err(|refused| refused.1)?;
    /// assert!(rt; users.range(..120).values().eq(&["Ada", "Alan"]));
    /// assert!(rt; users.range(105..).keys().rev().eq(&[120, 110]));
    /// ```
    pub fn range<R: RangeBounds<K> + Drop>(&self, range: R) -> Range<'_, K, V, P, A>
        ensures { IteratesOver K.cmp P.Inx.most P.numbers self.now result
            (R.has_bounds range → result ≡ entries_between K.cmp
            (R.start_bound range) (R.end_bound range) self.now.entries) }
    {
        self.between(range.start_bound(), range.end_bound())
    }

    /// Returns an iterator over the entries from the one at `p` on, in order, from both ends; `None` if `p` is stale. O(1), and O(1) a step.
    pub fn iter_from(&self, p: P) -> Option<Range<'_, K, V, P, A>>
        ensures stale { IfNone result (get self.now (P.numbers p) ≡ None) }
        ensures entries { IfSome result (λ range. IteratesOver K.cmp P.Inx.most P.numbers self.now range
            (IsSome (get self.now (P.numbers p)) × (range ≡ from_index self.now.entries (P.numbers p).0))) }
    {
        if !self.contains(p) {
            return None;
        }
        Some(self.from_until(Some(p), None))
    }

    /// The entries between two bounds.
    pub(crate) fn between(&self, from: Bound<&K>, until: Bound<&K>) -> Range<'_, K, V, P, A>
        ensures { IteratesOver K.cmp P.Inx.most P.numbers self.now result
            (result ≡ entries_between K.cmp (bound_map (λ k. k.now) from.entry)
            (bound_map (λ k. k.now) until.entry) self.now.entries) }
    {
        let end = self.first_past(until);
        let first = self.first_before(from, end);
        self.from_until(first, end)
    }

    // The entries from one on and before another; to the last one, if there is no other.
    pub(crate) fn from_until(&self, first: Option<P>, end: Option<P>) -> Range<'_, K, V, P, A>
        requires { IsSound K.cmp P.Inx.most self.now
            → IsStretch self.now.entries (option_map (λ q. q.0) (option_map P.numbers first))
            (option_map (λ q. q.0) (option_map P.numbers end)) }
        ensures { IteratesOver K.cmp P.Inx.most P.numbers self.now result
            (result ≡ stretch self.now.entries
            (option_map (λ q. q.0) (option_map P.numbers first))
            (option_map (λ q. q.0) (option_map P.numbers end))) }
    {
        let count = self.len();
        let from = position(first, count);
        Range {
            pairs: self.pairs(),
            is_numbered: self.is_compact(),
            first: inx_of(first),
            end: inx_of(end),
            from,
            left: position(end, count).saturating_sub(from),
        }
    }

    /// How many entries are between two bounds.
    pub(crate) fn count_between(&self, from: Bound<&K>, until: Bound<&K>) -> usize
        ensures { result ≡ length (entries_between K.cmp (bound_map (λ k. k.now) from.entry)
            (bound_map (λ k. k.now) until.entry) self.now.entries) }
    {
        self.between(from, until).count()
    }

    // The pointer of the first entry that is not before the start of a range.
    fn first_from(&self, from: Bound<&K>) -> Option<P>
        ensures { option_map P.numbers result
            ≡ first_where (λ e. is_from_start K.cmp (bound_map (λ k. k.now) from.entry) (key_of e))
            self.now.entries }
    {
        match from {
            Bound::Included(k) => self.lower_bound(k),
            Bound::Excluded(k) => self.upper_bound(k),
            Bound::Unbounded => self.first(),
        }
    }

    // The pointer of the first entry behind the end of a range.
    fn first_past(&self, until: Bound<&K>) -> Option<P>
        ensures { option_map P.numbers result
            ≡ first_where (λ e. is_past_end K.cmp (bound_map (λ k. k.now) until.entry) (key_of e))
            self.now.entries }
    {
        match until {
            Bound::Included(k) => self.upper_bound(k),
            Bound::Excluded(k) => self.lower_bound(k),
            Bound::Unbounded => None,
        }
    }

    // The pointer of the first entry that is not before the start of a range, or `end` if that one is before the start.
    fn first_before(&self, from: Bound<&K>, end: Option<P>) -> Option<P>
        ensures forward { is_forward K.cmp (bound_map (λ k. k.now) from.entry)
            (option_and_then (get self.now) (option_map P.numbers end)) ≡ true
            → option_map P.numbers result
            ≡ first_where (λ e. is_from_start K.cmp (bound_map (λ k. k.now) from.entry) (key_of e))
            self.now.entries }
        ensures backward { is_forward K.cmp (bound_map (λ k. k.now) from.entry)
            (option_and_then (get self.now) (option_map P.numbers end)) ≡ false
            → result ≡ end }
    {
        if self.is_forward(from, end) {
            self.first_from(from)
        } else {
            end
        }
    }

    // Whether the entry at `end`, if any, is not before the start of a range.
    fn is_forward(&self, from: Bound<&K>, end: Option<P>) -> bool
        ensures { result ≡ is_forward K.cmp (bound_map (λ k. k.now) from.entry)
            (option_and_then (get self.now) (option_map P.numbers end)) }
    {
        let Some(p) = end else {
            return true;
        };
        match self.key(p) {
            Some(k) => is_key_from(from, k),
            None => true,
        }
    }
}
