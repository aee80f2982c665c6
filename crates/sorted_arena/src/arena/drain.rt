//! Removals of all entries in a range. None of them takes memory, but for the vector of `drain_range`.

ghost use Rattle.std.specs.Prelude.{◌≡◌, ◌+◌, ◌≤◌, ◌++◌, map, length, vec_len, IsOk, OnOk, OnErr};
ghost use Rattle.std.specs.Option.{option_map};
ghost use Rattle.std.specs.Range.Bound.{bound_map};
ghost use Rattle.std.specs.Vec.{vec_capacity};
ghost use Rattle.listing.specs.Gap.{first_of};
ghost use Rattle.sorted_arena.specs.Change.{DrainsInto};
ghost use Rattle.sorted_arena.specs.Range.{entries_between, is_outside};
ghost use Rattle.sorted_arena.specs.Sorted.{count, pointer_of, pair_of, with_passing, IsSound};
ghost use Rattle.sorted_arena.specs.Taking.{IsCutAt, TakesOut};

use super::SortedArena;
use std::alloc::{AllocError, Allocator};
use std::ops::{Bound, RangeBounds};
use triple_ord::BasePtr;

impl<K: Ord + Drop, V: Drop, P: BasePtr, A: Allocator> SortedArena<K, V, P, A> {
    /// Moves all entries whose keys are in `range` to the end of a vector, in order. O(log n) for each.
    ///
    /// A range that runs backwards has no entries.
    ///
    /// # Errors
    ///
    /// If the vector is refused memory, nothing changes.
    pub fn drain_range<R: RangeBounds<K> + Drop, B: Allocator>(
        &mut self,
        range: R,
        drained: &mut Vec<(K, V), B>,
    ) -> Result<(), AllocError>
        ensures drained { R.has_bounds range → OnOk result
            (drained.new.items ≡ drained.old.items ++ map pair_of (entries_between K.cmp
            (R.start_bound range) (R.end_bound range) self.old.entries)) }
        ensures after { R.has_bounds range → OnOk result
            (self.new ≡ with_passing P.Gen.greatest self.old (is_outside K.cmp
            (R.start_bound range) (R.end_bound range))) }
        ensures sound { IsSound K.cmp P.Inx.most self.old }
        ensures room { R.has_bounds range → vec_len drained.old + length (entries_between K.cmp
            (R.start_bound range) (R.end_bound range) self.old.entries) ≤ vec_capacity drained.old
            → IsOk result }
        ensures kept { OnErr result (drained.new.items ≡ drained.old.items) }
        ensures err { OnErr result (self.new ≡ self.old) }
    {
        self.drain_between(range.start_bound(), range.end_bound(), drained)
    }

    /// Removes and drops all entries whose keys are in `range`, and returns how many there were. O(log n) for each.
    ///
    /// A range that runs backwards has no entries.
    ///
    /// ```
    /// users.insert(100, "Ada").map_err(|refused| refused.1)?;
    /// users.insert(110, "Alan").map_err(|refused| refused.1)?;
    /// users.insert(120, "Grace").map_err(|refused| refused.1)?;
    /// assert_eq!(rt; users.remove_range(100..120), 2);
    /// assert_eq!(rt; users.len(), 1);
    /// ```
    pub fn remove_range<R: RangeBounds<K> + Drop>(&mut self, range: R) -> usize
        ensures removed { R.has_bounds range → result ≡ length (entries_between K.cmp
            (R.start_bound range) (R.end_bound range) self.old.entries) }
        ensures after { R.has_bounds range
            → self.new ≡ with_passing P.Gen.greatest self.old (is_outside K.cmp
            (R.start_bound range) (R.end_bound range)) }
        ensures sound { IsSound K.cmp P.Inx.most self.old }
        ensures count { count self.new + result ≡ count self.old }
    {
        self.remove_between(range.start_bound(), range.end_bound())
    }

    // Moves all entries between two bounds to the end of a vector. On `Err` nothing changes.
    pub(super) fn drain_between<B: Allocator>(
        &mut self,
        from: Bound<&K>,
        until: Bound<&K>,
        drained: &mut Vec<(K, V), B>,
    ) -> Result<(), AllocError>
        ensures drains { DrainsInto P.Gen.greatest self.old
            (entries_between K.cmp (bound_map (λ k. k.now) from.entry)
            (bound_map (λ k. k.now) until.entry) self.old.entries)
            (is_outside K.cmp (bound_map (λ k. k.now) from.entry)
            (bound_map (λ k. k.now) until.entry))
            drained.old drained.new result self.new }
        ensures was_sound { IsSound K.cmp P.Inx.most self.old }
    {
        let (first, count) = self.run_between(from, until);
        drained.reserve(count)?;
        let mut next = first;
        for _ in 0..count {
            let (pair, after) = self.take(next);
            next = after;
            let _ = drained.push(pair);
        }
        Ok(())
    }

    // Removes and drops all entries between two bounds, and answers how many there were.
    pub(super) fn remove_between(&mut self, from: Bound<&K>, until: Bound<&K>) -> usize
        ensures removed { result ≡ length (entries_between K.cmp
            (bound_map (λ k. k.now) from.entry) (bound_map (λ k. k.now) until.entry)
            self.old.entries) }
        ensures after { self.new ≡ with_passing P.Gen.greatest self.old
            (is_outside K.cmp (bound_map (λ k. k.now) from.entry)
            (bound_map (λ k. k.now) until.entry)) }
        ensures count { count self.new + result ≡ count self.old }
        ensures was_sound { IsSound K.cmp P.Inx.most self.old }
    {
        let (first, count) = self.run_between(from, until);
        let mut next = first;
        for _ in 0..count {
            next = self.take(next).1;
        }
        count
    }
}

impl<K: Ord, V, P: BasePtr, A: Allocator> SortedArena<K, V, P, A> {
    // The pointer of the first entry between two bounds, and how many there are.
    pub(super) fn run_between(&self, from: Bound<&K>, until: Bound<&K>) -> (Option<P>, usize)
        ensures first { option_map P.numbers result.0
            ≡ option_map pointer_of (first_of (entries_between K.cmp
            (bound_map (λ k. k.now) from.entry) (bound_map (λ k. k.now) until.entry)
            self.now.entries)) }
        ensures count { result.1 ≡ length (entries_between K.cmp
            (bound_map (λ k. k.now) from.entry) (bound_map (λ k. k.now) until.entry)
            self.now.entries) }
        ensures sound { IsSound K.cmp P.Inx.most self.now }
    {
        let mut run = self.between(from, until);
        match run.next() {
            Some((first, _, _)) => (Some(first), 1 + run.count()),
            None => (None, 0),
        }
    }

    // Removes the entry at `next`, and returns its key and value, and the pointer of its successor.
    pub(super) fn take(&mut self, next: Option<P>) -> ((K, V), Option<P>)
        requires { IsCutAt self.old.entries (option_map P.numbers next) }
        ensures takes { (at : IsCutAt self.old.entries (option_map P.numbers next))
            → TakesOut P.Gen.greatest self.old (option_map P.numbers next) at result.0 self.new
            (option_map P.numbers result.1) }
        ensures sound { IsSound K.cmp P.Inx.most self.new }
    {
        let p = next.unwrap();
        let after = self.next(p);
        let pair = self.remove(p).unwrap();
        (pair, after)
    }
}
