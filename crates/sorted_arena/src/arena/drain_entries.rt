//! Removals of all entries in a range that also return their pointers. None of them takes memory, but for the vector.

ghost use Rattle.std.specs.Prelude.{◌≡◌, ◌+◌, ◌≤◌, length, take, vec_len, IsOk, OnOk, OnErr, Some};
ghost use Rattle.std.specs.List.{All};
ghost use Rattle.std.specs.Option.{option_map};
ghost use Rattle.std.specs.Ordering.{is_gt};
ghost use Rattle.std.specs.Range.Bound.{bound_map};
ghost use Rattle.std.specs.Vec.{vec_capacity};
ghost use Rattle.std.specs.declared.cmp.Ordering.TheVariants.{Greater};
ghost use Rattle.sorted_arena.specs.Given.{entries_behind, DrainsEntriesInto};
ghost use Rattle.sorted_arena.specs.Range.{entries_between, is_outside};
ghost use Rattle.sorted_arena.specs.Sorted.{key_of, entries_until, with_passing, IsSound};
ghost use Rattle.sorted_arena.specs.Taking.{IsCutAt, TakesOut};

use super::SortedArena;
use std::alloc::{AllocError, Allocator};
use std::ops::{Bound, RangeBounds};
use triple_ord::BasePtr;

impl<K: Ord + Drop, V: Drop, P: BasePtr + Drop, A: Allocator> SortedArena<K, V, P, A> {
    /// Moves all entries whose keys are in `range` to the end of a vector, in order, each with the pointer that it had. O(log n) for each.
    ///
    /// A range that runs backwards has no entries.
    ///
    /// # Errors
    ///
    /// If the vector is refused memory, nothing changes.
    pub fn drain_entries<R: RangeBounds<K> + Drop, B: Allocator>(
        &mut self,
        range: R,
        drained: &mut Vec<(P, K, V), B>,
    ) -> Result<(), AllocError>
        ensures held { OnOk result
            (take (length drained.old.items) drained.new.items ≡ drained.old.items) }
        ensures drained { R.has_bounds range → OnOk result
            (entries_behind P.numbers drained.old drained.new
            ≡ entries_between K.cmp (R.start_bound range) (R.end_bound range)
            self.old.entries) }
        ensures after { R.has_bounds range → OnOk result
            (self.new ≡ with_passing P.Gen.greatest self.old (is_outside K.cmp
            (R.start_bound range) (R.end_bound range))) }
        ensures sound { IsSound K.cmp P.Inx.most self.old }
        ensures room { R.has_bounds range → vec_len drained.old + length (entries_between K.cmp
            (R.start_bound range) (R.end_bound range) self.old.entries) ≤ vec_capacity drained.old
            → IsOk result }
        ensures kept { OnErr result (drained.new.items ≡ drained.old.items) }
        ensures err { OnErr result (self.new ≡ self.old) }
    {
        self.drain_entries_between(range.start_bound(), range.end_bound(), drained)
    }

    /// Moves all entries whose key is at most `until` to the end of a vector, in order, each with the pointer that it had. O(log n) for
    /// each.
    ///
    /// ```
    /// let ada = users.insert(100, "Ada").map_err(|refused| refused.1)?;
    /// users.insert(120, "Grace").map_err(|refused| refused.1)?;
    /// let mut ended = Vec::new(rt.alloc());
    /// users.pop_entries_until(&110, &mut ended)?;
    /// assert!(rt; ended.iter().eq(&[(ada, 100, "Ada")]));
    /// ```
    ///
    /// # Errors
    ///
    /// If the vector is refused memory, nothing changes.
    pub fn pop_entries_until<'k, B: Allocator>(
        &mut self,
        until: &'k K,
        popped: &mut Vec<(P, K, V), B>,
    ) -> Result<(), AllocError>
        ensures drains { DrainsEntriesInto P.numbers P.Gen.greatest self.old
            (entries_until K.cmp until.now self.old.entries)
            (λ e. is_gt (K.cmp (key_of e) until.now))
            popped.old popped.new result self.new }
        ensures left { OnOk result
            (All (λ e. K.cmp (key_of e) until.now ≡ Greater) self.new.entries) }
    {
        let from: Bound<&'k K> = Bound::Unbounded;
        self.drain_entries_between(from, Bound::Included(until), popped)
    }

    // Moves all entries between two bounds to the end of a vector, with their pointers. On `Err` nothing changes.
    fn drain_entries_between<B: Allocator>(
        &mut self,
        from: Bound<&K>,
        until: Bound<&K>,
        drained: &mut Vec<(P, K, V), B>,
    ) -> Result<(), AllocError>
        ensures drains { DrainsEntriesInto P.numbers P.Gen.greatest self.old
            (entries_between K.cmp (bound_map (λ k. k.now) from.entry)
            (bound_map (λ k. k.now) until.entry) self.old.entries)
            (is_outside K.cmp (bound_map (λ k. k.now) from.entry)
            (bound_map (λ k. k.now) until.entry))
            drained.old drained.new result self.new }
        ensures was_sound { IsSound K.cmp P.Inx.most self.old }
    {
        let (first, count) = self.run_between(from, until);
        drained.reserve(count)?;
        let mut next = first;
        for _ in 0..count {
            let (entry, after) = self.take_entry(next);
            next = after;
            let _ = drained.push(entry);
        }
        Ok(())
    }

    // Removes the entry at `next`, and returns its pointer, its key and its value, and the pointer of its successor.
    fn take_entry(&mut self, next: Option<P>) -> ((P, K, V), Option<P>)
        requires { IsCutAt self.old.entries (option_map P.numbers next) }
        ensures named { option_map P.numbers next ≡ Some (P.numbers result.0.0) }
        ensures takes { (at : IsCutAt self.old.entries (option_map P.numbers next))
            → TakesOut P.Gen.greatest self.old (option_map P.numbers next) at
            (result.0.1, result.0.2) self.new (option_map P.numbers result.1) }
        ensures sound { IsSound K.cmp P.Inx.most self.new }
    {
        let p = next.unwrap();
        let ((k, v), after) = self.take(next);
        ((p, k, v), after)
    }
}
