//! Entries in a range that are taken out by a test.

ghost use Rattle.std.specs.Prelude.{◌+◌, ◌≤◌, ◌<◌, vec_len};
ghost use Rattle.std.specs.Option.{option_map};
ghost use Rattle.std.specs.Range.Bound.{bound_map};
ghost use Rattle.std.specs.Vec.{vec_capacity};
ghost use Rattle.sorted_arena.specs.Answer.{AnswersForEntry};
ghost use Rattle.sorted_arena.specs.Given.{ExtractsInto};
ghost use Rattle.sorted_arena.specs.Range.{entries_between};
ghost use Rattle.sorted_arena.specs.Sorted.{IsSound};
ghost use Rattle.sorted_arena.specs.Taking.{IsCutAt, ExtractsAt};

use super::SortedArena;
use std::alloc::{AllocError, Allocator};
use std::ops::{Bound, RangeBounds};
use triple_ord::BasePtr;

impl<K: Ord + Drop, V: Drop, P: BasePtr + Drop, A: Allocator> SortedArena<K, V, P, A> {
    /// Asks `f` once for each entry whose key is in `range`, in order, and moves those for which it answers `true` to the end of a vector,
    /// in order, each with the pointer that it had. O(1) for each entry in the range, and O(log n) for each that is moved.
    ///
    /// A range that runs backwards has no entries.
    ///
    /// ```
    /// let ada = users.insert(100, "Ada").map_err(|refused| refused.1)?;
    /// users.insert(110, "Alan").map_err(|refused| refused.1)?;
    /// users.insert(120, "Grace").map_err(|refused| refused.1)?;
    /// let mut taken = Vec::new(rt.alloc());
    /// users.extract_if(..120, |p, _, _| p != ada, &mut taken)?;
    /// assert!(rt; users.keys().eq(&[100, 120]));
    /// ```
    ///
    /// # Errors
    ///
    /// The vector is made ready for all entries in the range first. If it is refused memory, nothing changes, and `f` is not asked.
    pub fn extract_if<R: RangeBounds<K> + Drop, F: FnMut(P, &K, &V) -> bool, B: Allocator>(
        &mut self,
        range: R,
        f: F,
        extracted: &mut Vec<(P, K, V), B>,
    ) -> Result<(), AllocError>
        requires { F.IsAlwaysCallable f }
        ensures extracts { R.has_bounds range → ExtractsInto P.numbers
            (AnswersForEntry P.numbers F.FnMut) P.Gen.greatest self.old (entries_between K.cmp
            (R.start_bound range) (R.end_bound range) self.old.entries) f extracted.old extracted.new
            result self.new }
        ensures sound { IsSound K.cmp P.Inx.most self.old }
    {
        self.extract_between(range.start_bound(), range.end_bound(), f, extracted)
    }

    // Extracts entries between two bounds.
    fn extract_between<F: FnMut(P, &K, &V) -> bool, B: Allocator>(
        &mut self,
        from: Bound<&K>,
        until: Bound<&K>,
        mut f: F,
        extracted: &mut Vec<(P, K, V), B>,
    ) -> Result<(), AllocError>
        requires { F.IsAlwaysCallable f }
        ensures extracts { ExtractsInto P.numbers (AnswersForEntry P.numbers F.FnMut)
            P.Gen.greatest self.old (entries_between K.cmp (bound_map (λ k. k.now) from.entry)
            (bound_map (λ k. k.now) until.entry) self.old.entries) f extracted.old extracted.new
            result self.new }
        ensures was_sound { IsSound K.cmp P.Inx.most self.old }
    {
        let (first, count) = self.run_between(from, until);
        extracted.reserve(count)?;
        let mut next = first;
        for _ in 0..count {
            next = self.extract_entry(next, &mut f, extracted);
        }
        Ok(())
    }

    // Asks for the entry at `next`, moves it to the end of a vector with room for it if the answer is `true`, and returns the pointer of its
    // successor.
    fn extract_entry<F: FnMut(P, &K, &V) -> bool, B: Allocator>(
        &mut self,
        next: Option<P>,
        f: &mut F,
        extracted: &mut Vec<(P, K, V), B>,
    ) -> Option<P>
        requires named { IsCutAt self.old.entries (option_map P.numbers next) }
        requires callable { F.IsAlwaysCallable f.old }
        requires room { vec_len extracted.old < vec_capacity extracted.old }
        ensures extracts { (at : IsCutAt self.old.entries (option_map P.numbers next))
            → ExtractsAt P.numbers (AnswersForEntry P.numbers F.FnMut) P.Gen.greatest self.old
            (option_map P.numbers next) at f.old f.new extracted.old.items extracted.new.items
            self.new (option_map P.numbers result) }
        ensures still_callable { F.IsAlwaysCallable f.new }
        ensures more { vec_len extracted.new ≤ vec_len extracted.old + 1 }
        ensures capacity { vec_capacity extracted.old ≤ vec_capacity extracted.new }
        ensures sound { IsSound K.cmp P.Inx.most self.new }
    {
        let p = next.unwrap();
        let after = self.next(p);
        let (k, v) = self.get(p).unwrap();
        if f(p, k, v) {
            let (k, v) = self.remove(p).unwrap();
            let _ = extracted.push((p, k, v));
        }
        after
    }
}
