//! Values that a closure writes, entry by entry.

ghost use Rattle.std.specs.Prelude.{◌≡◌};
ghost use Rattle.std.specs.BTreeMap.Range.{range_contains};
ghost use Rattle.std.specs.Option.{option_map};
ghost use Rattle.std.specs.Range.Bound.{bound_map};
ghost use Rattle.sorted_arena.specs.Sorted.{key_of, IsSound};
ghost use Rattle.sorted_arena.specs.Taking.{IsCutAt, WritesAt};
ghost use Rattle.sorted_arena.specs.Write.{WritesEach};

use super::SortedArena;
use std::alloc::Allocator;
use std::ops::{Bound, RangeBounds};
use triple_ord::BasePtr;

impl<K: Ord, V, P: BasePtr, A: Allocator> SortedArena<K, V, P, A> {
    /// Calls `f` once for each entry whose key is in `range`, in order, with its key, and its value to be written.
    ///
    /// O(log n), and O(1) and a call for each entry in the range. A range that runs backwards has no entries; `..` has all.
    ///
    /// ```
    /// scores.insert("Ada", 3).map_err(|refused| refused.1)?;
    /// scores.insert("Alan", 4).map_err(|refused| refused.1)?;
    /// scores.for_each_mut(.., |_, score| *score = score.saturating_mul(2));
    /// assert!(rt; scores.values().eq(&[6, 8]));
    /// scores.for_each_mut("Alan".., |_, score| *score = 0);
    /// assert!(rt; scores.values().eq(&[6, 0]));
    /// ```
    pub fn for_each_mut<R: RangeBounds<K> + Drop, F: FnMut(&K, &mut V)>(&mut self, range: R, f: F)
        requires { F.IsAlwaysCallable f }
        ensures written { R.has_bounds range → WritesEach F.FnMut
            (λ e. range_contains K.cmp (R.start_bound range) (R.end_bound range) (key_of e))
            f self.old.entries self.new.entries }
        ensures after { self.new ≡ record self.old { entries = self.new.entries } }
        ensures sound { IsSound K.cmp P.Inx.most self.new }
    {
        self.write_between(range.start_bound(), range.end_bound(), f);
    }

    // Calls `f` for each entry between two bounds.
    fn write_between<F: FnMut(&K, &mut V)>(&mut self, from: Bound<&K>, until: Bound<&K>, mut f: F)
        requires { F.IsAlwaysCallable f }
        ensures written { WritesEach F.FnMut (λ e. range_contains K.cmp
            (bound_map (λ k. k.now) from.entry) (bound_map (λ k. k.now) until.entry) (key_of e))
            f self.old.entries self.new.entries }
        ensures after { self.new ≡ record self.old { entries = self.new.entries } }
        ensures sound { IsSound K.cmp P.Inx.most self.new }
    {
        let (first, count) = self.run_between(from, until);
        let mut next = first;
        for _ in 0..count {
            next = self.write_entry(next, &mut f);
        }
    }

    // Calls `f` for the entry at `next`, and returns the pointer of its successor.
    fn write_entry<F: FnMut(&K, &mut V)>(&mut self, next: Option<P>, f: &mut F) -> Option<P>
        requires named { IsCutAt self.old.entries (option_map P.numbers next) }
        requires callable { F.IsAlwaysCallable f.old }
        ensures writes { (at : IsCutAt self.old.entries (option_map P.numbers next))
            → WritesAt F.FnMut self.old (option_map P.numbers next) at f.old f.new self.new
            (option_map P.numbers result) }
        ensures still_callable { F.IsAlwaysCallable f.new }
        ensures sound { IsSound K.cmp P.Inx.most self.new }
    {
        let p = next.unwrap();
        let after = self.next(p);
        let (k, v) = self.pairs.get_mut(p).unwrap().k_v_mut();
        f(k, v);
        // For the prover: the arena is sound.
        let _ = self.len();
        after
    }
}
