//! Searches by a closure.
ghost use Rattle.std.specs.Prelude.{◌≡◌, ℕ, length};
ghost use Rattle.std.specs.Option.{option_map};
ghost use Rattle.triple_ord.specs.ClosureSearch.{Asks, FindsWith, FindsSimilarWith};
ghost use Rattle.triple_ord.specs.VisitBounds.{IsWithinBounds};

use super::SimpleOrdArena;
use super::find::equal_alone;
use crate::descent::descend;
use crate::probe::Probe;
use crate::visits::Visits;
use arena_base::BasePtr;
use std::alloc::Allocator;
use std::cmp::Ordering;

impl<P: BasePtr, T, A: Allocator> SimpleOrdArena<P, T, A> {
    /// Returns the pointer of the entry at which `f` answered `Equal`.
    ///
    /// `f` returns the order of what is searched to the entry that it is shown: after `Less` the search goes on before the entry, after
    /// `Greater` behind it. No entry is shown twice, and none after `Equal`. `None` means that the search stopped at a gap: `f` answered
    /// `Greater` to the entry before it, if any, and `Less` to the one after it, if any. `f` may answer anything, and differently each
    /// time.
    ///
    /// ```
    /// let (two, _) = pairs.insert(OrdPair::new(2, "two"))?;
    /// pairs.insert(OrdPair::new(5, "five"))?;
    /// assert_eq!(rt; pairs.find_with(|_, pair| 2.cmp(pair.k())), Some(two));
    /// ```
    pub fn find_with<F: FnMut(P, &T) -> Ordering + Drop>(&self, f: F) -> Option<P>
        requires { F.IsAlwaysCallable f }
        ensures { (left : F) × (visits : ℕ)
            × FindsWith (Asks P.numbers F.step) self.now.list.entries f left
            (option_map P.numbers result) visits }
    {
        let mut f = f;
        self.find_with_counted(&mut f).0
    }

    /// `find_with`, with the number of entries visited, which is how often `f` was called. The bounds are those of `find_key_counted`.
    pub fn find_with_counted<F: FnMut(P, &T) -> Ordering>(&self, f: &mut F) -> (Option<P>, Visits)
        requires { F.IsAlwaysCallable f.old }
        ensures found { FindsWith (Asks P.numbers F.step) self.now.list.entries f.old f.new
            (option_map P.numbers result.0) result.1 }
        ensures callable { F.IsAlwaysCallable f.new }
        ensures visits { IsWithinBounds (length self.now.list.entries) self.now.shape result.1 }
    {
        let (found, visits) = self.find_similar_with_counted(f);
        (equal_alone(found), visits)
    }

    /// Returns the pointer of the entry that `f` was shown last, and its answer, as `find_with` describes. `None` only if there are no
    /// entries.
    pub fn find_similar_with<F: FnMut(P, &T) -> Ordering + Drop>(
        &self,
        f: F,
    ) -> Option<(P, Ordering)>
        requires { F.IsAlwaysCallable f }
        ensures { (left : F) × (visits : ℕ)
            × FindsSimilarWith (Asks P.numbers F.step) self.now.list.entries f left
            (option_map (λ a. (P.numbers a.0, a.1)) result) visits }
    {
        let mut f = f;
        self.find_similar_with_counted(&mut f).0
    }

    /// `find_similar_with`, with the number of entries visited, which is how often `f` was called. The bounds are those of
    /// `find_key_counted`.
    pub fn find_similar_with_counted<F: FnMut(P, &T) -> Ordering>(
        &self,
        f: &mut F,
    ) -> (Option<(P, Ordering)>, Visits)
        requires { F.IsAlwaysCallable f.old }
        ensures found { FindsSimilarWith (Asks P.numbers F.step) self.now.list.entries f.old f.new
            (option_map (λ a. (P.numbers a.0, a.1)) result.0) result.1 }
        ensures callable { F.IsAlwaysCallable f.new }
        ensures visits { IsWithinBounds (length self.now.list.entries) self.now.shape result.1 }
    {
        let mut probe = Probe::new(&self.tree);
        let found = descend(&mut probe, f);
        (found, probe.visits())
    }
}
