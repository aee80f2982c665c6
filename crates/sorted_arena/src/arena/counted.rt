//! Searches by key that also count the entries that they visit.

ghost use Rattle.sorted_arena.specs.Find.{FindsFirstEqual, FindsLowerBound, FindsUpperBound, IsCountedSearch};
ghost use Rattle.sorted_arena.specs.Sorted.{count};

use super::SortedArena;
use crate::pairs::{lower_bound_in, upper_bound_in};
use std::alloc::Allocator;
use triple_ord::{BasePtr, Visits};

impl<K: Ord, V, P: BasePtr, A: Allocator> SortedArena<K, V, P, A> {
    /// [`find`](Self::find), and how many entries it visited: of n > 0 entries c with `2^(c+1) <= (n+1)^2`, of none 0.
    #[inline(always)]
    pub fn find_counted(&self, k: &K) -> (Option<P>, Visits)
        ensures { IsCountedSearch (count self.now) result.1
            (FindsFirstEqual K.cmp P.Inx.most P.numbers self.now k.now result.0) }
    {
        self.pairs().find_key_counted(k)
    }

    /// [`lower_bound`](Self::lower_bound), and how many entries it visited, within the bound of [`find_counted`](Self::find_counted).
    #[inline(always)]
    pub fn lower_bound_counted(&self, k: &K) -> (Option<P>, Visits)
        ensures { IsCountedSearch (count self.now) result.1
            (FindsLowerBound K.cmp P.Inx.most P.numbers self.now k.now result.0) }
    {
        lower_bound_in(self.pairs(), k)
    }

    /// [`upper_bound`](Self::upper_bound), and how many entries it visited, within the bound of [`find_counted`](Self::find_counted).
    #[inline(always)]
    pub fn upper_bound_counted(&self, k: &K) -> (Option<P>, Visits)
        ensures { IsCountedSearch (count self.now) result.1
            (FindsUpperBound K.cmp P.Inx.most P.numbers self.now k.now result.0) }
    {
        upper_bound_in(self.pairs(), k)
    }
}
