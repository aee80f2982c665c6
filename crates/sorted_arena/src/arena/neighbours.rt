//! The first and the last entry, and the neighbours of an entry.

ghost use Rattle.std.specs.Prelude.{◌≢◌};
ghost use Rattle.std.specs.declared.cmp.Ordering.TheVariants.{Greater};
ghost use Rattle.sorted_arena.specs.Find.{FindsLeast, FindsGreatest, FindsNeighbour};
ghost use Rattle.sorted_arena.specs.Sorted.{next_of, prev_of};

use super::SortedArena;
use crate::pairs::{next_in, prev_in};
use std::alloc::Allocator;
use triple_ord::BasePtr;

impl<K: Ord, V, P: BasePtr, A: Allocator> SortedArena<K, V, P, A> {
    /// Returns the pointer of the first entry, which has the smallest key, in O(1).
    pub fn first(&self) -> Option<P>
        ensures { FindsLeast K.cmp P.Inx.most P.numbers self.now result }
    {
        self.pairs().first()
    }

    /// Returns the pointer of the last entry, which has the greatest key, in O(1).
    pub fn last(&self) -> Option<P>
        ensures { FindsGreatest K.cmp P.Inx.most P.numbers self.now result }
    {
        self.pairs().last()
    }

    /// Returns the pointer of the successor of the entry at `p`, in O(1). `None` if it is the last one, or `p` is stale.
    ///
    /// The key of the successor is at least that of the entry.
    pub fn next(&self, p: P) -> Option<P>
        ensures { FindsNeighbour K.cmp P.Inx.most P.numbers self.now result
            (λ k l. K.cmp k l ≢ Greater) (next_of self.now.entries (P.numbers p)) (P.numbers p) }
    {
        next_in(self.pairs(), p)
    }

    /// Returns the pointer of the predecessor of the entry at `p`, in O(1). `None` if it is the first one, or `p` is stale.
    ///
    /// The key of the predecessor is at most that of the entry.
    pub fn prev(&self, p: P) -> Option<P>
        ensures { FindsNeighbour K.cmp P.Inx.most P.numbers self.now result
            (λ k l. K.cmp l k ≢ Greater) (prev_of self.now.entries (P.numbers p)) (P.numbers p) }
    {
        prev_in(self.pairs(), p)
    }
}
