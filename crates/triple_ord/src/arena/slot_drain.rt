//! Draining an arena in index order.
ghost use Rattle.std.specs.Prelude.{◌≡◌};
ghost use Rattle.std.specs.Iterator.{item_count};
ghost use Rattle.ord_tree.specs.ArenaWalk.{pointers};
ghost use Rattle.ord_tree.specs.Chain.{cleared};
ghost use Rattle.ord_tree.specs.Shape.{missing};
ghost use Rattle.triple_ord.specs.Content.{content_of};
ghost use Rattle.triple_ord.specs.SlotDrain.{drain_arena, drain_lender, drain_rest, DrainSteps};

use super::SimpleOrdArena;
use arena_base::{Advancer, BasePtr, InvalidationOption, PtrAdvancer};
use std::alloc::{Allocator, Global};

/// Removes the entries of an arena by rising index, one a step. Dropping it clears the arena.
pub struct Drain<'a, P: BasePtr, T: Drop, A: Allocator = Global> {
    arena: &'a mut SimpleOrdArena<P, T, A>,
    walk: PtrAdvancer<P>,
}

impl<P: BasePtr, T: Drop, A: Allocator> SimpleOrdArena<P, T, A> {
    /// Removes all entries by rising index, whatever the list order.
    ///
    /// Each step removes an entry and raises the generation, in O(log n); finding the entries takes O(capacity) in all. Dropping the
    /// drain clears the arena of the rest, which raises the generation once more. If the drain is forgotten, the rest is still there.
    pub fn drain(&mut self) -> Drain<'_, P, T, A>
        ensures arena { drain_arena result ≡ self.old }
        ensures rest { drain_rest result ≡ pointers (content_of self.old) }
        ensures same_reference { drain_lender result ≡ self.entry.ghost_name }
    {
        let walk = self.advancer();
        Drain { arena: self, walk }
    }
}

impl<'a, P: BasePtr, T: Drop, A: Allocator> Drain<'a, P, T, A> {
    /// Ends the drain and leaves the arena as it is: entries not yet returned stay.
    ///
    /// `mem::forget` does the same, but promises a caller nothing about what is left.
    pub fn keep_rest(self)
        ensures { self.exit.0.now ≡ drain_arena self.entry }
    {
        let Drain { arena: _, walk: _ } = self;
    }
}

impl<'a, P: BasePtr, T: Drop, A: Allocator> Drop for Drain<'a, P, T, A> {
    fn drop(self)
        ensures { self.exit.0.now
            ≡ record {
              list = cleared P.Gen.greatest (drain_arena self.entry).list;
              shape = missing;
            } }
    {
        let Drain { arena, walk: _ } = self;
        let _ = arena.clear();
    }
}

impl<'a, P: BasePtr, T: Drop, A: Allocator> Iterator for Drain<'a, P, T, A> {
    type Item = InvalidationOption<(P, T)>;

    ghost next_gives = { DrainSteps P.Gen.greatest P.numbers };

    ghost remaining = { item_count drain_rest };

    fn next(&mut self) -> Option<InvalidationOption<(P, T)>> {
        // For the prover: the list is sound.
        let _ = self.arena.len();
        let p = self.walk.advance(self.arena)?;
        let taken = self.arena.remove(p).unwrap();
        Some(taken.map(|item| (p, item)))
    }
}
