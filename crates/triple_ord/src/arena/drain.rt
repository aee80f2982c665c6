//! Draining an arena in list order.
ghost use Rattle.std.specs.Prelude.{◌≡◌};
ghost use Rattle.std.specs.Iterator.{item_count, YieldsFirstBy};
ghost use Rattle.ord_tree.specs.Chain.{cleared};
ghost use Rattle.ord_tree.specs.Shape.{missing};
ghost use Rattle.triple_ord.specs.OrderedDrain.{ordered_drain_arena, ordered_drain_lender, ordered_drain_rest, OrderedDrainSteps};
ghost use Rattle.triple_ord.specs.Walk.{IsExactHint};

use super::SimpleOrdArena;
use arena_base::{BasePtr, InvalidationOption};
use std::alloc::{Allocator, Global};
use std::marker::Model;

/// Removes the entries of an arena in order, one a step. Dropping it clears the arena.
pub struct OrderedDrain<'a, P: BasePtr, T: Drop, A: Allocator = Global> {
    arena: &'a mut SimpleOrdArena<P, T, A>,
}

impl<P: BasePtr, T: Drop, A: Allocator> SimpleOrdArena<P, T, A> {
    /// Removes all entries in list order.
    ///
    /// Each step removes an entry and raises the generation, in O(log n). Dropping the drain clears the arena of the rest, which raises
    /// the generation once more. If the drain is forgotten, the rest is still there.
    pub fn drain_ordered(&mut self) -> OrderedDrain<'_, P, T, A>
        ensures arena { ordered_drain_arena result ≡ self.old }
        ensures same_reference { ordered_drain_lender result ≡ self.entry.ghost_name }
    {
        OrderedDrain { arena: self }
    }
}

impl<'a, P: BasePtr, T: Drop, A: Allocator> OrderedDrain<'a, P, T, A> {
    /// Ends the drain and leaves the arena as it is: entries not yet returned stay.
    ///
    /// `mem::forget` does the same, but promises a caller nothing about what is left.
    pub fn keep_rest(self)
        ensures { self.exit.0.now ≡ ordered_drain_arena self.entry }
    {
        let OrderedDrain { arena: _ } = self;
    }
}

impl<'a, P: BasePtr, T: Drop, A: Allocator> Drop for OrderedDrain<'a, P, T, A> {
    fn drop(self)
        ensures { self.exit.0.now
            ≡ record {
              list = cleared P.Gen.greatest (ordered_drain_arena self.entry).list;
              shape = missing;
            } }
    {
        let OrderedDrain { arena } = self;
        let _ = arena.clear();
    }
}

impl<'a, P: BasePtr, T: Drop, A: Allocator> Iterator for OrderedDrain<'a, P, T, A> {
    type Item = InvalidationOption<(P, T)>;

    ghost next_gives = { OrderedDrainSteps P.Gen.greatest P.numbers };

    ghost remaining = { item_count ordered_drain_rest };

    fn next(&mut self) -> Option<InvalidationOption<(P, T)>> {
        let p = self.arena.first()?;
        match self.arena.remove(p).unwrap() {
            InvalidationOption::Success(item) => Some(InvalidationOption::Success((p, item))),
            InvalidationOption::GenerationOverflow(item) => {
                Some(InvalidationOption::GenerationOverflow((p, item)))
            }
        }
    }
}

/// Returns the pointers and the items of an arena that it owns, in list order. Items not yet returned are dropped with it.
#[derive(Drop)]
pub struct CapacityDrain<P: BasePtr, T, A: Allocator = Global> {
    arena: SimpleOrdArena<P, T, A>,
}

impl<P: BasePtr, T, A: Allocator> Model for CapacityDrain<P, T, A> {
    ghost use Rattle.std.specs.Prelude.{List};
    ghost use Rattle.std.specs.Coded.{coded_list};
    ghost use Rattle.ord_tree.specs.Chain.{Entry};
    ghost use Rattle.ord_tree.specs.Tree.{entry_code};

    ghost Value = { List (Entry T) };

    ghost coded = { coded_list (entry_code T.code) };

    ghost view = { λ d. d.arena.list.entries };
}

impl<P: BasePtr, T: Drop, A: Allocator> Iterator for CapacityDrain<P, T, A> {
    type Item = (P, T);

    ghost next_gives = { YieldsFirstBy
        (λ x. record { index = (P.numbers x.0).0; generation = (P.numbers x.0).1; item = x.1 })
        (λ left. left) };

    ghost remaining = { item_count (λ left. left) };

    fn next(&mut self) -> Option<(P, T)> {
        let first = self.arena.first()?;
        let item = self.arena.remove(first).allow()?;
        Some((first, item))
    }

    fn size_hint(&self) -> (usize, Option<usize>)
        ensures { IsExactHint self.now result }
    {
        let left = self.arena.len();
        (left, Some(left))
    }
}

impl<P: BasePtr, T: Drop, A: Allocator> ExactSizeIterator for CapacityDrain<P, T, A> {
    fn len(&self) -> usize {
        self.arena.len()
    }
}

impl<P: BasePtr, T: Drop, A: Allocator> IntoIterator for SimpleOrdArena<P, T, A> {
    type Item = (P, T);

    type IntoIter = CapacityDrain<P, T, A>;

    ghost into_iter_gives = { λ a d. d ≡ a.list.entries };

    fn into_iter(self) -> CapacityDrain<P, T, A> {
        CapacityDrain { arena: self }
    }
}
