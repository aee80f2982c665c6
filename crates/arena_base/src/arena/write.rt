//! Writing items in place.
ghost use Rattle.std.specs.Prelude.{◌≡◌};
ghost use Rattle.std.specs.Option.{option_copied_mut};
ghost use Rattle.std.specs.Borrow.{sem, LendsIf};
ghost use Rattle.arena_base.specs.Arena.{slot, item_of, with_item, swapped, IsOccupied, IsSound};

use super::Arena;
use crate::items_mut::ItemsMut;
use crate::ptr::{BasePtr, BasePtrInx};
use std::alloc::Allocator;

impl<P: BasePtr, T, A: Allocator> ItemsMut<P, T> for Arena<P, T, A> {
    ghost entry_at = { slot };

    ghost written = { with_item };

    fn contains_inx(&self, i: P::Inx) -> bool {
        self.contains_inx(i)
    }

    fn pair_mut(&mut self, i: P::Inx) -> (P::Gen, &mut T) {
        let position = self.position_of_entry(i);
        let generation = self.slots[position].generation();
        let slot = &mut self.slots[position];
        (generation, slot.item_mut())
    }
}

impl<P: BasePtr, T, A: Allocator> Arena<P, T, A> {
    ghost use Rattle.arena_base.specs.contracts.arena.Arena.{the_row};

    /// Returns the item of `p` for writing; `None` if `p` is stale.
    pub fn get_mut(&mut self, p: P) -> Option<&mut T>
        ensures* writes_back { sem 𝓛 (LendsIf (the_row P.row T.row A.row P.Inx.row P.Gen.row
            P.BasePtr.own P.PartialEq P.Inx.BasePtrInx.own P.Inx.PartialEq
            P.Gen.BasePtrGen.own P.Gen.PartialEq A.Allocator)
            T.row self.entry result (with_item self.old (P.numbers p).0) self.old) }
        ensures value { option_copied_mut result ≡ item_of self.old (P.numbers p) }
    {
        if self.contains(p) {
            Some(self.pair_mut(p.inx()).1)
        } else {
            None
        }
    }

    /// Swaps the items at two occupied indexes. Each entry keeps its generation.
    pub fn swap_inx(&mut self, i: P::Inx, j: P::Inx)
        requires first { IsOccupied self.old (P.Inx.number i) }
        requires second { IsOccupied self.old (P.Inx.number j) }
        ensures after { self.new ≡ swapped self.old (P.Inx.number i) (P.Inx.number j) }
        ensures sound { IsSound P.Inx.most P.Gen.greatest self.old }
    {
        let first = self.position_of_entry(i);
        let second = self.position_of_entry(j);
        let kept_first = self.slots[first].generation();
        let kept_second = self.slots[second].generation();
        self.slots.swap(first, second);
        let slot = &mut self.slots[first];
        slot.renew(kept_first);
        let slot = &mut self.slots[second];
        slot.renew(kept_second);
    }
}
