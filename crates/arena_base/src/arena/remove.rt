//! Removals, and renewals of pointers.
ghost use Rattle.std.specs.Prelude.{◌≡◌, ◌<◌, Some, is_some};
ghost use Rattle.std.specs.Option.{option_map};
ghost use Rattle.arena_base.specs.Arena.{slot, item_of, freed, with_slot, removed, renewed, IsOccupied};
ghost use Rattle.arena_base.specs.Invalidation.{valid_value, allowed_value, IsRemoval, IsRenewal, IsSureRemoval};

use super::Arena;
use crate::invalidation::{InvalidationOption, InvalidationResult};
use crate::ptr::{BasePtr, BasePtrGen, BasePtrInx};
use crate::slot::Slot;
use std::alloc::Allocator;

impl<P: BasePtr, T, A: Allocator> Arena<P, T, A> {
    /// Removes the entry of `p`, returns its item, and raises the generation. O(1). The next insertion takes its slot.
    ///
    /// If `p` is stale, returns `InvalidPtr` and nothing changes.
    pub fn remove(&mut self, p: P) -> InvalidationResult<T>
        ensures { IsRemoval P.Gen.greatest self.old.generation result
            (valid_value result) (item_of self.old (P.numbers p))
            (self.new ≡ removed P.Gen.greatest self.old (P.numbers p).0) (self.new ≡ self.old) }
    {
        if self.contains(p) {
            self.remove_entry(p.inx())
                .valid()
                .map(|entry: (P::Gen, T)| entry.1)
        } else {
            InvalidationResult::InvalidPtr
        }
    }

    /// Removes the entry at index `i`, returns its generation and item, and raises the arena's generation. O(1). The next insertion takes
    /// its slot.
    ///
    /// If the index has no entry, returns `InvalidPtr` and nothing changes.
    pub fn remove_inx(&mut self, i: P::Inx) -> InvalidationResult<(P::Gen, T)>
        ensures { IsRemoval P.Gen.greatest self.old.generation result
            (option_map (λ e. (P.Gen.number e.0, e.1)) (valid_value result))
            (slot self.old (P.Inx.number i))
            (self.new ≡ removed P.Gen.greatest self.old (P.Inx.number i)) (self.new ≡ self.old) }
    {
        if !self.contains_inx(i) {
            return InvalidationResult::InvalidPtr;
        }
        self.remove_entry(i).valid()
    }

    /// Removes the entry at index `i`, which must have one, returns its generation and item, and raises the arena's generation. The next
    /// insertion takes its slot.
    pub fn remove_entry(&mut self, i: P::Inx) -> InvalidationOption<(P::Gen, T)>
        requires { IsOccupied self.old (P.Inx.number i) }
        ensures { IsSureRemoval P.Gen.greatest self.old.generation result
            (P.Gen.number (allowed_value result).0, (allowed_value result).1)
            (slot self.old (P.Inx.number i))
            (self.new ≡ removed P.Gen.greatest self.old (P.Inx.number i)) }
    {
        let entry = self.take_entry(i);
        match self.inc_generation() {
            InvalidationOption::Success(()) => InvalidationOption::Success(entry),
            InvalidationOption::GenerationOverflow(()) => InvalidationOption::GenerationOverflow(
                entry,
            ),
        }
    }

    /// Gives the entry of `p` a new pointer, with the same index and the raised generation, and returns it. O(1).
    ///
    /// If `p` is stale, returns `InvalidPtr` and nothing changes.
    pub fn invalidate(&mut self, p: P) -> InvalidationResult<P>
        ensures { IsRenewal P.numbers P.Gen.greatest self.old.generation result (P.numbers p).0
            (is_some (item_of self.old (P.numbers p)))
            (self.new ≡ renewed P.Gen.greatest self.old (P.numbers p).0) (self.new ≡ self.old) }
    {
        if !self.contains(p) {
            return InvalidationResult::InvalidPtr;
        }
        let overflow = self.inc_generation();
        self.renew(p.inx());
        let renewed = P::_from_raw(p.inx(), self.generation);
        match overflow {
            InvalidationOption::Success(()) => InvalidationResult::Success(renewed),
            InvalidationOption::GenerationOverflow(()) => {
                InvalidationResult::GenerationOverflow(renewed)
            }
        }
    }

    // Gives the entry at an occupied index the arena's generation.
    fn renew(&mut self, i: P::Inx)
        requires { IsOccupied self.old (P.Inx.number i) }
        ensures { self.new ≡ with_slot self.old (P.Inx.number i)
            (option_map (λ e. (self.old.generation, e.1)) (slot self.old (P.Inx.number i))) }
    {
        let position = self.position_of_entry(i);
        let generation = self.generation;
        let slot = &mut self.slots[position];
        slot.renew(generation);
    }

    // Takes out the entry at an occupied index.
    fn take_entry(&mut self, i: P::Inx) -> (P::Gen, T)
        requires { IsOccupied self.old (P.Inx.number i) }
        ensures value { slot self.old (P.Inx.number i) ≡ Some (P.Gen.number result.0, result.1) }
        ensures after { self.new ≡ freed self.old (P.Inx.number i) }
    {
        let position = self.position_of_entry(i);
        let slot = &mut self.slots[position];
        let entry = slot.vacate().unwrap();
        self.vacant.push_reserved(i);
        entry
    }
}
