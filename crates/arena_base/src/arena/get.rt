//! Lookup of entries.
ghost use Rattle.std.specs.Prelude.{◌≡◌, ◌+◌, ◌<◌, ◌↔◌, IfSome, IsNone, IfNone, Some, None, is_some};
ghost use Rattle.std.specs.Option.{option_copied, option_map};
ghost use Rattle.arena_base.specs.Arena.{slot, generation_at, item_of, arena_len, arena_capacity, next_index, IsVacant, IsOccupied, IsSound, FindsFirstEntry, FindsLastEntry};

use super::Arena;
use crate::ptr::{BasePtr, BasePtrInx};
use crate::slot::Slot;
use std::alloc::Allocator;

impl<P: BasePtr, T, A: Allocator> Arena<P, T, A> {
    /// Returns whether `p` names an entry.
    pub fn contains(&self, p: P) -> bool
        ensures { result ≡ is_some (item_of self.now (P.numbers p)) }
    {
        self.get(p).is_some()
    }

    /// Returns whether index `i` has an entry.
    pub fn contains_inx(&self, i: P::Inx) -> bool
        ensures { result ≡ is_some (slot self.now (P.Inx.number i)) }
    {
        self.get_inx(i).is_some()
    }

    /// Returns the item of `p`; `None` if `p` is stale.
    pub fn get(&self, p: P) -> Option<&T>
        ensures { option_copied result ≡ item_of self.now (P.numbers p) }
    {
        match self.get_inx(p.inx()) {
            Some((generation, item)) if generation == p.generation() => Some(item),
            _ => None,
        }
    }

    /// Returns the generation and the item of the entry at index `i`; `None` if there is none.
    pub fn get_inx(&self, i: P::Inx) -> Option<(P::Gen, &T)>
        ensures { option_map (λ e. (P.Gen.number e.0, e.1.now)) result
            ≡ slot self.now (P.Inx.number i) }
    {
        let position = self.position(i)?;
        match &self.slots[position] {
            Slot::Occupied(generation, item) => Some((*generation, item)),
            Slot::Vacant => None,
        }
    }

    /// Returns the generation and the item of the entry at index `i`, which must have one.
    pub fn entry(&self, i: P::Inx) -> (P::Gen, &T)
        requires { IsOccupied self.now (P.Inx.number i) }
        ensures value { slot self.now (P.Inx.number i) ≡ Some (P.Gen.number result.0, result.1.now) }
        ensures sound { IsSound P.Inx.most P.Gen.greatest self.now }
    {
        match &self.slots[self.position_of_entry(i)] {
            Slot::Occupied(generation, item) => (*generation, item),
            Slot::Vacant => unreachable!(),
        }
    }

    /// Returns the pointer that the next insertion gives; `None` if no slot is vacant.
    pub fn next_insertion_ptr(&self) -> Option<P>
        ensures index { option_map (λ p. (P.numbers p).0) result ≡ next_index self.now }
        ensures generation { IfSome result (λ p. (P.numbers p).1 ≡ self.now.generation) }
        ensures vacant { IfSome result (λ p. IsVacant self.now (P.numbers p).0) }
        ensures full { IsNone result ↔ (arena_len self.now ≡ arena_capacity self.now) }
    {
        let i = *self.vacant.last()?;
        Some(P::_from_raw(i, self.generation))
    }

    /// Returns the pointer of the entry with the least index; `None` if the arena is empty.
    pub fn find_first_inx_ptr(&self) -> Option<P>
        ensures { FindsFirstEntry P.numbers self.now result }
    {
        for position in 0..self.capacity() {
            if let Some(generation) = self.generation_at(position) {
                return Some(pointer(position, generation));
            }
        }
        None
    }

    /// Returns the pointer of the entry with the greatest index; `None` if the arena is empty.
    pub fn find_last_inx_ptr(&self) -> Option<P>
        ensures { FindsLastEntry P.numbers self.now result }
    {
        for position in (0..self.capacity()).rev() {
            if let Some(generation) = self.generation_at(position) {
                return Some(pointer(position, generation));
            }
        }
        None
    }

    // The generation of the entry at a position.
    pub(super) fn generation_at(&self, position: usize) -> Option<P::Gen>
        requires { position < arena_capacity self.now }
        ensures { option_map P.Gen.number result ≡ generation_at self.now (position + 1) }
    {
        match &self.slots[position] {
            Slot::Occupied(generation, _) => Some(*generation),
            Slot::Vacant => None,
        }
    }

    // The position of the slot at an index, if it is within the capacity.
    fn position(&self, i: P::Inx) -> Option<usize>
        ensures number { IfSome result (λ position. P.Inx.number i ≡ position + 1) }
        ensures within { IfSome result (λ position. position < arena_capacity self.now) }
        ensures none { IfNone result (slot self.now (P.Inx.number i) ≡ None) }
    {
        // Index 0 becomes the greatest position, so that one comparison excludes it and what is beyond the end.
        let position = i.try_into_usize().unwrap_or(0).wrapping_sub(1);
        if position < self.slots.len() {
            Some(position)
        } else {
            None
        }
    }

    // The position of the slot at an occupied index.
    pub(super) fn position_of_entry(&self, i: P::Inx) -> usize
        requires { IsOccupied self.now (P.Inx.number i) }
        ensures number { P.Inx.number i ≡ result + 1 }
        ensures within { result < arena_capacity self.now }
    {
        // An arena with an entry has a slot.
        prove!(!self.slots.is_empty());
        position_at(i)
    }
}

// The pointer with this generation to the slot at a position.
pub(super) fn pointer<P: BasePtr>(position: usize, generation: P::Gen) -> P
    requires { position < P.Inx.most }
    ensures index { (P.numbers result).0 ≡ position + 1 }
    ensures generation { (P.numbers result).1 ≡ P.Gen.number generation }
{
    P::_from_raw(inx_at(position), generation)
}

// The index of the slot at a position.
pub(super) fn inx_at<I: BasePtrInx>(position: usize) -> I
    requires { position < I.most }
    ensures { I.number result ≡ position + 1 }
{
    I::try_from_usize(position + 1).unwrap()
}

// The position of the slot at an index.
pub(super) fn position_at<I: BasePtrInx>(i: I) -> usize
    requires { 0 < I.number i }
    ensures { I.number i ≡ result + 1 }
{
    i.try_into_usize().unwrap_or(0) - 1
}
