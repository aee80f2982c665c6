//! New chain arenas, and changes of the capacity.
ghost use Rattle.std.specs.Prelude.{◌≡◌, ◌<◌, ◌≤◌, Some, max, length, IsSome, OnOk};
ghost use Rattle.arena_base.specs.Invalidation.{Raises};
ghost use Rattle.arena_base.specs.Room.{Allocates, Reallocates, LimitsCapacity, FailsOnlyIfFull};
ghost use Rattle.chain_base.specs.Chain.{new_chain, with_capacity, with_room, cleared, greatest_index, next_index, chain_limit};

use super::ChainArena;
use arena_base::{
    Arena, BasePtr, BasePtrInx, InsertionError, InvalidationOption, MaxCapacityReductionError,
    ReallocationError, doubled_capacity,
};
use std::alloc::{AllocError, Allocator};

impl<P: BasePtr, T, A: Allocator> ChainArena<P, T, A> {
    /// Creates an empty chain arena with capacity 0 and no maximum. It takes no memory until it grows.
    pub fn new(alloc: A) -> Self
    where
        A: Copy,
        ensures { result ≡ new_chain P.Gen.greatest }
    {
        ChainArena {
            arena: Arena::new(alloc),
            first: None,
            last: None,
        }
    }

    /// Creates an empty chain arena with room for `n` entries.
    ///
    /// # Errors
    ///
    /// `AllocError`: memory is refused, or `n` is beyond the greatest index of an entry.
    pub fn with_min_capacity(alloc: A, n: usize) -> Result<Self, AllocError>
    where
        A: Copy,
        ensures { Allocates P.Inx.most n result
            (λ c. c ≡ with_capacity (new_chain P.Gen.greatest) n) }
    {
        Ok(ChainArena {
            arena: Arena::with_min_capacity(alloc, n)?,
            first: None,
            last: None,
        })
    }

    /// Sets the capacity to the greater of `n` and the greatest occupied index. The free list is ascending then, as if no slot had been
    /// used.
    ///
    /// # Errors
    ///
    /// The chain is unchanged.
    /// - `BeyondMaxCapacity`: `n` is beyond the maximum or the greatest index of an entry.
    /// - `AllocError`: growing failed.
    #[cold]
    #[inline(never)]
    pub fn reallocate_min_capacity(&mut self, n: usize) -> Result<(), ReallocationError>
        ensures { Reallocates (chain_limit P.Inx.most self.old) self.old.capacity n result
            (self.new ≡ with_capacity self.old (max n (greatest_index self.old.entries)))
            (self.new ≡ self.old) }
    {
        self.arena.reallocate_min_capacity(n)
    }

    /// Makes sure that a slot is vacant: grows if none is. The next insertion takes the slot that it would have taken after growing by
    /// itself, and needs no memory.
    ///
    /// Growing doubles the capacity, to at least 4 and at most the limit, in O(capacity).
    ///
    /// # Errors
    ///
    /// The chain is unchanged.
    /// - `BeyondMaxCapacity`: no slot is vacant, and the capacity is at the limit.
    /// - `AllocError`: no slot is vacant, and growing failed.
    #[inline(always)]
    pub fn make_room(&mut self) -> Result<(), InsertionError>
        ensures ok { OnOk result (self.new ≡ with_room P.Inx.most self.old) }
        ensures room { OnOk result (length self.new.entries < self.new.capacity) }
        ensures next { OnOk result (IsSome (next_index self.new)) }
        ensures kept { self.new.entries ≡ self.old.entries }
        ensures capacity { self.old.capacity ≤ self.new.capacity }
        ensures refused { FailsOnlyIfFull (length self.old.entries) self.old.capacity
            (chain_limit P.Inx.most self.old) result (self.new ≡ self.old) }
    {
        let capacity = self.capacity();
        if self.len() < capacity {
            return Ok(());
        }
        let limit = self.limit();
        if capacity >= limit {
            return Err(InsertionError::BeyondMaxCapacity);
        }
        match self.reallocate_min_capacity(doubled_capacity(limit, capacity)) {
            Ok(()) => Ok(()),
            Err(_) => Err(InsertionError::AllocError),
        }
    }

    /// Returns the greatest capacity that the arena may have: its maximum, if one is set, and at most the greatest index of a pointer.
    pub fn limit(&self) -> usize
        ensures { result ≡ chain_limit P.Inx.most self.now }
    {
        match self.max_capacity() {
            Some(maximum) => maximum.min(P::Inx::limit()),
            None => P::Inx::limit(),
        }
    }

    /// Sets the maximum of the capacity.
    ///
    /// # Errors
    ///
    /// The chain is unchanged: its capacity is already greater than `n`.
    pub fn set_max_capacity(&mut self, n: usize) -> Result<(), MaxCapacityReductionError>
        ensures { LimitsCapacity self.old.capacity n result
            (self.new ≡ record self.old { maximum = Some n }) (self.new ≡ self.old) }
    {
        self.arena.set_max_capacity(n)
    }

    /// Drops all entries and raises the generation once, even if there are no entries. The capacity stays, and the free list is
    /// ascending, as if no slot had been used. No memory.
    pub fn clear(&mut self) -> InvalidationOption<()>
    where
        T: Drop,
        ensures { Raises P.Gen.greatest self.old.generation result
            (self.new ≡ cleared P.Gen.greatest self.old) }
    {
        self.first = None;
        self.last = None;
        self.arena.clear()
    }
}
