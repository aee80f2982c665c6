//! Insertions.
ghost use Rattle.std.specs.Prelude.{◌≡◌, ◌<◌, ◌≤◌, [], length, OnOk};
ghost use Rattle.arena_base.specs.Arena.{arena_len, arena_capacity, arena_limit, with_room, InsertsItem, IsInsertion, IsSound};
ghost use Rattle.arena_base.specs.Room.{FailsIfFull, FailsOnlyIfFull};

use super::Arena;
use super::get::position_at;
use super::growth::doubled_capacity;
use crate::error::InsertionError;
use crate::ptr::{BasePtr, BasePtrInx};
use std::alloc::Allocator;

impl<P: BasePtr, T: Drop, A: Allocator> Arena<P, T, A> {
    /// Inserts `item` into the first slot of the free list, and returns its pointer. That is the slot freed last, else the least never
    /// used. The entry's generation is the arena's.
    ///
    /// # Errors
    ///
    /// The arena is unchanged and `item` is dropped.
    /// - `NotWithinCapacity`: no slot is vacant.
    pub fn insert_within_capacity(&mut self, item: T) -> Result<P, InsertionError>
        ensures { InsertsItem P.numbers P.Inx.most P.Gen.greatest self.old self.new item result
            (FailsIfFull (arena_len self.old) (arena_capacity self.old) result (self.new ≡ self.old))
            (arena_capacity self.new ≡ arena_capacity self.old) }
    {
        if self.vacant.is_empty() {
            return Err(InsertionError::NotWithinCapacity);
        }
        Ok(self.insert_next(item))
    }

    /// Inserts `item`, as `insert_within_capacity` does, and grows first if no slot is vacant.
    ///
    /// Growing doubles the capacity, to at least 4 and at most the limit.
    ///
    /// # Errors
    ///
    /// The arena is unchanged and `item` is dropped.
    /// - `BeyondMaxCapacity`: the arena is full and its capacity is at the limit.
    /// - `AllocError`: growing failed.
    pub fn insert_reallocating(&mut self, item: T) -> Result<P, InsertionError>
        ensures { InsertsItem P.numbers P.Inx.most P.Gen.greatest
            (with_room P.Inx.most self.old) self.new item result
            (FailsOnlyIfFull (arena_len self.old) (arena_capacity self.old)
            (arena_limit P.Inx.most self.old) result (self.new ≡ self.old))
            (arena_capacity self.old ≤ arena_capacity self.new) }
    {
        if self.vacant.is_empty() {
            self.grow()?;
        }
        Ok(self.insert_next(item))
    }

    // Makes room for at least one more entry.
    fn grow(&mut self) -> Result<(), InsertionError>
        requires { self.old.vacant ≡ [] }
        ensures ok { OnOk result (self.new ≡ with_room P.Inx.most self.old) }
        ensures room { OnOk result (0 < length self.new.vacant) }
        ensures refused { FailsOnlyIfFull (arena_len self.old) (arena_capacity self.old)
            (arena_limit P.Inx.most self.old) result (self.new ≡ self.old) }
    {
        let capacity = self.capacity();
        let limit = self.limit();
        if capacity >= limit {
            return Err(InsertionError::BeyondMaxCapacity);
        }
        match self.set_capacity(doubled_capacity(limit, capacity)) {
            Ok(()) => Ok(()),
            Err(_) => Err(InsertionError::AllocError),
        }
    }
}

impl<P: BasePtr, T, A: Allocator> Arena<P, T, A> {
    /// Inserts `item`, as `insert_within_capacity` does, and returns its pointer. A slot must be vacant, so the call can't fail.
    pub fn insert_reserved(&mut self, item: T) -> P
        requires { arena_len self.old < arena_capacity self.old }
        ensures inserted { IsInsertion self.old self.new item
            (P.numbers result).0 (P.numbers result).1 }
        ensures sound { IsSound P.Inx.most P.Gen.greatest self.new }
    {
        // For the prover: the arena is sound.
        let _ = self.len();
        self.insert_next(item)
    }

    // Inserts an item into the first slot of the free list, which isn't empty.
    fn insert_next(&mut self, item: T) -> P
        requires { 0 < length self.old.vacant }
        ensures inserted { IsInsertion self.old self.new item
            (P.numbers result).0 (P.numbers result).1 }
        ensures sound { IsSound P.Inx.most P.Gen.greatest self.new }
    {
        let generation = self.generation;
        let i = self.vacant.take_last();
        let slot = &mut self.slots[position_at(i)];
        slot.fill(item, generation);
        P::_from_raw(i, generation)
    }
}
