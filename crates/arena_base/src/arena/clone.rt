//! Clones of other arenas, with their pointers.
ghost use Rattle.std.specs.Prelude.{◌≡◌, ◌≤◌, [], max, vec_len, vec_capacity, OnErr};
ghost use Rattle.arena_base.specs.Arena.{arena_limit, arena_capacity, greatest_occupied, IsFresh, IsLawful};
ghost use Rattle.arena_base.specs.Clone.{Grants, IsArenaClone, IsClone, IsRefusedClone, IsShown, StopsAtRefusal};
ghost use Rattle.arena_base.specs.Room.{Reallocates, ClonesBy, ClonesOrFails};
ghost use Rattle.arena_base.specs.SlotMoves.{CanClone, ClonesSlots, MakesItems};
ghost use Rattle.arena_base.specs.Walk.{entries_rising};

use super::Arena;
use super::get::inx_at;
use super::growth::fill_up;
use crate::clone_entry::{CloneEntry, TryCalls};
use crate::error::ReallocationError;
use crate::map_entry::Calls;
use crate::ptr::{BasePtr, BasePtrGen, BasePtrInx};
use crate::slot::Slot;
use crate::traits::ArenaTrait;
use std::alloc::{AllocError, Allocator};

impl<P: BasePtr, T: Drop, A: Allocator> Arena<P, T, A> {
    /// Makes this arena a clone of `source`: it has the source's pointers and generation, and items made by `map`. Its own entries are
    /// dropped.
    ///
    /// `map` is called for each entry of the source, in index order, with its pointer and a reference to its item. If the capacity is
    /// less than the source's greatest occupied index, it grows to that first. The maximum stays, and the free list is ascending, as if
    /// no slot had been used. One pass over the slots of both arenas.
    ///
    /// # Errors
    ///
    /// The arena is unchanged, and `map` isn't called.
    /// - `BeyondMaxCapacity`: the source's greatest occupied index is beyond this arena's limit.
    /// - `AllocError`: growing failed.
    pub fn clone_from_with<U, S: ArenaTrait<P, U>, F: FnMut(P, &U) -> T + Drop>(
        &mut self,
        source: &S,
        map: F,
    ) -> Result<(), ReallocationError>
        requires { F.IsAlwaysCallable map }
        ensures { Reallocates (arena_limit P.Inx.most self.old) (arena_capacity self.old)
            (greatest_occupied (S.content source.now).slots) result
            (IsArenaClone (S.content source.now) self.new
            ((last : F) × IsClone P.numbers (IsShown F.step) map
            (S.content source.now) self.old self.new last)) (self.new ≡ self.old) }
    {
        let mut calls = Calls { f: map };
        self.clone_by(source, &mut calls)
    }

    /// Makes this arena a clone of `source`, as `clone_from_with` does. `map` may be refused memory for an item.
    ///
    /// # Errors
    ///
    /// - `BeyondMaxCapacity`: the source's greatest occupied index is beyond this arena's limit. The arena is unchanged.
    /// - `AllocError`: growing failed, and the arena is unchanged. Or `map` was refused memory, which ends the call: the arena is empty,
    ///   with the source's generation and the capacity of a clone.
    pub fn try_clone_from_with<
        U,
        S: ArenaTrait<P, U>,
        F: FnMut(P, &U) -> Result<T, AllocError> + Drop,
    >(&mut self, source: &S, map: F) -> Result<(), ReallocationError>
        requires { F.IsAlwaysCallable map }
        ensures { ClonesOrFails (arena_limit P.Inx.most self.old) (arena_capacity self.old)
            (greatest_occupied (S.content source.now).slots) result
            (IsArenaClone (S.content source.now) self.new
            ((last : F) × IsClone P.numbers (Grants P.numbers (IsShown F.step)) map
            (S.content source.now) self.old self.new last))
            (self.new ≡ self.old)
            ((last : F) × IsRefusedClone P.numbers (IsShown F.step) map
            (S.content source.now) self.old self.new last) }
    {
        let mut calls = TryCalls { f: map };
        self.clone_by(source, &mut calls)
    }

    /// Makes this arena a clone of `source`, as `try_clone_from_with` does, with `map` in place of the closure.
    ///
    /// `map` is left in the state after the call for the last entry, or after the refused call. It is unchanged if growing fails or the
    /// index is beyond the limit.
    pub fn clone_by<U, S: ArenaTrait<P, U>, M: CloneEntry<P, U, T>>(
        &mut self,
        source: &S,
        map: &mut M,
    ) -> Result<(), ReallocationError>
        requires { M.callable map.old }
        ensures { ClonesBy (arena_limit P.Inx.most self.old) (arena_capacity self.old)
            (greatest_occupied (S.content source.now).slots) result (M.callable map.new)
            (IsLawful P.Inx.most P.Gen.greatest (S.content source.now))
            (IsArenaClone (S.content source.now) self.new
            (IsClone P.numbers (Grants P.numbers M.step) map.old
            (S.content source.now) self.old self.new map.new))
            ((self.new ≡ self.old) × (map.new ≡ map.old))
            (IsRefusedClone P.numbers M.step map.old
            (S.content source.now) self.old self.new map.new) }
    {
        let needed = greatest_occupied(source);
        self.raise_capacity(needed)?;
        match self.take_over(source, needed, map) {
            Ok(()) => Ok(()),
            Err(_) => Err(ReallocationError::AllocError),
        }
    }

    // Raises the capacity to `n` if it is less.
    fn raise_capacity(&mut self, n: usize) -> Result<(), ReallocationError>
        ensures { Reallocates (arena_limit P.Inx.most self.old) (arena_capacity self.old) n result
            ((arena_capacity self.new ≡ max (arena_capacity self.old) n)
            × (self.new.maximum ≡ self.old.maximum)) (self.new ≡ self.old) }
    {
        if n > self.limit() {
            return Err(ReallocationError::BeyondMaxCapacity);
        }
        if n > self.capacity() && self.set_capacity(n).is_err() {
            return Err(ReallocationError::AllocError);
        }
        Ok(())
    }

    // Replaces the slots with clones of the source's, whose greatest occupied index is `n`. If an item is refused, all are vacant.
    fn take_over<U, S: ArenaTrait<P, U>, M: CloneEntry<P, U, T>>(
        &mut self,
        source: &S,
        n: usize,
        map: &mut M,
    ) -> Result<(), AllocError>
        requires { CanClone (M.callable map.old)
            (IsLawful P.Inx.most P.Gen.greatest (S.content source.now)) n
            (greatest_occupied (S.content source.now).slots) (arena_capacity self.old) }
        ensures made { MakesItems result (M.callable map.new)
            (IsClone P.numbers (Grants P.numbers M.step) map.old
            (S.content source.now) self.old self.new map.new)
            (IsRefusedClone P.numbers M.step map.old
            (S.content source.now) self.old self.new map.new) }
        ensures fresh { IsFresh self.new }
    {
        let capacity = self.slots.len();
        self.slots.clear();
        let granted = clone_slots::<P, T, A, U, S, M>(&mut self.slots, source, n, map);
        fill_up(&mut self.slots, &mut self.vacant, capacity);
        self.generation = source.singular_generation().unwrap();
        granted
    }
}

// The greatest occupied index, or 0.
fn greatest_occupied<P: BasePtr, U, S: ArenaTrait<P, U>>(source: &S) -> usize
    ensures value { result ≡ greatest_occupied (S.content source.now).slots }
    ensures lawful { IsLawful P.Inx.most P.Gen.greatest (S.content source.now) }
{
    // For the prover: the source is lawful.
    let _ = source.capacity();
    match source.find_last_inx_ptr() {
        Some(p) => p.inx().try_into_usize().unwrap_or(0),
        None => 0,
    }
}

// Fills the slots with clones of the source's, whose greatest occupied index is `n`. If an item is refused, no slot is left.
fn clone_slots<P: BasePtr, T: Drop, A: Allocator, U, S: ArenaTrait<P, U>, M: CloneEntry<P, U, T>>(
    slots: &mut Vec<Slot<T, P::Gen>, A>,
    source: &S,
    n: usize,
    map: &mut M,
) -> Result<(), AllocError>
    requires can { CanClone (M.callable map.old)
        (IsLawful P.Inx.most P.Gen.greatest (S.content source.now)) n
        (greatest_occupied (S.content source.now).slots) (vec_capacity slots.old) }
    requires empty { slots.old.items ≡ [] }
    ensures made { MakesItems result (M.callable map.new)
        (ClonesSlots P.numbers P.Gen.number (Grants P.numbers M.step) map.old
        (S.content source.now).slots slots.new.items map.new)
        (StopsAtRefusal P.numbers M.step map.old (entries_rising (S.content source.now) 0) map.new) }
    ensures none_left { OnErr result (slots.new.items ≡ []) }
    ensures within { vec_len slots.new ≤ n }
    ensures capacity { vec_capacity slots.new ≡ vec_capacity slots.old }
{
    for position in 0..n {
        let i = inx_at(position);
        match source.get_inx(i) {
            Some(entry) => match map.clone_entry(P::_from_raw(i, entry.0), entry.1) {
                Ok(item) => slots.push_reserved(Slot::Occupied(entry.0, item)),
                Err(refusal) => {
                    slots.clear();
                    return Err(refusal);
                }
            },
            None => slots.push_reserved(Slot::Vacant),
        }
    }
    Ok(())
}
