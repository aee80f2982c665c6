//! `Arena`: entries in the slots of one vector, with a stack of the vacant slots.
ghost use Rattle.std.specs.Prelude.{◌≡◌, ◌==◌, ◌<◌, ◌≤◌};
ghost use Rattle.arena_base.specs.Generation.{IsLawfulGeneration};
ghost use Rattle.arena_base.specs.Invalidation.{Raises};
ghost use Rattle.arena_base.specs.Arena.{arena_len, arena_capacity, arena_limit, raised, Measures};

mod clone;
mod compress;
mod drain;
mod get;
mod growth;
mod index;
mod insert;
mod recast;
mod remove;
mod traits;
mod walks;
mod write;

use crate::invalidation::InvalidationOption;
use crate::ptr::{BasePtr, BasePtrGen, BasePtrInx, P0, P8};
use crate::slot::Slot;
pub use drain::Drain;
pub use growth::doubled_capacity;
use std::alloc::{Allocator, Global};
use std::marker::Model;
use std::mem::size_of;
pub use walks::PtrAdvancer;

/// A generational arena. A pointer is an entry's index, and the arena's generation at the entry's insertion or last renewal.
///
/// A removal raises the generation, so the pointer of a removed entry isn't valid for the next entry at that index. An insertion takes
/// the slot that was freed last, else the least slot never used.
///
/// The calls take only this arena's pointer type. If `arena` is an `Arena<P0, u64>` and `q` a `Q0`, `arena.get(q)` doesn't compile:
/// `error[mismatched-types]: expected `P0`, found `Q0``.
#[derive(Drop)]
pub struct Arena<P: BasePtr, T, A: Allocator = Global> {
    slots: Vec<Slot<T, P::Gen>, A>,
    // The free list: all indexes without an entry; the last is taken next. It has room for all indexes, so a removal needs no memory.
    vacant: Vec<VacantInx<P>, A>,
    generation: P::Gen,
    maximum: Option<usize>,
}

// The free list names a vacant slot by its index.
type VacantInx<P> = <P as BasePtr>::Inx;

// So each element takes no more than an index: a byte in an arena of bytes, half a word in the usual one.
const _: () = prove!(size_of::<VacantInx<P8>>() == 1);

const _: () = prove!(size_of::<VacantInx<P0>>() == 4);

impl<P: BasePtr, T, A: Allocator> Model for Arena<P, T, A> {
    ghost use Rattle.std.specs.Prelude.{◌≤◌, map, vec_len, vec_capacity};
    ghost use Rattle.arena_base.specs.Arena.{Arena as Slots};

    ghost Value = { Slots T };

    ghost use Rattle.arena_base.specs.Arena.{IsSound};
    ghost use Rattle.arena_base.specs.Slot.{arena_of};

    ghost view = { λ a. arena_of P.Gen.number a.slots.items
        (map P.Inx.number a.vacant.items) a.generation a.maximum };

    ghost invariant = { λ a. IsSound P.Inx.most P.Gen.greatest
        (arena_of P.Gen.number a.slots.items
        (map P.Inx.number a.vacant.items) a.generation a.maximum)
        × (vec_len a.slots ≤ vec_capacity a.vacant) };
}

impl<P: BasePtr, T, A: Allocator> Arena<P, T, A> {
    /// Returns how many entries the arena holds without growing.
    pub fn capacity(&self) -> usize
        ensures { Measures P.Inx.most P.Gen.greatest self.now result (arena_capacity self.now) }
    {
        self.slots.len()
    }

    /// Returns the maximum that was set, if any. The capacity never exceeds it, nor the greatest index of an entry.
    pub fn max_capacity(&self) -> Option<usize>
        ensures { result ≡ self.now.maximum }
    {
        self.maximum
    }

    /// Returns the number of entries.
    pub fn len(&self) -> usize
        ensures { Measures P.Inx.most P.Gen.greatest self.now result (arena_len self.now) }
    {
        self.slots.len() - self.vacant.len()
    }

    /// Returns whether there are no entries.
    pub fn is_empty(&self) -> bool
        ensures { result ≡ (arena_len self.now == 0) }
    {
        self.len() == 0
    }

    /// Returns the generation that the next entry gets.
    pub fn generation(&self) -> P::Gen
        ensures value { P.Gen.number result ≡ self.now.generation }
        ensures lawful { IsLawfulGeneration P.Gen.greatest self.now.generation }
    {
        self.generation
    }

    /// Returns the allocator handle that the arena keeps for growing.
    ///
    /// It has no clause: an arena's value in contracts has no allocator, and a clause can't distinguish two handles of one type.
    pub fn alloc(&self) -> A
    where
        A: Copy,
    {
        *self.slots.allocator()
    }

    /// Sets the generation, which must be lawful. Entries keep theirs.
    pub fn set_generation(&mut self, generation: P::Gen)
        requires { IsLawfulGeneration P.Gen.greatest (P.Gen.number generation) }
        ensures { self.new ≡ record self.old { generation = P.Gen.number generation } }
    {
        self.generation = generation;
    }

    /// Raises the generation. Entries keep theirs. After the greatest comes the first again, which is an overflow.
    pub fn inc_generation(&mut self) -> InvalidationOption<()>
        ensures { Raises P.Gen.greatest self.old.generation result
            (self.new ≡ raised P.Gen.greatest self.old) }
    {
        let (next, overflow) = self.generation.generational_inc();
        self.generation = next;
        if overflow {
            InvalidationOption::GenerationOverflow(())
        } else {
            InvalidationOption::Success(())
        }
    }

    // The greatest capacity that the arena may have.
    fn limit(&self) -> usize
        ensures value { result ≡ arena_limit P.Inx.most self.now }
        ensures within { arena_capacity self.now ≤ arena_limit P.Inx.most self.now }
    {
        match self.maximum {
            Some(maximum) => maximum.min(P::Inx::limit()),
            None => P::Inx::limit(),
        }
    }
}
