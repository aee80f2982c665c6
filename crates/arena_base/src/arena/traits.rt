//! The traits of all arenas, for `Arena`.
ghost use Rattle.std.specs.Prelude.{refl};

use super::Arena;
use crate::error::{MaxCapacityReductionError, ReallocationError};
use crate::invalidation::{InvalidationOption, InvalidationResult};
use crate::ptr::{BasePtr, BasePtrGen, BasePtrInx};
use crate::traits::{ArenaCloneFromWith, ArenaTrait, CompactArenaTrait, SetMaxCapacity};
use std::alloc::{AllocError, Allocator};

impl<P: BasePtr, T, A: Allocator + Copy> ArenaTrait<P, T> for Arena<P, T, A> {
    type Alloc = A;

    ghost content = { λ a. a };

    ghost written_content = { λ s i item. refl };

    fn new(alloc: A) -> Self {
        Arena::new(alloc)
    }

    fn with_min_capacity(alloc: A, n: usize) -> Result<Self, AllocError> {
        Arena::with_min_capacity(alloc, n)
    }

    fn capacity(&self) -> usize {
        self.capacity()
    }

    fn max_capacity(&self) -> Option<usize> {
        self.max_capacity()
    }

    fn len(&self) -> usize {
        self.len()
    }

    fn is_empty(&self) -> bool {
        self.is_empty()
    }

    fn reallocate_min_capacity(&mut self, n: usize) -> Result<(), ReallocationError> {
        self.reallocate_min_capacity(n)
    }

    fn contains(&self, p: P) -> bool {
        self.contains(p)
    }

    fn singular_generation(&self) -> Option<P::Gen> {
        Some(self.generation())
    }

    fn get(&self, p: P) -> Option<&T> {
        self.get(p)
    }

    fn get_mut(&mut self, p: P) -> Option<&mut T> {
        self.get_mut(p)
    }

    fn get_inx(&self, i: P::Inx) -> Option<(P::Gen, &T)> {
        self.get_inx(i)
    }

    fn find_first_inx_ptr(&self) -> Option<P> {
        self.find_first_inx_ptr()
    }

    fn find_last_inx_ptr(&self) -> Option<P> {
        self.find_last_inx_ptr()
    }

    fn invalidate(&mut self, p: P) -> InvalidationResult<P> {
        self.invalidate(p)
    }

    fn remove(&mut self, p: P) -> InvalidationResult<T> {
        self.remove(p)
    }

    fn remove_inx(&mut self, i: P::Inx) -> InvalidationResult<(P::Gen, T)> {
        self.remove_inx(i)
    }

    fn clear(&mut self) -> InvalidationOption<()>
    where
        T: Drop,
    {
        self.clear()
    }

    fn compress_with<F: FnMut(P, T, P) -> T + Drop>(
        &mut self,
        reset: bool,
        f: F,
    ) -> InvalidationOption<()> {
        self.compress_with(reset, f)
    }
}

impl<P: BasePtr, T, A: Allocator> CompactArenaTrait for Arena<P, T, A> {}

impl<P: BasePtr, T, A: Allocator + Copy> SetMaxCapacity<P, T> for Arena<P, T, A> {
    fn set_max_capacity(&mut self, n: usize) -> Result<(), MaxCapacityReductionError> {
        self.set_max_capacity(n)
    }
}

impl<P: BasePtr, T, A: Allocator + Copy> ArenaCloneFromWith<P, T> for Arena<P, T, A> {
    fn clone_from_with<U, S: ArenaTrait<P, U>, F: FnMut(P, &U) -> T + Drop>(
        &mut self,
        source: &S,
        map: F,
    ) -> Result<(), ReallocationError>
    where
        T: Drop,
    {
        self.clone_from_with(source, map)
    }
}
