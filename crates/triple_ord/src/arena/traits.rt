//! `SimpleOrdArena` as an arena among others.
ghost use Rattle.triple_ord.specs.Content.{content_of};
ghost use Rattle.triple_ord.specs.ContentLaws.{content-written};

use super::SimpleOrdArena;
use arena_base::{
    ArenaTrait, BasePtr, CompactArenaTrait, InvalidationOption, InvalidationResult,
    MaxCapacityReductionError, ReallocationError, SetMaxCapacity,
};
use std::alloc::{AllocError, Allocator};

#[tactic(auto, using(crate::specs::ContentLaws::slot_is, crate::specs::ContentLaws::item_is, crate::specs::ContentLaws::capacity_is, crate::specs::ContentLaws::len_is, crate::specs::ContentLaws::lawful_is, crate::specs::ContentLaws::content_removed, crate::specs::ContentLaws::content_renewed, crate::specs::ContentLaws::content_cleared))]
impl<P: BasePtr, T, A: Allocator + Copy> ArenaTrait<P, T> for SimpleOrdArena<P, T, A> {
    type Alloc = A;

    ghost content = { content_of };

    ghost written_content = { content-written };

    fn new(alloc: A) -> Self {
        SimpleOrdArena::new(alloc)
    }

    fn with_min_capacity(alloc: A, n: usize) -> Result<Self, AllocError> {
        SimpleOrdArena::with_min_capacity(alloc, n)
    }

    fn capacity(&self) -> usize {
        self.capacity()
    }

    fn max_capacity(&self) -> Option<usize> {
        self.max_capacity()
    }

    fn len(&self) -> usize {
        self.len()
    }

    fn is_empty(&self) -> bool {
        self.len() == 0
    }

    fn reallocate_min_capacity(&mut self, n: usize) -> Result<(), ReallocationError> {
        // For the prover: the list is sound.
        let _ = self.len();
        self.reallocate_min_capacity(n)
    }

    fn contains(&self, p: P) -> bool {
        self.contains(p)
    }

    fn singular_generation(&self) -> Option<P::Gen> {
        Some(self.generation())
    }

    fn get(&self, p: P) -> Option<&T> {
        self.get(p)
    }

    fn get_mut(&mut self, p: P) -> Option<&mut T> {
        self.get_mut(p)
    }

    fn get_inx(&self, i: P::Inx) -> Option<(P::Gen, &T)> {
        self.get_inx(i)
    }

    fn find_first_inx_ptr(&self) -> Option<P> {
        self.find_first_inx_ptr()
    }

    fn find_last_inx_ptr(&self) -> Option<P> {
        self.find_last_inx_ptr()
    }

    fn invalidate(&mut self, p: P) -> InvalidationResult<P> {
        // For the prover: the list is sound.
        let _ = self.len();
        self.invalidate(p)
    }

    fn remove(&mut self, p: P) -> InvalidationResult<T> {
        self.remove(p)
    }

    fn remove_inx(&mut self, i: P::Inx) -> InvalidationResult<(P::Gen, T)> {
        self.remove_inx(i)
    }

    fn clear(&mut self) -> InvalidationOption<()>
    where
        T: Drop,
    {
        self.clear()
    }

    fn compress_with<F: FnMut(P, T, P) -> T + Drop>(
        &mut self,
        reset: bool,
        f: F,
    ) -> InvalidationOption<()> {
        self.compress_with(reset, f)
    }
}

impl<P: BasePtr, T, A: Allocator> CompactArenaTrait for SimpleOrdArena<P, T, A> {}

#[tactic(auto, using(crate::specs::ContentLaws::capacity_is))]
impl<P: BasePtr, T, A: Allocator + Copy> SetMaxCapacity<P, T> for SimpleOrdArena<P, T, A> {
    fn set_max_capacity(&mut self, n: usize) -> Result<(), MaxCapacityReductionError> {
        self.set_max_capacity(n)
    }
}
