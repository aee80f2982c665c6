//! What several of these files use.
use arena_base::{Arena, BasePtr, P0};
use std::alloc::{Allocator, Global};

pub(super) fn p0(inx: u32, generation: u64) -> P0 {
    P0::_from_raw(inx, generation)
}

/// Returns the numbers of a pointer.
pub(super) fn numbers(p: Option<P0>) -> Option<(u32, u64)> {
    let p = p?;
    Some((p.inx(), p.generation()))
}

/// Length, capacity and generation of an arena, and the next pointer.
pub(super) type Counts = (usize, usize, u64, Option<(u32, u64)>);

pub(super) fn counts<T, A: Allocator>(arena: &Arena<P0, T, A>) -> Counts {
    (
        arena.len(),
        arena.capacity(),
        arena.generation(),
        numbers(arena.next_insertion_ptr()),
    )
}

/// Returns entries with generation 2 at the indexes from 1 to 3, whose items are their indexes.
pub(super) fn three(alloc: Global) -> Arena<P0, u32> {
    let mut arena: Arena<P0, u32> = Arena::new(alloc);
    for item in 1..4u32 {
        let _ = arena.insert_reallocating(item);
    }
    arena
}
