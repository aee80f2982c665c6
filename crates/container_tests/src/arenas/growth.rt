//! Growths that are refused memory.
use super::support::{Counts, counts};
use arena_base::{Arena, InsertionError, P0, ReallocationError};
use linked_list_allocator::LocalHeap;

type Numbers<'a> = Arena<P0, u64, &'a LocalHeap>;

/// Returns the counts of an arena, and the item at index 1.
fn seen(arena: &Numbers) -> (Counts, Option<u64>) {
    let first = match arena.get_inx(1) {
        Some((_, item)) => Some(*item),
        None => None,
    };
    (counts(arena), first)
}

/// Returns whether memory for a greater capacity is refused too, and the arena is as before.
fn is_as_before(arena: &mut Numbers, before: (Counts, Option<u64>)) -> bool {
    arena.reallocate_min_capacity(64) == Err(ReallocationError::AllocError) && seen(arena) == before
}

/// Inserts nine items until memory is refused. Returns how many were inserted; `None` if a refusal is wrong.
fn inserted_into(arena: &mut Numbers) -> Option<usize> {
    for item in 0..9u64 {
        let before = seen(arena);
        if let Err(refusal) = arena.insert_reallocating(item) {
            let is_right = refusal == InsertionError::AllocError && is_as_before(arena, before);
            return is_right.then_some(arena.len());
        }
    }
    Some(9)
}

/// Does the same on a heap.
fn inserted(heap: &LocalHeap) -> Option<usize> {
    let mut arena = Numbers::new(heap);
    inserted_into(&mut arena)
}

#[test]
fn a_refused_growth_leaves_the_arena_unchanged(rt: HostRuntime) {
    let mut is_met = [false; 10];
    for units in 1..128usize {
        let heap = LocalHeap::new(rt.alloc(), 16 * units).expect(&rt, "a heap");
        let len = inserted(&heap).expect(&rt, "a right refusal");
        is_met[len % 10] = true;
        assert!(rt; heap.used() == 0);
    }
    // each growth was refused in turn: from 0, from 4, from 8
    assert!(rt; (is_met[0], is_met[4], is_met[8], is_met[9]) == (true, true, true, true));
}
