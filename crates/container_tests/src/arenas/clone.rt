//! Clones of arenas.
use super::support::{Counts, counts, p0};
use arena_base::{Arena, P0, ReallocationError};
use linked_list_allocator::LocalHeap;
use std::alloc::{AllocError, Global};

/// Returns three entries at the indexes 2, 3 and 5, two of them with the first generation. Indexes 4 and 1 were freed, in this order.
fn source(alloc: Global) -> Arena<P0, char> {
    let mut arena = Arena::new(alloc);
    for item in &['a', 'b', 'c', 'd', 'e'] {
        let _ = arena.insert_reallocating(*item);
    }
    let _ = arena.remove(p0(4, 2));
    let _ = arena.remove(p0(1, 2));
    let _ = arena.invalidate(p0(3, 2));
    arena
}

/// An arena of vectors of letters, all on one heap.
type Letters<'a> = Arena<P0, Vec<char, &'a LocalHeap>, &'a LocalHeap>;

/// Inserts an item of two letters, if there is memory.
fn insert_two<'a>(heap: &'a LocalHeap, arena: &mut Letters<'a>) -> bool {
    match Vec::from_array(heap, ['x', 'y']) {
        Ok(item) => arena.insert_reallocating(item).is_ok(),
        Err(_) => false,
    }
}

/// Makes an arena a clone of the source, with forty letters for each one.
fn clone_into<'a>(
    heap: &'a LocalHeap,
    arena: &mut Letters<'a>,
    source: &Arena<P0, char>,
) -> Result<(), ReallocationError> {
    arena.try_clone_from_with(source, |_p, letter: &char| {
        Vec::from_array(heap, [*letter; 40]).map_err(|_| AllocError)
    })
}

/// What a clone leaves: whether it succeeded, the counts, and the number of letters at the indexes 1 and 5.
type Left = (bool, Counts, usize, usize);

/// Returns what a clone leaves in an empty arena that gets an entry first; `None` if there is no room for that.
fn left_in<'a>(
    heap: &'a LocalHeap,
    arena: &mut Letters<'a>,
    source: &Arena<P0, char>,
) -> Option<Left> {
    if !insert_two(heap, arena) {
        return None;
    }
    let is_cloned = clone_into(heap, arena, source).is_ok();
    Some((
        is_cloned,
        counts(arena),
        letters_at(arena, 1),
        letters_at(arena, 5),
    ))
}

/// Does the same on a heap.
fn left_on(heap: &LocalHeap, source: &Arena<P0, char>) -> Option<Left> {
    let mut arena = Letters::new(heap);
    left_in(heap, &mut arena, source)
}

fn letters_at(arena: &Letters, inx: u32) -> usize {
    match arena.get_inx(inx) {
        Some((2, letters)) => letters.len(),
        _ => 0,
    }
}

/// The clone; the unchanged arena, after growing failed; and an empty one, after an item was refused.
const LEFT: [Left; 3] = [
    (true, (3, 5, 5, Some((1, 5))), 0, 40),
    (false, (1, 4, 2, Some((2, 2))), 2, 0),
    (false, (0, 5, 5, Some((1, 5))), 0, 0),
];

/// Returns which of these it is.
fn case_of(left: &Left) -> Option<usize> {
    for (case, wanted) in LEFT.iter().enumerate() {
        if *wanted == *left {
            return Some(case);
        }
    }
    None
}

#[test]
fn a_failed_clone_leaves_the_arena_unchanged_or_empty(rt: HostRuntime) {
    let source = source(rt.alloc());
    let mut is_met = [false; 3];
    for units in 1..128usize {
        let heap = LocalHeap::new(rt.alloc(), 16 * units).expect(&rt, "a heap");
        if let Some(left) = left_on(&heap, &source) {
            is_met[case_of(&left).expect(&rt, "a known case") % 3] = true;
        }
        assert!(rt; heap.used() == 0);
    }
    assert!(rt; is_met == [true; 3]);
}
