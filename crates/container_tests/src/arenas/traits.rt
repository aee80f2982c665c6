//! An arena through the traits of all arenas.
use super::support::{numbers, p0};
use arena_base::{Arena, ArenaTrait, P0, SetMaxCapacity, laws};
use std::alloc::Global;

/// Returns the length and the capacity of an arena, and the numbers of its first and last pointers by index.
fn ends<A: ArenaTrait<P0, u64>>(
    arena: &A,
) -> (usize, usize, Option<(u32, u64)>, Option<(u32, u64)>) {
    (
        arena.len(),
        arena.capacity(),
        numbers(arena.find_first_inx_ptr()),
        numbers(arena.find_last_inx_ptr()),
    )
}

/// Writes an item by its pointer, and reads it.
fn written<A: ArenaTrait<P0, u64>>(arena: &mut A, p: P0, item: u64) -> Option<u64> {
    *arena.get_mut(p)? = item;
    Some(*arena.get(p)?)
}

/// Returns whether the item of a pointer can be replaced, and then removed by the next pointer.
fn is_taken<A: ArenaTrait<P0, u64>>(arena: &mut A, p: P0, next: P0) -> bool {
    laws::put(arena, p, 11)
        && written(arena, p, 12) == Some(12)
        && laws::renew(arena, p) == Some(next)
        && laws::take(arena, next) == Some(12)
}

/// Returns whether the capacity shrinks as far as possible, and a maximum below it is refused.
fn is_cut<A: ArenaTrait<P0, u64> + SetMaxCapacity<P0, u64>>(arena: &mut A) -> bool {
    arena.reallocate_min_capacity(0).is_ok() && arena.set_max_capacity(1).is_err()
}

/// Returns whether an arena loses all entries.
fn is_emptied<A: ArenaTrait<P0, u64>>(arena: &mut A) -> bool {
    laws::empty(arena);
    ends(arena) == (0, 2, None, None)
}

/// Returns whether the trait's calls work on an arena with two items, at the indexes 1 and 2, and a capacity of 4.
fn is_an_arena<A: ArenaTrait<P0, u64> + SetMaxCapacity<P0, u64>>(arena: &mut A) -> bool {
    ends(arena) == (2, 4, Some((1, 2)), Some((2, 2)))
        && is_taken(arena, p0(1, 2), p0(1, 3))
        && is_cut(arena)
        && ends(arena) == (1, 2, Some((2, 2)), Some((2, 2)))
        && is_emptied(arena)
}

/// Returns an arena with the items 10 and 20 at the indexes 1 and 2, and a capacity of 4; `None` if memory is refused.
fn two(alloc: Global) -> Option<Arena<P0, u64>> {
    let mut arena: Arena<P0, u64> = ArenaTrait::with_min_capacity(alloc, 4).ok()?;
    for item in &[10u64, 20] {
        let _ = arena.insert_within_capacity(*item);
    }
    Some(arena)
}

#[test]
fn an_arena_works_through_its_traits(rt: HostRuntime) {
    let mut arena = two(rt.alloc()).expect(&rt, "memory");
    assert!(rt; is_an_arena(&mut arena));
}
