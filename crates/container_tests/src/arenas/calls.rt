//! Calls in a row, with the result and the state after each.
use super::support::{Counts, counts, numbers, p0};
use arena_base::{Arena, InvalidationOption, ItemsMut, P0};

/// A call on an arena of numbers.
#[derive(Clone, Copy)]
enum Call {
    Insert(u64),
    InsertWithin(u64),
    Get(u32, u64),
    Remove(u32, u64),
    Invalidate(u32, u64),
    Reallocate(usize),
    Limit(usize),
    Clear,
}

/// The result of a call: the numbers of a pointer, or an index and the item there; `None` on failure.
type Given = Option<(u32, u64)>;

/// The result of a call that returns nothing.
const DONE: Given = Some((0, 0));

fn given(arena: &mut Arena<P0, u64>, call: Call) -> Given {
    match call {
        Call::Insert(item) => numbers(arena.insert_reallocating(item).ok()),
        Call::InsertWithin(item) => numbers(arena.insert_within_capacity(item).ok()),
        Call::Get(inx, generation) => Some((inx, *arena.get(p0(inx, generation))?)),
        Call::Remove(inx, generation) => Some((inx, arena.remove(p0(inx, generation)).allow()?)),
        Call::Invalidate(inx, generation) => numbers(arena.invalidate(p0(inx, generation)).allow()),
        Call::Reallocate(n) => done(arena.reallocate_min_capacity(n).is_ok()),
        Call::Limit(n) => done(arena.set_max_capacity(n).is_ok()),
        Call::Clear => done(arena.clear() == InvalidationOption::Success(())),
    }
}

fn done(is_done: bool) -> Given {
    if is_done { DONE } else { None }
}

/// A call, its result, and the counts after it.
type Row = (Call, Given, Counts);

/// Calls on an arena that is empty at first.
const ROWS: [Row; 26] = [
    // two entries
    (Call::Insert(10), Some((1, 2)), (1, 4, 2, Some((2, 2)))),
    (Call::Insert(20), Some((2, 2)), (2, 4, 2, Some((3, 2)))),
    (Call::Remove(1, 2), Some((1, 10)), (1, 4, 3, Some((1, 3)))),
    (Call::Get(1, 2), None, (1, 4, 3, Some((1, 3)))),
    (
        Call::Invalidate(2, 2),
        Some((2, 4)),
        (1, 4, 4, Some((1, 4))),
    ),
    (Call::Get(2, 4), Some((2, 20)), (1, 4, 4, Some((1, 4)))),
    (Call::Invalidate(2, 2), None, (1, 4, 4, Some((1, 4)))),
    (Call::Clear, DONE, (0, 4, 5, Some((1, 5)))),
    // the slot freed last comes first
    (Call::Insert(10), Some((1, 5)), (1, 4, 5, Some((2, 5)))),
    (Call::Insert(20), Some((2, 5)), (2, 4, 5, Some((3, 5)))),
    (Call::Insert(30), Some((3, 5)), (3, 4, 5, Some((4, 5)))),
    (Call::Remove(1, 5), Some((1, 10)), (2, 4, 6, Some((1, 6)))),
    (Call::Remove(2, 5), Some((2, 20)), (1, 4, 7, Some((2, 7)))),
    (Call::InsertWithin(1), Some((2, 7)), (2, 4, 7, Some((1, 7)))),
    (Call::InsertWithin(2), Some((1, 7)), (3, 4, 7, Some((4, 7)))),
    (Call::InsertWithin(3), Some((4, 7)), (4, 4, 7, None)),
    (Call::InsertWithin(4), None, (4, 4, 7, None)),
    // the capacity shrinks to the last entry, and the free list is ascending
    (Call::Remove(2, 7), Some((2, 1)), (3, 4, 8, Some((2, 8)))),
    (Call::Remove(4, 7), Some((4, 3)), (2, 4, 9, Some((4, 9)))),
    (Call::Reallocate(0), DONE, (2, 3, 9, Some((2, 9)))),
    // and grows to a maximum
    (Call::Limit(2), None, (2, 3, 9, Some((2, 9)))),
    (Call::Limit(5), DONE, (2, 3, 9, Some((2, 9)))),
    (Call::Insert(5), Some((2, 9)), (3, 3, 9, None)),
    (Call::Reallocate(6), None, (3, 3, 9, None)),
    (Call::Insert(6), Some((4, 9)), (4, 5, 9, Some((5, 9)))),
    (Call::Get(3, 5), Some((3, 30)), (4, 5, 9, Some((5, 9)))),
];

#[test]
fn each_call_gives_its_result_and_leaves_its_counts(rt: HostRuntime) {
    let mut arena = Arena::new(rt.alloc());
    for (call, wanted, left) in &ROWS {
        assert!(rt; given(&mut arena, *call) == *wanted);
        assert!(rt; counts(&arena) == *left);
    }
}
