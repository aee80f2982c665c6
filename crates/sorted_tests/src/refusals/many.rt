//! Calls that take or give many pairs, where memory is refused.
use super::{OnHeap, leave, new_heap};
use crate::support::Numbers;
use linked_list_allocator::LocalHeap;
use sorted_arena::{ReallocationError, SortedError};
use std::alloc::Global;

/// Pairs with the keys from one number until before another, each with the value 7.
fn between(alloc: Global, from: u64, until: u64) -> Option<Vec<(u64, usize)>> {
    let mut pairs = Vec::new(alloc);
    for k in from..until {
        pairs.push((k, 7)).ok()?;
    }
    Some(pairs)
}

/// Pairs with the keys from one number until before nine.
fn rising(alloc: Global, from: u64) -> Option<Vec<(u64, usize)>> {
    between(alloc, from, 9)
}

/// An arena of the pairs with the keys until before a number, which takes memory once, so that the rest of the heap is one block.
fn filled<'h>(alloc: Global, heap: &'h LocalHeap, until: u64) -> Option<OnHeap<'h>> {
    let pairs = between(alloc, 0, until)?;
    let mut arena = OnHeap::new(heap);
    arena.reserve(pairs.len()).ok()?;
    arena.extend_sorted(pairs).ok()?;
    Some(arena)
}

/// How many entries an arena has, if their keys are the numbers from 0 on, and their values 7.
fn count(arena: &OnHeap) -> Option<u64> {
    let mut next = 0u64;
    for (_, k, v) in arena.iter() {
        if (*k, *v) != (next, 7) {
            return None;
        }
        next = next.saturating_add(1);
    }
    Some(next)
}

/// Whether an arena of nine pairs can be made; `None` if the refusal is another one than a lack of memory, or the pairs don't come back.
fn is_made(alloc: Global, heap: &LocalHeap) -> Option<bool> {
    match OnHeap::from_sorted(heap, rising(alloc, 0)?) {
        Ok(arena) => Some(count(&arena) == Some(9)),
        Err((pairs, refusal)) => {
            let is_back = pairs.as_slice() == rising(alloc, 0)?.as_slice();
            (is_back && refusal == SortedError::AllocError).then_some(false)
        }
    }
}

/// The same of pairs in another order.
fn is_sorted(alloc: Global, heap: &LocalHeap) -> Option<bool> {
    let mut falling = rising(alloc, 0)?;
    falling.reverse();
    match OnHeap::from_unsorted(heap, falling) {
        Ok(arena) => Some(count(&arena) == Some(9)),
        Err((pairs, refusal)) => {
            let is_back = pairs.iter().rev().eq(&rising(alloc, 0)?);
            (is_back && refusal == ReallocationError::AllocError).then_some(false)
        }
    }
}

/// Extends an arena by nine pairs where so much of a heap is left, and by those that come back once all is given back. Answers how many
/// pairs were inserted before one was refused, or `None` if anything goes wrong.
fn inserted_before(alloc: Global, heap: &LocalHeap, units: usize) -> Option<u64> {
    let rest = leave(heap, units)?;
    let (is_made, is_sorted) = (is_made(alloc, heap)?, is_sorted(alloc, heap)?);
    let mut arena = OnHeap::new(heap);
    let refused = match arena.extend_sorted(rising(alloc, 0)?) {
        Ok(()) => Vec::new(alloc),
        Err((refused, SortedError::AllocError)) => refused,
        Err(_) => return None,
    };
    let held = count(&arena)?;
    drop(rest);
    let is_right = (is_made, is_sorted, refused.is_empty()) == (held == 9, held == 9, held == 9);
    let is_done = arena.extend_sorted(refused).is_ok();
    (is_right && is_done && count(&arena) == Some(9)).then_some(held)
}

/// How many pairs were inserted before one was refused, for each room until none is refused. Room for nine at once is less than for the
/// second growth, which wants the new slots beside the old ones; so it is none, four, or all.
fn refusals(alloc: Global) -> Option<[bool; 10]> {
    let heap = new_heap(alloc)?;
    let mut met = [false; 10];
    for units in 0usize..256 {
        let held = inserted_before(alloc, &heap, units)?;
        *met.get_mut(held as usize)? = true;
        if held == 9 {
            return Some(met);
        }
    }
    None
}

#[test]
fn a_refused_extension_keeps_the_pairs_before_it_and_can_be_resumed(rt: HostRuntime) {
    let met = refusals(rt.alloc()).expect(&rt, "the right answers");
    assert_eq!(rt;
        met,
        [
            true, false, false, false, true, false, false, false, false, true
        ]
    );
}

/// The calls that take many entries out of an arena of nine pairs, or bring many in.
#[derive(Clone, Copy)]
enum Move {
    Pop,
    Drain,
    Extract,
    Split,
    Append,
    Clone,
}

/// Pairs on a heap.
type Taken<'h> = Vec<(u64, usize), &'h LocalHeap>;

/// Pops five of nine entries into a vector, or drains them, where so much of a heap is left. Answers whether that is refused, or `None` if
/// anything has changed all the same.
fn refuses_to_take<'h>(
    heap: &'h LocalHeap,
    arena: &mut Numbers,
    taken: &mut Taken<'h>,
    call: Move,
    units: usize,
) -> Option<bool> {
    let _block = leave(heap, units)?;
    let is_refused = match call {
        Move::Pop => arena.pop_until(&4, taken).is_err(),
        _ => arena.drain_range(..5, taken).is_err(),
    };
    let is_kept = (arena.len(), taken.len()) == (9, 0);
    (is_kept || !is_refused).then_some(is_refused)
}

/// An arena of the pairs with the keys from one number until before nine.
fn rising_arena(alloc: Global, from: u64) -> Option<Numbers> {
    Numbers::from_sorted(alloc, rising(alloc, from)?).ok()
}

/// Does so, and once more when all is given back. Answers whether the first call was refused, or `None` if anything goes wrong.
fn takes(alloc: Global, heap: &LocalHeap, call: Move, units: usize) -> Option<bool> {
    let mut arena = rising_arena(alloc, 0)?;
    let mut taken = Vec::new(heap);
    let was_refused = refuses_to_take(heap, &mut arena, &mut taken, call, units);
    let is_done = arena.drain_range(..5, &mut taken).is_ok();
    if is_done && (arena.len(), taken.len()) == (4, 5) {
        was_refused
    } else {
        None
    }
}

/// Extracts five of nine entries into a vector, where so much of a heap is left, as [`refuses_to_take`].
fn extracts(alloc: Global, heap: &LocalHeap, units: usize) -> Option<bool> {
    let mut arena = rising_arena(alloc, 0)?;
    let mut taken = Vec::new(heap);
    let _block = leave(heap, units)?;
    let mut asked = 0usize;
    let is_refused = arena
        .extract_if(
            ..5,
            |_, _, _| {
                asked = asked.wrapping_add(1);
                true
            },
            &mut taken,
        )
        .is_err();
    let wanted = if is_refused { (9, 0, 0) } else { (4, 5, 5) };
    ((arena.len(), taken.len(), asked) == wanted).then_some(is_refused)
}

/// Splits nine entries at the fifth, as [`refuses_to_take`].
fn refuses_to_split<'h>(heap: &'h LocalHeap, arena: &mut OnHeap<'h>, units: usize) -> Option<bool> {
    let _block = leave(heap, units)?;
    let is_refused = arena.split_off(&4).is_err();
    (count(arena) == Some(9) || !is_refused).then_some(is_refused)
}

/// Whether five entries are split off at the fifth.
fn is_split(arena: &mut OnHeap<'_>) -> bool {
    match arena.split_off(&4) {
        Ok(moved) => moved.len() == 5,
        Err(_) => false,
    }
}

/// Splits nine entries at the fifth, as [`takes`].
fn splits(alloc: Global, heap: &LocalHeap, units: usize) -> Option<bool> {
    let mut arena = filled(alloc, heap, 9)?;
    let was_refused = refuses_to_split(heap, &mut arena, units);
    let is_done = was_refused == Some(false) || is_split(&mut arena);
    if is_done && count(&arena) == Some(4) {
        was_refused
    } else {
        None
    }
}

/// Takes five entries in behind four, as [`refuses_to_take`].
fn refuses_to_append<'h>(
    heap: &'h LocalHeap,
    arena: &mut OnHeap<'h>,
    other: &mut Numbers,
    units: usize,
) -> Option<bool> {
    let _block = leave(heap, units)?;
    let is_refused = arena.append(other).is_err();
    let is_kept = (count(arena), other.len()) == (Some(4), 5);
    (is_kept || !is_refused).then_some(is_refused)
}

/// Takes these five entries in behind four, as [`takes`].
fn appends_to_four(
    alloc: Global,
    heap: &LocalHeap,
    other: &mut Numbers,
    units: usize,
) -> Option<bool> {
    let mut arena = filled(alloc, heap, 4)?;
    let was_refused = refuses_to_append(heap, &mut arena, other, units);
    let is_done = arena.append(other).is_ok();
    if is_done && (count(&arena), other.len()) == (Some(9), 0) {
        was_refused
    } else {
        None
    }
}

/// Takes five entries in behind four, as [`takes`].
fn appends(alloc: Global, heap: &LocalHeap, units: usize) -> Option<bool> {
    appends_to_four(alloc, heap, &mut rising_arena(alloc, 4)?, units)
}

/// Clones nine entries, as [`takes`].
fn clones(alloc: Global, heap: &LocalHeap, units: usize) -> Option<bool> {
    let arena = filled(alloc, heap, 9)?;
    let rest = leave(heap, units)?;
    let was_refused = arena.clone().is_err();
    drop(rest);
    let clone = arena.clone().ok()?;
    (count(&clone) == Some(9) && count(&arena) == Some(9)).then_some(was_refused)
}

/// Makes a call where so much of a heap is left.
fn was_refused(alloc: Global, heap: &LocalHeap, call: Move, units: usize) -> Option<bool> {
    match call {
        Move::Extract => extracts(alloc, heap, units),
        Move::Split => splits(alloc, heap, units),
        Move::Append => appends(alloc, heap, units),
        Move::Clone => clones(alloc, heap, units),
        _ => takes(alloc, heap, call, units),
    }
}

/// The least room, if any below 256 units, at which a call is not refused memory, where it is refused at all lesser ones.
fn least_room(alloc: Global, call: Move) -> Option<usize> {
    let heap = new_heap(alloc)?;
    for units in 0usize..256 {
        if !was_refused(alloc, &heap, call, units)? {
            return Some(units);
        }
    }
    None
}

#[test]
fn entries_stay_if_memory_for_them_is_refused(rt: HostRuntime) {
    // five pairs of 16 bytes
    assert_eq!(rt; least_room(rt.alloc(), Move::Pop), Some(5));
    assert_eq!(rt; least_room(rt.alloc(), Move::Drain), Some(5));
    for call in [Move::Extract, Move::Split, Move::Append, Move::Clone] {
        let least = least_room(rt.alloc(), call).expect(&rt, "the right answers");
        assert!(rt; least > 5);
    }
}
