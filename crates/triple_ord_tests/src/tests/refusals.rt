//! Arenas on a nearly full heap: a failed call changes nothing, and succeeds when it is made again with memory.
mod clones;
mod entries;
mod growths;
mod support;

use linked_list_allocator::LocalHeap;
use std::alloc::Global;
use std::process::Abort;
use support::{OnHeap, leave, new_heap};
use triple_ord::{BasePtr, OrdInsertionError, OrdPair};

/// Keys on a heap, each with a number.
type Numbers<'h> = OnHeap<'h, OrdPair<u64, u64>>;

/// The first text if this is so, else the second.
fn text_if(is_so: bool, first: &'static str, second: &'static str) -> &'static str {
    if is_so { first } else { second }
}

/// The key inserted at a turn. The keys below 20 each come once, not in their order.
fn key_at(turn: usize) -> u64 {
    (turn as u64).wrapping_mul(7) % 20
}

/// Inserts the key of a turn, which gets the next index. Returns whether there was memory.
fn is_put(rt: &impl Abort, a: &mut Numbers, turn: usize) -> bool {
    match a.insert(OrdPair::new(key_at(turn), 0)) {
        Ok((p, _)) => {
            assert!(rt; p.inx() as usize == turn.saturating_add(1));
            true
        }
        Err(refusal) => {
            assert!(rt; refusal == OrdInsertionError::AllocError);
            false
        }
    }
}

/// A full arena of five entries, with the keys of the first turns.
fn full<'h>(rt: &impl Abort, heap: &'h LocalHeap) -> Numbers<'h> {
    let mut a = Numbers::with_min_capacity(heap, 5).expect(rt, "memory");
    for turn in 0usize..5 {
        assert!(rt; is_put(rt, &mut a, turn));
    }
    a
}

/// What the full arena looks like.
const FULL: &str =
    "(5, 5, None, 2) P0[1](2)=(0, 0):2 P0[4](2)=(1, 0):1 P0[2](2)=(7, 0):3 P0[5](2)=(8, 0):1 P0[3](2)=(14, 0):2";

/// The calls that may request memory.
#[derive(Clone, Copy)]
enum Call {
    Insertions,
    Reserve,
    Transfer,
    Within,
    Reallocating,
    Insert,
}

/// An arena for a call: a new one for insertions, otherwise the full one.
fn arena_for<'h>(rt: &impl Abort, heap: &'h LocalHeap, call: Call) -> Numbers<'h> {
    match call {
        Call::Insertions => Numbers::new(heap),
        _ => full(rt, heap),
    }
}

/// Makes a call. Returns 0 if there was memory and 1 if there wasn't, which changes nothing. For insertions it returns the number of the
/// failed one instead of 1.
fn refusal_of<'h>(
    rt: &impl Abort,
    alloc: Global,
    call: Call,
    heap: &'h LocalHeap,
    a: &mut Numbers<'h>,
) -> usize {
    match call {
        Call::Insertions => growths::put_rest(rt, alloc, a),
        Call::Reserve => growths::reserve(rt, alloc, a),
        Call::Transfer => growths::take_over(rt, alloc, heap, a),
        Call::Within | Call::Reallocating | Call::Insert => {
            entries::put_entries(rt, alloc, call, a)
        }
    }
}

/// The same with this many units of room left.
fn refusal_in_little<'h>(
    rt: &impl Abort,
    alloc: Global,
    call: Call,
    heap: &'h LocalHeap,
    units: usize,
    a: &mut Numbers<'h>,
) -> usize {
    let _block = leave(rt, heap, units);
    refusal_of(rt, alloc, call, heap, a)
}

/// Makes a call with this many units of room left. If it fails, makes it once more with memory.
fn refusal_on(rt: &impl Abort, alloc: Global, call: Call, heap: &LocalHeap, units: usize) -> usize {
    let mut a = arena_for(rt, heap, call);
    let refusal = refusal_in_little(rt, alloc, call, heap, units, &mut a);
    assert!(rt; refusal == 0 || refusal_of(rt, alloc, call, heap, &mut a) == 0);
    refusal
}

/// Whether a call may have this outcome with some room left. An insertion requests memory when the arena is full.
fn is_answered(call: Call, refusal: usize) -> bool {
    match call {
        Call::Insertions => matches!(refusal, 0 | 1 | 5 | 9 | 17),
        Call::Within => refusal == 0,
        _ => refusal <= 1,
    }
}

/// A call fails if little room is left, and succeeds if there is enough.
fn each_request_of(rt: &impl Abort, alloc: Global, call: Call) {
    let heap = new_heap(rt, alloc);
    let mut met = [false; 21];
    for units in 0usize..400 {
        met[refusal_on(rt, alloc, call, &heap, units) % 21] = true;
    }
    for (refusal, is_met) in met.iter().enumerate() {
        assert!(rt; *is_met == is_answered(call, refusal), "{refusal}");
    }
}

#[test]
fn a_call_without_memory_changes_nothing_and_succeeds_with_it(rt: HostRuntime) {
    each_request_of(&rt, rt.alloc(), Call::Insertions);
    each_request_of(&rt, rt.alloc(), Call::Reserve);
    each_request_of(&rt, rt.alloc(), Call::Transfer);
    each_request_of(&rt, rt.alloc(), Call::Within);
    each_request_of(&rt, rt.alloc(), Call::Reallocating);
    each_request_of(&rt, rt.alloc(), Call::Insert);
}
