//! Growing by twenty insertions, by a reservation, and by a transfer.
use super::support::{look, looks_like};
use super::{FULL, Numbers, is_put, text_if};
use linked_list_allocator::LocalHeap;
use std::alloc::Global;
use std::process::Abort;
use triple_ord::{InvalidationOption, OrdPair, P0, ReallocationError};

/// Inserts the keys of the remaining turns up to the first that fails, which changes nothing. Returns its number, 0 if there is none.
pub(super) fn put_rest(rt: &impl Abort, alloc: Global, a: &mut Numbers) -> usize {
    for turn in a.len()..20 {
        let before = look(rt, alloc, a);
        if !is_put(rt, a, turn) {
            looks_like(rt, alloc, a, before.as_str());
            return turn.saturating_add(1);
        }
    }
    0
}

/// Whether a call failed for lack of memory.
fn is_refusal(outcome: Result<(), ReallocationError>) -> bool {
    matches!(outcome, Err(ReallocationError::AllocError))
}

/// The full arena with room for ten.
const TEN: &str =
    "(5, 10, None, 2) P0[1](2)=(0, 0):2 P0[4](2)=(1, 0):1 P0[2](2)=(7, 0):3 P0[5](2)=(8, 0):1 P0[3](2)=(14, 0):2";

/// Reserves room for ten entries.
pub(super) fn reserve(rt: &impl Abort, alloc: Global, full: &mut Numbers) -> usize {
    let is_refused = is_refusal(full.reallocate_min_capacity(10));
    looks_like(rt, alloc, full, text_if(is_refused, FULL, TEN));
    is_refused as usize
}

/// Transfers all entries of the source, each value raised by one. Returns also how often the closure was called.
fn transfer(a: &mut Numbers, source: &mut Numbers) -> (Result<(), ReallocationError>, u64) {
    let mut calls = 0u64;
    let outcome = a.transfer_canonical_reallocating(
        9,
        source,
        |_old: P0, taken: InvalidationOption<OrdPair<u64, u64>>, _new: P0| {
            calls = calls.wrapping_add(1);
            let (k, v) = taken.allow().into_k_v();
            OrdPair::new(k, v.wrapping_add(1))
        },
    );
    (outcome, calls)
}

/// What a new arena looks like, and one after a transfer of five entries.
const NEW: &str = "(0, 0, None, 2)";

const TAKEN: &str =
    "(5, 5, None, 9) P0[1](9)=(0, 1):1 P0[2](9)=(1, 1):2 P0[3](9)=(7, 1):3 P0[4](9)=(8, 1):1 P0[5](9)=(14, 1):2";

/// What the source of these entries looks like.
const LEFT: &str = "(0, 5, None, 7)";

/// Transfers five keys to an arena.
fn take_into(rt: &impl Abort, alloc: Global, a: &mut Numbers, full: &mut Numbers) -> bool {
    let (outcome, calls) = transfer(a, full);
    let is_refused = is_refusal(outcome);
    looks_like(rt, alloc, a, text_if(is_refused, NEW, TAKEN));
    looks_like(rt, alloc, full, text_if(is_refused, FULL, LEFT));
    assert!(rt; calls == if is_refused { 0 } else { 5 });
    is_refused
}

/// Transfers five keys to a new arena.
pub(super) fn take_over<'h>(
    rt: &impl Abort,
    alloc: Global,
    heap: &'h LocalHeap,
    full: &mut Numbers<'h>,
) -> usize {
    let mut a = Numbers::new(heap);
    take_into(rt, alloc, &mut a, full) as usize
}
