//! Transfers that are refused memory.
use super::support::{Letters, SCATTERED, is_listed, scattered};
use arena_base::{InvalidationOption, P0, ReallocationError};
use linked_list_allocator::LocalHeap;

/// Transfers all letters with generation 5. Returns the outcome, and how often the closure was called.
fn transfer_all(
    chain: &mut Letters<&LocalHeap>,
    source: &mut Letters,
) -> (Result<(), ReallocationError>, u8) {
    let mut calls = 0u8;
    let outcome = chain.transfer_canonical_reallocating(
        5,
        source,
        |_from: P0, taken: InvalidationOption<char>, _to: P0| {
            calls = calls.wrapping_add(1);
            taken.allow()
        },
    );
    (outcome, calls)
}

/// Returns the length, capacity and generation of a chain.
fn counts(chain: &Letters<&LocalHeap>) -> (usize, usize, u64) {
    (chain.len(), chain.capacity(), chain.generation())
}

/// Transfers three letters into a chain on a heap. Returns whether that succeeded; `None` if it failed and changed something.
fn transferred(heap: &LocalHeap, source: &mut Letters) -> Option<bool> {
    let mut chain = Letters::new(heap);
    let (outcome, calls) = transfer_all(&mut chain, source);
    let counts = (counts(&chain), calls);
    let is_right = match outcome {
        Ok(()) => counts == ((3, 3, 5), 3) && source.is_empty(),
        Err(refusal) => {
            refusal == ReallocationError::AllocError
                && counts == ((0, 0, 2), 0)
                && is_listed(source, SCATTERED)
        }
    };
    is_right.then_some(outcome.is_ok())
}

#[test]
fn a_transfer_without_memory_changes_nothing(rt: HostRuntime) {
    let mut done = 0usize;
    for units in 1..40usize {
        let heap = LocalHeap::new(rt.alloc(), 16 * units).expect(&rt, "a heap");
        let is_done = transferred(&heap, &mut scattered(rt.alloc()));
        if is_done.expect(&rt, "done, or nothing has changed") {
            done = done.saturating_add(1);
        }
    }
    assert!(rt; done > 0 && done < 39);
}
