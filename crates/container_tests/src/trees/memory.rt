//! Refused memory, and calls that take none.
use super::support::{Keys, Place, insert_at, place_of, places, toggle};
use arena_base::{BasePtr, InsertionError, P0};
use linked_list_allocator::LocalHeap;
use std::alloc::Global;

type OnHeap<'h> = Keys<&'h LocalHeap>;

/// Returns whether a tree still has these places and its first generation, and is full.
fn is_full_of(alloc: Global, tree: &OnHeap, old: &[Place]) -> bool {
    (tree.chain().capacity(), tree.chain().generation()) == (old.len(), 2)
        && places(alloc, tree).as_slice() == old
}

/// Inserts a key. Returns whether that succeeded, or memory was refused and nothing changed.
fn is_inserted_or_refused(alloc: Global, tree: &mut OnHeap, key: u8) -> bool {
    let old = places(alloc, tree);
    let is_listed = old.len() == tree.len();
    let is_right = match insert_at(tree, place_of(&old, key), key) {
        Some(Ok(_)) => true,
        Some(Err(refusal)) => {
            refusal == InsertionError::AllocError && is_full_of(alloc, tree, &old)
        }
        None => false,
    };
    is_listed && is_right
}

/// Inserts nine keys on a heap, as far as memory allows. Returns how many are there; `None` if one is neither inserted nor refused.
fn inserted(alloc: Global, heap: &LocalHeap) -> Option<usize> {
    let mut tree = Keys::new(heap);
    let mut is_right = true;
    for key in 1..=9 {
        is_right = is_inserted_or_refused(alloc, &mut tree, key) && is_right;
    }
    is_right.then_some(tree.len())
}

#[test]
fn a_refused_growth_keeps_every_entry(rt: HostRuntime) {
    let mut is_met = [false; 10];
    for units in 1..120 {
        let heap = LocalHeap::new(rt.alloc(), 16 * units).expect(&rt, "a heap");
        let len = inserted(rt.alloc(), &heap).expect(&rt, "inserted or refused");
        if let Some(is_met) = is_met.get_mut(len) {
            *is_met = true;
        }
    }
    // each growth was refused in turn: from 0, from 4, from 8
    assert!(&rt; is_met[0] && is_met[4] && is_met[8] && is_met[9]);
}

/// Inserts keys, or removes them. Returns whether all succeeded.
fn toggle_all(alloc: Global, tree: &mut OnHeap, keys: &[u8]) -> bool {
    let mut is_done = true;
    for key in keys {
        let old = places(alloc, tree);
        is_done = toggle(tree, &old, *key) && is_done;
    }
    is_done
}

/// Takes all that is left of a heap, in small blocks. Returns whether nothing is left.
fn drain<'h>(heap: &'h LocalHeap, taken: &mut Vec<Vec<u8, &'h LocalHeap>>) -> bool {
    for _ in 0..4096 {
        if let Ok(room) = Vec::with_capacity(heap, 1) {
            let _ = taken.push(room);
        }
    }
    Vec::<u8, &LocalHeap>::with_capacity(heap, 1).is_err()
}

/// Ends entries in every possible way. Returns whether all succeeded.
fn end_entries(alloc: Global, tree: &mut OnHeap) -> bool {
    let is_done = toggle_all(alloc, tree, &[4, 8, 1, 9]);
    let first = tree.chain().first().unwrap_or(P0::invalid());
    let is_renewed = tree.invalidate(first).allow().is_some() && tree.len() == 5;
    let _ = tree.clear();
    is_done && is_renewed && tree.is_empty()
}

#[test]
fn removals_invalidations_and_clear_take_no_memory(rt: HostRuntime) {
    let heap = LocalHeap::new(rt.alloc(), 4096).expect(&rt, "a heap");
    let mut tree = Keys::with_min_capacity(&heap, 3).expect(&rt, "memory");
    assert!(&rt; tree.reallocate_min_capacity(5).is_ok());
    assert!(&rt; toggle_all(rt.alloc(), &mut tree, &[1, 2, 3, 4, 5, 6, 7, 8, 9]));
    let mut taken = Vec::new(rt.alloc());
    assert!(&rt; drain(&heap, &mut taken));
    assert!(&rt; end_entries(rt.alloc(), &mut tree));
}
