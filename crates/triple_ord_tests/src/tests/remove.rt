//! Removals, observed through the nodes.
use super::support::{Keys, SmallKeys, at, five, has_keys, has_ranks, keys, remove_key, write_key};
use arena_base::{BasePtr, InvalidationResult, P8, P32};
use linked_list_allocator::LocalHeap;
use std::alloc::Global;
use triple_ord::{OrdInsertionError, OrdPair, SimpleOrdArena};

#[test]
fn the_predecessor_takes_the_place_of_a_removed_root(rt: HostRuntime) {
    let mut a = five(rt.alloc());
    assert!(rt; remove_key(&mut a, 50) == Some(2));
    assert!(rt; has_ranks(&a, &[(5, 1), (2, 3), (4, 1), (3, 2)]));
    assert!(rt; a.remove(at(1)) == InvalidationResult::InvalidPtr);
    assert!(rt; a.generation() == 3);
}

#[test]
fn a_removal_is_repaired_by_a_single_or_double_rotation(rt: HostRuntime) {
    let mut ascending = keys(rt.alloc(), &[1, 2, 3, 4]);
    assert!(rt; remove_key(&mut ascending, 1) == Some(2));
    assert!(rt; has_ranks(&ascending, &[(2, 1), (3, 3), (4, 1)]));
    let mut other = keys(rt.alloc(), &[1, 2, 4, 3]);
    assert!(rt; remove_key(&mut other, 1).is_some());
    assert!(rt; has_ranks(&other, &[(2, 1), (4, 3), (3, 1)]));
}

/// Keys of which removing the first gives nine other entries a new parent.
const NINE: [u64; 21] = [
    14, 5, 19, 3, 11, 17, 21, 2, 4, 7, 13, 16, 18, 20, 1, 6, 9, 12, 15, 8, 10,
];

#[test]
fn one_removal_can_move_nine_parents(rt: HostRuntime) {
    let mut a = keys(rt.alloc(), NINE.as_slice());
    assert!(rt; remove_key(&mut a, 14) == Some(9));
}

/// The keys 1, 9 and 3 in this order, at the indexes 1, 2 and 3.
#[test]
fn an_entry_is_removed_though_the_keys_are_out_of_order(rt: HostRuntime) {
    let mut a = keys(rt.alloc(), &[1, 2, 3]);
    write_key(&mut a, at(2), 9);
    let (found, visits) = a.find_key_counted(&3);
    assert!(rt; found.is_none() && visits.count() == 2);
    assert!(rt; has_keys(&a, &[1, 9, 3]));
    assert!(rt; a.remove(at(1)) == InvalidationResult::Success(OrdPair::new(1, ())));
    assert!(rt; has_ranks(&a, &[(2, 2), (3, 1)]));
}

/// Takes all the room left in a heap.
fn drained(alloc: Global, heap: &LocalHeap) -> Vec<Vec<u8, &LocalHeap>> {
    let mut blocks = Vec::new(alloc);
    for size in (1..4096usize).rev() {
        if let Ok(block) = Vec::with_capacity(heap, size) {
            let _ = blocks.push(block);
        }
    }
    blocks
}

/// Inserts a key. Returns the error, if any.
fn refusal_of(a: &mut Keys<&LocalHeap>, key: u64) -> Option<OrdInsertionError> {
    a.insert(OrdPair::new(key, ())).err()
}

/// Removes the entry of a key, and returns whether there was one.
fn is_removed(a: &mut Keys<&LocalHeap>, key: u64) -> bool {
    match a.find_key(&key) {
        Some(p) => a.remove(p).allow().is_some(),
        None => false,
    }
}

/// Gives the entry of a key a new pointer, and returns whether there was one.
fn is_renewed(a: &mut Keys<&LocalHeap>, key: u64) -> bool {
    match a.find_key(&key) {
        Some(p) => a.invalidate(p).allow().is_some(),
        None => false,
    }
}

/// Eight keys on a heap, in a full arena.
fn eight(heap: &LocalHeap) -> Keys<&LocalHeap> {
    let mut a = SimpleOrdArena::new(heap);
    for key in &[50u64, 30, 70, 60, 10, 20, 90, 80] {
        let _ = refusal_of(&mut a, *key);
    }
    a
}

#[test]
fn removals_take_no_memory(rt: HostRuntime) {
    let heap = LocalHeap::new(rt.alloc(), 4096).expect(&rt, "a heap");
    let mut a = eight(&heap);
    let _blocks = drained(rt.alloc(), &heap);
    assert!(rt; refusal_of(&mut a, 40) == Some(OrdInsertionError::AllocError));
    for key in &[50u64, 30, 70] {
        assert!(rt; is_removed(&mut a, *key));
    }
    assert!(rt; is_renewed(&mut a, 60) && has_keys(&a, &[10, 20, 60, 80, 90]));
    assert!(rt; refusal_of(&mut a, 40).is_none());
    a.clear().allow();
    assert!(rt; (a.len(), a.capacity()) == (0, 8));
}

/// Inserts a key. Returns its pointer, or the invalid one on `Err`.
fn put<P: BasePtr>(a: &mut SimpleOrdArena<P, OrdPair<u64, ()>>, key: u64) -> P {
    match a.insert(OrdPair::new(key, ())) {
        Ok((p, _)) => p,
        Err(_) => P::invalid(),
    }
}

/// Removes an entry, and returns whether the generation overflows, `None` if there is no entry.
fn begins_again<P: BasePtr>(a: &mut SimpleOrdArena<P, OrdPair<u64, ()>>, p: P) -> Option<bool> {
    match a.remove(p) {
        InvalidationResult::Success(_) => Some(false),
        InvalidationResult::GenerationOverflow(_) => Some(true),
        InvalidationResult::InvalidPtr => None,
    }
}

/// Whether the first pointer names an entry and the others don't.
fn have_ended(a: &SmallKeys, kept: P8, ended: &[P8]) -> bool {
    for p in ended {
        if a.contains(*p) {
            return false;
        }
    }
    a.contains(kept)
}

#[test]
fn removed_pointers_stay_invalid_until_the_generation_overflows(rt: HostRuntime) {
    let mut a = SmallKeys::new(rt.alloc());
    let kept = put(&mut a, 0);
    let mut ended = Vec::new(rt.alloc());
    for n in 1u64..255 {
        let p = put(&mut a, n);
        assert!(rt; begins_again(&mut a, p) == Some(n == 254));
        ended.push(p).expect(&rt, "memory");
        assert!(rt; have_ended(&a, kept, ended.as_slice()));
    }
    assert!(rt; (a.generation(), a.len()) == (2, 1));
    // the next entry has the index and the generation of the first stale pointer
    assert!(rt; ended.first() == Some(&put(&mut a, 1)));
}

#[test]
fn generations_of_32_bits_begin_again_after_the_greatest(rt: HostRuntime) {
    let mut a: SimpleOrdArena<P32, OrdPair<u64, ()>> = SimpleOrdArena::new(rt.alloc());
    let first = put(&mut a, 50);
    let kept = put(&mut a, 30);
    assert!(rt; begins_again(&mut a, first) == Some(false));
    a.set_generation(u32::MAX);
    let last = put(&mut a, 70);
    assert!(rt; (last.inx(), last.generation()) == (1, u32::MAX));
    assert!(rt; !a.contains(first) && a.contains(kept));
    assert!(rt; begins_again(&mut a, last) == Some(true));
    // the next entry has the index and the generation of the first pointer
    assert!(rt; put(&mut a, 60) == first);
    assert!(rt; a.find_key(&60) == Some(first));
}
