//! Insertions by key and beside an entry.
use super::support::{Keys, has_ranks, keys};
use std::cmp::Ordering;
use triple_ord::{OrdPair, SimpleOrdArena};

/// The indexes and ranks of the keys 1 to 7, inserted in order.
const SEVEN: [(u32, u8); 7] = [(1, 1), (2, 2), (3, 1), (4, 3), (5, 1), (6, 2), (7, 1)];

#[test]
fn ascending_keys_give_a_balanced_tree(rt: HostRuntime) {
    let three = keys(rt.alloc(), &[1, 2, 3]);
    assert!(rt; has_ranks(&three, &[(1, 1), (2, 2), (3, 1)]));
    let four = keys(rt.alloc(), &[1, 2, 3, 4]);
    assert!(rt; has_ranks(&four, &[(1, 1), (2, 3), (3, 2), (4, 1)]));
    let seven = keys(rt.alloc(), &[1, 2, 3, 4, 5, 6, 7]);
    assert!(rt; has_ranks(&seven, SEVEN.as_slice()));
}

/// Inserts a key behind the entry at an index. Returns the capacity afterwards, 0 if there is no such entry.
fn capacity_behind(a: &mut Keys, index: u32, key: u64) -> usize {
    if !a.contains_inx(index) {
        return 0;
    }
    let _ = a.insert_inx_manual_unwrap(index, Ordering::Greater, OrdPair::new(key, ()));
    a.capacity()
}

#[test]
fn an_insertion_beside_an_entry_grows_a_full_arena(rt: HostRuntime) {
    let mut a: Keys = SimpleOrdArena::with_min_capacity(rt.alloc(), 1).expect(&rt, "memory");
    let _ = a.insert(OrdPair::new(1, ())).expect(&rt, "memory");
    for (index, capacity) in &[(1u32, 4usize), (2, 4), (3, 4), (4, 8)] {
        assert!(rt; capacity_behind(&mut a, *index, 9) == *capacity);
    }
    assert!(rt; a.len() == 5);
}
